//! Where a station listens for programs.

ghost use Rattle.std.specs.Prelude.{◌≡◌, ◌↔◌, false, IfErr, IfOk, IsTrue};
ghost use Rattle.std.specs.List.{All};
ghost use Rattle.bsc_clients.specs.Listening.{IsAddressError, IsBindError, IsLocal, IsNameError};
ghost use Rattle.bsc_clients.specs.Listening.{bind_error};

use crate::ClientsError;
use crate::stream::Stream;
use mio::net::{TcpListener, UnixListener};
use mio::{Interest, Registry, Token};
use std::alloc::Allocator;
use std::io;
use std::io::ErrorKind;
use std::net::{Net, SocketAddr, ToSocketAddrs};

/// A socket at which programs connect.
#[derive(Drop)]
pub(crate) enum Listener {
    /// Over TCP.
    Tcp { listener: TcpListener },

    /// Over a Unix socket.
    Unix { listener: UnixListener },
}

impl Listener {
    /// Takes the next program that has connected. Fails with `WouldBlock` if nobody is waiting.
    pub(crate) fn accept(&self) -> io::Result<Stream> {
        match self {
            Listener::Tcp { listener } => {
                let (stream, _) = listener.accept()?;
                let _ = stream.set_nodelay(true);
                Ok(Stream::Tcp { stream })
            }
            Listener::Unix { listener } => {
                let (stream, _) = listener.accept()?;
                Ok(Stream::Unix { stream })
            }
        }
    }

    /// Has the system report this listener under this token.
    pub(crate) fn register(&mut self, registry: &Registry, token: usize) -> io::Result<()> {
        match self {
            Listener::Tcp { listener } => {
                registry.register(listener, Token(token), Interest::READABLE)
            }
            Listener::Unix { listener } => {
                registry.register(listener, Token(token), Interest::READABLE)
            }
        }
    }

    /// Returns the address and port at which it listens; None if that is a path, or the system does
    /// not tell.
    pub(crate) fn address(&self) -> Option<SocketAddr> {
        match self {
            Listener::Tcp { listener } => listener.local_addr().ok(),
            Listener::Unix { .. } => None,
        }
    }
}

/// Listens at this address; of a host with several addresses, at the first that can be bound.
/// Returns that address too. Unless anyone may reach the station, all must be loopback addresses.
pub(crate) fn bind<N: Net, A: Allocator>(
    runtime: &N,
    alloc: A,
    address: &str,
    anyone: bool,
) -> Result<(TcpListener, SocketAddr), ClientsError>
    ensures local { anyone ≡ false → IfOk result (λ bound. IsLocal bound.1) }
    ensures failed { IfErr result (IsAddressError anyone) }
{
    let hosts = addresses(runtime, alloc, address)?;
    if !anyone && !are_local(&hosts) {
        return Err(ClientsError::NotLoopback);
    }
    bind_first(runtime, &hosts)
}

/// Whether all these addresses are loopback addresses.
fn are_local(hosts: &[SocketAddr]) -> bool
    ensures { IsTrue result ↔ All IsLocal hosts.now }
{
    hosts.iter().all(|host| host.ip().is_loopback())
}

/// Listens at the first of these addresses that can be bound.
fn bind_first<N: Net>(
    runtime: &N,
    hosts: &[SocketAddr],
) -> Result<(TcpListener, SocketAddr), ClientsError>
    ensures local { All IsLocal hosts.now → IfOk result (λ bound. IsLocal bound.1) }
    ensures failed { IfErr result IsBindError }
{
    let mut why = ClientsError::Address;
    for host in hosts {
        match TcpListener::bind(runtime, *host) {
            Ok(listener) => return Ok((listener, *host)),
            Err(error) => why = unbound(error.kind()),
        }
    }
    Err(why)
}

/// Returns why an address cannot be bound, if that fails with an error of this kind.
fn unbound(kind: ErrorKind) -> ClientsError
    ensures error { result ≡ bind_error kind }
    ensures fault { IsBindError result }
{
    match kind {
        ErrorKind::AddrInUse => ClientsError::InUse,
        ErrorKind::PermissionDenied => ClientsError::NotPermitted,
        ErrorKind::AddrNotAvailable => ClientsError::NotHere,
        _ => ClientsError::CannotListen,
    }
}

/// Returns the addresses that the text names, in order.
pub(crate) fn addresses<N: Net, A: Allocator>(
    runtime: &N,
    alloc: A,
    address: &str,
) -> Result<Vec<SocketAddr, A>, ClientsError>
    ensures { IfErr result IsNameError }
{
    let Ok(hosts) = address.to_socket_addrs(runtime) else {
        return Err(ClientsError::Address);
    };
    let mut all = Vec::new(alloc);
    'hosts: for host in hosts {
        all.push(host)?;
    }
    Ok(all)
}
