//! An address at which peers connect.

ghost use Rattle.std.specs.Prelude.{◌≡◌, IfErr};
ghost use Rattle.bsc_sockets.specs.Listening.{IsBindError, bind_error};

use crate::SocketsError;
use mio::net::TcpListener;
use std::io::ErrorKind;
use std::net::{Net, SocketAddr, ToSocketAddrs};

/// An address that is bound, at which the system accepts peers.
#[derive(Drop)]
pub struct Listening {
    pub(crate) listener: TcpListener,
}

impl Listening {
    /// Listens at this address, a host and a port such as `127.0.0.1:2780`; of a host with several
    /// addresses, at the first that can be bound. With port 0 the system chooses a port. Fails with
    /// `Address` if the text is not an address. If no address can be bound, what is told is why the
    /// last of them cannot: `AddressInUse` if another process listens there, `NotPermitted` if this
    /// user may not, `NotHere` if it is not of this machine, else `CannotListen`.
    pub fn bind<N: Net>(runtime: &N, address: &str) -> Result<Listening, SocketsError>
        ensures { IfErr result IsBindError }
    {
        let mut why = SocketsError::Address;
        'addresses: for address in addresses(runtime, address)? {
            match TcpListener::bind(runtime, address) {
                Ok(listener) => return Ok(Listening { listener }),
                Err(error) => why = unbound(error.kind()),
            }
        }
        Err(why)
    }

    /// Returns the address and port at which it listens. Fails with `Sockets` if the system does
    /// not tell them.
    pub fn address(&self) -> Result<SocketAddr, SocketsError>
        ensures { IfErr result (λ why. why ≡ SocketsError.Sockets) }
    {
        Ok(self.listener.local_addr()?)
    }
}

/// Returns why an address cannot be bound, if that fails with an error of this kind.
fn unbound(kind: ErrorKind) -> SocketsError
    ensures error { result ≡ bind_error kind }
    ensures fault { IsBindError result }
{
    match kind {
        ErrorKind::AddrInUse => SocketsError::AddressInUse,
        ErrorKind::PermissionDenied => SocketsError::NotPermitted,
        ErrorKind::AddrNotAvailable => SocketsError::NotHere,
        _ => SocketsError::CannotListen,
    }
}

/// Returns the addresses that the text names.
pub(crate) fn addresses<N: Net>(
    runtime: &N,
    address: &str,
) -> Result<std::net::HostAddrs, SocketsError>
    ensures { IfErr result (λ why. why ≡ SocketsError.Address) }
{
    match address.to_socket_addrs(runtime) {
        Ok(addresses) => Ok(addresses),
        Err(_) => Err(SocketsError::Address),
    }
}
