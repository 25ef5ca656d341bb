//! The connection of a program to a station.

ghost use Rattle.std.specs.Prelude.{◌≡◌, IfErr};
ghost use Rattle.bsc_clients.specs.Listening.{IsConnectError, IsReachError, connect_error};

use crate::listener::addresses;
use crate::{ClientsError, ServedAt};
use std::alloc::Global;
use std::io;
use std::io::{ErrorKind, Read, Write};
use std::net::{Net, OpenStream, SocketAddr, TcpStream};
use std::os::unix::net::UnixStream;
use std::time::Duration;

/// One direction of the connection of a program to a station. A read waits until something has
/// arrived, and a write until the system has room; neither has a time limit. A read returns 0 if
/// the station has ended the connection.
#[derive(Drop)]
pub enum Direction<S> {
    /// Over TCP.
    Tcp { stream: S },

    /// Over a Unix socket.
    Unix { stream: UnixStream },
}

/// The connection of a program to a station, which ends when both of its directions are dropped.
#[derive(Drop)]
pub struct Reached<I: Drop, O: Drop> {
    /// What the program hears of the station.
    pub heard: I,

    /// What it says to the station.
    pub said: O,
}

impl<S: Read> Read for Direction<S> {
    fn read(&mut self, buffer: &mut [u8]) -> io::Result<usize> {
        match self {
            Direction::Tcp { stream } => stream.read(buffer),
            Direction::Unix { stream } => stream.read(buffer),
        }
    }
}

impl<S: Write> Write for Direction<S> {
    fn write(&mut self, octets: &[u8]) -> io::Result<usize> {
        match self {
            Direction::Tcp { stream } => stream.write(octets),
            Direction::Unix { stream } => stream.write(octets),
        }
    }

    fn flush(&mut self) -> io::Result<()> {
        match self {
            Direction::Tcp { stream } => stream.flush(),
            Direction::Unix { stream } => stream.flush(),
        }
    }
}

/// Connects to the station that serves there; of a host with several addresses, to the first that
/// answers within `patience`. Whether anyone may reach the station is not asked.
///
/// Fails with `Address` if the text is not an address, with `NotPermitted` if the user of this
/// process may not connect at the path, with `NobodyThere` if no station answers, with `Sockets` if the system refuses what else is needed, and with `Memory` if memory cannot be
/// allocated.
pub fn reach<N: Net>(
    runtime: &N,
    alloc: Global,
    at: ServedAt<'_>,
    patience: Duration,
) -> Result<Reached<Direction<N::Stream>, Direction<N::Stream>>, ClientsError>
    ensures failed { IfErr result (IsReachError at.entry) }
{
    match at {
        ServedAt::Address { address, .. } => {
            let hosts = addresses(runtime, alloc, address)?;
            let heard = first_answer(runtime, &hosts, patience)?;
            heard.set_nodelay(true)?;
            let said = heard.try_clone()?;
            Ok(Reached {
                heard: Direction::Tcp { stream: heard },
                said: Direction::Tcp { stream: said },
            })
        }
        ServedAt::Path { path } => {
            let heard = match UnixStream::connect(runtime, path) {
                Ok(heard) => heard,
                Err(error) => return Err(unconnected(error.kind())),
            };
            let said = heard.try_clone()?;
            Ok(Reached {
                heard: Direction::Unix { stream: heard },
                said: Direction::Unix { stream: said },
            })
        }
    }
}

/// Returns why a program cannot connect at a path, if that fails with an error of this kind.
fn unconnected(kind: ErrorKind) -> ClientsError
    ensures { result ≡ connect_error kind }
{
    match kind {
        ErrorKind::PermissionDenied => ClientsError::NotPermitted,
        _ => ClientsError::NobodyThere,
    }
}

/// Returns a stream to the first of these addresses that answers.
fn first_answer<N: Net>(
    runtime: &N,
    hosts: &[SocketAddr],
    patience: Duration,
) -> Result<N::Stream, ClientsError>
    ensures { IfErr result IsConnectError }
{
    for host in hosts {
        if let Ok(stream) = TcpStream::connect_timeout(runtime, host, patience) {
            return Ok(stream);
        }
    }
    Err(ClientsError::NobodyThere)
}
