//! A station that listens for programs, and waits until one may have to be served.

use bsc_clients::{Clients, ClientsError, Direction, Reached, ServedAt, Stream, reach};
use bsc_serving::Programs;
use mio::unix::SourceFd;
use mio::{Events, Interest, Poll, Token};
use std::alloc::{AllocError, Global};
use std::io::{ErrorKind, Read, Write};
use std::net::{SocketAddr, TcpStream};
use std::test::Fail;
use std::time::Duration;

/// The sockets of programs, and the wait of the station for their descriptor.
#[derive(Drop)]
pub(crate) struct Station<'a> {
    pub(crate) clients: Clients<'a, HostRuntime>,
    poll: Poll,
    events: Events,
}

/// A program that is connected.
pub(crate) type Program = Reached<Direction<TcpStream>, Direction<TcpStream>>;

/// An address at which a station listens, which anyone may reach or not.
pub(crate) fn at(address: &str, anyone: bool) -> ServedAt<'_> {
    ServedAt::Address { address, anyone }
}

impl<'a> Station<'a> {
    /// A station that listens there.
    pub(crate) fn listens(rt: &'a HostRuntime, at: ServedAt<'_>) -> Result<Station<'a>, Fail> {
        let clients = Clients::listen(rt, rt.alloc(), at)?;
        let poll = Poll::new(rt)?;
        let fd = clients.descriptor();
        poll.registry()
            .register(&mut SourceFd(&fd), Token(7), Interest::READABLE)?;
        let events = Events::with_capacity(rt.alloc(), 8)?;
        Ok(Station {
            clients,
            poll,
            events,
        })
    }

    /// Whether the descriptor is reported within this time. If it is, the station asks what has
    /// happened.
    pub(crate) fn is_called_within(&mut self, time: Duration) -> Result<bool, Fail> {
        self.poll.poll(&mut self.events, Some(time))?;
        let is_called = !self.events.is_empty();
        if is_called {
            self.clients.ask();
        }
        Ok(is_called)
    }
}

/// Connects a program to a station that listens there, at the path or else at the address.
pub(crate) fn connects(
    rt: &HostRuntime,
    address: Option<SocketAddr>,
    path: &str,
) -> Result<Program, Fail> {
    let patience = Duration::from_secs(10);
    let Some(address) = address else {
        return Ok(reach(rt, rt.alloc(), ServedAt::Path { path }, patience)?);
    };
    let text = text_of(rt.alloc(), address)?;
    Ok(reach(rt, rt.alloc(), at(&text, true), patience)?)
}

/// Why a program does not reach a station there, if it does not.
pub(crate) fn unreached(rt: &HostRuntime, at: ServedAt<'_>) -> Option<ClientsError> {
    reach(rt, rt.alloc(), at, Duration::from_secs(10)).err()
}

/// Why a station cannot listen there, if it cannot.
pub(crate) fn refused(rt: &HostRuntime, at: ServedAt<'_>) -> Option<ClientsError> {
    Clients::listen(rt, rt.alloc(), at).err()
}

/// The text of an address.
pub(crate) fn text_of(alloc: Global, address: SocketAddr) -> Result<String, AllocError> {
    format!(in alloc; "{address}")
}

/// Sends these octets, and returns whether they were taken.
pub(crate) fn sends<W: Write>(stream: &mut W, octets: &[u8]) -> bool {
    stream.write_all(octets).is_ok() && stream.flush().is_ok()
}

/// Whether a read finds nothing yet.
pub(crate) fn hears_nothing(stream: &mut Stream) -> bool {
    match stream.read(&mut [0u8; 4]) {
        Ok(_) => false,
        Err(error) => error.kind() == ErrorKind::WouldBlock,
    }
}

/// Whether a read gives these octets, 32 at most.
pub(crate) fn hears<R: Read>(stream: &mut R, octets: &[u8]) -> bool {
    let mut buffer = [0u8; 32];
    match stream.read(&mut buffer) {
        Ok(count) => buffer.get(..count) == Some(octets),
        Err(_) => false,
    }
}

/// Why a write fails at last, when nobody reads what is written.
pub(crate) fn fails_at_last<W: Write>(stream: &mut W) -> Option<ErrorKind> {
    for _ in 0..100_000u32 {
        if let Err(error) = stream.write(&[b'x'; 4_096]) {
            return Some(error.kind());
        }
    }
    None
}
