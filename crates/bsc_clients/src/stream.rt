//! The connection of a program.

use mio::net::{TcpStream, UnixStream};
use mio::{Interest, Registry, Token};
use std::io;
use std::io::{Read, Write};

/// The connection of a program to the station. Neither a read nor a write waits: each fails with
/// `WouldBlock` where it would, and a read returns 0 if the program has ended the connection.
#[derive(Drop)]
pub enum Stream {
    /// Over TCP.
    Tcp { stream: TcpStream },

    /// Over a Unix socket.
    Unix { stream: UnixStream },
}

impl Read for Stream {
    fn read(&mut self, buffer: &mut [u8]) -> io::Result<usize> {
        match self {
            Stream::Tcp { stream } => stream.read(buffer),
            Stream::Unix { stream } => stream.read(buffer),
        }
    }
}

impl Write for Stream {
    fn write(&mut self, octets: &[u8]) -> io::Result<usize> {
        match self {
            Stream::Tcp { stream } => stream.write(octets),
            Stream::Unix { stream } => stream.write(octets),
        }
    }

    fn flush(&mut self) -> io::Result<()> {
        Ok(())
    }
}

impl Stream {
    /// Has the system report this connection as that of the program at this place.
    pub(crate) fn register(&mut self, registry: &Registry, place: usize) -> io::Result<()> {
        let interests = Interest::READABLE | Interest::WRITABLE;
        match self {
            Stream::Tcp { stream } => registry.register(stream, Token(place), interests),
            Stream::Unix { stream } => registry.register(stream, Token(place), interests),
        }
    }
}
