//! The two directions of a connection.

ghost use Rattle.std.specs.Prelude.{◌≡◌, IfErr, IfOk};
ghost use Rattle.std.specs.Io.{WritesAtMost};
ghost use Rattle.bsc_sockets.specs.Listening.{IsDenied};

use crate::SocketsError;
use crate::time_limit::TimeLimit;
use crate::writable::Writable;
use mio::net::TcpStream;
use std::alloc::Allocator;
use std::io::{ErrorKind, Read, Write};
use std::net::Net;
use std::time::{Clock, Duration};
use std::{io, net};

/// What arrives on a connection. A read does not wait: it fails with `WouldBlock` if there is
/// nothing to read, and returns 0 if the peer has ended the connection.
#[derive(Drop)]
pub struct Reading {
    pub(crate) stream: TcpStream,
}

impl Reading {
    /// Whether the peer has ended the connection, or it was lost, and nothing is left to read.
    pub(crate) fn is_gone(&self) -> bool {
        match self.stream.peek(&mut [0]) {
            Ok(count) => count == 0,
            Err(error) => !matches!(error.kind(), ErrorKind::WouldBlock | ErrorKind::Interrupted),
        }
    }
}

impl Read for Reading {
    fn read(&mut self, buffer: &mut [u8]) -> io::Result<usize> {
        self.stream.read(buffer)
    }
}

/// What is sent on a connection. If the system has no room for octets, a write waits until it has,
/// and fails with `TimedOut` when the time-out has passed.
#[derive(Drop)]
pub struct Writing<'a, C: Clock, A: Allocator> {
    pub(crate) stream: TcpStream,
    pub(crate) writable: Writable<A>,
    pub(crate) clock: &'a C,
    pub(crate) time_out: Duration,
}

impl<'a, C: Clock, A: Allocator> Write for Writing<'a, C, A> {
    fn write(&mut self, octets: &[u8]) -> io::Result<usize> {
        match self.stream.write(octets) {
            Err(error) if error.kind() == ErrorKind::WouldBlock => self.write_in_time(octets),
            written => written,
        }
    }

    fn flush(&mut self) -> io::Result<()> {
        Ok(())
    }
}

impl<'a, C: Clock, A: Allocator> Writing<'a, C, A> {
    /// Writes as soon as the system has room for some of these octets.
    fn write_in_time(&mut self, octets: &[u8]) -> io::Result<usize>
        ensures { WritesAtMost result octets.now }
    {
        let limit = TimeLimit::begin(self.clock, self.time_out)?;
        let mut left = self.time_out;
        for _ in 0..u64::MAX {
            self.writable.wait(self.clock, &mut self.stream, left)?;
            match self.stream.write(octets) {
                Err(error) if error.kind() == ErrorKind::WouldBlock => {}
                written => return written,
            }
            left = limit.left(self.clock)?;
        }
        Err(io::Error::from(ErrorKind::TimedOut))
    }
}

/// Returns the two directions of the connection of this stream.
pub(crate) fn directions<'a, N: Net + Clock, A: Allocator + Copy>(
    runtime: &'a N,
    alloc: A,
    stream: TcpStream,
    time_out: Duration,
) -> Result<(Reading, Writing<'a, N, A>), SocketsError>
    ensures writes { IfOk result (λ opened. opened.1.time_out ≡ time_out) }
    ensures failed { IfErr result IsDenied }
{
    let (arriving, leaving) = twice(stream)?;
    let writable = Writable::new(runtime, alloc)?;
    let writing = Writing {
        stream: leaving,
        writable,
        clock: runtime,
        time_out,
    };
    Ok((Reading { stream: arriving }, writing))
}

/// Returns two handles of the stream, one for each direction.
fn twice(stream: TcpStream) -> io::Result<(TcpStream, TcpStream)> {
    stream.set_nodelay(true)?;
    let stream = net::TcpStream::from(stream);
    let other = stream.try_clone()?;
    Ok((TcpStream::from_std(other), TcpStream::from_std(stream)))
}
