//! Waits until octets can be written to one socket.

ghost use Rattle.std.specs.Prelude.{IfErr};
ghost use Rattle.bsc_sockets.specs.Listening.{IsDenied};

use crate::SocketsError;
use crate::time_limit::TimeLimit;
use mio::net::TcpStream;
use mio::{Events, Interest, Poll, Token};
use std::alloc::Allocator;
use std::io;
use std::io::ErrorKind;
use std::net::Net;
use std::time::{Clock, Duration};

/// Waits until a socket is connected, or has room for octets. It has its own set of sockets, so
/// that it takes no report from the wait for all connections.
#[derive(Drop)]
pub(crate) struct Writable<A: Allocator> {
    poll: Poll,
    events: Events<A>,
}

impl<A: Allocator + Copy> Writable<A> {
    pub(crate) fn new<N: Net>(runtime: &N, alloc: A) -> Result<Writable<A>, SocketsError>
        ensures { IfErr result IsDenied }
    {
        let poll = Poll::new(runtime)?;
        let events = Events::with_capacity(alloc, 1)?;
        Ok(Writable { poll, events })
    }
}

impl<A: Allocator> Writable<A> {
    /// Waits until the system reports this socket, which it also does if the connection has failed.
    /// Fails with `TimedOut` if that does not happen within this time.
    pub(crate) fn wait<C: Clock>(
        &mut self,
        clock: &C,
        stream: &mut TcpStream,
        time: Duration,
    ) -> io::Result<()> {
        self.poll
            .registry()
            .register(stream, Token(0), Interest::WRITABLE)?;
        let waited = self.wait_registered(clock, time);
        self.poll.registry().deregister(stream)?;
        waited
    }

    /// Waits for the socket that is registered. A wait that a signal interrupts is continued.
    fn wait_registered<C: Clock>(&mut self, clock: &C, time: Duration) -> io::Result<()> {
        let limit = TimeLimit::begin(clock, time)?;
        let mut left = time;
        for _ in 0..u64::MAX {
            self.poll.poll(&mut self.events, Some(left))?;
            if !self.events.is_empty() {
                return Ok(());
            }
            left = limit.left(clock)?;
            if left.is_zero() {
                break;
            }
        }
        Err(io::Error::from(ErrorKind::TimedOut))
    }
}
