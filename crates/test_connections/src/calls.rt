//! Stations that are asked to end, and those that programs call.

use crate::beginning::{connections_to, connections_with, has_passed, is_told, left, text};
use crate::meeting::{Untold, begin, bound, peer, peers, reach, settings};
use bsc_connections::{Awaited, Handled, Pace, Waiter};
use bsc_sockets::{ConnectionSettings, SocketsError};
use mio::{Interest, Poll, Token, Waker};
use std::alloc::Global;
use std::fs::File;
use std::io;
use std::net::{SocketAddr, TcpListener, TcpStream};
use std::os::fd::{AsRawFd, RawFd};
use std::test::Fail;
use std::time::Instant;

/// An input, and its other end.
pub(crate) fn input(rt: &HostRuntime) -> io::Result<(TcpStream, TcpStream)> {
    let listener = TcpListener::bind(rt, "127.0.0.1:0")?;
    let other = peer(rt, listener.local_addr()?)?;
    let (input, _) = listener.accept()?;
    Ok((input, other))
}

/// Settings by which a station ends when this input does.
fn stopping_with<I: AsRawFd>(input: &I) -> ConnectionSettings {
    let mut settings = settings();
    settings.stops_with = Some(input.as_raw_fd());
    settings
}

#[test]
fn a_station_is_stopped_before_its_peers_connect(rt: HostRuntime) -> Result<(), Fail> {
    let (input, other) = input(&rt)?;
    drop(other);
    let start = Instant::now(&rt)?;
    let begun = connections_with(&rt, rt.alloc(), stopping_with(&input));
    is_told(begun, SocketsError::Stopped)?;
    has_passed(&rt, start, 0)
}

#[test]
fn an_input_that_is_a_device_is_refused(rt: HostRuntime) -> Result<(), Fail> {
    let input = File::open(&rt, "/dev/null")?;
    let start = Instant::now(&rt)?;
    let begun = connections_with(&rt, rt.alloc(), stopping_with(&input));
    is_told(begun, SocketsError::CannotWatchInput)?;
    // Also where nobody listens, which is found only after that.
    let text = text(rt.alloc(), left(&rt)?)?;
    let begun = connections_to(&rt, rt.alloc(), text.as_str(), stopping_with(&input));
    is_told(begun, SocketsError::CannotWatchInput)?;
    has_passed(&rt, start, 0)
}

/// The first event of a station that connects to this address.
fn first_event(
    rt: &HostRuntime,
    alloc: Global,
    address: &str,
    settings: ConnectionSettings,
) -> Result<Option<Awaited>, SocketsError> {
    let mut begun = reach(rt, alloc, address, settings)?;
    Ok(begun.sockets.wait(true).ok())
}

#[test]
fn a_station_that_connects_is_stopped(rt: HostRuntime) -> Result<(), Fail> {
    let (input, other) = input(&rt)?;
    drop(other);
    let (_listening, address) = bound(&rt)?;
    let text = text(rt.alloc(), address)?;
    let first = first_event(&rt, rt.alloc(), text.as_str(), stopping_with(&input))?;
    assert!(rt; first == Some(Awaited::Stopped));
    Ok(())
}

/// What reports the sockets of programs, and calls a station.
#[derive(Drop)]
pub(crate) struct Programs {
    poll: Poll,
    waker: Waker,
}

impl Programs {
    pub(crate) fn new(rt: &HostRuntime) -> io::Result<Programs> {
        let poll = Poll::new(rt)?;
        let waker = Waker::new(poll.registry(), Token(0))?;
        Ok(Programs { poll, waker })
    }

    /// Calls the station. Returns whether the system allows it.
    pub(crate) fn call(&self) -> bool {
        self.waker.wake().is_ok()
    }

    /// What a station watches that these programs call.
    pub(crate) fn descriptor(&self) -> RawFd {
        self.poll.as_raw_fd()
    }
}

/// Settings of a station that serves programs by this descriptor.
fn serving(descriptor: RawFd) -> ConnectionSettings {
    let mut settings = settings();
    settings.serves = Some(descriptor);
    settings
}

/// Whether the next wait has this result, if the time-out begins with it.
fn waits<R, W, S: Waiter<R, W>>(sockets: &mut S, awaited: Awaited) -> bool {
    sockets.handled(Handled::Silence, Pace::AtOnce);
    sockets.wait(true) == Ok(awaited)
}

/// Whether a station that serves programs is called once by one that connects to this address, and
/// not before.
fn is_called(
    rt: &HostRuntime,
    address: SocketAddr,
    settings: ConnectionSettings,
) -> Result<bool, Fail> {
    let (listening, _) = bound(rt)?;
    let mut begun = begin(rt, rt.alloc(), listening, peers(0), settings, &mut Untold)?;
    let sockets = &mut begun.sockets;
    let is_quiet = waits(sockets, Awaited::TimeOut);
    let _program = peer(rt, address)?;
    Ok(is_quiet && waits(sockets, Awaited::Client) && waits(sockets, Awaited::TimeOut))
}

#[test]
fn a_program_that_connects_calls(rt: HostRuntime) -> Result<(), Fail> {
    let programs = Programs::new(&rt)?;
    let mut listener = mio::net::TcpListener::bind(&rt, "127.0.0.1:0".parse()?)?;
    let registry = programs.poll.registry();
    registry.register(&mut listener, Token(1), Interest::READABLE)?;
    let address = listener.local_addr()?;
    assert!(rt; is_called(&rt, address, serving(programs.descriptor()))?);
    Ok(())
}

#[test]
fn what_cannot_call_is_refused(rt: HostRuntime) -> Result<(), Fail> {
    let device = File::open(&rt, "/dev/null")?;
    let told = connections_with(&rt, rt.alloc(), serving(device.as_raw_fd()));
    is_told(told, SocketsError::Sockets)
}
