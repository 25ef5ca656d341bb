//! Asks the system what has arrived.

ghost use Rattle.std.specs.Prelude.{◌≡◌, ◌||◌, IfErr, IsSome, OnOk, true};
ghost use Rattle.mio.specs.Events.{items};
ghost use Rattle.bsc_sockets.specs.Answers.{IsWaitError};
ghost use Rattle.bsc_sockets.specs.Calls.{is_reported_in};
ghost use Rattle.bsc_sockets.specs.Ready.{is_apart, with_event, with_events};
ghost use Rattle.bsc_sockets.specs.Stopping.{asked_if, is_closed_in, times_told};

use crate::ready::Ready;
use crate::stopping::{INPUT, is_closed};
use crate::{Sockets, SocketsError};
use bsc_connections::LiveError;
use mio::unix::SourceFd;
use mio::{Events, Interest, Poll, Token};
use std::alloc::{AllocError, Allocator};
use std::net::Net;
use std::os::fd::RawFd;
use std::time::{Clock, Duration};

/// The token of the descriptors that tell when there may be work beside the line: a program is to
/// be served, or standard output takes more. It is after those of the connections and the listener,
/// since there are fewer than 65,536 places.
pub(crate) const WORK: usize = usize::MAX - 1;

impl<'a, N: Net + Clock, A: Allocator + Copy> Sockets<'a, N, A> {
    /// Asks the system what has arrived, and waits until something has or the time has passed.
    pub(crate) fn ask(&mut self, time: Duration) -> Result<(), LiveError>
        ensures failed { IfErr result IsWaitError }
        ensures settings { self.new.settings ≡ self.old.settings }
        ensures asked { self.new.stopping
            ≡ asked_if (is_closed_in INPUT self.new.events) self.old.stopping }
        ensures called { OnOk result (self.new.called
            ≡ (self.old.called || is_reported_in WORK self.new.events)) }
        ensures reported { OnOk result
            (self.new.ready ≡ with_events self.old.ready (items self.new.events)) }
        ensures told { times_told self.new.stopping ≡ times_told self.old.stopping }
        ensures times { self.new.times ≡ self.old.times }
        ensures standings { self.new.standings ≡ self.old.standings }
        ensures places { self.new.places ≡ self.old.places }
        ensures listener { self.new.listener ≡ self.old.listener }
        ensures newcomer { IsSome self.old.newcomer → self.new.newcomer ≡ self.old.newcomer }
        ensures since { times_told self.old.stopping ≡ 1
            → self.new.stopping ≡ self.old.stopping }
    {
        self.unasked = 0;
        if self.poll.poll(&mut self.events, Some(time)).is_err() {
            return Err(LiveError::Wait);
        }
        if is_closed(&self.events) {
            self.stopping.ask();
        }
        self.called = self.called || is_called(&self.events);
        match set_all(&mut self.ready, &self.events) {
            Ok(()) => Ok(()),
            Err(_) => Err(LiveError::Memory),
        }
    }
}

/// Has the system report when this descriptor is readable, since there may be work beside the line
/// then. Fails with `Sockets` if it does not.
pub(crate) fn watch_work(poll: &Poll, fd: RawFd) -> Result<(), SocketsError>
    ensures { IfErr result (λ why. why ≡ SocketsError.Sockets) }
{
    let mut source = SourceFd(&fd);
    poll.registry()
        .register(&mut source, Token(WORK), Interest::READABLE)?;
    Ok(())
}

/// Whether one of these events is that there may be work beside the line.
fn is_called<A: Allocator>(events: &Events<A>) -> bool
    ensures { result ≡ is_reported_in WORK events.now }
{
    events.iter().any(|event| event.token().0 == WORK)
}

/// Records that something has arrived at the place of each event that has one.
fn set_all<A: Allocator, B: Allocator>(
    ready: &mut Ready<A>,
    events: &Events<B>,
) -> Result<(), AllocError>
    ensures { OnOk result (ready.new ≡ with_events ready.old (items events.now)) }
{
    'events: for event in events {
        set_one(ready, event.token().0)?;
    }
    Ok(())
}

/// Records that something has arrived at this place, unless it is none but the token of the input
/// or of work beside the line.
fn set_one<A: Allocator>(ready: &mut Ready<A>, place: usize) -> Result<(), AllocError>
    ensures { OnOk result (ready.new ≡ with_event ready.old place) }
{
    if is_apart(place) {
        return Ok(());
    }
    ready.set(place)
}

/// Whether this token is that of the input or of work beside the line, and so no place.
fn is_apart(token: usize) -> bool
    ensures { result ≡ is_apart token }
{
    token == INPUT || token == WORK
}
