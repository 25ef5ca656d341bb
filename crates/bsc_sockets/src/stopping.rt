//! How a station is asked to end.

ghost use Rattle.std.specs.Prelude.{◌≡◌, ◌+◌, false, true, IfErr, IfOk, IsSome, OnOk};
ghost use Rattle.bsc_sockets.specs.Answers.{IsWaitError};
ghost use Rattle.bsc_sockets.specs.Stopping.{asked_if, count_if, is_asked, is_closed_in};
ghost use Rattle.bsc_sockets.specs.Stopping.{StopRuns, times_told};

use crate::SocketsError;
use crate::times::{Time, running};
use bsc_connections::LiveError;
use mio::unix::SourceFd;
use mio::{Events, Interest, Poll, Token};
use std::alloc::Allocator;
use std::os::fd::RawFd;
use std::time::{Clock, Duration};

/// The token of the descriptor that asks a station to end. It is after those of the connections and
/// the listener, since there are fewer than 65,536 places, and after that of work beside the line.
pub(crate) const INPUT: usize = usize::MAX;

/// Whether a station is asked to end, and how often it was told so: once when it is asked, and a
/// second time when a time-out has passed since then.
#[derive(Clone, Copy)]
pub(crate) enum Stopping {
    /// It is not asked to end.
    NotAsked,

    /// It is asked to end, and was not told.
    Asked,

    /// It was told. This is the time since then.
    Told { since: Time },

    /// It was told a second time.
    ToldAgain,
}

impl Stopping {
    /// Records that the station is asked to end. It is told once, however often it is asked.
    pub(crate) fn ask(&mut self)
        ensures asked { self.new ≡ asked_if true self.old }
        ensures told { times_told self.new ≡ times_told self.old }
        ensures since { times_told self.old ≡ 1 → self.new ≡ self.old }
    {
        if let Stopping::NotAsked = *self {
            *self = Stopping::Asked;
        }
    }

    /// Whether the station is asked to end, and was not told.
    pub(crate) fn is_asked(&self) -> bool
        ensures { result ≡ is_asked self.now }
    {
        match *self {
            Stopping::Asked => true,
            Stopping::NotAsked | Stopping::Told { .. } | Stopping::ToldAgain => false,
        }
    }

    /// Returns whether the station is to be told now that it is asked to end; if so, it is told.
    pub(crate) fn tell(&mut self) -> bool
        ensures told { times_told self.new ≡ times_told self.old + count_if result }
        ensures is_asked { result ≡ is_asked self.old }
        ensures anew { result ≡ true → self.new ≡ Stopping.Told Time.Anew }
        ensures since { result ≡ false → self.new ≡ self.old }
    {
        let is_asked = self.is_asked();
        if is_asked {
            *self = Stopping::Told { since: Time::Anew };
        }
        is_asked
    }

    /// Records that the station is told a second time.
    pub(crate) fn tell_again(&mut self)
        ensures { times_told self.new ≡ 2 }
    {
        *self = Stopping::ToldAgain;
    }

    /// Returns what is left of the time after which the station is told a second time; None if it
    /// is not to be told. The time begins with the first call after it was told. Fails with `Wait`
    /// if the clock does.
    pub(crate) fn left<C: Clock>(
        &mut self,
        clock: &C,
        time_out: Duration,
    ) -> Result<Option<Duration>, LiveError>
        ensures told { times_told self.new ≡ times_told self.old }
        ensures failed { IfErr result IsWaitError }
        ensures once { IfOk result (λ left. IsSome left → times_told self.new ≡ 1) }
        ensures runs { OnOk result (StopRuns time_out self.old self.new) }
    {
        let Stopping::Told { since } = *self else {
            return Ok(None);
        };
        let (limit, left) = running(clock, since, time_out)?;
        *self = Stopping::Told {
            since: Time::Since(limit),
        };
        Ok(Some(left))
    }
}

/// Whether one of these events is that the input is closed by its other end.
pub(crate) fn is_closed<A: Allocator>(events: &Events<A>) -> bool
    ensures { result ≡ is_closed_in INPUT events.now }
{
    events
        .iter()
        .any(|event| event.token().0 == INPUT && event.is_read_closed())
}

/// Has the system report this descriptor as the input. Fails with `CannotWatchInput` if it does
/// not, for example because it is a file.
pub(crate) fn watch(poll: &Poll, fd: RawFd) -> Result<(), SocketsError>
    ensures { IfErr result (λ why. why ≡ SocketsError.CannotWatchInput) }
{
    let mut source = SourceFd(&fd);
    match poll
        .registry()
        .register(&mut source, Token(INPUT), Interest::READABLE)
    {
        Ok(()) => Ok(()),
        Err(_) => Err(SocketsError::CannotWatchInput),
    }
}
