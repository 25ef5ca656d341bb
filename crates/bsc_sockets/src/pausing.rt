//! Lets the pause of a station pass before a wait.

ghost use Rattle.std.specs.Prelude.{◌≡◌, IfErr, IfOk, IsSome, false};
ghost use Rattle.bsc_sockets.specs.Answers.{IsWaitError};
ghost use Rattle.bsc_sockets.specs.Calls.{Interrupts, is_interrupted, is_reported_in};
ghost use Rattle.bsc_sockets.specs.Stopping.{times_told};
ghost use Rattle.bsc_sockets.specs.Times.{IsRest};

use crate::Sockets;
use crate::asking::WORK;
use crate::time_limit::TimeLimit;
use bsc_connections::LiveError;
use std::alloc::Allocator;
use std::net::Net;
use std::time::{Clock, Duration};

/// How the pause of a wait has ended, or has not.
#[derive(Clone, Copy)]
pub(crate) enum Rest {
    /// The wait goes on, after a pause of this limit if it began with one.
    Over { limit: Option<TimeLimit> },

    /// A program has called in a pause of this limit.
    Called { limit: TimeLimit },
}

impl<'a, N: Net + Clock, A: Allocator + Copy> Sockets<'a, N, A> {
    /// Lets the pause pass if this wait begins with one, or less of it if the station is asked to
    /// end. What arrives meanwhile is ready after it. If a program calls before the pause has
    /// ended, returns that at once: the next wait goes on with what is left of the same pause.
    pub(crate) fn rest(&mut self) -> Result<Rest, LiveError>
        ensures rests { IfOk result (λ rest. IsRest self.old.settings.pause
            self.old.times.pause rest self.new.times.pause) }
        ensures calls { IfOk result (λ rest. Interrupts self.old.called
            (is_reported_in WORK self.new.events) (is_interrupted rest) self.new.called) }
        ensures failed { IfErr result IsWaitError }
        ensures settings { self.new.settings ≡ self.old.settings }
        ensures told { times_told self.new.stopping ≡ times_told self.old.stopping }
        ensures time_out { self.new.times.time_out ≡ self.old.times.time_out }
        ensures gaps { self.new.times.gaps ≡ self.old.times.gaps }
        ensures last_silence { self.new.times.last_silence ≡ self.old.times.last_silence }
        ensures standings { self.new.standings ≡ self.old.standings }
        ensures places { self.new.places ≡ self.old.places }
        ensures listener { self.new.listener ≡ self.old.listener }
        ensures newcomer { IsSome self.old.newcomer → self.new.newcomer ≡ self.old.newcomer }
        ensures since { times_told self.old.stopping ≡ 1
            → self.new.stopping ≡ self.old.stopping }
    {
        let pause = self.settings.pause;
        let Some(limit) = self.times.begin_pause(self.runtime, pause)? else {
            return Ok(Rest::Over { limit: None });
        };
        if self.is_interrupted(limit)? {
            return Ok(Rest::Called { limit });
        }
        self.times.end_pause();
        Ok(Rest::Over { limit: Some(limit) })
    }

    /// Waits until a program calls, and returns true then; or until the pause of this limit has
    /// passed or the station is asked to end, and returns false.
    fn is_interrupted(&mut self, limit: TimeLimit) -> Result<bool, LiveError>
        ensures calls { IfOk result (λ is_called. Interrupts self.old.called
            (is_reported_in WORK self.new.events) is_called self.new.called) }
        ensures failed { IfErr result IsWaitError }
        ensures settings { self.new.settings ≡ self.old.settings }
        ensures told { times_told self.new.stopping ≡ times_told self.old.stopping }
        ensures times { self.new.times ≡ self.old.times }
        ensures standings { self.new.standings ≡ self.old.standings }
        ensures places { self.new.places ≡ self.old.places }
        ensures listener { self.new.listener ≡ self.old.listener }
        ensures newcomer { IsSome self.old.newcomer → self.new.newcomer ≡ self.old.newcomer }
        ensures since { times_told self.old.stopping ≡ 1
            → self.new.stopping ≡ self.old.stopping }
    {
        'asks: for _ in 0..u64::MAX {
            let left = self.left(limit)?;
            if left.is_zero() || self.stopping.is_asked() {
                break;
            }
            if self.is_called_within(left)? {
                return Ok(true);
            }
        }
        Ok(false)
    }

    /// Returns whether a program has called, or calls within this time. It may return false before
    /// that, since something else has arrived.
    fn is_called_within(&mut self, time: Duration) -> Result<bool, LiveError>
        ensures calls { IfOk result (λ is_called. Interrupts self.old.called
            (is_reported_in WORK self.new.events) is_called self.new.called) }
        ensures none { IfOk result (λ is_called. is_called ≡ false → self.new.called ≡ false) }
        ensures failed { IfErr result IsWaitError }
        ensures settings { self.new.settings ≡ self.old.settings }
        ensures told { times_told self.new.stopping ≡ times_told self.old.stopping }
        ensures times { self.new.times ≡ self.old.times }
        ensures standings { self.new.standings ≡ self.old.standings }
        ensures places { self.new.places ≡ self.old.places }
        ensures listener { self.new.listener ≡ self.old.listener }
        ensures newcomer { IsSome self.old.newcomer → self.new.newcomer ≡ self.old.newcomer }
        ensures since { times_told self.old.stopping ≡ 1
            → self.new.stopping ≡ self.old.stopping }
    {
        if self.take_call() {
            return Ok(true);
        }
        self.ask(time)?;
        Ok(self.take_call())
    }
}
