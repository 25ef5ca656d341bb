//! Waits for what is ready.

ghost use Rattle.std.specs.Prelude.{◌≡◌, ◌≢◌, ◌+◌, ◌==◌, IfErr, IfOk, IfSome, IsNone};
ghost use Rattle.std.specs.Prelude.{IsSome, None, false, true};
ghost use Rattle.std.specs.Duration.{as_nanos};
ghost use Rattle.std.specs.Option.{option_map_or};
ghost use Rattle.bsc_sockets.specs.Answers.{IsAnswer, IsWaitError};
ghost use Rattle.bsc_sockets.specs.Calls.{FindsCall, TellsCall, is_call, is_reported_in, sought_in};
ghost use Rattle.bsc_sockets.specs.Serving.{is_overdue, served_after, served_overdue};
ghost use Rattle.bsc_sockets.specs.Silences.{silence_after};
ghost use Rattle.bsc_sockets.specs.Standings.{counted_after};
ghost use Rattle.bsc_sockets.specs.Stopping.{stops_in, times_told};
ghost use Rattle.bsc_sockets.specs.Times.{IsEnd, ended_gap, event_of, without_ended};

use crate::Sockets;
use crate::asking::WORK;
use crate::time_limit::TimeLimit;
use crate::times::End;
use bsc_connections::{Awaited, LiveError};
use std::alloc::Allocator;
use std::net::Net;
use std::time::{Clock, Duration};

/// The most places served in turn before the system is asked what else has arrived, so that neither
/// a peer that never stops sending nor peers that never stop connecting hide another one.
const MAX_ANSWERS_UNASKED: usize = 16;

/// The most events that are served for each place after a time has passed and before its end is
/// told: what arrived in time is heard first, and a peer that never stops sending does not hold up
/// the end.
const MAX_SERVED_OVERDUE: usize = 4;

/// How many milliseconds pass before a peer is tried again that the system could not accept.
const BETWEEN_ATTEMPTS: u64 = 100;

/// What is sought among what is ready.
#[derive(Clone, Copy)]
pub(crate) enum Sought {
    /// A peer, octets, or a program that may have to be served.
    Anything,

    /// A peer, or octets.
    Line,

    /// A peer.
    Newcomer,
}

impl<'a, N: Net + Clock, A: Allocator + Copy> Sockets<'a, N, A> {
    /// Returns the first event that is sought, or `TimeOut` if none happens within this time.
    pub(crate) fn within(&mut self, time: Duration, sought: Sought) -> Result<Awaited, LiveError>
        ensures answer { IfOk result
            (IsAnswer self.new.settings.allowed self.new.places self.new.newcomer
            self.new.ready) }
        ensures failed { IfErr result IsWaitError }
        ensures no_gap { IfOk result (λ awaited. ended_gap awaited ≡ None) }
        ensures settings { self.new.settings ≡ self.old.settings }
        ensures stops { IfOk result (λ awaited. times_told self.new.stopping
            ≡ times_told self.old.stopping + stops_in awaited) }
        ensures times { self.new.times ≡ self.old.times }
        ensures standings { self.new.standings ≡ self.old.standings }
        ensures places { self.new.places ≡ self.old.places }
        ensures listener { self.new.listener ≡ self.old.listener }
        ensures newcomer { IsSome self.old.newcomer → self.new.newcomer ≡ self.old.newcomer }
        ensures since { times_told self.old.stopping ≡ 1
            → self.new.stopping ≡ self.old.stopping }
        ensures calls { IfOk result (λ awaited. TellsCall self.old.called
            (is_reported_in WORK self.new.events) awaited self.new.called) }
        ensures sought { IfOk result (λ awaited.
            is_call awaited ≡ true → sought ≡ Sought.Anything) }
    {
        // When a time has passed, what arrived in time is found before its end is told.
        if self.unasked >= MAX_ANSWERS_UNASKED || time.is_zero() {
            self.ask(Duration::ZERO)?;
        }
        match self.found(sought) {
            Some(awaited) => Ok(awaited),
            None => self.asked_within(time, sought),
        }
    }

    /// As `within`, of anything, but if no time is left no program is served, so that none holds up
    /// the end, and `TimeOut` is returned at once if enough was served since.
    pub(crate) fn in_time(&mut self, left: Duration) -> Result<Awaited, LiveError>
        ensures answer { IfOk result
            (IsAnswer self.new.settings.allowed self.new.places self.new.newcomer
            self.new.ready) }
        ensures failed { IfErr result IsWaitError }
        ensures no_gap { IfOk result (λ awaited. ended_gap awaited ≡ None) }
        ensures settings { self.new.settings ≡ self.old.settings }
        ensures stops { IfOk result (λ awaited. times_told self.new.stopping
            ≡ times_told self.old.stopping + stops_in awaited) }
        ensures times { self.new.times ≡ self.old.times }
        ensures standings { self.new.standings ≡ self.old.standings }
        ensures places { self.new.places ≡ self.old.places }
        ensures listener { self.new.listener ≡ self.old.listener }
        ensures newcomer { IsSome self.old.newcomer → self.new.newcomer ≡ self.old.newcomer }
        ensures since { times_told self.old.stopping ≡ 1
            → self.new.stopping ≡ self.old.stopping }
        ensures calls { IfOk result (λ awaited. TellsCall self.old.called
            (is_reported_in WORK self.new.events) awaited self.new.called) }
        ensures sought { IfOk result (λ awaited. is_call awaited ≡ true
            → sought_in (as_nanos left == 0) ≡ Sought.Anything) }
    {
        if self.is_overdue(left) {
            self.begin_unread();
            return Ok(Awaited::TimeOut);
        }
        self.within(left, sought_in(left))
    }

    /// Returns whether no time is left and enough was served since.
    fn is_overdue(&mut self, left: Duration) -> bool
        ensures overdue { let served = served_overdue (as_nanos left == 0) self.old.overdue in
            result ≡ is_overdue self.old.places served }
        ensures counted { let served = served_overdue (as_nanos left == 0) self.old.overdue in
            self.new.overdue ≡ served_after self.old.places served }
        ensures settings { self.new.settings ≡ self.old.settings }
        ensures stopping { self.new.stopping ≡ self.old.stopping }
        ensures times { self.new.times ≡ self.old.times }
        ensures standings { self.new.standings ≡ self.old.standings }
        ensures places { self.new.places ≡ self.old.places }
        ensures listener { self.new.listener ≡ self.old.listener }
        ensures newcomer { IsSome self.old.newcomer → self.new.newcomer ≡ self.old.newcomer }
        ensures called { self.new.called ≡ self.old.called }
        ensures events { self.new.events ≡ self.old.events }
    {
        self.overdue = if left.is_zero() {
            self.overdue.saturating_add(1)
        } else {
            0
        };
        let places = self.places.saturating_add(1);
        let is_overdue = self.overdue > places.saturating_mul(MAX_SERVED_OVERDUE);
        if is_overdue {
            self.overdue = 0;
        }
        is_overdue
    }

    /// As `within`, but asks the system first. If nothing has arrived by then, whatever ends the
    /// wait has not lain unread.
    fn asked_within(&mut self, time: Duration, sought: Sought) -> Result<Awaited, LiveError>
        ensures answer { IfOk result
            (IsAnswer self.new.settings.allowed self.new.places self.new.newcomer
            self.new.ready) }
        ensures failed { IfErr result IsWaitError }
        ensures no_gap { IfOk result (λ awaited. ended_gap awaited ≡ None) }
        ensures settings { self.new.settings ≡ self.old.settings }
        ensures stops { IfOk result (λ awaited. times_told self.new.stopping
            ≡ times_told self.old.stopping + stops_in awaited) }
        ensures times { self.new.times ≡ self.old.times }
        ensures standings { self.new.standings ≡ self.old.standings }
        ensures places { self.new.places ≡ self.old.places }
        ensures listener { self.new.listener ≡ self.old.listener }
        ensures newcomer { IsSome self.old.newcomer → self.new.newcomer ≡ self.old.newcomer }
        ensures since { times_told self.old.stopping ≡ 1
            → self.new.stopping ≡ self.old.stopping }
        ensures calls { IfOk result (λ awaited. TellsCall self.old.called
            (is_reported_in WORK self.new.events) awaited self.new.called) }
        ensures sought { IfOk result (λ awaited.
            is_call awaited ≡ true → sought ≡ Sought.Anything) }
    {
        self.ask(Duration::ZERO)?;
        if let Some(awaited) = self.found(sought) {
            self.renew_unread(awaited);
            return Ok(awaited);
        }
        let awaited = self.arriving_within(time, sought)?;
        self.begin_unread();
        Ok(awaited)
    }

    /// Begins the time anew for which what is read next may have lain unread.
    pub(crate) fn begin_unread(&mut self)
        ensures others { self.new ≡ record self.old { unread = self.new.unread } }
        ensures late { IfSome self.new.unread.limit
            (λ limit. limit.time ≡ self.old.settings.late_after) }
    {
        self.unread.begin(self.runtime, self.settings.late_after);
    }

    /// If a program is served, and there is nothing to read on the line, begins the time anew for
    /// which what is read next may have lain unread. So a program that always calls makes nothing
    /// late that the station sends.
    fn renew_unread(&mut self, awaited: Awaited)
        ensures others { self.new ≡ record self.old { unread = self.new.unread } }
        ensures late { self.new.unread ≢ self.old.unread → IfSome self.new.unread.limit
            (λ limit. limit.time ≡ self.old.settings.late_after) }
    {
        if awaited == Awaited::Client && self.ready.has_only(self.places) {
            self.begin_unread();
        }
    }

    /// As `within`, but looks only at what arrives from now on.
    fn arriving_within(&mut self, time: Duration, sought: Sought) -> Result<Awaited, LiveError>
        ensures answer { IfOk result
            (IsAnswer self.new.settings.allowed self.new.places self.new.newcomer
            self.new.ready) }
        ensures failed { IfErr result IsWaitError }
        ensures no_gap { IfOk result (λ awaited. ended_gap awaited ≡ None) }
        ensures settings { self.new.settings ≡ self.old.settings }
        ensures stops { IfOk result (λ awaited. times_told self.new.stopping
            ≡ times_told self.old.stopping + stops_in awaited) }
        ensures times { self.new.times ≡ self.old.times }
        ensures standings { self.new.standings ≡ self.old.standings }
        ensures places { self.new.places ≡ self.old.places }
        ensures listener { self.new.listener ≡ self.old.listener }
        ensures newcomer { IsSome self.old.newcomer → self.new.newcomer ≡ self.old.newcomer }
        ensures since { times_told self.old.stopping ≡ 1
            → self.new.stopping ≡ self.old.stopping }
        ensures calls { IfOk result (λ awaited. TellsCall self.old.called
            (is_reported_in WORK self.new.events) awaited self.new.called) }
        ensures sought { IfOk result (λ awaited.
            is_call awaited ≡ true → sought ≡ Sought.Anything) }
    {
        let Ok(limit) = TimeLimit::begin(self.runtime, time) else {
            return Err(LiveError::Wait);
        };
        let mut left = time;
        'asks: for _ in 0..u64::MAX {
            self.ask(self.asked_at_once(left))?;
            if let Some(awaited) = self.found(sought) {
                return Ok(awaited);
            }
            left = self.left(limit)?;
            if left.is_zero() {
                break;
            }
        }
        Ok(Awaited::TimeOut)
    }

    /// Returns how long the system is asked at once, if this is left of a time. A peer that it
    /// could not accept is tried again after a short time: the system does not report that peer
    /// anew.
    fn asked_at_once(&self, left: Duration) -> Duration
        ensures { self.now.refuses ≡ false → result ≡ left }
    {
        if self.refuses {
            left.min(Duration::from_millis(BETWEEN_ATTEMPTS))
        } else {
            left
        }
    }

    /// Returns what is left of a time.
    pub(crate) fn left(&self, limit: TimeLimit) -> Result<Duration, LiveError>
        ensures { IfErr result IsWaitError }
    {
        match limit.left(self.runtime) {
            Ok(left) => Ok(left),
            Err(_) => Err(LiveError::Wait),
        }
    }

    /// Returns what is sought if it is ready.
    fn found(&mut self, sought: Sought) -> Option<Awaited>
        ensures answer { IfSome result
            (IsAnswer self.new.settings.allowed self.new.places self.new.newcomer
            self.new.ready) }
        ensures no_gap { IfSome result (λ awaited. ended_gap awaited ≡ None) }
        ensures settings { self.new.settings ≡ self.old.settings }
        ensures stops { times_told self.new.stopping
            ≡ times_told self.old.stopping + option_map_or stops_in result 0 }
        ensures times { self.new.times ≡ self.old.times }
        ensures standings { self.new.standings ≡ self.old.standings }
        ensures places { self.new.places ≡ self.old.places }
        ensures listener { self.new.listener ≡ self.old.listener }
        ensures newcomer { IsSome self.old.newcomer → self.new.newcomer ≡ self.old.newcomer }
        ensures since { times_told self.old.stopping ≡ 1
            → self.new.stopping ≡ self.old.stopping }
        ensures events { self.new.events ≡ self.old.events }
        ensures calls { IfSome result (λ awaited.
            FindsCall self.old.called awaited self.new.called) }
        ensures sought { IfSome result (λ awaited.
            is_call awaited ≡ true → sought ≡ Sought.Anything) }
        ensures nothing { IsNone result → (sought ≡ Sought.Anything → self.old.called ≡ false)
            × (self.new.called ≡ self.old.called) }
    {
        if self.stopping.tell() {
            return Some(Awaited::Stopped);
        }
        match sought {
            Sought::Newcomer if self.has_newcomer() => Some(self.newcomer_event()),
            Sought::Newcomer => None,
            Sought::Anything if self.take_call() => Some(Awaited::Client),
            Sought::Anything | Sought::Line => self.next_ready(),
        }
    }

    /// Returns whether a program has called that may have to be served. It is then served, so that
    /// it has called no more.
    pub(crate) fn take_call(&mut self) -> bool
        ensures called { result ≡ self.old.called }
        ensures others { self.new ≡ record self.old { called = false } }
    {
        let is_called = self.called;
        self.called = false;
        is_called
    }

    /// Returns what is to be served now. It takes the ready places in turn, including that of the
    /// listener, and no more of them than there are places.
    #[tactic(auto, using(crate::proofs::Served::served_is_last))]
    fn next_ready(&mut self) -> Option<Awaited>
        ensures answer { IfSome result
            (IsAnswer self.new.settings.allowed self.new.places self.new.newcomer
            self.new.ready) }
        ensures no_gap { IfSome result (λ awaited. ended_gap awaited ≡ None) }
        ensures no_call { IfSome result (λ awaited. is_call awaited ≡ false) }
        ensures settings { self.new.settings ≡ self.old.settings }
        ensures stopping { self.new.stopping ≡ self.old.stopping }
        ensures asked_nothing { option_map_or stops_in result 0 ≡ 0 }
        ensures times { self.new.times ≡ self.old.times }
        ensures standings { self.new.standings ≡ self.old.standings }
        ensures places { self.new.places ≡ self.old.places }
        ensures listener { self.new.listener ≡ self.old.listener }
        ensures newcomer { IsSome self.old.newcomer → self.new.newcomer ≡ self.old.newcomer }
        ensures called { self.new.called ≡ self.old.called }
        ensures events { self.new.events ≡ self.old.events }
    {
        'turns: for _ in 0..=self.places {
            let place = self.ready.next_place()?;
            self.unasked = self.unasked.saturating_add(1);
            if place < self.places {
                return Some(Awaited::Octets { connection: place });
            }
            if let Some(awaited) = self.listener_event() {
                return Some(awaited);
            }
        }
        None
    }

    /// Returns the event of this end, and counts this time if it is a silence.
    pub(crate) fn end(&mut self, end: End, silence: Duration) -> Awaited
        ensures event { IsEnd result }
        ensures no_call { is_call result ≡ false }
        ensures settings { self.new.settings ≡ self.old.settings }
        ensures stopping { self.new.stopping ≡ self.old.stopping }
        ensures time_out { self.new.times.time_out ≡ self.old.times.time_out }
        ensures pause { self.new.times.pause ≡ self.old.times.pause }
        ensures whose { result ≡ event_of end.gap }
        ensures gap { ended_gap result ≡ end.gap }
        ensures gaps { self.new.times.gaps.items
            ≡ without_ended end.gap self.old.times.gaps.items }
        ensures places { self.new.standings.places ≡ self.old.standings.places }
        ensures turns { self.new.standings.turns ≡ self.old.standings.turns }
        ensures number { self.new.places ≡ self.old.places }
        ensures listener { self.new.listener ≡ self.old.listener }
        ensures newcomer { IsSome self.old.newcomer → self.new.newcomer ≡ self.old.newcomer }
        ensures silence { self.new.standings.silence
            ≡ counted_after (as_nanos silence) result self.old.standings.silence }
        ensures called { self.new.called ≡ self.old.called }
        ensures events { self.new.events ≡ self.old.events }
        ensures last { self.new.times.last_silence
            ≡ silence_after result self.old.times.last_silence }
    {
        let awaited = self.times.end(end);
        if awaited == Awaited::TimeOut {
            self.standings.silence(silence);
        }
        awaited
    }

    /// Returns the event of the second time that the station is told to end.
    pub(crate) fn stop_again(&mut self) -> Awaited
        ensures event { result ≡ Awaited.Stopped }
        ensures settings { self.new.settings ≡ self.old.settings }
        ensures told { times_told self.new.stopping ≡ 2 }
        ensures times { self.new.times ≡ self.old.times }
        ensures standings { self.new.standings ≡ self.old.standings }
        ensures places { self.new.places ≡ self.old.places }
        ensures listener { self.new.listener ≡ self.old.listener }
        ensures newcomer { IsSome self.old.newcomer → self.new.newcomer ≡ self.old.newcomer }
        ensures called { self.new.called ≡ self.old.called }
        ensures events { self.new.events ≡ self.old.events }
    {
        self.stopping.tell_again();
        Awaited::Stopped
    }
}

/// What is sought in a wait of which this is left.
fn sought_in(left: Duration) -> Sought
    ensures { result ≡ sought_in (as_nanos left == 0) }
{
    if left.is_zero() {
        Sought::Line
    } else {
        Sought::Anything
    }
}
