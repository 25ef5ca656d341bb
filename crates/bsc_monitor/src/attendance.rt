//! What a control station knows of one terminal: how often it has answered, and whether it is
//! absent.

ghost use Rattle.std.specs.Prelude.{◌≡◌};
ghost use Rattle.bsc_monitor.specs.Attendance.{after_answer, after_repetition, after_request};
ghost use Rattle.bsc_monitor.specs.Attendance.{after_time_out, after_visit, ago, has_joined_since};
ghost use Rattle.bsc_monitor.specs.Attendance.{heard_if_back, is_absent, is_due, is_passed};
ghost use Rattle.bsc_monitor.specs.Attendance.{is_present, presence_of, unvisited};
ghost use Rattle.bsc_monitor.specs.Attendance.{visited_if_passed};

/// When a terminal that does not answer is absent, and when an absent one is called again.
#[derive(Clone, Copy, Debug, PartialEq, Eq)]
pub struct AbsenceLimits {
    /// The number of visits in a row without an answer after which it is absent; 0 for never.
    pub absent_after: u64,

    /// The time after its last visit from which an absent one is called again, in milliseconds.
    pub retry: u64,
}

/// What a control station tells of a terminal. Counts begin with the station, and saturate at
/// 2^64 - 1.
#[derive(Clone, Copy, Debug, PartialEq, Eq)]
pub struct Presence {
    /// Whether it is to be polled.
    pub polled: bool,

    /// Whether it is absent.
    pub absent: bool,

    /// The number of transmissions that were heard of it.
    pub answers: u64,

    /// How many of them were NAK.
    pub naks: u64,

    /// The number of its calls that were repeated.
    pub repetitions: u64,

    /// The number of time-outs that have passed while it was called.
    pub silences: u64,

    /// The time since the last transmission that was heard of it, in milliseconds, if one was.
    pub heard: Option<u64>,
}

/// What is known of a terminal. Times are in milliseconds since the start of the station.
#[derive(Clone, Copy)]
pub(crate) struct Attendance {
    /// The number of transmissions that were heard of it.
    answers: u64,

    /// How many of them were NAK.
    naks: u64,

    /// The number of its calls that were repeated.
    repetitions: u64,

    /// The number of time-outs that have passed while it was called.
    silences: u64,

    /// The time at which the last transmission was heard of it, if one was.
    heard: Option<u64>,

    /// The number of visits in a row, up to the last one, in which it answered nothing.
    silent_visits: u64,

    /// The time at which the last visit to it ended.
    visited: u64,

    /// Whether a program has taken it off the poll list.
    held: bool,
}

impl Attendance {
    /// Returns what is known of a terminal that was not visited.
    pub(crate) fn unvisited() -> Attendance
        ensures { result ≡ unvisited }
    {
        Attendance {
            answers: 0,
            naks: 0,
            repetitions: 0,
            silences: 0,
            heard: None,
            silent_visits: 0,
            visited: 0,
            held: false,
        }
    }

    /// Returns whether a program has taken it off the poll list.
    pub(crate) fn is_held(&self) -> bool
        ensures { result ≡ self.now.held }
    {
        self.held
    }

    /// Returns whether it is absent.
    pub(crate) fn is_absent(&self, limits: AbsenceLimits) -> bool
        ensures { result ≡ is_absent limits self.now }
    {
        0 < limits.absent_after && limits.absent_after <= self.silent_visits
    }

    /// Returns whether it answers its calls, as far as is known, and no program has taken it off.
    pub(crate) fn is_present(&self, limits: AbsenceLimits) -> bool
        ensures { result ≡ is_present limits self.now }
    {
        !self.held && !self.is_absent(limits)
    }

    /// Returns whether it is to be called again although it is absent: enough time has passed since
    /// its last visit, or somebody has connected since then.
    pub(crate) fn is_due(&self, limits: AbsenceLimits, joined: Option<u64>, now: u64) -> bool
        ensures { result ≡ is_due limits joined now self.now }
    {
        self.is_from_before(joined) || self.visited.saturating_add(limits.retry) <= now
    }

    /// Returns whether somebody has connected since its last visit: perhaps this terminal.
    fn is_from_before(&self, joined: Option<u64>) -> bool
        ensures { result ≡ has_joined_since self.now.visited joined }
    {
        match joined {
            Some(joined) => self.visited <= joined,
            None => false,
        }
    }

    /// Returns whether it is passed over since it is absent, and by no program.
    fn is_passed(&self, limits: AbsenceLimits) -> bool
        ensures { result ≡ is_passed limits self.now }
    {
        !self.held && self.is_absent(limits)
    }

    /// Returns the time at which the last visit to it ended, if it is absent and no program has
    /// taken it off.
    pub(crate) fn visited_if_passed(&self, limits: AbsenceLimits) -> Option<u64>
        ensures { result ≡ visited_if_passed limits self.now }
    {
        if self.is_passed(limits) {
            Some(self.visited)
        } else {
            None
        }
    }

    /// Returns the time at which it was heard last, if it was, and if it may be the one that has
    /// connected: it is absent, no program has taken it off, and it was not visited since then.
    pub(crate) fn heard_if_back(&self, limits: AbsenceLimits, joined: Option<u64>) -> Option<u64>
        ensures { result ≡ heard_if_back limits joined self.now }
    {
        if self.is_passed(limits) && self.is_from_before(joined) {
            self.heard
        } else {
            None
        }
    }

    /// Returns what is known after a transmission of it was heard at this time, which was NAK or
    /// not.
    pub(crate) fn after_answer(self, nak: bool, now: u64) -> Attendance
        ensures { result ≡ after_answer nak now self }
    {
        Attendance {
            answers: self.answers.saturating_add(1),
            naks: self.naks.saturating_add(u64::from(nak)),
            heard: Some(now),
            ..self
        }
    }

    /// Returns what is known after a time-out has passed while it was called.
    pub(crate) fn after_time_out(self) -> Attendance
        ensures { result ≡ after_time_out self }
    {
        Attendance {
            silences: self.silences.saturating_add(1),
            ..self
        }
    }

    /// Returns what is known after its call was repeated.
    pub(crate) fn after_repetition(self) -> Attendance
        ensures { result ≡ after_repetition self }
    {
        Attendance {
            repetitions: self.repetitions.saturating_add(1),
            ..self
        }
    }

    /// Returns what is known after a visit that ended at this time.
    pub(crate) fn after_visit(self, answered: bool, now: u64) -> Attendance
        ensures { result ≡ after_visit answered now self }
    {
        let silent_visits = if answered {
            0
        } else {
            self.silent_visits.saturating_add(1)
        };
        Attendance {
            silent_visits,
            visited: now,
            ..self
        }
    }

    /// Returns what is known after a program has asked for it to be called again, or no more. One
    /// that is called again is given all its visits anew.
    pub(crate) fn after_request(self, polled: bool) -> Attendance
        ensures { result ≡ after_request polled self }
    {
        if polled {
            return Attendance {
                silent_visits: 0,
                held: false,
                ..self
            };
        }
        Attendance { held: true, ..self }
    }

    /// Returns what is told of it at this time; `polled` says whether it is to be polled.
    pub(crate) fn presence(&self, limits: AbsenceLimits, polled: bool, now: u64) -> Presence
        ensures { result ≡ presence_of limits polled now self.now }
    {
        Presence {
            polled,
            absent: self.is_absent(limits),
            answers: self.answers,
            naks: self.naks,
            repetitions: self.repetitions,
            silences: self.silences,
            heard: ago(self.heard, now),
        }
    }
}

/// Returns how much time has passed since then, if there is a time.
fn ago(then: Option<u64>, now: u64) -> Option<u64>
    ensures { result ≡ ago then now }
{
    match then {
        Some(then) => Some(now.saturating_sub(then)),
        None => None,
    }
}
