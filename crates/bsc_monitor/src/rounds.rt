//! The rounds of a poll list, after which of them a control station pauses, and when it ends.

ghost use Rattle.std.specs.Prelude.{◌≡◌, true};
ghost use Rattle.bsc_monitor.specs.Rounds.{rounds_of, after_visit, are_enough, pauses_after};

use bsc_text::progress::Counts;

/// The limits at which a control station ends.
#[derive(Clone, Copy)]
pub struct Limits {
    /// The number of rounds after which it ends; `None` if there is no such limit.
    pub rounds: Option<u64>,

    /// The number of idle rounds in a row after which it ends.
    pub idle_rounds: u64,

    /// Whether rounds count from the beginning, since a terminal is there then; else they count
    /// once one has come.
    pub counts_at_once: bool,
}

/// The rounds of a poll list. A round is one visit to each entry that is polled: it is complete
/// when the control station goes from the last of them to the first. It is counted if a terminal
/// has come by its end. A round is idle if no record arrived in it and nothing waits to be sent at
/// its end. Nothing gets through in a round that is idle, or in which no record arrived and none
/// became known, for example since each terminal for which records wait refuses them.
#[derive(Clone, Copy)]
pub(crate) struct Rounds {
    /// Whether a terminal has come since the beginning.
    met: bool,
    /// The number of completed rounds that are counted.
    rounds: u64,
    /// The number of idle rounds in a row up to the last completed one.
    idle: u64,
    /// The number of records that were known to have arrived at the end of the last completed one.
    known: u64,
    /// The number of records that had arrived at the control station by then.
    arrived: u64,
}

impl Rounds {
    /// Returns the rounds of a poll list, no entry of which has been visited. `met` tells whether a
    /// terminal has come, and `arrived` how many records have arrived before.
    pub fn new(met: bool, arrived: u64) -> Rounds
        ensures { result ≡ rounds_of met 0 0 0 arrived }
    {
        Rounds {
            met,
            rounds: 0,
            idle: 0,
            known: 0,
            arrived,
        }
    }

    /// Returns the number of completed rounds that are counted.
    pub fn count(&self) -> u64
        ensures { result ≡ self.now.rounds }
    {
        self.rounds
    }

    /// Records that a terminal has come.
    pub fn meet(&mut self)
        ensures { self.new ≡ record self.old { met = true } }
    {
        self.met = true;
    }

    /// Counts the end of the visit to an entry; `is_last` tells whether the round is complete with
    /// it, `more` whether something waits to be sent, and `counts` how many records are known to
    /// have arrived, and have arrived. The counts of rounds saturate at 2^64 - 1.
    pub fn visited(&mut self, is_last: bool, more: bool, counts: Counts)
        ensures { self.new ≡ after_visit self.old is_last more counts }
    {
        if !is_last {
            return;
        }
        if self.met {
            let idle = counts.arrived == self.arrived && !more;
            self.rounds = self.rounds.saturating_add(1);
            self.idle = if idle { self.idle.saturating_add(1) } else { 0 };
        }
        self.known = counts.known;
        self.arrived = counts.arrived;
    }

    /// Whether the end of the visit to an entry ends a round in which nothing got through; the
    /// parameters are those of `visited`.
    pub fn pauses_after(&self, is_last: bool, more: bool, counts: Counts) -> bool
        ensures { result ≡ pauses_after self.now is_last more counts }
    {
        let goes_on = more && counts.known != self.known;
        is_last && counts.arrived == self.arrived && !goes_on
    }

    /// Whether a control station with these limits ends.
    pub fn are_enough(&self, limits: Limits) -> bool
        ensures { result ≡ are_enough self.now limits }
    {
        match limits.rounds {
            Some(rounds) if rounds <= self.rounds => true,
            _ => limits.idle_rounds <= self.idle,
        }
    }
}
