//! How far work has come.

ghost use Rattle.std.specs.Prelude.{◌≡◌};
ghost use Rattle.bsc_text.specs.Counts.{both, counts_of, doubts_of};

/// What is counted as done.
#[derive(Clone, Copy, Debug, PartialEq, Eq)]
pub enum Work {
    /// Events.
    Events,

    /// Rounds of a poll list.
    Rounds,
}

/// How far work has come. Each count saturates at 2^64 - 1.
#[derive(Clone, Copy, Debug, PartialEq, Eq)]
pub struct Counts {
    /// The events or rounds.
    pub done: u64,

    /// The records that are known to have arrived where they were sent.
    pub known: u64,

    /// The records that have arrived.
    pub arrived: u64,

    /// The channels that are in doubt.
    pub doubts: u64,
}

impl Counts {
    /// Returns the counts of this many events or rounds, without a record.
    pub fn of(done: u64) -> Counts
        ensures { result ≡ counts_of done 0 0 0 }
    {
        Counts {
            done,
            known: 0,
            arrived: 0,
            doubts: 0,
        }
    }

    /// Returns the counts of the sending end of a channel.
    pub fn sending(known: usize, doubt: bool) -> Counts
        ensures { result ≡ counts_of 0 known 0 (doubts_of doubt) }
    {
        Counts {
            done: 0,
            known: known as u64,
            arrived: 0,
            doubts: if doubt { 1 } else { 0 },
        }
    }

    /// Returns the counts of the receiving end of a channel.
    pub fn receiving(arrived: usize) -> Counts
        ensures { result ≡ counts_of 0 0 arrived 0 }
    {
        Counts {
            done: 0,
            known: 0,
            arrived: arrived as u64,
            doubts: 0,
        }
    }

    /// Adds other counts.
    pub fn and(self, other: Counts) -> Counts
        ensures { result ≡ both self other }
    {
        Counts {
            done: self.done.saturating_add(other.done),
            known: self.known.saturating_add(other.known),
            arrived: self.arrived.saturating_add(other.arrived),
            doubts: self.doubts.saturating_add(other.doubts),
        }
    }
}
