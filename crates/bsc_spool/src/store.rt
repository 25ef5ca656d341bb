//! Stores.

ghost use Rattle.std.specs.Prelude.{ℕ, ℤ, List, Option, IfOk, OnOk, OnErr};
ghost use Rattle.bsc_spool.specs.declared.change.Change.{Change as ChangeValue};
ghost use Rattle.bsc_spool.specs.declared.channel.Channel.{Channel as ChannelValue};
ghost use Rattle.bsc_spool.specs.declared.store.Found.{Found as FoundValue};
ghost use Rattle.bsc_spool.specs.declared.store.Progress.{Progress as ProgressValue};

use crate::{Change, Channel, StoreFault};
use bsc_block::Record;

/// What is kept of a channel, in numbers.
#[derive(Clone, Copy, Debug, PartialEq, Eq)]
pub struct Progress {
    /// How many records were offered.
    pub offered: u32,

    /// How many of these, from the first, are known to have arrived.
    pub known: u32,

    /// How many of those that follow are unanswered or in doubt: 0 to 7.
    pub in_doubt: u32,

    /// How many records arrived.
    pub arrived: u32,

    /// How many of these, from the first, were printed.
    pub printed: u32,
}

/// A record that was read, and the mark after which the next one stands.
#[derive(Debug, Drop)]
pub struct Found {
    pub mark: i64,
    pub record: Record,
}

/// A place that keeps the records of a station, also beyond the end of its process.
pub trait Store {
    /// The changes of a step, in order, were kept after what was kept: the step, the store before,
    /// the store after.
    ghost keeps: { List ChangeValue → Self → Self → Type 0 };

    /// What is kept is as it was: the store before, the store after.
    ghost stays: { Self → Self → Type 0 };

    /// A crash at any moment of the call leaves what a crash before it could leave, or what was
    /// kept with all changes of the step, in order: the step, the store before, the store after.
    ghost survives: { List ChangeValue → Self → Self → Type 0 };

    /// The store has given back what was written to it, so far.
    ghost sound: { Self → Type 0 };

    /// The store was only read: the store before, the store after.
    ghost reads: { Self → Self → Type 0 };

    /// Reading gives these numbers of a channel: the channel, the numbers, the store before, the
    /// store after.
    ghost counts: { ChannelValue → ProgressValue → Self → Self → Type 0 };

    /// Reading gives this record that was offered on a channel, or none: the channel, the mark, how
    /// many others are passed over, the record, the store before, the store after.
    ghost finds_offered: { ChannelValue → ℤ → ℕ → Option FoundValue → Self → Self → Type 0 };

    /// The same of the records that arrived.
    ghost finds_arrived: { ChannelValue → ℤ → ℕ → Option FoundValue → Self → Self → Type 0 };

    /// Keeps the changes of a step, all or none. Each change must fit what is kept and the changes
    /// before it: no more records are known and in doubt than were offered, and no more are printed
    /// than arrived.
    fn commit(&mut self, step: &[Change]) -> Result<(), StoreFault>
        ensures kept { OnOk result (keeps step.now self.old self.new) }
        ensures unchanged { OnErr result (stays self.old self.new) }
        ensures crash { survives step.now self.old self.new };

    /// Returns what is kept of a channel, in numbers. They are all 0 for a channel of which nothing
    /// is kept.
    fn progress(&mut self, channel: &Channel) -> Result<Progress, StoreFault>
        ensures reads { reads self.old self.new }
        ensures counts { IfOk result (λ it. counts channel.now it self.old self.new) };

    /// Returns a record that was offered on a channel, or `None` if there is none: of those after
    /// `mark`, which is 0 before the first record, the one that follows `more` others.
    fn offered(
        &mut self,
        channel: &Channel,
        mark: i64,
        more: u32,
    ) -> Result<Option<Found>, StoreFault>
        ensures reads { reads self.old self.new }
        ensures finds { IfOk result (λ it.
            finds_offered channel.now mark more it self.old self.new) };

    /// Returns a record that arrived on a channel, as `offered` does.
    fn arrived(
        &mut self,
        channel: &Channel,
        mark: i64,
        more: u32,
    ) -> Result<Option<Found>, StoreFault>
        ensures reads { reads self.old self.new }
        ensures finds { IfOk result (λ it.
            finds_arrived channel.now mark more it self.old self.new) };
}
