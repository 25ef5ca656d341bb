//! A new station that takes what is kept of one.

ghost use Rattle.std.specs.Prelude.{◌≡◌, ◌≤◌, ℕ, List, length, OnOk};
ghost use Rattle.bsc_bid.specs.declared.kept.KeptSender.{KeptSender as KeptSenderValue};

use bsc_bid::KeptSender;
use bsc_block::Record;
use bsc_control::Control;
use bsc_spool::StoreFault;
use bsc_station::{LineStation, LineTerminal, Party};
use std::alloc::Allocator;

/// A new station that is made again: it takes the records that are kept, and recalls what is kept
/// of the channels on which it sends. `Damaged` says that what is kept does not fit it, and
/// `OutOfMemory` that an allocation failed; nothing is changed by either.
pub(crate) trait Fills {
    /// Only records, and what is known of them, differ between both stations.
    ghost fills: { Self → Self → Type 0 };

    /// The full length of a record.
    ghost takes: { Self → ℕ };

    /// What an offer makes of the station: the terminal, the selection address, the record.
    ghost offered: { Self → ℕ → ℕ → List ℕ → Self };

    /// How the station gains a record that had arrived: the number of the channel, the record.
    ghost gains: { Self → ℕ → List ℕ → Self → Type 0 };

    /// How it forgets the first records that had arrived: the number of the channel, how many.
    ghost forgets: { Self → ℕ → ℕ → Self → Type 0 };

    /// How it forgets records that are known to have arrived.
    ghost forgets_known: { Self → Self → Type 0 };

    /// What it is once it recalls what was kept of a channel.
    ghost recalled: { Self → ℕ → ℕ → KeptSenderValue → Self };

    /// Offers a record again on the channel to this selection address of this terminal; at a
    /// terminal, on the one channel on which it sends. The record must not be longer than the full
    /// length.
    fn offer_again(
        &mut self,
        terminal: usize,
        select: usize,
        record: Record,
    ) -> Result<(), StoreFault>
        requires { length «record» ≤ takes self.old }
        ensures fills { fills self.old self.new }
        ensures takes { takes self.new ≡ takes self.old }
        ensures offered { OnOk result (self.new
            ≡ offered self.old terminal select «record») };

    /// Adds a record that had arrived on the channel with this number.
    fn add_arrived(&mut self, number: usize, record: Record) -> Result<(), StoreFault>
        ensures fills { fills self.old self.new }
        ensures gains { OnOk result (gains self.old number «record» self.new) };

    /// Forgets the first records that had arrived on the channel with this number, at most this
    /// many, if they are many.
    fn forget_added(&mut self, number: usize, count: usize)
        ensures fills { fills self.old self.new }
        ensures forgets { forgets self.old number count self.new };

    /// Forgets the records that are known to have arrived, of each channel that has many of them.
    fn forget_recalled(&mut self)
        ensures fills { fills self.old self.new }
        ensures forgets { forgets_known self.old self.new };

    /// Recalls what is kept of a channel, once its records are offered again.
    fn recall_kept(
        &mut self,
        terminal: usize,
        select: usize,
        kept: KeptSender,
    ) -> Result<(), StoreFault>
        ensures fills { fills self.old self.new }
        ensures recalled { OnOk result (self.new
            ≡ recalled self.old terminal select kept) };

    ghost unchanged: { (x : Self) → fills x x };

    ghost further: { (x y z : Self) → fills x y → fills y z → fills x z };
}

impl<A: Allocator> Fills for Control<A> {
    ghost use Rattle.std.specs.Prelude.{◌≡◌, refl};
    ghost use Rattle.std.proofs.Common.{◌∙◌};
    ghost use Rattle.bsc_control.specs.Stored.{apart_from_records};
    ghost use Rattle.bsc_station.specs.Forgetting.{ForgetsArrivedFrom, ForgetsSent};
    ghost use Rattle.bsc_keeping.specs.Filling.{GainsFrom, offered_at, recalled_at};

    ghost fills = { λ old new. apart_from_records new ≡ apart_from_records old };

    ghost takes = { λ c. c.setup.format.full };

    ghost offered = { offered_at };

    ghost gains = { GainsFrom };

    ghost forgets = { ForgetsArrivedFrom };

    ghost forgets_known = { ForgetsSent };

    ghost recalled = { recalled_at };

    fn offer_again(
        &mut self,
        terminal: usize,
        select: usize,
        record: Record,
    ) -> Result<(), StoreFault> {
        if terminal >= self.terminals() {
            return Err(StoreFault::Damaged);
        }
        if select >= self.addresses(terminal) {
            return Err(StoreFault::Damaged);
        }
        match self.offer(terminal, select, record) {
            Ok(()) => Ok(()),
            Err(_) => Err(StoreFault::OutOfMemory),
        }
    }

    fn add_arrived(&mut self, number: usize, record: Record) -> Result<(), StoreFault> {
        if number >= self.terminals() {
            return Err(StoreFault::Damaged);
        }
        match self.keep_arrived(number, record) {
            Ok(()) => Ok(()),
            Err(_) => Err(StoreFault::OutOfMemory),
        }
    }

    fn forget_added(&mut self, number: usize, count: usize) {
        self.forget_first(number, count);
    }

    fn forget_recalled(&mut self) {
        self.forget_known();
    }

    fn recall_kept(
        &mut self,
        terminal: usize,
        select: usize,
        kept: KeptSender,
    ) -> Result<(), StoreFault> {
        if terminal >= self.terminals() {
            return Err(StoreFault::Damaged);
        }
        if select >= self.addresses(terminal) {
            return Err(StoreFault::Damaged);
        }
        match self.recall(terminal, select, kept) {
            Ok(()) => Ok(()),
            Err(_) => Err(StoreFault::Damaged),
        }
    }

    ghost unchanged = { λ x. refl };

    ghost further = { λ x y z first second. second ∙ first };
}

impl<A: Allocator> Fills for LineTerminal<A> {
    ghost use Rattle.std.specs.Prelude.{◌≡◌, refl};
    ghost use Rattle.std.proofs.Common.{◌∙◌};
    ghost use Rattle.bsc_station.specs.Forgetting.{ForgetsArrivedFor, ForgetsOwn};
    ghost use Rattle.bsc_keeping.specs.Filling.{apart_from_kept, GainsFor, own_offered};
    ghost use Rattle.bsc_keeping.specs.Filling.{own_recalled};

    ghost fills = { λ old new. apart_from_kept new ≡ apart_from_kept old };

    ghost takes = { λ l. l.tributary.queue.format.full };

    ghost offered = { own_offered };

    ghost gains = { GainsFor };

    ghost forgets = { ForgetsArrivedFor };

    ghost forgets_known = { ForgetsOwn };

    ghost recalled = { own_recalled };

    fn offer_again(
        &mut self,
        _terminal: usize,
        _select: usize,
        record: Record,
    ) -> Result<(), StoreFault> {
        match self.offer(record) {
            Ok(()) => Ok(()),
            Err(_) => Err(StoreFault::OutOfMemory),
        }
    }

    fn add_arrived(&mut self, number: usize, record: Record) -> Result<(), StoreFault> {
        if number >= Party::addresses(self, 0) {
            return Err(StoreFault::Damaged);
        }
        match self.keep_arrived(number, record) {
            Ok(()) => Ok(()),
            Err(_) => Err(StoreFault::OutOfMemory),
        }
    }

    fn forget_added(&mut self, number: usize, count: usize) {
        self.forget_first(number, count);
    }

    fn forget_recalled(&mut self) {
        self.forget_known();
    }

    fn recall_kept(
        &mut self,
        _terminal: usize,
        _select: usize,
        kept: KeptSender,
    ) -> Result<(), StoreFault> {
        match self.recall(kept) {
            Ok(()) => Ok(()),
            Err(_) => Err(StoreFault::Damaged),
        }
    }

    ghost unchanged = { λ x. refl };

    ghost further = { λ x y z first second. second ∙ first };
}
