//! A station of a line as what attends it needs it: what of it is to be kept, what it may forget,
//! which terminals it calls, and what programs may ask of it.

ghost use Rattle.std.specs.Prelude.{◌≡◌, ◌<◌, ◌≤◌, Bool, List, OnErr, Option, Result, length, ℕ};
ghost use Rattle.std.specs.declared.alloc.AllocError.{AllocError as AllocErrorValue};
ghost use Rattle.bsc_bid.specs.declared.kept.KeptSender.{KeptSender as KeptSenderValue};
ghost use Rattle.bsc_bid.specs.declared.sender.ReleaseError.{ReleaseError as ReleaseErrorValue};
ghost use Rattle.bsc_bid.specs.declared.way.Way.{Way as WayValue};
ghost use Rattle.bsc_block.specs.Format.{IsFormat};
ghost use Rattle.bsc_station.specs.Ends.{IsWay};
ghost use Rattle.bsc_station.specs.Feeding.{needs_no_keeping};
ghost use Rattle.bsc_station.specs.Offering.{IsSending, OffersBy};

use crate::Party;
use bsc_bid::{KeptSender, ReleaseError, Station, Way};
use bsc_block::{Format, Record};
use std::alloc::AllocError;

/// A station of a line: the control station, or one of the terminals. The places of records that it
/// forgets stay, so that all counts and numbers go on; on the line it does the same as if none were
/// forgotten. Terminals that it does not call are passed over in the call order, and keep their
/// records and doubts; a terminal calls none.
pub trait LineStation: Station + Party {
    /// What is to be kept of the channel to this selection address of this terminal, if there is
    /// such a channel.
    ghost kept_at: { Self → ℕ → ℕ → Option KeptSenderValue };

    /// Records that are known to have arrived may be forgotten, and nothing else changes.
    ghost forgets_sent: { Self → Self → Type 0 };

    /// Of the channel with this number the first records may be forgotten, at most this many, and
    /// nothing else changes.
    ghost forgets_arrived: { Self → ℕ → ℕ → Self → Type 0 };

    /// Whether a terminal is polled.
    ghost is_called: { Self → ℕ → Bool };

    /// A terminal is polled from now on, or is not, and nothing else changes: the station before,
    /// the terminal, the flag, the station after.
    ghost polls: { Self → ℕ → Bool → Self → Type 0 };

    /// The records that were offered on each channel on which the station sends, in order.
    ghost offered: { Self → ℕ → WayValue → List (List ℕ) };

    /// What an offer does: the station before, the terminal, the direction, the characters, the
    /// result, the station after.
    ghost offers: { Self → ℕ → WayValue → List ℕ → Result ℕ AllocErrorValue → Self → Type 0 };

    /// The full length of its records.
    ghost full: { Self → ℕ };

    /// What a release does: the station before, the terminal, the direction, the count, the result,
    /// the station after.
    ghost releases: { Self → ℕ → WayValue → ℕ → Result (Unit {0}) ReleaseErrorValue → Self
        → Type 0 };

    /// What it does to accept selections, or to stop it: the station before, the flag, whether it
    /// is a terminal, the station after.
    ghost readies: { Self → Bool → Bool → Self → Type 0 };

    /// What it does to ask for the line: the station before, whether it is a terminal, the station
    /// after.
    ghost urges: { Self → Bool → Self → Type 0 };

    /// Returns what is to be kept, beside the offered records, of the channel to this selection
    /// address of this terminal; of a terminal, of the one channel on which it sends. `None` if
    /// there is no such channel.
    fn kept_at(&self, terminal: usize, select: usize) -> Option<KeptSender>
        ensures { result ≡ kept_at self.now terminal select };

    /// Forgets the records that are known to have arrived, of each channel on which the station
    /// sends that has many of them.
    fn forget_known(&mut self)
        ensures { forgets_sent self.old self.new };

    /// Forgets the first records that arrived on the channel with this number among those on which
    /// the station receives, at most this many, if these are many.
    fn forget_first(&mut self, number: usize, count: usize)
        ensures { forgets_arrived self.old number count self.new };

    /// Returns whether a terminal is polled. The station must know the terminal.
    fn is_called(&self, terminal: usize) -> bool
        requires { terminal < Self.count self.now }
        ensures { result ≡ is_called self.now terminal };

    /// Has a terminal polled from now on, or not. The station must know the terminal.
    fn set_called(&mut self, terminal: usize, polled: bool)
        requires { terminal < Self.count self.old }
        ensures polls { polls self.old terminal polled self.new }
        ensures count { Self.count self.new ≡ Self.count self.old };

    /// Returns the format of its blocks, which has the full length of a record.
    fn format(&self) -> Format
        ensures { result.full ≡ full self.now };

    /// Offers a record on a channel on which the station sends, and returns its number, counted
    /// from 0. If memory is refused, nothing changes.
    fn offer(&mut self, terminal: usize, way: Way, new: Record) -> Result<usize, AllocError>
        requires known { terminal < Self.count self.old }
        requires its_way { IsWay way (Self.selects self.old terminal) }
        requires sends { IsSending (Self.ends self.old terminal way) }
        requires short { length new ≤ full self.old }
        ensures offers { OffersBy offered needs_no_keeping offers self.old terminal way new result
            self.new }
        ensures refused { OnErr result (self.new ≡ self.old) };

    /// Ends the doubt of a channel on which the station sends, of which the other end has this many
    /// records. Fails with `NotInDoubt` or `CountMismatch`; then nothing changes.
    fn release(&mut self, terminal: usize, way: Way, count: usize) -> Result<(), ReleaseError>
        requires known { terminal < Self.count self.old }
        requires its_way { IsWay way (Self.selects self.old terminal) }
        requires sends { IsSending (Self.ends self.old terminal way) }
        ensures releases { releases self.old terminal way count result self.new }
        ensures refused { OnErr result (self.new ≡ self.old) };

    /// Starts or stops accepting selections, and returns true. A control station accepts none: it
    /// returns false, and nothing changes.
    fn set_ready(&mut self, ready: bool) -> bool
        ensures { readies self.old ready result self.new };

    /// Asks for the line, and returns true. A control station returns false, and nothing changes.
    fn set_urgent(&mut self) -> bool
        ensures { urges self.old result self.new };
}
