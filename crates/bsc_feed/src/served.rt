//! Stations that programs feed.

ghost use Rattle.std.specs.Prelude.{◌≡◌, ◌<◌, ◌≤◌, ℕ, Bool, List, Option, Result, length};
ghost use Rattle.bsc_bid.specs.declared.way.Way.{Way as WayValue};
ghost use Rattle.bsc_feed.specs.declared.fault.Fault.{Fault as FaultValue};
ghost use Rattle.bsc_station.specs.Offering.{IsSending, OffersBy};
ghost use Rattle.bsc_station.specs.Ends.{IsWay};
ghost use Rattle.bsc_monitor.specs.declared.attendance.Presence.{Presence as PresenceValue};

use crate::Fault;
use bsc_bid::Way;
use bsc_block::{Format, Record};
use bsc_monitor::Presence;
use bsc_station::Party;

/// A station that is fed while it runs. Terminals are counted from 0 among those that the station
/// knows. After a fault nothing of the station has changed that a program could see, but for
/// `NotKept`, after which the station has to end.
pub trait Served: Party {
    /// The records that were offered on each channel on which the station sends, in order.
    ghost offered: { Self → ℕ → WayValue → List (List ℕ) };

    /// The record of this number, counted from 0, is kept: with a store, on the disk. Without one
    /// it is so of each.
    ghost is_kept: { Self → ℕ → WayValue → ℕ → Type 0 };

    /// What else an offer does: the station before, the terminal, the direction, the characters,
    /// the result, the station after.
    ghost offers: { Self → ℕ → WayValue → List ℕ → Result ℕ FaultValue → Self → Type 0 };

    /// The full length of its records.
    ghost full: { Self → ℕ };

    /// What a release does: the station before, the terminal, the direction, the count, the result,
    /// the station after.
    ghost releases: { Self → ℕ → WayValue → ℕ → Result (Unit {0}) FaultValue → Self → Type 0 };

    /// What it does to accept selections, or to stop it: the station before, whether it accepts
    /// them, the result, the station after.
    ghost readies: { Self → Bool → Result (Unit {0}) FaultValue → Self → Type 0 };

    /// What it does to ask for the line: the station before, the result, the station after.
    ghost urges: { Self → Result (Unit {0}) FaultValue → Self → Type 0 };

    /// What it does to call a terminal again, or to call it no more: the station before, the
    /// terminal, whether it is to be called, the result, the station after.
    ghost polls: { Self → ℕ → Bool → Result (Unit {0}) FaultValue → Self → Type 0 };

    /// What a control station knows of whether the terminal with this number is there.
    ghost shows: { Self → ℕ → Option PresenceValue };

    /// What it does to end: a control station after the present visit, a terminal once it is
    /// in control mode.
    ghost stops: { Self → Self → Type 0 };

    /// Returns the format of its blocks, which has the full length of a record.
    fn format(&self) -> Format
        ensures { result.full ≡ full self.now };

    /// Offers a record on a channel on which the station sends, keeps it, and returns its number,
    /// counted from 0. Fails with `OutOfMemory` or `NotKept`; then nothing is offered.
    fn offer(&mut self, terminal: usize, way: Way, new: Record) -> Result<usize, Fault>
        requires known { terminal < Self.count self.old }
        requires its_way { IsWay way (Self.selects self.old terminal) }
        requires sends { IsSending (Self.ends self.old terminal way) }
        requires short { length new ≤ full self.old }
        ensures { OffersBy offered is_kept offers self.old terminal way new result self.new };

    /// Ends the doubt of a channel on which the station sends, of which the other end has this many
    /// records. Fails with `NotInDoubt`, `CountMismatch` or `NotKept`.
    fn release(&mut self, terminal: usize, way: Way, count: usize) -> Result<(), Fault>
        requires known { terminal < Self.count self.old }
        requires its_way { IsWay way (Self.selects self.old terminal) }
        requires sends { IsSending (Self.ends self.old terminal way) }
        ensures { releases self.old terminal way count result self.new };

    /// Starts or stops accepting selections. Fails with `NotATerminal` at a control station.
    fn set_ready(&mut self, ready: bool) -> Result<(), Fault>
        ensures { readies self.old ready result self.new };

    /// Asks for the line. Fails with `NotATerminal` at a control station.
    fn set_urgent(&mut self) -> Result<(), Fault>
        ensures { urges self.old result self.new };

    /// Has a control station call the terminal with this number again, or call it no more. Fails
    /// with `NoSuchTerminal` if the station does not call a terminal with this number.
    fn set_polled(&mut self, terminal: usize, polled: bool) -> Result<(), Fault>
        ensures { polls self.old terminal polled result self.new };

    /// Returns what a control station knows of whether the terminal with this number is there;
    /// `None` if the station does not call a terminal with this number.
    fn presence(&self, terminal: usize) -> Option<Presence>
        ensures { result ≡ shows self.now terminal };

    /// Ends a control station after the present visit, and a terminal once it is in control mode.
    fn stop(&mut self)
        ensures { stops self.old self.new };
}
