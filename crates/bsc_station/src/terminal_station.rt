//! A terminal as what attends it needs it.

use crate::forgetting::is_worth;
use crate::{ChannelEnd, LineStation, LineTerminal, Party};
use bsc_bid::{KeptSender, ReleaseError, Way};
use bsc_block::{Format, Record};
use std::alloc::{AllocError, Allocator};

impl<A: Allocator> LineStation for LineTerminal<A> {
    ghost use Rattle.std.specs.Prelude.{◌≡◌, Some, true};
    ghost use Rattle.bsc_bid.specs.Stored.{kept_of};
    ghost use Rattle.bsc_station.specs.Feeding.{OffersToTerminal, ReadiesTerminal};
    ghost use Rattle.bsc_station.specs.Feeding.{ReleasesTerminal, UrgesTerminal, offered_terminal};
    ghost use Rattle.bsc_station.specs.Forgetting.{ForgetsArrivedFor, ForgetsOwn};

    ghost kept_at = { λ l _ _. Some (kept_of l.tributary.sender l.tributary.queue) };

    ghost forgets_sent = { ForgetsOwn };

    ghost forgets_arrived = { ForgetsArrivedFor };

    ghost is_called = { λ _ _. true };

    ghost polls = { λ old _ _ new. new ≡ old };

    ghost offered = { offered_terminal };

    ghost offers = { OffersToTerminal };

    ghost full = { λ l. l.tributary.queue.format.full };

    ghost releases = { λ l _ _ count result new. ReleasesTerminal l count result new };

    ghost readies = { ReadiesTerminal };

    ghost urges = { UrgesTerminal };

    fn kept_at(&self, _terminal: usize, _select: usize) -> Option<KeptSender> {
        Some(self.kept())
    }

    fn forget_known(&mut self) {
        let queue = self.queue();
        let known = queue.known();
        if is_worth(queue.offered(), known) {
            self.forget_sent(known);
        }
    }

    fn forget_first(&mut self, number: usize, count: usize) {
        if number >= self.spools() {
            return;
        }
        let records = self.received(number).records;
        if count <= records.len() && is_worth(records, count) {
            LineTerminal::forget_arrived(self, number, count);
        }
    }

    fn is_called(&self, _terminal: usize) -> bool {
        true
    }

    fn set_called(&mut self, _terminal: usize, _polled: bool) {}

    fn format(&self) -> Format {
        LineTerminal::format(self)
    }

    fn offer(&mut self, terminal: usize, way: Way, new: Record) -> Result<usize, AllocError> {
        let number = match self.end(terminal, way) {
            ChannelEnd::Sending { offered, .. } => offered,
            // A terminal receives on each channel to it.
            ChannelEnd::Receiving { .. } => return Err(AllocError),
        };
        match LineTerminal::offer(self, new) {
            Ok(()) => Ok(number),
            Err(_) => Err(AllocError),
        }
    }

    fn release(&mut self, _terminal: usize, _way: Way, count: usize) -> Result<(), ReleaseError> {
        LineTerminal::release(self, count)
    }

    fn set_ready(&mut self, ready: bool) -> bool {
        LineTerminal::set_ready(self, ready);
        true
    }

    fn set_urgent(&mut self) -> bool {
        LineTerminal::set_urgent(self);
        true
    }
}
