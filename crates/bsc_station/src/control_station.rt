//! The control station as what attends it needs it.

use crate::forgetting::{forget_sent_to_all, is_worth};
use crate::{LineStation, Party};
use bsc_bid::{KeptSender, ReleaseError};
use bsc_block::{Format, Record};
use bsc_control::{Control, Way};
use std::alloc::{AllocError, Allocator};

impl<A: Allocator> LineStation for Control<A> {
    ghost use Rattle.bsc_control.specs.CallOrder.{is_polled};
    ghost use Rattle.bsc_station.specs.Feeding.{IsNoTerminal, OffersToControl, ReleasesControl};
    ghost use Rattle.bsc_station.specs.Feeding.{kept_at_control, offered_control};
    ghost use Rattle.bsc_station.specs.Forgetting.{ForgetsArrivedFrom, ForgetsSent};
    ghost use Rattle.bsc_station.specs.Polling.{PollsTerminal};

    ghost kept_at = { kept_at_control };

    ghost forgets_sent = { ForgetsSent };

    ghost forgets_arrived = { ForgetsArrivedFrom };

    ghost is_called = { is_polled };

    ghost polls = { PollsTerminal };

    ghost offered = { offered_control };

    ghost offers = { OffersToControl };

    ghost full = { λ c. c.setup.format.full };

    ghost releases = { ReleasesControl };

    ghost readies = { λ c _ obeyed new. IsNoTerminal c obeyed new };

    ghost urges = { λ c obeyed new. IsNoTerminal c obeyed new };

    fn kept_at(&self, terminal: usize, select: usize) -> Option<KeptSender> {
        if terminal < Control::terminals(self) && select < Control::addresses(self, terminal) {
            return Some(self.kept(terminal, select));
        }
        None
    }

    fn forget_known(&mut self) {
        'terminals: for terminal in 0..Control::terminals(self) {
            forget_sent_to_all(self, terminal);
        }
    }

    fn forget_first(&mut self, number: usize, count: usize) {
        if number >= Control::terminals(self) {
            return;
        }
        let records = self.spool(number).records();
        if count <= records.len() && is_worth(records, count) {
            Control::forget_arrived(self, number, count);
        }
    }

    fn is_called(&self, terminal: usize) -> bool {
        self.is_polled(terminal)
    }

    fn set_called(&mut self, terminal: usize, polled: bool) {
        self.set_polled(terminal, polled);
    }

    fn format(&self) -> Format {
        self.setup().format()
    }

    fn offer(&mut self, terminal: usize, way: Way, new: Record) -> Result<usize, AllocError> {
        let Way::ToTerminal(select) = way else {
            // The control station sends on no channel from a terminal.
            return Err(AllocError);
        };
        let number = self.queue(terminal, select).offered().len();
        match Control::offer(self, terminal, select, new) {
            Ok(()) => Ok(number),
            Err(_) => Err(AllocError),
        }
    }

    fn release(&mut self, terminal: usize, way: Way, count: usize) -> Result<(), ReleaseError> {
        Control::release(self, terminal, way, count)
    }

    fn set_ready(&mut self, _ready: bool) -> bool {
        false
    }

    fn set_urgent(&mut self) -> bool {
        false
    }
}
