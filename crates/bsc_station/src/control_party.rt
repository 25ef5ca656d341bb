//! The control station and the channels that end at it.

ghost use Rattle.std.specs.Prelude.{◌≡◌, ◌<◌};
ghost use Rattle.bsc_station.specs.Ends.{IsWay};

use crate::channel_end::queue_end;
use crate::{ChannelEnd, Party, Received};
use bsc_control::{Control, Way};
use std::alloc::Allocator;

impl<A: Allocator> Party for Control<A> {
    ghost use Rattle.std.specs.Prelude.{length};
    ghost use Rattle.bsc_control.specs.Control.{peer_at};
    ghost use Rattle.bsc_bid.specs.declared.way.Way.TheVariants.{FromTerminal};
    ghost use Rattle.bsc_station.specs.Ends.{control_end};

    type Memory = A;

    ghost count = { λ c. length c.peers };

    ghost numbers = { λ _ terminal. terminal };

    ghost selects = { λ c t. length (peer_at c t).outbounds };

    ghost ends = { control_end };

    ghost receives = { λ c. length c.peers };

    ghost terminal_of = { λ number. number };

    ghost way_of = { λ _. FromTerminal };

    fn terminals(&self) -> usize {
        Control::terminals(self)
    }

    fn number(&self, terminal: usize) -> usize {
        terminal
    }

    fn addresses(&self, terminal: usize) -> usize {
        Control::addresses(self, terminal)
    }

    fn end(&self, terminal: usize, way: Way) -> ChannelEnd<'_, A> {
        if let Way::ToTerminal(select) = way {
            return queue_end(self.queue(terminal, select), self.in_doubt(terminal, way));
        }
        ChannelEnd::Receiving {
            records: self.spool(terminal).records(),
        }
    }

    fn spools(&self) -> usize {
        Control::terminals(self)
    }

    fn received(&self, number: usize) -> Received<'_, A> {
        Received {
            terminal: number,
            way: Way::FromTerminal,
            records: self.spool(number).records(),
        }
    }
}
