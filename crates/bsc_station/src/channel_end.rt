//! The end of a channel at a station.

ghost use Rattle.std.specs.Prelude.{◌≡◌};
ghost use Rattle.bsc_station.specs.Ends.{queue_end};
ghost use Rattle.bsc_station.specs.EndValues.{end_of};

use bsc_block::Records;
use bsc_spool::Queue;
use std::alloc::Allocator;

/// The state of a channel as known at the station where it ends.
#[derive(Drop)]
pub enum ChannelEnd<'a, A: Allocator> {
    /// The station sends on the channel: the number of records offered, the number known to have
    /// arrived, and whether the last block is in doubt.
    Sending {
        offered: usize,
        known: usize,
        doubt: bool,
    },

    /// The station receives on the channel: the records that arrived.
    Receiving {
        records: &'a Records<A>,
    },
}

/// Returns the channel end of a queue.
pub(crate) fn queue_end<'a, A: Allocator>(queue: &Queue<A>, doubt: bool) -> ChannelEnd<'a, A>
    ensures { end_of result ≡ queue_end queue.now doubt }
{
    ChannelEnd::Sending {
        offered: queue.offered().len(),
        known: queue.known(),
        doubt,
    }
}
