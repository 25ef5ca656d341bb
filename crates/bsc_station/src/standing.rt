//! The state of the channels that end at a station.

ghost use Rattle.std.specs.Prelude.{◌≡◌, false};
ghost use Rattle.bsc_station.specs.EndValues.{end_of};

use crate::ChannelEnd;
use std::alloc::Allocator;

/// The state of the channels on which a station sends.
#[derive(Clone, Copy, Debug, PartialEq, Eq)]
pub struct Standing {
    /// On some channel it is in doubt whether the last block arrived.
    pub doubt: bool,

    /// On some channel that is not in doubt, records were offered that are not known to have
    /// arrived.
    pub waiting: bool,
}

impl Standing {
    ghost use Rattle.bsc_station.specs.Ends.{both, standing_at, standing_of};

    /// Returns the state of a station that sends on no channel.
    pub(crate) fn nothing() -> Standing
        ensures { result ≡ standing_of false false }
    {
        Standing {
            doubt: false,
            waiting: false,
        }
    }

    /// Returns the state of the channel with this end.
    pub(crate) fn of<A: Allocator>(end: ChannelEnd<'_, A>) -> Standing
        ensures { result ≡ standing_at (end_of end.entry) }
    {
        match end {
            ChannelEnd::Sending {
                offered,
                known,
                doubt,
            } => Standing {
                doubt,
                waiting: !doubt && known < offered,
            },
            ChannelEnd::Receiving { .. } => Standing::nothing(),
        }
    }

    /// Combines the states of two groups of channels.
    pub(crate) fn and(self, other: Standing) -> Standing
        ensures { result ≡ both self other }
    {
        Standing {
            doubt: self.doubt || other.doubt,
            waiting: self.waiting || other.waiting,
        }
    }
}
