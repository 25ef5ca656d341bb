//! Changes of what is kept. What a station changes of its records in one step is a list of them.

use crate::Channel;
use bsc_block::Record;

/// A change of what is kept of a channel.
#[derive(Debug, Drop)]
pub enum Change {
    /// A record was offered at the sending end.
    Offered {
        channel: Channel,
        record: Record,
    },

    /// This many of the offered records, from the first, are known to have arrived, and the block
    /// that is unanswered or in doubt has this many of those that follow: 0 to 7.
    Known {
        channel: Channel,
        known: u32,
        in_doubt: u32,
    },

    /// A record arrived at the receiving end.
    Arrived {
        channel: Channel,
        record: Record,
    },

    /// This many of the records that arrived, from the first, were printed.
    Printed {
        channel: Channel,
        count: u32,
    },
}
