//! The phase of a sender: how far it is with its bid.

use crate::alternation::Alternation;
use bsc_frame::End;

/// A block that was sent.
#[derive(Clone, Copy, Debug, PartialEq, Eq)]
pub struct SentBlock {
    /// The number of its records, 1 to 7.
    pub count: usize,

    /// The character that ends it.
    pub end: End,

    /// Whether the number of blocks taken in the bid is even or odd once this one is taken.
    pub alternation: Alternation,
}

/// How far a sender is with its bid.
#[derive(Clone, Copy, Debug, PartialEq, Eq)]
pub enum Phase {
    /// There is no bid and no doubt.
    Idle,

    /// A block was sent, and no reply to it was understood.
    Unanswered { block: SentBlock },

    /// WACK was the reply to a block with this end. The sender waits for the acknowledgement: ACK0
    /// or ACK1, depending on whether the number of blocks taken is even or odd.
    Held { end: End, alternation: Alternation },

    /// There is no bid, and it is not known whether the next `count` records arrived.
    InDoubt { count: usize },
}
