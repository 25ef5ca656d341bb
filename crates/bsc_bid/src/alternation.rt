//! Whether the number of blocks taken in a bid is even or odd, by which the two acknowledgements
//! alternate.

ghost use Rattle.std.specs.Prelude.{◌≡◌};
ghost use Rattle.bsc_bid.specs.Answer.{ack, other};

use bsc_frame::Reply;

/// Whether a number of blocks is even or odd (GA27-3004: alternating acknowledgements).
#[derive(Clone, Copy, Debug, PartialEq, Eq)]
pub enum Alternation {
    /// The number is even and acknowledged by ACK0.
    Even,

    /// The number is odd and acknowledged by ACK1.
    Odd,
}

impl Alternation {
    /// Returns whether the number is even or odd once one more block is taken.
    pub fn other(self) -> Alternation
        ensures { result ≡ other self }
    {
        match self {
            Alternation::Even => Alternation::Odd,
            Alternation::Odd => Alternation::Even,
        }
    }

    /// Returns the acknowledgement of this number of blocks.
    pub fn ack(self) -> Reply
        ensures { result ≡ ack self }
    {
        match self {
            Alternation::Even => Reply::Ack0,
            Alternation::Odd => Reply::Ack1,
        }
    }
}
