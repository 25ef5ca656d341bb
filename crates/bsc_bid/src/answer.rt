//! The meaning of a reply to the block that waits for one.
ghost use Rattle.std.specs.Prelude.{◌≡◌};
ghost use Rattle.bsc_bid.specs.Answer.{answer_of};

use crate::alternation::Alternation;
use bsc_frame::Reply;

/// The meaning of a reply to a block (GA27-3004: alternating acknowledgements, WACK and RVI).
#[derive(Clone, Copy, Debug, PartialEq, Eq)]
pub(crate) enum Answer {
    /// The acknowledgement that the block expects.
    Accepted,

    /// The other acknowledgement, or NAK.
    Refused,

    /// WACK.
    Delayed,

    /// RVI.
    Interrupted,
}

impl Answer {
    /// Returns the meaning of the reply to a block. The alternation is that of the number of blocks
    /// taken once the block is taken.
    pub(crate) fn of(reply: Reply, alternation: Alternation) -> Answer
        ensures { result ≡ answer_of alternation reply }
    {
        match (alternation, reply) {
            (Alternation::Odd, Reply::Ack1) | (Alternation::Even, Reply::Ack0) => Answer::Accepted,
            (Alternation::Odd, Reply::Ack0) | (Alternation::Even, Reply::Ack1) | (_, Reply::Nak) =>
                Answer::Refused,
            (_, Reply::Wack) => Answer::Delayed,
            (_, Reply::Rvi) => Answer::Interrupted,
        }
    }
}
