//! The replies of a receiver: the octets and the name of each. Other modules treat all replies
//! alike, as a [`Reply`].
ghost use Rattle.std.specs.Prelude.{◌≡◌, ◌≤◌, length};
ghost use Rattle.bsc_frame.specs.Replies.{reply_octets, reply_name, reply_spelled};

use bsc_octet::controls::{ACK0, ACK1, NAK, RVI, WACK};

/// A reply of a receiver (GA27-3004: control characters and sequences).
#[derive(Clone, Copy, Debug, PartialEq, Eq)]
pub enum Reply {
    /// ACK0: positive acknowledgement of the blocks with an even number, and of a selection
    /// (GA27-3004: alternating acknowledgements).
    Ack0,

    /// ACK1: positive acknowledgement of the blocks with an odd number.
    Ack1,

    /// NAK: asks for the block again, or refuses a selection (GA27-3004: negative acknowledgement).
    Nak,

    /// WACK: positive acknowledgement from a station that cannot receive more for now (GA27-3004:
    /// wait before transmit).
    Wack,

    /// RVI: positive acknowledgement that asks the sender to end its transmission (GA27-3004:
    /// reverse interrupt).
    Rvi,
}

impl Reply {
    /// Returns the octets that carry the reply, one or two, as they are sent after SYN and before
    /// PAD.
    pub fn octets(self) -> &'static [u8]
        ensures octets { result.now ≡ reply_octets self }
        ensures short { length result.now ≤ 2 }
    {
        match self {
            Reply::Ack0 => ACK0.as_slice(),
            Reply::Ack1 => ACK1.as_slice(),
            Reply::Nak => &[NAK],
            Reply::Wack => WACK.as_slice(),
            Reply::Rvi => RVI.as_slice(),
        }
    }

    /// Returns the name of the reply, in capital letters.
    pub fn name(self) -> &'static str
        ensures { result.now ≡ reply_name self }
    {
        match self {
            Reply::Ack0 => "ACK0",
            Reply::Ack1 => "ACK1",
            Reply::Nak => "NAK",
            Reply::Wack => "WACK",
            Reply::Rvi => "RVI",
        }
    }

    /// Returns the reply whose octets these are, or `None` if they are not those of a reply.
    #[inline(always)]
    pub(crate) fn spelled(body: &[u8]) -> Option<Reply>
        ensures { result ≡ reply_spelled body.now }
    {
        if body == ACK0.as_slice() {
            Some(Reply::Ack0)
        } else if body == ACK1.as_slice() {
            Some(Reply::Ack1)
        } else if body == [NAK].as_slice() {
            Some(Reply::Nak)
        } else if body == WACK.as_slice() {
            Some(Reply::Wack)
        } else if body == RVI.as_slice() {
            Some(Reply::Rvi)
        } else {
            None
        }
    }
}
