//! The kinds of what is sent or heard, by their numbers in C.
ghost use Rattle.std.specs.Prelude.{◌≡◌, Some};

use bsc_frame::Reply;

/// The kind of what is heard and, from `Eot` on, also of what is sent: `enum bsc_kind` of `bsc.h`.
/// Its numbers are the places in this list, counted from 0, with the five replies in the place of
/// `Reply`.
#[derive(Clone, Copy, Debug, PartialEq, Eq)]
pub enum Kind {
    /// The octets are noise: they spell no message, and did not fail as a text.
    Noise,

    /// The octets begin as a text and spell no message.
    Failed,

    Eot,
    Call,
    Enq,
    Reply(Reply),
    Text,
}

impl Kind {
    ghost use Rattle.bsc_embed.specs.Kinds.{kind_at};

    /// Returns the kind with this number, 0 to 10.
    pub(crate) fn numbered(number: u32) -> Option<Kind>
        ensures { result ≡ kind_at number }
    {
        match number {
            0 => Some(Kind::Noise),
            1 => Some(Kind::Failed),
            2 => Some(Kind::Eot),
            3 => Some(Kind::Call),
            4 => Some(Kind::Enq),
            5 => Some(Kind::Reply(Reply::Ack0)),
            6 => Some(Kind::Reply(Reply::Ack1)),
            7 => Some(Kind::Reply(Reply::Nak)),
            8 => Some(Kind::Reply(Reply::Wack)),
            9 => Some(Kind::Reply(Reply::Rvi)),
            10 => Some(Kind::Text),
            _ => None,
        }
    }

    /// Returns the number of this kind.
    pub(crate) fn number(self) -> u32
        ensures { kind_at result ≡ Some self }
    {
        match self {
            Kind::Noise => 0,
            Kind::Failed => 1,
            Kind::Eot => 2,
            Kind::Call => 3,
            Kind::Enq => 4,
            Kind::Reply(Reply::Ack0) => 5,
            Kind::Reply(Reply::Ack1) => 6,
            Kind::Reply(Reply::Nak) => 7,
            Kind::Reply(Reply::Wack) => 8,
            Kind::Reply(Reply::Rvi) => 9,
            Kind::Text => 10,
        }
    }
}
