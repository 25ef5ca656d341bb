//! What a station heard of a transmission: the kind of message, and whether it is the one that was
//! sent.

use bsc_frame::{Heard, Message, Reply, TextBuffer, Wire, decode, encode};

/// The kind of what is heard.
#[derive(Clone, Copy, PartialEq, Eq)]
pub(crate) enum Kind {
    Eot,
    Call,
    Enq,
    Reply(Reply),
    Text,
    Failed,
    Noise,
}

/// What a station heard, and whether it is the message that was sent.
#[derive(Clone, Copy)]
pub(crate) struct Hearing {
    pub(crate) kind: Kind,
    pub(crate) itself: bool,
}

impl Default for Hearing {
    /// Nothing, or noise.
    fn default() -> Hearing {
        Hearing {
            kind: Kind::Noise,
            itself: false,
        }
    }
}

impl Kind {
    /// The kind of a message.
    pub(crate) fn of(message: &Message<'_>) -> Kind {
        match message {
            Message::Eot => Kind::Eot,
            Message::Call(_) => Kind::Call,
            Message::Enq => Kind::Enq,
            Message::Reply(reply) => Kind::Reply(*reply),
            Message::Text(_) => Kind::Text,
        }
    }

    /// Whether this is a reply from which a sender may learn that its block arrived.
    pub(crate) fn is_positive(self) -> bool {
        matches!(self, Kind::Reply(reply) if reply != Reply::Nak)
    }

    /// Whether this message takes the line from a terminal that is sending.
    pub(crate) fn takes_line(self) -> bool {
        matches!(self, Kind::Eot | Kind::Call)
    }
}

/// The octets that are sent for the message.
pub fn octets_of(message: &Message<'_>) -> Wire {
    let mut octets = Wire::new();
    encode(message, &mut octets);
    octets
}

/// Whether the message is encoded as these octets. Messages are compared by their encodings, not by
/// `==`.
pub(crate) fn is_sent_as(message: &Message<'_>, octets: &[u8]) -> bool {
    octets_of(message).as_slice() == octets
}

/// What a station hears if `sent` was sent and `heard` arrives, or nothing does.
pub(crate) fn hear(sent: &[u8], heard: Option<&[u8]>) -> Hearing {
    let Some(octets) = heard else {
        return Hearing::default();
    };
    match decode(octets, &mut TextBuffer::new()) {
        Heard::Whole(message) => Hearing {
            kind: Kind::of(&message),
            itself: is_sent_as(&message, sent),
        },
        Heard::Failed => Hearing {
            kind: Kind::Failed,
            itself: false,
        },
        Heard::Noise => Hearing::default(),
    }
}

/// The kind of what the station of this number heard; noise if there is no such hearing.
pub(crate) fn kind_at(hearings: &[Hearing], station: usize) -> Kind {
    match hearings.get(station) {
        Some(hearing) => hearing.kind,
        None => Kind::Noise,
    }
}

/// Whether a message of this kind was heard fairly by the stations that hear it. A text is heard
/// fairly if each station hears the text itself, a failed text, or noise. A call is heard fairly if
/// all stations hear it whole, or none does and each hears EOT or noise. Any other message is heard
/// fairly if each station hears the message itself or noise.
pub(crate) fn is_fair(sent: Kind, hearings: &[Hearing]) -> bool {
    match sent {
        Kind::Text => hearings.iter().all(|hearing| {
            hearing.itself || matches!(hearing.kind, Kind::Failed | Kind::Noise)
        }),
        Kind::Call => {
            hearings.iter().all(|hearing| hearing.itself)
                || hearings
                    .iter()
                    .all(|hearing| matches!(hearing.kind, Kind::Eot | Kind::Noise))
        }
        _ => hearings
            .iter()
            .all(|hearing| hearing.itself || hearing.kind == Kind::Noise),
    }
}
