//! Short messages: all messages except texts. They are decoded without a buffer for the units of a
//! text.
ghost use Rattle.std.specs.Prelude.{◌≡◌, IfSome, IfNone};
ghost use Rattle.bsc_frame.specs.Short.{heard_as, IsHeard, BeginsText};
ghost use Rattle.bsc_frame.specs.Reading.{call, control, heard, reply_or_call, whole_or_noise};
ghost use Rattle.bsc_frame.specs.Replies.{reply_spelled};

use crate::body::{after_all, body_of, starts_with};
use crate::{Address, Heard, Message, Reply};
use bsc_octet::controls::{ENQ, EOT, PAD, STX, SYN};

/// What octets that do not begin as a text are heard as: a message without a text, or noise.
#[derive(Clone, Copy, Debug, PartialEq, Eq)]
pub enum Short {
    Eot,
    Call(Address),
    Enq,
    Reply(Reply),

    /// The octets spell nothing.
    Noise,
}

impl Short {
    /// Returns what was heard.
    pub fn heard<'a>(self) -> Heard<'a>
        ensures { result ≡ heard_as self }
    {
        match self {
            Short::Eot => Heard::Whole(Message::Eot),
            Short::Call(address) => Heard::Whole(Message::Call(address)),
            Short::Enq => Heard::Whole(Message::Enq),
            Short::Reply(reply) => Heard::Whole(Message::Reply(reply)),
            Short::Noise => Heard::Noise,
        }
    }
}

/// Returns what a call is heard as, from the octets after its EOT.
#[tactic(auto, unfolding(crate::specs::Reading::call))]
fn short_call(octets: &[u8]) -> Short
    ensures { heard_as result ≡ whole_or_noise (call octets.now) }
{
    match Address::called(after_all(after_all(octets, PAD), SYN)) {
        Some(address) => Short::Call(address),
        None => Short::Noise,
    }
}

/// Returns what a body that does not begin as a text is heard as.
#[tactic(auto, unfolding(crate::specs::Reading::control))]
#[inline(always)]
pub(crate) fn short_of(body: &[u8]) -> Short
    ensures { heard_as result ≡ whole_or_noise (control body.now) }
{
    if body.is_empty() {
        return Short::Noise;
    }
    if body == [EOT].as_slice() {
        Short::Eot
    } else if body == [ENQ].as_slice() {
        Short::Enq
    } else {
        reply_or_call_of(body)
    }
}

/// Returns what a body is heard as that is neither EOT nor ENQ nor a text: a reply, a call, or
/// noise.
#[inline(always)]
fn reply_or_call_of(body: &[u8]) -> Short
    ensures { heard_as result ≡ whole_or_noise (reply_or_call (reply_spelled body.now) body.now) }
{
    if let Some(reply) = Reply::spelled(body) {
        return Short::Reply(reply);
    }
    if starts_with(body, EOT) {
        return short_call(&body[1..]);
    }
    Short::Noise
}

/// Returns what the octets are heard as if they do not begin as a text. If they do, it returns
/// `None`, and [`crate::decode`] returns the text or that it failed. This is for callers that have
/// no buffer and make one for a text only: most transmissions on a line are short (GA27-3004:
/// control sequences, polling and selection).
#[inline(always)]
pub fn decode_short(octets: &[u8]) -> Option<Short>
    ensures reading { IfSome result (λ s. heard_as s ≡ heard octets.now) }
    ensures short { IfSome result (λ s. IsHeard octets.now (heard_as s)) }
    ensures text { IfNone result (BeginsText octets.now) }
{
    let body = body_of(octets);
    if starts_with(body, STX) {
        return None;
    }
    Some(short_of(body))
}
