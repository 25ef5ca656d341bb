//! Encoding for C.
ghost use Rattle.std.specs.Prelude.{◌≡◌, ◌++◌, length, drop};
ghost use Rattle.bsc_embed.specs.Contents.{message_in};
ghost use Rattle.bsc_embed.specs.Sent.{octets_within};

use crate::{Content, Kind};
use bsc_frame::{Message, TextBuffer, Wire, encode};

/// Returns the message of this kind with this content, if it is one. The units of a text are copied
/// into the buffer.
#[tactic(auto, unfolding(crate::specs::Contents::message_in))]
fn message_of<'a>(number: u32, content: &Content, buffer: &'a mut TextBuffer) -> Option<Message<'a>>
    ensures { result ≡ message_in number content.now }
{
    match Kind::numbered(number)? {
        Kind::Noise | Kind::Failed => None,
        Kind::Eot => Some(Message::Eot),
        Kind::Call => Some(Message::Call(content.address()?)),
        Kind::Enq => Some(Message::Enq),
        Kind::Reply(reply) => Some(Message::Reply(reply)),
        Kind::Text => Some(Message::Text(content.text(buffer)?)),
    }
}

/// Stores the octets of the message of this kind with this content at the front of the buffer, and
/// returns their number, at most 1,033 (GA27-3004: control sequences, polling and selection, ITB
/// blocks). Returns 0, and leaves the buffer unchanged, if this is no message or if the buffer is
/// too short. In C `octets` is two arguments, a pointer and a length, as `bsc.h` declares them.
#[unsafe(no_mangle)]
pub extern "C" fn bsc_encode(kind: u32, content: &Content, octets: &mut [u8]) -> usize
    ensures count { result
        ≡ length (octets_within (length octets.old) (message_in kind content.now)) }
    ensures octets { octets.new
        ≡ octets_within (length octets.old) (message_in kind content.now)
        ++ drop result octets.old }
{
    let mut buffer = TextBuffer::new();
    let Some(message) = message_of(kind, content, &mut buffer) else {
        return 0;
    };
    let mut wire = Wire::new();
    encode(&message, &mut wire);
    let len = wire.len();
    if len > octets.len() {
        return 0;
    }
    octets[..len].copy_from_slice(&wire);
    len
}
