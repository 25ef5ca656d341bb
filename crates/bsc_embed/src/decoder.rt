//! Decoding for C.
ghost use Rattle.std.specs.Prelude.{◌≡◌, ◌↔◌, Some};
ghost use Rattle.bsc_frame.specs.Short.{heard_as, BeginsText};
ghost use Rattle.bsc_frame.specs.Spells.{Spells, IsFailed, IsNoise};
ghost use Rattle.bsc_frame.specs.declared.message.Message.{Message};
ghost use Rattle.bsc_embed.specs.Contents.{message_in};
ghost use Rattle.bsc_embed.specs.Decoded.{StandsFor, KeepsRest, KeepsRestOfHeard, Tells};

use crate::{Content, Kind};
use bsc_frame::{Heard, Message, Short, TextBuffer, decode, decode_short};

/// Stores in the content what the short message holds, and returns its kind.
fn put_short(short: &Short, content: &mut Content) -> Kind
    ensures left { StandsFor (heard_as short.now) result content.new }
    ensures kept { KeepsRestOfHeard (heard_as short.now) content.old content.new }
{
    match short {
        Short::Eot => Kind::Eot,
        Short::Call(address) => {
            content.put_address(address);
            Kind::Call
        }
        Short::Enq => Kind::Enq,
        Short::Reply(reply) => Kind::Reply(*reply),
        Short::Noise => Kind::Noise,
    }
}

/// Decodes octets that begin as a text. It is a separate function so that only this call needs room
/// for a text.
#[inline(never)]
fn decode_text(octets: &[u8], content: &mut Content) -> Kind
    requires { BeginsText octets.now }
    ensures { Tells octets.now result content.old content.new }
{
    let mut buffer = TextBuffer::new();
    match &decode(octets, &mut buffer) {
        Heard::Whole(message) => match message {
            Message::Text(text) => {
                content.put_text(text);
                Kind::Text
            }
            _ => unreachable!(),
        },
        Heard::Failed => Kind::Failed,
        Heard::Noise => unreachable!(),
    }
}

/// Stores in the content what the octets are heard as, and returns its kind.
#[inline(always)]
fn decode_kind(octets: &[u8], content: &mut Content) -> Kind
    ensures { Tells octets.now result content.old content.new }
{
    match &decode_short(octets) {
        Some(short) => put_short(short, content),
        None => decode_text(octets, content),
    }
}

/// Returns the number of the kind that the octets are heard as: 0 if they are noise, 1 if they
/// begin as a text and spell no message, else the number of the message that they spell (GA27-3004:
/// control sequences, polling and selection, ITB blocks, VRC and LRC checking). The address of a
/// call, or the units and the end of a text, are stored in the content, and the rest of it is
/// unchanged. In C `octets` is two arguments, a pointer and a length, as `bsc.h` declares them.
#[unsafe(no_mangle)]
pub extern "C" fn bsc_decode(octets: &[u8], content: &mut Content) -> u32
    ensures whole { (m : Message) → (message_in result content.new ≡ Some m) ↔ Spells octets.now m }
    ensures failed { (result ≡ 1) ↔ IsFailed octets.now }
    ensures noise { (result ≡ 0) ↔ IsNoise octets.now }
    ensures kept { (m : Message) → Spells octets.now m → KeepsRest m content.old content.new }
    ensures unspelled { ((m : Message) → Spells octets.now m → ⊥) → content.new ≡ content.old }
{
    decode_kind(octets, content).number()
}
