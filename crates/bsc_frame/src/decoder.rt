//! From octets to what they are heard as. Whatever comes in from the line is decoded in this crate
//! and nowhere else, so that the layers above act only on messages.
ghost use Rattle.std.specs.Prelude.{◌≡◌, ◌↔◌, false};
ghost use Rattle.bsc_frame.specs.Spells.{Spells, IsFailed, IsNoise};
ghost use Rattle.bsc_frame.specs.declared.message.Message.{Message};
ghost use Rattle.bsc_frame.specs.Reading.{heard, units_at, whole_or_failed};

use crate::body::{body_of, starts_with};
use crate::limits::MAX_UNITS;
use crate::short::short_of;
use crate::unit_decoder::read_units;
use crate::{Heard, Message, TextBuffer};
use bsc_octet::all_odd;
use bsc_octet::controls::STX;

/// Returns what a text is heard as, from the octets after its STX. Its units are left in the
/// buffer.
#[tactic(auto, using(crate::proofs::OddTexts::not_odd_fails))]
fn text_heard<'a>(units: &[u8], buffer: &'a mut TextBuffer) -> Heard<'a>
    ensures { result ≡ whole_or_failed (units_at MAX_UNITS false units.now) }
{
    if !all_odd(units) {
        return Heard::Failed;
    }
    buffer.clear();
    let Some(end) = read_units(units, buffer) else {
        return Heard::Failed;
    };
    buffer.set_end(end);
    Heard::Whole(Message::Text(buffer.text()))
}

/// Decodes the octets of one transmission, whatever they are. The result is `Whole` if they spell a
/// message, with any pads and fill that are accepted, `Failed` if they begin as a text and spell no
/// message, and `Noise` otherwise. More than 2,048 octets are `Noise`. The units of a text are left
/// in the buffer, whatever was there, and borrowed from it. (GA27-3004: control sequences, polling
/// and selection, text blocks, VRC and LRC checking. How far pads and fill are accepted is this
/// project's own.)
pub fn decode<'a>(octets: &[u8], buffer: &'a mut TextBuffer) -> Heard<'a>
    ensures reading { result ≡ heard octets.now }
    ensures whole { (m : Message) → (result ≡ Heard.Whole m) ↔ Spells octets.now m }
    ensures failed { (result ≡ Heard.Failed) ↔ IsFailed octets.now }
    ensures noise { (result ≡ Heard.Noise) ↔ IsNoise octets.now }
{
    octets_heard(octets, buffer)
}

/// Decodes the octets from left to right.
#[tactic(auto, unfolding(crate::specs::Reading::heard_body))]
fn octets_heard<'a>(octets: &[u8], buffer: &'a mut TextBuffer) -> Heard<'a>
    ensures { result ≡ heard octets.now }
{
    let body = body_of(octets);
    if starts_with(body, STX) {
        return text_heard(&body[1..], buffer);
    }
    short_of(body).heard()
}
