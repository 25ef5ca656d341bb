//! From octets to the units of a text.
ghost use Rattle.std.specs.Prelude.{◌≡◌, ◌<◌, [], length, map, All, None, IfSome, IfNone, false};
ghost use Rattle.bsc_octet.specs.Octet.{IsOdd, code_in};
ghost use Rattle.bsc_frame.specs.TextBuffers.{buffer_units, IsTextBuffer, AddsUnit, TakesUnit};
ghost use Rattle.bsc_frame.specs.TextBuffers.{ReadsText};
ghost use Rattle.bsc_frame.specs.Reading.{IsFront, AreParts, after_start, read_unit, unit_before};
ghost use Rattle.bsc_frame.specs.Reading.{unit_at, units_at};

use crate::front::before_ending;
use crate::limits::{MAX_CHARS, MAX_UNITS};
use crate::squeeze::{UNIT_ROOM, UnitBuffer, copy_codes, has_fill, squeeze};
use crate::{End, TextBuffer, Unit};
use bsc_octet::controls::{EM, ETB_CODE, STX, US_CODE};
use bsc_octet::{after_check, code_in};

/// Returns the octets without an STX at their front, if they follow the check of a unit with US.
fn without_start(after_us: bool, octets: &[u8]) -> &[u8]
    ensures { result.now ≡ after_start after_us octets.now }
{
    if after_us && !octets.is_empty() && octets[0] == STX {
        &octets[1..]
    } else {
        octets
    }
}

/// The octets of a unit, by their purpose.
struct Parts<'a> {
    chars: &'a [u8],
    em: bool,
    last: u8,
}

/// Splits the octets of a unit into the characters, whether EM follows them, and the last octet.
fn parts_of(octets: &[u8]) -> Parts<'_>
    requires { 0 < length octets.now }
    ensures { AreParts octets.now result.chars.now result.em result.last }
{
    let count = octets.len() - 1;
    let last = octets[count];
    if count > 0 && octets[count - 1] == EM {
        return Parts {
            chars: &octets[..count - 1],
            em: true,
            last,
        };
    }
    Parts {
        chars: &octets[..count],
        em: false,
        last,
    }
}

/// Adds the unit of these octets to the buffer and returns the code of its ending character; `None`
/// if they are not a unit.
fn take_chars(octets: &[u8], buffer: &mut TextBuffer) -> Option<u8>
    requires buffer { IsTextBuffer buffer.old }
    requires room { length (buffer_units buffer.old) < MAX_UNITS }
    requires odd { All IsOdd octets.now }
    requires ends { IsFront octets.now }
    ensures found { IfSome result
        (λ e. AddsUnit buffer.old buffer.new (read_unit (map code_in octets.now)) e) }
    ensures none { IfNone result (read_unit (map code_in octets.now) ≡ None) }
{
    let Parts { chars, em, last } = parts_of(octets);
    if chars.len() > MAX_CHARS {
        return None;
    }
    let mut codes = [0; MAX_CHARS];
    if !copy_codes(chars, &mut codes) {
        return None;
    }
    buffer.push(Unit {
        chars: &codes[..chars.len()],
        em,
    });
    Some(code_in(last))
}

/// Reads the unit of the octets `front`, which have no fill, adds it to the buffer, and returns the
/// code of its ending character and the octets after its check. Returns `None` if the check is
/// wrong or they are not a unit.
fn take_front<'a>(
    after_us: bool,
    front: &[u8],
    octets: &'a [u8],
    buffer: &mut TextBuffer,
) -> Option<(u8, &'a [u8])>
    requires buffer { IsTextBuffer buffer.old }
    requires room { length (buffer_units buffer.old) < MAX_UNITS }
    requires odd { All IsOdd front.now }
    requires ends { IsFront front.now }
    ensures found { IfSome result (λ r. TakesUnit buffer.old buffer.new
        (unit_before after_us (map code_in front.now) octets.entry.now) r.0 r.1.now) }
    ensures none { IfNone result (unit_before after_us (map code_in front.now) octets.now ≡ None) }
{
    let Some(rest) = after_check(front, octets) else {
        return None;
    };
    let Some(ending) = take_chars(without_start(after_us, front), buffer) else {
        return None;
    };
    Some((ending, rest))
}

/// Reads the first unit, adds it to the buffer, and returns the code of its ending character and
/// the octets after its check. Returns `None` if there is no such unit.
fn take_unit<'a>(
    after_us: bool,
    octets: &'a [u8],
    buffer: &mut TextBuffer,
) -> Option<(u8, &'a [u8])>
    requires buffer { IsTextBuffer buffer.old }
    requires room { length (buffer_units buffer.old) < MAX_UNITS }
    requires odd { All IsOdd octets.now }
    ensures found { IfSome result
        (λ r. TakesUnit buffer.old buffer.new (unit_at after_us octets.entry.now) r.0 r.1.now) }
    ensures none { IfNone result (unit_at after_us octets.now ≡ None) }
{
    let place = before_ending(octets);
    if place == octets.len() {
        return None;
    }
    let (front, rest) = octets.split_at(place + 1);
    if !has_fill(front) {
        return take_front(after_us, front, rest, buffer);
    }
    let mut unit: UnitBuffer = [0; UNIT_ROOM];
    let Some(count) = squeeze(front, &mut unit) else {
        return None;
    };
    take_front(after_us, &unit[..count], rest, buffer)
}

/// Reads the units of a text, after its STX, into an empty buffer and returns the end of the text.
/// Returns `None` if the octets are not 1 to 7 units, of which the last ends with ETB or ETX and is
/// followed by nothing.
pub(crate) fn read_units(octets: &[u8], buffer: &mut TextBuffer) -> Option<End>
    requires buffer { IsTextBuffer buffer.old }
    requires empty { buffer_units buffer.old ≡ [] }
    requires odd { All IsOdd octets.now }
    ensures found { IfSome result
        (λ e. ReadsText buffer.new e (units_at MAX_UNITS false octets.now)) }
    ensures none { IfNone result (units_at MAX_UNITS false octets.now ≡ None) }
{
    let mut rest = octets;
    for count in 0..MAX_UNITS {
        let Some((ending, left)) = take_unit(count > 0, rest, buffer) else {
            return None;
        };
        if ending != US_CODE {
            if !left.is_empty() {
                return None;
            }
            return Some(if ending == ETB_CODE {
                End::Etb
            } else {
                End::Etx
            });
        }
        rest = left;
    }
    None
}
