//! The words of exchanges: transmissions and records by their names, and numbers.

ghost use Rattle.std.specs.Prelude.{◌≤◌, length, IfSome};

use bsc_block::{Record, Records};
use bsc_frame::Wire;
use std::alloc::Allocator;
use test_fixtures::octets;

/// What is heard in a silence, and sent by a station that stays quiet.
const NOTHING: &[u8] = &[];

/// The transmission of this name: a polling call by `A` or `B`, a selecting one by `a`, `b` or `c`,
/// a control sequence, the text of the record HI, of an empty one, or of seven empty ones with ETB
/// (`7+`) or ETX (`7.`), a text that fails, noise, or nothing (`-`).
pub(crate) fn octets_of(name: &str) -> Option<&'static [u8]> {
    match name {
        "-" => Some(NOTHING),
        "A" => Some(octets::CALL_POLL_A),
        "B" => Some(octets::CALL_POLL_B),
        "a" => Some(octets::CALL_SELECT_A),
        "b" => Some(octets::CALL_SELECT_B),
        "c" => Some(octets::CALL_SELECT_C),
        "EOT" => Some(octets::EOT),
        "ENQ" => Some(octets::ENQ),
        "NAK" => Some(octets::NAK),
        "ACK0" => Some(octets::ACK0),
        "ACK1" => Some(octets::ACK1),
        "WACK" => Some(octets::WACK),
        "RVI" => Some(octets::RVI),
        "HI" => Some(octets::TEXT_HI),
        "1." => Some(octets::TEXT_EMPTY),
        "7+" => Some(octets::TEXT_FIRST_SEVEN),
        "7." => Some(octets::TEXT_LAST_SEVEN),
        "failed" => Some(octets::BROKEN_TEXT),
        "noise" => Some(octets::NOISE),
        _ => None,
    }
}

/// Whether a station that reports whether it sends has sent exactly the expected octets.
pub(crate) fn has_sent(wire: &Wire, sends: bool, expected: &[u8]) -> bool {
    sends != expected.is_empty() && wire.as_slice() == expected
}

/// The characters of the record HI.
const HI: &[u8] = b"HI";

/// The characters of an empty record.
const EMPTY: &[u8] = b"";

/// The characters of the record that a letter stands for: HI for `H`, none for `-`.
pub(crate) fn chars_of(letter: u8) -> &'static [u8] {
    if letter == b'H' { HI } else { EMPTY }
}

/// The record of these characters, at most 80, if they are one.
pub(crate) fn card(chars: &[u8]) -> Option<Record>
    ensures { IfSome result (λ r. length r ≤ 80) }
{
    Record::read(chars, 80).ok()
}

/// Whether these are the records that the letters stand for; those that are forgotten are empty.
pub(crate) fn are_spelled<A: Allocator>(records: &Records<A>, letters: &[u8]) -> bool {
    if records.len() != letters.len() {
        return false;
    }
    for (place, letter) in letters.iter().enumerate() {
        if records.chars(place) != chars_of(*letter) {
            return false;
        }
    }
    true
}

/// The number in decimal digits.
pub(crate) fn number_in(digits: &str) -> Option<usize> {
    digits.parse::<usize>().ok()
}
