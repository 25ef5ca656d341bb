//! Loops over the octets of a unit. They always run to the end, so that a compiler vectorizes them
//! or uses block moves: a branch that depends on the octet costs more than the work that it saves.
ghost use Rattle.std.specs.Prelude.{◌≡◌, ◌<◌, ◌≤◌, ◌+◌, ◌++◌, length, take, map, filter, IfSome};
ghost use Rattle.std.specs.Prelude.{IfNone};
ghost use Rattle.std.specs.List.{list_any, list_all};
ghost use Rattle.bsc_octet.specs.Octet.{is_record_char, code_in};
ghost use Rattle.bsc_frame.specs.Reading.{is_octet, is_other, is_char_octet};

use crate::limits::{MAX_CHARS, MAX_UNIT_CODES};
use bsc_octet::controls::SYN;
use bsc_octet::{code_in, is_record_char};

/// One octet more, without fill, than a unit has before its check.
const TOO_MANY: usize = MAX_UNIT_CODES + 1;

/// The number of octets that are squeezed before their count is tested.
const PART: usize = 16;

/// Room for one octet more than a unit has, and for one part more.
pub(crate) const UNIT_ROOM: usize = TOO_MANY + PART;

/// A buffer for the octets of a unit without fill.
pub(crate) type UnitBuffer = [u8; UNIT_ROOM];

/// Returns whether there is a SYN among the octets.
#[tactic(auto, using(crate::proofs::Squeezing::fill_more))]
pub(crate) fn has_fill(octets: &[u8]) -> bool
    ensures { result ≡ list_any (is_octet SYN) octets.now }
{
    let mut found = false;
    for octet in octets {
        found |= *octet == SYN;
    }
    found
}

/// Writes the octets other than SYN after the first `start` octets of the buffer, and returns the
/// new count. Each octet is stored; a SYN is overwritten by the next octet.
#[inline(always)]
#[tactic(auto, using(crate::proofs::Squeezing::squeeze_more))]
fn squeeze_part(octets: &[u8], buffer: &mut UnitBuffer, start: usize) -> usize
    requires part { length octets.now ≤ PART }
    requires start { start ≤ TOO_MANY }
    ensures octets { take result buffer.new ≡ take start buffer.old ++ filter is_other octets.now }
    ensures count { result ≤ start + length octets.now }
{
    let mut count = start;
    for octet in octets {
        buffer[count] = *octet;
        count += usize::from(*octet != SYN);
    }
    count
}

/// Writes the octets other than SYN to the front of the buffer and returns their count, which may
/// be up to `UNIT_ROOM`. `None` means that there are more than a unit has before its check.
#[tactic(auto, using(crate::proofs::Squeezing::part_steps))]
pub(crate) fn squeeze(octets: &[u8], buffer: &mut UnitBuffer) -> Option<usize>
    ensures some { IfSome result (λ n. (n ≤ UNIT_ROOM)
        × (take n buffer.new ≡ filter is_other octets.now)) }
    ensures none { IfNone result (MAX_UNIT_CODES < length (filter is_other octets.now)) }
{
    let mut at = 0;
    let mut count = 0;
    while octets.len() - at >= PART {
        if count >= TOO_MANY {
            return None;
        }
        count = squeeze_part(&octets[at..at + PART], buffer, count);
        at += PART;
    }
    if count >= TOO_MANY {
        return None;
    }
    Some(squeeze_part(&octets[at..], buffer, count))
}

/// Writes the codes of the octets to the front of the buffer, and returns whether all of them are
/// record characters.
#[tactic(auto, using(crate::proofs::Squeezing::code_steps))]
pub(crate) fn copy_codes(octets: &[u8], buffer: &mut [u8; MAX_CHARS]) -> bool
    requires { length octets.now ≤ MAX_CHARS }
    ensures codes { take (length octets.now) buffer.new ≡ map code_in octets.now }
    ensures chars { result ≡ list_all is_char_octet octets.now }
{
    let mut chars = true;
    for (i, octet) in octets.iter().enumerate() {
        let code = code_in(*octet);
        buffer[i] = code;
        chars &= is_record_char(code);
    }
    chars
}
