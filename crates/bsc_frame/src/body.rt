//! The body of a transmission: the octets between the SYN at its front and the PAD at its end.
ghost use Rattle.std.specs.Prelude.{◌≡◌, ◌<◌, length};
ghost use Rattle.bsc_frame.specs.Reading.{skip, is_octet, trimmed, begins};
ghost use Rattle.bsc_octet.specs.Octet.{is_pad_octet};
ghost use Rattle.bsc_frame.specs.Reading.{heard_body, heard};

use crate::front::{LANES, either_front, either_in, either_rest};
use crate::limits::MAX_HEARD;
use bsc_octet::controls::{LEADING_PADS, PAD, SYN};

/// Returns the octets after the leading pads (`LEADING_PADS`).
#[tactic(auto, using(crate::proofs::Runs::skip_pads))]
fn after_pads(octets: &[u8]) -> &[u8]
    ensures { result.now ≡ skip is_pad_octet octets.now }
{
    let start = either_front(octets, LEADING_PADS[0], LEADING_PADS[1]);
    &octets[start..]
}

/// Returns what follows the octets at the front that equal `octet`. Fewer than 32 octets are tested
/// one at a time.
#[tactic(auto, using(crate::proofs::Runs::skip_all))]
#[inline(always)]
pub(crate) fn after_all(octets: &[u8], octet: u8) -> &[u8]
    ensures { result.now ≡ skip (is_octet octet) octets.now }
{
    let start = if octets.len() < LANES {
        either_rest(octets, octet, octet)
    } else {
        either_front(octets, octet, octet)
    };
    &octets[start..]
}

/// Returns the octets without PAD at their end, as far as PAD can be dropped 32 octets at a time.
fn trim_lanes(octets: &[u8]) -> &[u8]
    ensures { trimmed result.now ≡ trimmed octets.now }
{
    let mut end = octets.len();
    while end >= LANES {
        if either_in(octets, end - LANES, PAD, PAD) < LANES {
            return &octets[..end];
        }
        end -= LANES;
    }
    &octets[..end]
}

/// Returns the octets without PAD at their end, which is dropped one octet at a time.
#[tactic(auto, using(crate::proofs::ReadingSteps::trim_steps))]
fn trim_rest(octets: &[u8]) -> &[u8]
    ensures { result.now ≡ trimmed octets.now }
{
    let mut end = octets.len();
    while end > 0 {
        if octets[end - 1] != PAD {
            return &octets[..end];
        }
        end -= 1;
    }
    &octets[..0]
}

/// Returns the octets without PAD at their end.
fn trim(octets: &[u8]) -> &[u8]
    ensures { result.now ≡ trimmed octets.now }
{
    trim_rest(trim_lanes(octets))
}

/// Returns whether `octet` is the first of the octets.
pub(crate) fn starts_with(octets: &[u8], octet: u8) -> bool
    ensures { result ≡ begins (is_octet octet) octets.now }
{
    !octets.is_empty() && octets[0] == octet
}

/// Returns the body of fewer than 32 octets, which are tested one at a time. It is empty if they
/// carry none.
#[inline(always)]
fn body_of_few(octets: &[u8]) -> &[u8]
    requires { length octets.now < LANES }
    ensures { heard octets.now ≡ heard_body result.now }
{
    let pads = either_rest(octets, LEADING_PADS[0], LEADING_PADS[1]);
    let rest = &octets[pads..];
    if !starts_with(rest, SYN) {
        return &[];
    }
    let syns = either_rest(rest, SYN, SYN);
    trim_rest(&rest[syns..])
}

/// Returns whether the first octet is a leading pad.
fn starts_with_pad(octets: &[u8]) -> bool
    ensures { result ≡ begins is_pad_octet octets.now }
{
    !octets.is_empty() && (octets[0] == LEADING_PADS[0] || octets[0] == LEADING_PADS[1])
}

/// Returns the body of any number of octets, which are tested 32 at a time. It is empty if they
/// carry none, which is known at once if the first octet is neither a leading pad nor SYN.
#[tactic(auto, using(crate::proofs::Bodies::empty_body))]
#[inline(always)]
fn body_of_many(octets: &[u8]) -> &[u8]
    ensures { heard octets.now ≡ heard_body result.now }
{
    if octets.len() > MAX_HEARD || !(starts_with(octets, SYN) || starts_with_pad(octets)) {
        return &[];
    }
    let rest = after_pads(octets);
    if !starts_with(rest, SYN) {
        return &[];
    }
    trim(after_all(rest, SYN))
}

/// Returns the body that the octets carry, or an empty slice if they carry none. Most transmissions
/// have few octets, and these cost less if they are tested one at a time.
#[inline(always)]
pub(crate) fn body_of(octets: &[u8]) -> &[u8]
    ensures { heard octets.now ≡ heard_body result.now }
{
    if octets.len() < LANES {
        return body_of_few(octets);
    }
    body_of_many(octets)
}
