//! The number of octets at the front that pass a test, counted 32 at a time.
ghost use Rattle.std.specs.Prelude.{◌≡◌, ◌+◌, ◌≤◌, ◌==◌, length, take, drop, if◌then◌else◌};
ghost use Rattle.std.specs.Int.{w64, trailing_zeros};
ghost use Rattle.std.specs.List.{prefix_len};
ghost use Rattle.bsc_frame.specs.Reading.{is_either, is_before_ending};

use bsc_octet::controls::{ETB, ETX, US};
use std::simd::prelude::*;

/// The number of octets that are tested together.
pub(crate) const LANES: usize = 32;

/// Returns the first of the 32 lanes that is set in the mask, or 32 if none is.
fn first_lane(mask: u64) -> usize
    ensures { result ≡ (if mask == 0 then LANES else trailing_zeros w64 mask) }
{
    if mask == 0 {
        LANES
    } else {
        mask.trailing_zeros() as usize
    }
}

/// Returns how many of the 32 octets from `at` on come before the first that is neither `one` nor
/// `other`; 32 if there is no such octet.
pub(crate) fn either_in(octets: &[u8], at: usize, one: u8, other: u8) -> usize
    requires { at + LANES ≤ length octets.now }
    ensures { result ≡ prefix_len (is_either one other) (take LANES (drop at octets.now)) }
{
    let lanes = u8x32::from_slice(&octets[at..]);
    let stops = lanes.simd_ne(u8x32::splat(one)) & lanes.simd_ne(u8x32::splat(other));
    first_lane(stops.to_bitmask())
}

/// Returns how many of the 32 octets from `at` on come before the first US, ETB or ETX; 32 if there
/// is no such octet.
fn before_ending_in(octets: &[u8], at: usize) -> usize
    requires { at + LANES ≤ length octets.now }
    ensures { result ≡ prefix_len is_before_ending (take LANES (drop at octets.now)) }
{
    let lanes = u8x32::from_slice(&octets[at..]);
    let ends = lanes.simd_eq(u8x32::splat(US))
        | lanes.simd_eq(u8x32::splat(ETB))
        | lanes.simd_eq(u8x32::splat(ETX));
    first_lane(ends.to_bitmask())
}

/// Returns how many octets at the front are `one` or `other`, testing one octet at a time.
pub(crate) fn either_rest(octets: &[u8], one: u8, other: u8) -> usize
    ensures count { result ≡ prefix_len (is_either one other) octets.now }
    ensures within { result ≤ length octets.now }
{
    for (i, octet) in octets.iter().enumerate() {
        if *octet != one && *octet != other {
            return i;
        }
    }
    octets.len()
}

/// Returns how many octets come before the first US, ETB or ETX, testing one octet at a time.
fn before_ending_rest(octets: &[u8]) -> usize
    ensures count { result ≡ prefix_len is_before_ending octets.now }
    ensures within { result ≤ length octets.now }
{
    for (i, octet) in octets.iter().enumerate() {
        if *octet == US || *octet == ETB || *octet == ETX {
            return i;
        }
    }
    octets.len()
}

/// Returns how many octets at the front are `one` or `other`. Usually there are none, since most
/// transmissions have no leading pads.
pub(crate) fn either_front(octets: &[u8], one: u8, other: u8) -> usize
    ensures count { result ≡ prefix_len (is_either one other) octets.now }
    ensures within { result ≤ length octets.now }
{
    if octets.is_empty() {
        return 0;
    }
    if octets[0] != one && octets[0] != other {
        return 0;
    }
    let mut at = 0;
    while octets.len() - at >= LANES {
        let run = either_in(octets, at, one, other);
        if run < LANES {
            return at + run;
        }
        at += LANES;
    }
    at + either_rest(&octets[at..], one, other)
}

/// Returns how many octets come before the first US, ETB or ETX.
pub(crate) fn before_ending(octets: &[u8]) -> usize
    ensures count { result ≡ prefix_len is_before_ending octets.now }
    ensures within { result ≤ length octets.now }
{
    let mut at = 0;
    while octets.len() - at >= LANES {
        let run = before_ending_in(octets, at);
        if run < LANES {
            return at + run;
        }
        at += LANES;
    }
    at + before_ending_rest(&octets[at..])
}
