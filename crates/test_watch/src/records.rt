//! Comparisons of records: with a text, with other records, and by a digest.

use bsc_block::{Block, Records, unpack};
use bsc_frame::{Heard, Message, Text, TextBuffer, decode};
use std::alloc::Allocator;

/// The digest of no records.
pub(crate) const EMPTY: u64 = 0xcbf2_9ce4_8422_2325;

/// The digest with one more number added.
fn with_number(digest: u64, number: usize) -> u64 {
    let mixed = (digest ^ number as u64).wrapping_mul(0x0000_0100_0000_01b3);
    mixed ^ (mixed >> 29)
}

/// The digest with one more record added, with these characters.
fn with_record(digest: u64, chars: &[u8]) -> u64 {
    let mut digest = with_number(digest, chars.len());
    for char in chars {
        digest = with_number(digest, usize::from(*char));
    }
    digest
}

/// The digest with the records from a place on added.
pub(crate) fn with_records<A: Allocator>(digest: u64, records: &Records<A>, from: usize) -> u64 {
    let mut digest = digest;
    for place in from..records.len() {
        digest = with_record(digest, records.chars(place));
    }
    digest
}

/// Whether the records from a place on all have these characters.
pub(crate) fn are_all<A: Allocator>(records: &Records<A>, from: usize, chars: &[u8]) -> bool {
    for place in from..records.len() {
        if records.chars(place) != chars {
            return false;
        }
    }
    true
}

/// Whether `records` from a place on are the first of `of` from there on.
pub(crate) fn begins<A: Allocator>(records: &Records<A>, of: &Records<A>, from: usize) -> bool {
    for place in from..records.len() {
        if place >= of.len() || of.chars(place) != records.chars(place) {
            return false;
        }
    }
    true
}

/// Whether the records of the block are the first of these from a place on.
fn block_begins<A: Allocator>(block: &Block<'_>, records: &Records<A>, from: usize) -> bool {
    let there = records.len().saturating_sub(from);
    for place in 0..block.count() {
        if place >= there || block.chars(place) != records.chars(from + place) {
            return false;
        }
    }
    true
}

/// The number of records in the text, or None unless they are the first of these records from a
/// place on.
pub(crate) fn carried<A: Allocator>(
    text: &Text<'_>,
    records: &Records<A>,
    from: usize,
) -> Option<usize> {
    let block = unpack(text);
    if block_begins(&block, records, from) {
        Some(block.count())
    } else {
        None
    }
}

/// Whether these octets are a text with exactly these records from a place on.
pub(crate) fn is_text_of<A: Allocator>(octets: &[u8], records: &Records<A>, from: usize) -> bool {
    match decode(octets, &mut TextBuffer::new()) {
        Heard::Whole(Message::Text(text)) => {
            carried(&text, records, from) == Some(records.len().saturating_sub(from))
        }
        _ => false,
    }
}
