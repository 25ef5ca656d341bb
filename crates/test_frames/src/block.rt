//! Records as they are sent, and what texts carry.
ghost use Rattle.std.specs.Prelude.{◌≡◌, ◌-◌, ◌<◌, ◌≤◌, [], ◌∷◌, ◌++◌, length, IfSome, IsTrue};
ghost use Rattle.bsc_block.specs.Blocks.{AreShort};

use bsc_block::{Block, Format, Record, Records, build, pack, unpack};
use bsc_frame::limits::MAX_UNITS;
use bsc_frame::{End, Heard, Message, MessageBuffer, Text, TextBuffer, Wire, decode, encode};
use std::alloc::Allocator;
use std::test::Fail;

/// The text of HI with EM, and of a unit with only EM.
const TWO_UNITS: &[u8] = b"\x16\x16\x02\xc8\x49\x19\x1f\x07\x19\x83\x1a\xff";

/// The full length, two records, of which both are sent if the second one is empty and else only
/// the second one, and the octets of the text.
type Sent = (u8, &'static [u8], &'static [u8], &'static [u8]);

/// Records, and the texts that carry them.
const SENT: &[Sent] = &[
    // HI is not full: EM follows it. Then it is full.
    (80, b"", b"HI", b"\x16\x16\x02\xc8\x49\x19\x83\x9b\xff"),
    (2, b"", b"HI", b"\x16\x16\x02\xc8\x49\x83\x02\xff"),
    // The check of a form feed is the same octet as SYN.
    (80, b"", b"\x0c", b"\x16\x16\x02\x8c\x19\x83\x16\xff"),
    // Both records are one text.
    (80, b"HI", b"", TWO_UNITS),
];

/// Texts, and the records that they carry.
const CARRIED: &[(&[u8], &[&[u8]])] = &[
    (TWO_UNITS, &[b"HI", b""]),
    // A unit without characters and without EM does not contain a record.
    (b"\x16\x16\x02\x83\x83\xff", &[]),
];

// The octets that are sent for the text of the records from a place on; none if they are not one
// block.
fn wire_of<A: Allocator>(records: &Records<A>, from: usize, format: Format) -> Wire
    requires there { from < length records.now.items }
    requires few { length records.now.items - from ≤ MAX_UNITS }
    requires short { AreShort format.full records.now.items }
{
    let mut wire = Wire::new();
    let count = records.len() - from;
    if pack(records, from, format) != count {
        return wire;
    }
    let mut message = MessageBuffer::new();
    build(records, from, count, format, End::Etx, &mut message);
    if let Some(message) = &message.message() {
        encode(message, &mut wire);
    }
    wire
}

// Adds two records, and returns whether there is memory for both.
fn adds<A: Allocator>(records: &mut Records<A>, first: &Record, second: &Record) -> bool
    ensures { IsTrue result → records.new.items
        ≡ (records.old.items ++ «first».now ∷ []) ++ «second».now ∷ [] }
{
    records.push(first).is_ok() && records.push(second).is_ok()
}

// Whether these octets are sent for the records with these characters.
fn sends<A: Allocator + Copy>(
    alloc: A,
    format: Format,
    (first, second): (&[u8], &[u8]),
    octets: &[u8],
) -> bool {
    let from = usize::from(!second.is_empty());
    let (Ok(first), Ok(second)) = (
        Record::read(first, format.full()),
        Record::read(second, format.full()),
    ) else {
        return false;
    };
    let mut records = Records::new(alloc);
    adds(&mut records, &first, &second)
        && from < 2
        && wire_of(&records, from, format).as_slice() == octets
}

// Whether these octets are sent for the records.
fn is_sent<A: Allocator + Copy>(alloc: A, sent: &Sent) -> bool {
    let (full, first, second, octets) = *sent;
    match Format::new(full, 400) {
        Ok(format) => sends(alloc, format, (first, second), octets),
        Err(_) => false,
    }
}

#[test]
fn records_are_built_and_sent(rt: HostRuntime) {
    for sent in SENT {
        assert!(rt; is_sent(rt.alloc(), sent), "{:?}", sent.3);
    }
}

// Whether the record at this place of the block has these characters.
fn has_at(block: &Block<'_>, place: usize, chars: &[u8]) -> bool {
    place < block.count() && block.chars(place) == chars && block.record(place).chars() == chars
}

// Whether the block holds these records.
fn holds(block: &Block<'_>, records: &[&[u8]]) -> bool {
    for (place, chars) in records.iter().enumerate() {
        if !has_at(block, place, chars) {
            return false;
        }
    }
    block.count() == records.len()
}

// The characters of the first record of a text, after the block that lent them is gone.
fn first_of<'a>(text: &'a Text<'_>) -> Option<&'a [u8]> {
    let block = unpack(text);
    if block.count() == 0 {
        return None;
    }
    Some(block.chars(0))
}

// Whether the first record of a text is the first one of these.
fn begins_with(text: &Text<'_>, records: &[&[u8]]) -> bool {
    match records.first() {
        Some(chars) => first_of(text) == Some(*chars),
        None => first_of(text).is_none(),
    }
}

// Whether the octets are heard as a text of these records.
fn carries(octets: &[u8], records: &[&[u8]]) -> bool {
    match &decode(octets, &mut TextBuffer::new()) {
        Heard::Whole(Message::Text(text)) => {
            holds(&unpack(text), records) && begins_with(text, records)
        }
        _ => false,
    }
}

/// Numbers of characters A of a unit without EM, and the check of the unit.
const LONG: &[(usize, u8)] = &[(81, 0xc2), (144, 0x83)];

// Whether the text of such a unit carries one record of its characters.
fn carries_long(count: usize, check: u8) -> bool
    requires { count ≤ 144 }
{
    let mut octets = [0xc1; 150];
    octets[..3].copy_from_slice(&[0x16, 0x16, 0x02]);
    octets[count + 3] = 0x83;
    octets[count + 4] = check;
    octets[count + 5] = 0xff;
    carries(&octets[..count + 6], &[&[b'A'; 144][..count]])
}

#[test]
fn texts_carry_records(rt: HostRuntime) {
    for (octets, records) in CARRIED {
        assert!(rt; carries(octets, records), "{octets:?}");
    }
    for (count, check) in LONG {
        assert!(rt; *count <= 144 && carries_long(*count, *check), "{count}");
    }
}

/// The number of characters of the last of five records, of which the others have 80; the number of
/// characters that a block may count; and how many records the first block and the second take.
const BLOCKS: &[(usize, u16, usize, usize)] = &[
    // Four records of 80 characters count 324, and a fifth 81 more.
    (80, 400, 4, 1),
    (80, 324, 4, 1),
    (80, 323, 3, 2),
    // A shorter one counts its EM too: these five count 400.
    (74, 400, 5, 0),
    (74, 399, 4, 1),
    (75, 400, 4, 1),
];

// Whether blocks of the records take these numbers of them, and then none are left.
fn packs<A: Allocator>(records: &Records<A>, format: Format, first: usize, second: usize) -> bool
    requires { AreShort format.full records.now.items }
{
    pack(records, 0, format) == first
        && first <= records.len()
        && pack(records, first, format) == second
        && records.len() - first == second
}

// The record of this many characters A, at most 80.
fn record_of(count: usize) -> Option<Record>
    ensures { IfSome result (λ r. length r ≤ 80) }
{
    Record::read([b'A'; 80].as_slice().get(..count)?, 80).ok()
}

// Whether four records of 80 characters and one of this many are cut into these blocks.
fn are_cut<A: Allocator + Copy>(
    alloc: A,
    count: usize,
    format: Format,
    first: usize,
    second: usize,
) -> bool
    requires { format.full ≡ 80 }
{
    let (Some(full), Some(last)) = (record_of(80), record_of(count)) else {
        return false;
    };
    let mut records = Records::new(alloc);
    adds(&mut records, &full, &full)
        && adds(&mut records, &full, &full)
        && records.push(&last).is_ok()
        && packs(&records, format, first, second)
}

#[test]
fn a_block_takes_as_many_records_as_it_may_count(rt: HostRuntime) -> Result<(), Fail> {
    for (count, block_chars, first, second) in BLOCKS {
        let format = Format::new(80, *block_chars)?;
        let is_right = are_cut(rt.alloc(), *count, format, *first, *second);
        assert!(rt; is_right, "{count}, {block_chars}");
    }
    Ok(())
}
