//! Which block of a queue is next, and what a spool stores.

ghost use Rattle.std.specs.Prelude.{◌≡◌};

use crate::hearing::card;
use bsc_block::{Format, unpack};
use bsc_frame::{End, Heard, Message, TextBuffer, decode};
use bsc_spool::{Queue, Spool};
use std::alloc::Allocator;
use std::test::Fail;
use test_fixtures::records::are_records;

/// This many records of this many characters each are offered and accepted, the next block takes
/// this many records and ends with this character, if there is one; and if its records are then
/// delivered, this many are known to be.
type Step = (usize, usize, Option<(usize, End)>, Option<usize>);

/// Records of which a block takes as many as count at most 400. One of 80 characters counts 81, and
/// a shorter one counts its EM too.
const STEPS: &[Step] = &[
    (0, 0, None, None),
    (5, 80, Some((4, End::Etb)), Some(4)),
    (0, 0, Some((1, End::Etx)), None),
    (1, 0, Some((2, End::Etx)), Some(6)),
    (0, 0, None, None),
    (4, 80, Some((4, End::Etx)), None),
    (1, 74, Some((5, End::Etx)), Some(11)),
    (4, 80, Some((4, End::Etx)), None),
    (1, 75, Some((4, End::Etb)), Some(15)),
    (0, 0, Some((1, End::Etx)), Some(16)),
];

/// Offers the record of this many characters A, at most 80, and returns whether it is accepted.
fn is_offered<A: Allocator>(queue: &mut Queue<A>, count: usize) -> bool
    requires { queue.old.format.full ≡ 80 }
    ensures { queue.new.format ≡ queue.old.format }
{
    let Some(chars) = [b'A'; 80].as_slice().get(..count) else {
        return false;
    };
    match card(chars) {
        Some(record) => queue.offer(record).is_ok(),
        None => false,
    }
}

/// Offers this many records of this many characters, and returns whether each is accepted.
fn are_offered<A: Allocator>(queue: &mut Queue<A>, count: usize, chars: usize) -> bool
    requires { queue.old.format.full ≡ 80 }
    ensures { queue.new.format ≡ queue.old.format }
{
    for _ in 0..count {
        if !is_offered(queue, chars) {
            return false;
        }
    }
    true
}

/// Marks the records of the next block, and returns whether this many are then known.
fn marks<A: Allocator>(queue: &mut Queue<A>, known: usize) -> bool
    ensures { queue.new.format ≡ queue.old.format }
{
    if let Some(next) = queue.next() {
        queue.mark(next.count);
    }
    queue.known() == known
}

/// Whether the step has its result.
fn goes<A: Allocator>(queue: &mut Queue<A>, step: &Step) -> bool
    requires { queue.old.format.full ≡ 80 }
    ensures { queue.new.format ≡ queue.old.format }
{
    let (count, chars, expected, known) = *step;
    if !are_offered(queue, count, chars) {
        return false;
    }
    let next = match queue.next() {
        Some(next) => Some((next.count, next.end)),
        None => None,
    };
    match known {
        Some(known) => next == expected && marks(queue, known),
        None => next == expected,
    }
}

/// The place of the first step with another result.
fn first_wrong<A: Allocator>(queue: &mut Queue<A>, steps: &[Step]) -> Option<usize>
    requires { queue.old.format.full ≡ 80 }
{
    for (place, step) in steps.iter().enumerate() {
        if !goes(queue, step) {
            return Some(place);
        }
    }
    None
}

#[test]
fn the_next_block_takes_what_waits(rt: HostRuntime) -> Result<(), Fail> {
    let mut queue = Queue::new(rt.alloc(), Format::new(80, 400)?);
    assert_eq!(rt; first_wrong(&mut queue, STEPS), None);
    Ok(())
}

/// The text of the records HI and an empty one.
const TWO_RECORDS: &[u8] = b"\x16\x16\x02\xc8\x49\x19\x1f\x07\x19\x83\x1a\xff";

/// Whether a new spool has room once it made some, and stores these records of the text that the
/// octets are heard as.
fn stores<A: Allocator>(spool: &mut Spool<A>, octets: &[u8], records: &[&[u8]]) -> bool {
    match &decode(octets, &mut TextBuffer::new()) {
        Heard::Whole(Message::Text(text)) => {
            if spool.has_room() || !spool.make_room() || !spool.has_room() {
                return false;
            }
            spool.store(&unpack(text));
            are_records(spool.records(), records)
        }
        _ => false,
    }
}

#[test]
fn a_spool_stores_what_a_text_carries(rt: HostRuntime) {
    assert!(rt; stores(&mut Spool::new(rt.alloc()), TWO_RECORDS, &[b"HI", b""]));
}
