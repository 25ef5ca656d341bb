//! Queues and spools: each growth is refused in turn; while each is granted, every record of each
//! length is accepted, and there is room for every text; and however many records pass through and
//! are forgotten, the memory in use does not grow.

ghost use Rattle.std.specs.Prelude.{◌≡◌, ◌≤◌};

use crate::hearing::card;
use bsc_block::{Format, Record, unpack};
use bsc_frame::{Message, MessageBuffer};
use bsc_spool::{Queue, Spool};
use std::alloc::Allocator;
use std::test::Fail;
use test_alloc::{Refusal, Refusing};
use test_fixtures::Random;

const RECORDS: usize = 420;

/// Offers records until `RECORDS` were accepted, with at most twice as many offers. Returns how
/// many offers were refused.
fn offer_all(queue: &mut Queue<&Refusing>) -> usize
    requires { 80 ≤ queue.old.format.full }
    ensures { queue.new.format ≡ queue.old.format }
{
    let mut back = 0usize;
    for _ in 0..2 * RECORDS {
        if queue.offered().len() == RECORDS {
            return back;
        }
        let Some(record) = card(b"HI") else {
            return back;
        };
        if queue.offer(record).is_err() {
            back = back.wrapping_add(1);
        }
    }
    back
}

/// Delivers the next block if there is room for it. Returns whether it was stored, room that was
/// there already needed no memory, and storing needed none either.
fn is_delivered(
    alloc: &Refusing,
    queue: &mut Queue<&Refusing>,
    spool: &mut Spool<&Refusing>,
) -> bool
    ensures { queue.new.format ≡ queue.old.format }
{
    let Some(next) = queue.next() else {
        return false;
    };
    let mut message = MessageBuffer::new();
    queue.text(next.count, next.end, &mut message);
    let Some(Message::Text(text)) = &message.message() else {
        return false;
    };
    if !spool.make_room() {
        return false;
    }
    let requests = alloc.requests();
    if spool.make_room() {
        spool.store(&unpack(text));
        queue.mark(next.count);
    }
    alloc.requests() == requests
}

/// Delivers blocks until no record waits, with at most twice as many attempts as there are records.
/// Returns how many attempts failed.
fn deliver_all(
    alloc: &Refusing,
    queue: &mut Queue<&Refusing>,
    spool: &mut Spool<&Refusing>,
) -> usize {
    let mut delayed = 0usize;
    for _ in 0..2 * RECORDS {
        if !queue.has_waiting() {
            return delayed;
        }
        if !is_delivered(alloc, queue, spool) {
            delayed = delayed.wrapping_add(1);
        }
    }
    delayed
}

/// Whether all records are offered in 60 blocks, arrive and are known if what is refused is
/// repeated, as often as memory was refused.
fn is_made_good(alloc: &Refusing, format: Format) -> bool
    requires { 80 ≤ format.full }
{
    let mut queue = Queue::new(alloc, format);
    let mut spool = Spool::new(alloc);
    let back = offer_all(&mut queue);
    if queue.blocks() != 60 {
        return false;
    }
    let delayed = deliver_all(alloc, &mut queue, &mut spool);
    queue.known() == RECORDS
        && spool.records().len() == RECORDS
        && alloc.refused() == back.wrapping_add(delayed)
}

#[test]
fn each_growth_is_refused_in_turn(rt: HostRuntime) -> Result<(), Fail> {
    let alloc = Refusing::new(rt.alloc());
    let format = Format::new(80, 400)?;
    for request in alloc.in_turn(Refusal::Nth, 10..99) {
        let number = request?;
        assert!(rt; is_made_good(&alloc, format), "{number}");
    }
    Ok(())
}

/// The characters with which the records begin.
const CHARS: &[u8] = &[b'A'; 144];

/// Offers a record of any length from 0 to 144, and returns whether it is accepted.
fn is_offered<A: Allocator>(queue: &mut Queue<A>, random: &mut Random) -> bool
    requires { queue.old.format.full ≡ 144 }
    ensures { queue.new.format ≡ queue.old.format }
{
    let Some(chars) = CHARS.get(..random.below(145)) else {
        return false;
    };
    match Record::read(chars, 144) {
        Ok(record) => queue.offer(record).is_ok(),
        Err(_) => false,
    }
}

/// Offers this many records, and returns whether each is accepted.
fn are_offered<A: Allocator>(queue: &mut Queue<A>, random: &mut Random, count: usize) -> bool
    requires { queue.old.format.full ≡ 144 }
    ensures { queue.new.format ≡ queue.old.format }
{
    for _ in 0..count {
        if !is_offered(queue, random) {
            return false;
        }
    }
    true
}

/// Delivers this many blocks, or all that wait, and returns whether there was room for each.
fn are_delivered(
    alloc: &Refusing,
    queue: &mut Queue<&Refusing>,
    spool: &mut Spool<&Refusing>,
    count: usize,
) -> bool
    ensures { queue.new.format ≡ queue.old.format }
{
    for _ in 0..count {
        if !queue.has_waiting() {
            return true;
        }
        if !is_delivered(alloc, queue, spool) {
            return false;
        }
    }
    true
}

/// Beyond this many octets a list grows by a sixteenth part only.
const SMALL: usize = 147_456;

/// The most octets to which a list of this many octets grows for a record or a text.
fn most_octets(octets: usize) -> usize {
    let slack = if octets < SMALL { octets } else { octets / 16 };
    octets.saturating_add(slack).saturating_add(2 * 1008)
}

/// Offers this many records with these characters, and returns whether each is accepted although
/// no more memory is granted than it may ask for.
fn grow_little<A: Allocator>(
    alloc: &Refusing,
    queue: &mut Queue<A>,
    chars: &[u8],
    count: usize,
) -> bool
    requires { queue.old.format.full ≡ 144 }
{
    for number in 0..count {
        let octets = number.saturating_mul(chars.len().max(8));
        alloc.refuse_larger(most_octets(octets));
        let Ok(record) = Record::read(chars, 144) else {
            return false;
        };
        if queue.offer(record).is_err() {
            return false;
        }
    }
    true
}

/// Whether this many records of this length are accepted with little memory, and then stored.
fn take_each(alloc: &Refusing, format: Format, length: usize, count: usize) -> bool
    requires { format.full ≡ 144 }
{
    let Some(chars) = CHARS.get(..length) else {
        return false;
    };
    let mut queue = Queue::new(alloc, format);
    let mut spool = Spool::new(alloc);
    if !grow_little(alloc, &mut queue, chars, count) {
        return false;
    }
    alloc.refuse_none();
    are_delivered(alloc, &mut queue, &mut spool, count) && spool.records().len() == count
}

#[test]
fn thousands_of_records_of_one_length_are_taken(rt: HostRuntime) -> Result<(), Fail> {
    let alloc = Refusing::new(rt.alloc());
    let format = Format::new(144, 400)?;
    for length in 0..=144usize {
        let count = if length % 72 == 0 { 40_000 } else { 1_500 };
        assert!(rt; take_each(&alloc, format, length, count), "{length}");
    }
    Ok(())
}

/// Forgets all records that have arrived.
fn forget_arrived<A: Allocator>(spool: &mut Spool<A>) {
    let arrived = spool.records().len();
    spool.forget(arrived);
}

/// The most octets that are granted at once: enough for the few records that wait at any time.
const MOST_OCTETS: usize = 8_192;

/// How often up to seven records are offered and then a block is delivered.
const ROUNDS: usize = 300_000;

/// Delivers the next block if a record waits, and forgets at both ends what has arrived. Returns
/// whether there was room for it.
fn pass_on(alloc: &Refusing, queue: &mut Queue<&Refusing>, spool: &mut Spool<&Refusing>) -> bool
    ensures { queue.new.format ≡ queue.old.format }
{
    let has_room = are_delivered(alloc, queue, spool, 1);
    let known = queue.known();
    queue.forget(known);
    forget_arrived(spool);
    has_room
}

/// Whether records pass from a queue to a spool, more than a million, each of which is stored and
/// known to have arrived, and is forgotten.
fn are_passed(alloc: &Refusing, format: Format, random: &mut Random) -> bool
    requires { format.full ≡ 144 }
{
    let mut queue = Queue::new(alloc, format);
    let mut spool = Spool::new(alloc);
    for _ in 0..ROUNDS {
        let count = random.below(8);
        if !are_offered(&mut queue, random, count) || !pass_on(alloc, &mut queue, &mut spool) {
            return false;
        }
    }
    let known = queue.known();
    let arrived = spool.records();
    known > 1_000_000 && arrived.len() == known && arrived.forgotten() == known
}

#[test]
fn a_million_records_pass_through_little_memory(rt: HostRuntime) -> Result<(), Fail> {
    let alloc = Refusing::new(rt.alloc());
    alloc.refuse_larger(MOST_OCTETS);
    assert!(rt; are_passed(&alloc, Format::new(144, 400)?, &mut Random::new(3)));
    Ok(())
}
