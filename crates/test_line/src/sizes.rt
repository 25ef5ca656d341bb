//! Large sizes, with enough memory: long lists of records, a record on each channel of the largest
//! line, and the longest text.

use crate::channels::{are_sound, has_count, is_put_off, offer};
use crate::fixtures::{On, carry_on, line_on};
use bsc_control::Way;
use bsc_control::Way::{FromTerminal, ToTerminal};
use bsc_frame::{Message, Reply};
use bsc_line::{Line, LineError};
use std::alloc::{AllocError, Allocator, Global};
use std::test::Fail;
use test_alloc::Refusing;

/// The number of records offered each way, and of those that are offered before the first arrives.
const COUNT: usize = 300_000;

const WAITING: usize = 100_000;

/// The characters of the longest record.
const EIGHTY: &[u8] = &[b'B'; 80];

/// Offers the records each way of terminal 0, of 0 to 80 characters in turn, and carries what is
/// pending as it was sent once enough wait, until all are delivered. Returns whether nobody is put
/// off.
fn delivers_all<A: Allocator>(line: &mut Line<A>) -> Result<bool, LineError> {
    line.silence()?;
    for number in 0..COUNT {
        let codes = EIGHTY.get(..number % 81).unwrap_or(EIGHTY);
        line.offer_at(0, codes)?;
        line.offer_for(0, 0, codes)?;
        if number >= WAITING {
            line.carry_sent()?;
        }
        if is_put_off(line) {
            return Ok(false);
        }
    }
    for _ in 0..COUNT {
        if has_count(line, 0, FromTerminal, COUNT) && has_count(line, 0, ToTerminal(0), COUNT) {
            return Ok(true);
        }
        line.carry_sent()?;
        if is_put_off(line) {
            return Ok(false);
        }
    }
    Ok(false)
}

#[test]
fn hundreds_of_thousands_of_records_arrive_each_way(rt: HostRuntime) -> Result<(), Fail> {
    let memory = Refusing::new(rt.alloc());
    let mut line = line_on(rt.alloc(), &memory, On::Two)?;
    let is_delivered = delivers_all(&mut line)? && line.trusted() && are_sound(&line);
    assert!(rt; is_delivered && memory.refused() == 0);
    Ok(())
}

/// The number of channels of the largest line: five at each of 64 terminals.
const CHANNELS: usize = 64 * 5;

/// The terminal and direction of the channel of this number; each terminal has five.
fn channel(number: usize) -> (usize, Way) {
    match number % 5 {
        0 => (number / 5, FromTerminal),
        select => (number / 5, ToTerminal(select - 1)),
    }
}

/// Whether a record on each channel arrives in this many transmissions, on a line that stays
/// trusted.
fn delivers_each<A: Allocator>(line: &mut Line<A>, count: u64) -> Result<bool, LineError> {
    for number in 0..CHANNELS {
        let (terminal, way) = channel(number);
        offer(line, terminal, way, b"HI")?;
    }
    line.silence()?;
    carry_on(line, count)?;
    for number in 0..CHANNELS {
        let (terminal, way) = channel(number);
        if !has_count(line, terminal, way, 1) {
            return Ok(false);
        }
    }
    Ok(line.trusted() && are_sound(line))
}

/// Each of the 64 terminals has four selections and one poll of four transmissions each. Each of
/// the other 191 entries of the poll list is a poll of two transmissions.
#[test]
fn a_record_each_way_of_each_address_arrives_in_one_round(rt: HostRuntime) -> Result<(), Fail> {
    let memory = Refusing::new(rt.alloc());
    let mut line = line_on(rt.alloc(), &memory, On::Longest)?;
    assert!(rt; delivers_each(&mut line, 64 * 5 * 4 + 191 * 2)?);
    Ok(())
}

/// The 1,033 octets of the text of seven records of the greatest length, the longest that is sent.
/// Each unit is 144 times A, EM, the ending character and the check; the even number of A adds
/// nothing to the check.
fn longest_text(alloc: Global) -> Result<Vec<u8>, AllocError> {
    let mut octets = Vec::new(alloc);
    octets.extend_from_slice(&[0x16, 0x16, 0x02])?;
    for _ in 0..6u8 {
        octets.extend_from_slice(&[0xc1; 144])?;
        octets.extend_from_slice(&[0x19, 0x1f, 0x86])?;
    }
    octets.extend_from_slice(&[0xc1; 144])?;
    octets.extend_from_slice(&[0x19, 0x83, 0x1a, 0xff])?;
    Ok(octets)
}

/// HI is offered in this direction of terminal 0, and its text, which is pending this many
/// transmissions after the first call, is heard as another one. Returns whether that is
/// acknowledged.
fn takes<A: Allocator>(
    line: &mut Line<A>,
    way: Way,
    count: u64,
    text: &[u8],
) -> Result<bool, LineError> {
    offer(line, 0, way, b"HI")?;
    line.silence()?;
    carry_on(line, count)?;
    line.carry(Some(text))?;
    Ok(match line.pending() {
        Some(sent) => matches!(&sent.message, Message::Reply(Reply::Ack1)),
        None => false,
    })
}

#[test]
fn the_longest_text_is_stored_whole(rt: HostRuntime) -> Result<(), Fail> {
    let text = longest_text(rt.alloc())?;
    let memory = Refusing::new(rt.alloc());
    for (way, count) in [(FromTerminal, 1), (ToTerminal(0), 2)] {
        let mut line = line_on(rt.alloc(), &memory, On::Two)?;
        let is_stored = takes(&mut line, way, count, &text)?;
        assert!(rt; is_stored && text.len() == 1033, "{way:?}");
    }
    Ok(())
}
