//! A line is made with each setting, each number of terminals and of their addresses, each length
//! of an address and each length of the poll list, and delivers a record each way.

use crate::channels::{are_sound, has_count};
use crate::fixtures::{FIRST_CODE, carry_on, coded, line_of, most_terminals};
use bsc_bid::{Setup, Terminal};
use bsc_control::Way::{FromTerminal, ToTerminal};
use bsc_frame::Address;
use bsc_line::{Line, LineError};
use std::alloc::{Allocator, Global};
use std::test::Fail;
use test_alloc::Refusing;
use test_fixtures::lines::setup;

/// Whether a line delivers this record each way of its last terminal, which the first entry of the
/// poll list names. The selection takes four transmissions, and so does the poll.
fn takes<A: Allocator>(line: &mut Line<A>, record: &[u8]) -> Result<bool, LineError> {
    let last = line.terminals().saturating_sub(1);
    line.offer_at(last, record)?;
    line.offer_for(last, 0, record)?;
    line.silence()?;
    carry_on(line, 8)?;
    let (from, to) = (FromTerminal, ToTerminal(0));
    Ok(has_count(line, last, from, 1) && has_count(line, last, to, 1) && are_sound(line))
}

/// Whether a line is made of these, and delivers a record of the greatest length each way.
fn delivers(
    alloc: Global,
    setup: Setup,
    terminals: &[Terminal],
    poll_list: &[u8],
) -> Result<bool, Fail> {
    let full = usize::from(setup.format().full());
    let record = [b'M'; 144];
    let record = record.get(..full).ok_or("too long")?;
    let memory = Refusing::new(alloc);
    let mut line = line_of(alloc, &memory, setup, terminals, poll_list)?;
    Ok(takes(&mut line, record)?)
}

#[test]
fn a_line_is_made_with_each_length_of_a_record_and_of_a_block(rt: HostRuntime) -> Result<(), Fail> {
    let terminals = [coded(FIRST_CODE, 1)?];
    for full in 1..=144u8 {
        for block_chars in 146..=400u16 {
            let setup = Setup::new(full, block_chars, 3, 10)?;
            assert!(rt;
                delivers(rt.alloc(), setup, &terminals, &[0])?,
                "{full} {block_chars}"
            );
        }
    }
    Ok(())
}

#[test]
fn a_line_is_made_with_each_number_of_tries_and_of_waits(rt: HostRuntime) -> Result<(), Fail> {
    let terminals = [coded(FIRST_CODE, 4)?];
    for tries in 1..=15u8 {
        for waits in 1..=255u8 {
            let setup = Setup::new(80, 400, tries, waits)?;
            assert!(rt;
                delivers(rt.alloc(), setup, &terminals, &[0])?,
                "{tries} {waits}"
            );
        }
    }
    Ok(())
}

#[test]
fn a_line_is_made_with_each_number_of_terminals_and_addresses(rt: HostRuntime) -> Result<(), Fail> {
    for count in 1..=4usize {
        let terminals = most_terminals(count)?;
        for last in 0..64u8 {
            let first = terminals.get(..=usize::from(last)).ok_or("too few")?;
            assert!(rt;
                delivers(rt.alloc(), setup(3)?, first, &[last])?,
                "{count} {last}"
            );
        }
    }
    Ok(())
}

/// Five terminals with the combination of this number of their numbers of addresses, 0 to 1,023.
fn mixed(number: usize) -> Result<[Terminal; 5], Fail> {
    let mut terminals = [coded(FIRST_CODE, 1)?; 5];
    let mut left = number;
    for (terminal, code) in terminals.iter_mut().zip(FIRST_CODE..=0x7e) {
        *terminal = coded(code, left % 4 + 1)?;
        left /= 4;
    }
    Ok(terminals)
}

#[test]
fn a_line_is_made_with_each_combination_of_addresses(rt: HostRuntime) -> Result<(), Fail> {
    for number in 0..1_024usize {
        assert!(rt;
            delivers(rt.alloc(), setup(3)?, &mixed(number)?, &[4])?,
            "{number}"
        );
    }
    Ok(())
}

/// The longest poll list: each of the terminals up to this one in turn, the last one first.
fn entries(last: u8) -> [u8; 255] {
    let mut entries = [0; 255];
    for (entry, number) in entries.iter_mut().zip(0..255u8) {
        *entry = last.saturating_sub(number % last.saturating_add(1).max(1));
    }
    entries
}

#[test]
fn a_line_is_made_with_each_length_of_the_poll_list(rt: HostRuntime) -> Result<(), Fail> {
    let terminals = most_terminals(1)?;
    for last in [0, 1, 2, 63u8] {
        let first = terminals.get(..=usize::from(last)).ok_or("too few")?;
        let poll_list = entries(last);
        for length in 1..=255usize {
            let poll_list = poll_list.get(..length).ok_or("too few entries")?;
            assert!(rt;
                delivers(rt.alloc(), setup(3)?, first, poll_list)?,
                "{last} {length}"
            );
        }
    }
    Ok(())
}

/// The first codes of the longest address of this number.
fn front(number: usize, length: usize) -> Result<Address, Fail> {
    let longest: [&[u8]; 5] = [b"POLLING", b"abcdefg", b"bcdefga", b"cdefgab", b"defgabc"];
    Ok(Address::read(longest[number % 5].get(..length).ok_or("too short")?)?)
}

/// A terminal whose polling address has this length, and its selection addresses the other one.
fn terminal_of(poll: usize, length: usize) -> Result<Terminal, Fail> {
    let selects = [
        front(1, length)?,
        front(2, length)?,
        front(3, length)?,
        front(4, length)?,
    ];
    Ok(Terminal::new(front(0, poll)?, &selects)?)
}

#[test]
fn a_line_is_made_with_each_length_of_an_address(rt: HostRuntime) -> Result<(), Fail> {
    for poll in 1..=7usize {
        for length in 1..=7usize {
            let terminals = [terminal_of(poll, length)?];
            assert!(rt;
                delivers(rt.alloc(), setup(3)?, &terminals, &[0])?,
                "{poll} {length}"
            );
        }
    }
    Ok(())
}
