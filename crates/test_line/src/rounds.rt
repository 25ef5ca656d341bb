//! The number of transmissions of a visit and of a round, which deliver all waiting records.

use crate::channels::{has_count, offer};
use crate::fixtures::{On, carry_on, go_on, line_of, line_on};
use crate::play::pending_name;
use bsc_control::Way::{FromTerminal, ToTerminal};
use bsc_line::{Line, LineError};
use std::alloc::{Allocator, Global};
use std::test::Fail;
use test_alloc::Refusing;
use test_fixtures::lines::{setup, two_terminals_by_three};
use test_fixtures::octets::{CALL_POLL_A, TEXT_HI};

/// The poll list, the numbers of empty records from terminal 0 and to its two addresses, the
/// numbers of transmissions of a visit of it, and of a round after which it is polled. A visit of
/// terminal 1 takes two.
const ROWS: &[(&[u8], [usize; 3], u64, u64)] = &[
    (&[0, 1], [0, 0, 0], 2, 4),
    (&[0, 1], [1, 8, 0], 10, 12),
    (&[0, 0, 1], [1, 8, 0], 10, 14),
    (&[0, 1], [0, 1, 1], 10, 12),
    (&[0, 1], [300, 300, 0], 176, 178),
];

/// Offers these numbers of empty records.
fn offer_each<A: Allocator>(line: &mut Line<A>, counts: [usize; 3]) -> Result<(), LineError> {
    let ways = [FromTerminal, ToTerminal(0), ToTerminal(1)];
    for (way, count) in ways.iter().zip(&counts) {
        for _ in 0..*count {
            offer(line, 0, *way, b"")?;
        }
    }
    Ok(())
}

/// Whether these numbers of records arrived, and are known to have arrived.
fn has_each<A: Allocator>(line: &Line<A>, counts: [usize; 3]) -> bool {
    let [from, first, second] = counts;
    has_count(line, 0, FromTerminal, from)
        && has_count(line, 0, ToTerminal(0), first)
        && has_count(line, 0, ToTerminal(1), second)
}

/// Whether visits take these numbers of transmissions.
fn has_visits<A: Allocator>(line: &Line<A>, visit: u64) -> bool {
    line.terminals() == 2 && line.visit(0) == visit && line.visit(1) == 2
}

/// Whether this round delivers these numbers of records, and takes as many transmissions as are
/// foretold before it and after its first call.
fn delivers<A: Allocator>(
    line: &mut Line<A>,
    counts: [usize; 3],
    visit: u64,
    round: u64,
) -> Result<bool, LineError> {
    offer_each(line, counts)?;
    let foretold = has_visits(line, visit) && line.round() == round;
    line.silence()?;
    let foretold = foretold && line.round() == round;
    carry_on(line, round)?;
    Ok(foretold && pending_name(line) == "A" && has_each(line, counts))
}

#[test]
fn a_round_delivers_what_waits(rt: HostRuntime) -> Result<(), Fail> {
    let memory = Refusing::new(rt.alloc());
    for row in ROWS {
        let (poll_list, counts, visit, round) = row;
        let terminals = two_terminals_by_three();
        let mut line = line_of(rt.alloc(), &memory, setup(3)?, &terminals, poll_list)?;
        assert!(rt; delivers(&mut line, *counts, *visit, *round)?, "{row:?}");
    }
    Ok(())
}

/// Plays 999 transmissions and silences, and loses each transmission whose number is a multiple of
/// `period`.
fn lose_each<A: Allocator>(line: &mut Line<A>, period: usize) -> Result<(), LineError> {
    for number in 1..1000usize {
        if number.checked_rem(period) == Some(0) && line.pending().is_some() {
            line.carry(None)?;
        } else {
            go_on(line)?;
        }
    }
    Ok(())
}

/// Whether a hundred records arrive each way although transmissions are lost, on a line that stays
/// trusted.
fn arrive<A: Allocator>(line: &mut Line<A>, period: usize) -> Result<bool, LineError> {
    offer_each(line, [100, 100, 0])?;
    lose_each(line, period)?;
    Ok(line.trusted() && has_each(line, [100, 100, 0]))
}

#[test]
fn records_arrive_over_a_line_that_loses_each_fifth(rt: HostRuntime) -> Result<(), Fail> {
    let memory = Refusing::new(rt.alloc());
    for period in [5usize, 7, 11] {
        let mut line = line_on(rt.alloc(), &memory, On::ByThree)?;
        assert!(rt; arrive(&mut line, period)?, "{period}");
    }
    Ok(())
}

/// Whether the line is trusted after the transmission of this number of a poll, counted from 0, was
/// heard as these octets.
fn is_trusted_after<A: Allocator>(
    line: &mut Line<A>,
    place: u64,
    octets: &[u8],
) -> Result<bool, LineError> {
    line.offer_at(0, b"HI")?;
    line.silence()?;
    carry_on(line, place)?;
    line.carry(Some(octets))?;
    Ok(line.trusted())
}

/// Whether a line is trusted after the transmission of this number of a poll was heard with one bit
/// inverted.
fn is_trusted_with(
    alloc: Global,
    memory: &Refusing,
    place: u64,
    sent: &[u8],
    bit: usize,
) -> Result<bool, Fail> {
    let mut heard = Vec::from_slice(alloc, sent)?;
    if let Some(octet) = heard.get_mut(bit / 8) {
        *octet ^= 1u8 << (bit % 8);
    }
    let mut line = line_on(alloc, memory, On::ByThree)?;
    Ok(is_trusted_after(&mut line, place, heard.as_slice())?)
}

#[test]
fn one_inverted_bit_that_all_hear_never_ends_trust(rt: HostRuntime) -> Result<(), Fail> {
    let memory = Refusing::new(rt.alloc());
    for (place, sent) in [(0u64, CALL_POLL_A), (1, TEXT_HI)] {
        for bit in 0..72usize {
            let trusted = is_trusted_with(rt.alloc(), &memory, place, sent, bit)?;
            assert!(rt; trusted, "bit {bit} of transmission {place}");
        }
    }
    Ok(())
}
