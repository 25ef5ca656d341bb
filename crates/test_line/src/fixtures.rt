//! The lines on which events are played.

use bsc_bid::{Setup, Terminal};
use bsc_frame::Address;
use bsc_line::{Line, LineError};
use std::alloc::{Allocator, Global};
use std::test::Fail;
use test_alloc::Refusing;
use test_fixtures::lines::{setup, two_terminals, two_terminals_by_three};
use test_fixtures::on_heap;

/// The second code of the addresses of the first terminal, if a line has many terminals.
pub(crate) const FIRST_CODE: u8 = 0x21;

/// A terminal with the polling address P and this many of the selection addresses a, b, c and d, 1
/// to 4, each followed by this code.
pub(crate) fn coded(code: u8, count: usize) -> Result<Terminal, Fail> {
    let selects = [
        Address::read(&[b'a', code])?,
        Address::read(&[b'b', code])?,
        Address::read(&[b'c', code])?,
        Address::read(&[b'd', code])?,
    ];
    let selects = selects.get(..count).ok_or("too many addresses")?;
    Ok(Terminal::new(Address::read(&[b'P', code])?, selects)?)
}

/// The greatest number of terminals of a line, with this many selection addresses each.
pub(crate) fn most_terminals(count: usize) -> Result<[Terminal; 64], Fail> {
    let mut terminals = [coded(FIRST_CODE, count)?; 64];
    for (terminal, code) in terminals.iter_mut().zip(FIRST_CODE..=0x7e) {
        *terminal = coded(code, count)?;
    }
    Ok(terminals)
}

/// A poll list with the greatest number of entries, which names each of 64 terminals in turn.
fn longest_poll_list() -> [u8; 255] {
    let mut entries = [0; 255];
    for (entry, number) in entries.iter_mut().zip(0..255u8) {
        *entry = number % 64;
    }
    entries
}

/// A new line, to which no memory is refused while it is made.
pub(crate) fn line_of<'a>(
    alloc: Global,
    memory: &'a Refusing,
    setup: Setup,
    terminals: &[Terminal],
    poll_list: &[u8],
) -> Result<Box<Line<&'a Refusing>>, Fail> {
    memory.refuse_none();
    on_heap(alloc, Line::new(memory, setup, terminals, poll_list))
}

/// The line of an exchange.
#[derive(Clone, Copy)]
pub(crate) enum On {
    /// Terminals 0 and 1 polled in turn.
    Two,

    /// The same with one try.
    OneTry,

    /// The same with one try, and terminal 1 is polled first.
    SecondFirst,

    /// Terminals 0 and 1 polled in turn; terminal 0 has two selection addresses.
    ByThree,

    /// The greatest number of terminals, one of which is polled.
    Most,

    /// The same with the longest poll list, which names each terminal in turn.
    Longest,
}

/// A new line of this kind.
pub(crate) fn line_on<'a>(
    alloc: Global,
    memory: &'a Refusing,
    on: On,
) -> Result<Box<Line<&'a Refusing>>, Fail> {
    let (three, one) = (setup(3)?, setup(1)?);
    match on {
        On::Two => line_of(alloc, memory, three, &two_terminals(), &[0, 1]),
        On::OneTry => line_of(alloc, memory, one, &two_terminals(), &[0, 1]),
        On::SecondFirst => line_of(alloc, memory, one, &two_terminals(), &[1, 0]),
        On::ByThree => line_of(alloc, memory, three, &two_terminals_by_three(), &[0, 1]),
        On::Most => line_of(alloc, memory, three, &most_terminals(4)?, &[0]),
        On::Longest => line_of(
            alloc,
            memory,
            three,
            &most_terminals(4)?,
            &longest_poll_list(),
        ),
    }
}

/// Carries this many transmissions as they were sent.
pub(crate) fn carry_on<A: Allocator>(line: &mut Line<A>, count: u64) -> Result<(), LineError> {
    for _ in 0..count {
        line.carry_sent()?;
    }
    Ok(())
}

/// What is pending is carried as it was sent; if nothing is pending, a silence passes.
pub(crate) fn go_on<A: Allocator>(line: &mut Line<A>) -> Result<(), LineError> {
    match line.pending() {
        None => line.silence(),
        Some(_) => line.carry_sent(),
    }
}
