//! Growths of whole exchanges are refused: each one in turn, all from each one on, and all above
//! each size.

use crate::channels::{are_sound, has_count, is_put_off, offer, offered_count};
use crate::fixtures::{On, go_on, line_on};
use bsc_control::Way;
use bsc_control::Way::{FromTerminal, ToTerminal};
use bsc_line::{Line, LineError};
use std::alloc::{Allocator, Global};
use std::test::Fail;
use test_alloc::{Refusal, Refusing};

/// Refuses growths of more octets than a multiple of 128. The first offer of a channel takes 288
/// octets for characters, and the first text 2,016.
const ABOVE: Refusal = Refusal::Above { octets: 128 };

/// The records from terminal 0 and to it, each of one character, and whether the terminal then asks
/// for the line.
type Exchange = (&'static [u8], &'static [u8], bool);

/// Records for fifteen blocks.
const HUNDRED: &[u8] = b"A record of each of these characters is offered, one after the other, \
    each way of the first terminal";

/// A record from terminal 0; one block to it; two blocks; two blocks, the first of which it
/// interrupts to send a record; three blocks each way; and fifteen blocks each way.
const EXCHANGES: &[Exchange] = &[
    (b"H", b"", false),
    (b"", b"0123456", false),
    (b"", b"01234567", false),
    (b"H", b"01234567", true),
    (b"ABCDEFGHIJKLMNOPQRST", b"abcdefghijklmnopqrst", false),
    (HUNDRED, HUNDRED, false),
];

/// Offers the records of a channel that have not been offered yet, and repeats offers that are
/// refused; there are at most twice as many offers as records. Returns whether each answer was
/// right: out of memory with nothing offered if a growth was refused, and otherwise accepted.
fn offers_rest<A: Allocator>(
    memory: &Refusing,
    line: &mut Line<A>,
    way: Way,
    codes: &[u8],
) -> bool {
    for _ in codes.iter().chain(codes) {
        let before = offered_count(line, 0, way);
        let Some(code) = codes.get(before) else {
            return true;
        };
        let refusals = memory.refused();
        let answer = offer(line, 0, way, &[*code]);
        let due = if memory.refused() == refusals {
            (Ok(()), before.wrapping_add(1))
        } else {
            (Err(LineError::Memory), before)
        };
        if (answer, offered_count(line, 0, way)) != due {
            return false;
        }
    }
    true
}

/// Offers the remaining records each way, and returns whether each answer was right.
fn offers_all<A: Allocator>(memory: &Refusing, line: &mut Line<A>, exchange: &Exchange) -> bool {
    let (from, to, _) = exchange;
    offers_rest(memory, line, FromTerminal, from) && offers_rest(memory, line, ToTerminal(0), to)
}

/// Plays 80 transmissions and silences. Returns whether after each the line is trusted, its
/// channels are sound, and the sender is put off exactly if a growth was refused.
fn goes<A: Allocator>(memory: &Refusing, line: &mut Line<A>) -> Result<bool, LineError> {
    for _ in 0..80u8 {
        let refusals = memory.refused();
        go_on(line)?;
        let is_refused = memory.refused() != refusals;
        if !line.trusted() || !are_sound(line) || is_put_off(line) != is_refused {
            return Ok(false);
        }
    }
    Ok(true)
}

/// Whether all records of an exchange are delivered.
fn has_all<A: Allocator>(line: &Line<A>, (from, to, _): &Exchange) -> bool {
    has_count(line, 0, FromTerminal, from.len()) && has_count(line, 0, ToTerminal(0), to.len())
}

/// Plays an exchange while growths are refused, and then the rest of it without refusals, after
/// which all records are delivered. Returns whether growths were refused to an offer, and to a
/// spool; None if something is not as it has to be.
fn refused_in<A: Allocator>(
    memory: &Refusing,
    line: &mut Line<A>,
    exchange: &Exchange,
) -> Result<Option<(bool, bool)>, LineError> {
    let is_offered = offers_all(memory, line, exchange);
    if exchange.2 {
        line.set_urgent_at(0)?;
    }
    let offers = memory.refused();
    let is_gone = goes(memory, line)?;
    let refused = (offers > 0, memory.refused() > offers);
    memory.refuse_none();
    let is_whole = offers_all(memory, line, exchange) && goes(memory, line)?;
    let is_right = is_offered && is_gone && is_whole && has_all(line, exchange);
    Ok(if is_right { Some(refused) } else { None })
}

/// Plays an exchange on a new line, and refuses growths by this number.
fn refused_at(
    alloc: Global,
    memory: &Refusing,
    which: Refusal,
    number: usize,
    exchange: &Exchange,
) -> Result<(bool, bool), Fail> {
    let mut line = line_on(alloc, memory, On::Two)?;
    memory.refuse(which, number);
    Ok(refused_in(memory, &mut line, exchange)?.ok_or("not as expected")?)
}

/// Plays an exchange with refusals from each number in turn, until no growth is refused. Returns
/// whether growths of offers and of spools were refused.
fn refuses_each(alloc: Global, which: Refusal, exchange: &Exchange) -> Result<bool, Fail> {
    let memory = Refusing::new(alloc);
    let (mut offers, mut rooms) = (false, false);
    for number in memory.in_turn(which, 1..999) {
        let (offer, room) = refused_at(alloc, &memory, which, number?, exchange)?;
        offers |= offer;
        rooms |= room;
    }
    Ok(offers && rooms)
}

#[test]
fn each_growth_of_an_exchange_is_refused(rt: HostRuntime) -> Result<(), Fail> {
    for exchange in EXCHANGES {
        for which in [Refusal::Nth, Refusal::From, ABOVE] {
            assert!(rt; refuses_each(rt.alloc(), which, exchange)?, "{exchange:?}");
        }
    }
    Ok(())
}
