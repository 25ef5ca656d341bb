//! Offers, in every state of a line, while memory is granted to them: each is accepted. While
//! memory is granted to all stations, no text is put off.

use crate::channels::{is_put_off, offer};
use crate::fixtures::{On, go_on, line_of, line_on, most_terminals};
use bsc_bid::{Setup, Speaker};
use bsc_control::Way;
use bsc_control::Way::{FromTerminal, ToTerminal};
use bsc_frame::{Message, Reply};
use bsc_line::{Event, Line, LineError};
use std::alloc::{Allocator, Global};
use std::test::Fail;
use test_alloc::Refusing;
use test_fixtures::octets::BROKEN_TEXT;

/// The greatest number of characters of a record and of a block, the limits of tries and of WACKs,
/// and the number of terminals.
type Setting = (u8, u16, u8, u8, usize);

/// The least and the greatest of each, and one failure that is enough for a doubt.
const SETTINGS: &[Setting] = &[
    (1, 146, 1, 1, 1),
    (80, 400, 1, 10, 2),
    (144, 400, 15, 255, 64),
];

/// Whether a line is in each of these states: the control station or a terminal sent a text, the
/// control station or terminal 0 is in doubt, the line is not trusted, and a station is put off by
/// WACK, which means that there is no room.
type States = [bool; 6];

/// All of them, but that a station is put off.
const ALL: States = [true, true, true, true, true, false];

/// The states of this line.
fn states_of<A: Allocator>(line: &Line<A>) -> States {
    let mut states = [false, false, false, false, !line.trusted(), false];
    if let Some(sent) = line.pending() {
        let is_text = matches!(sent.message, Message::Text(_));
        let is_control = sent.speaker == Speaker::Control;
        states[0] = is_text && is_control;
        states[1] = is_text && !is_control;
        states[5] = matches!(sent.message, Message::Reply(Reply::Wack));
    }
    if line.terminals() > 0 && line.addresses(0) > 0 {
        states[2] = line.in_doubt(0, ToTerminal(0));
        states[3] = line.in_doubt(0, FromTerminal);
    }
    states
}

/// The characters with which the records begin.
const CHARS: &[u8] = &[b'X'; 144];

/// Offers a record each way of the first terminal and of the last one. Its length depends on the
/// number of the step: each from 0 to the greatest number of characters in turn.
fn offer_around<A: Allocator>(line: &mut Line<A>, chars: u8, step: usize) -> Result<(), LineError> {
    let codes = CHARS
        .get(..step % (usize::from(chars) + 1))
        .unwrap_or(CHARS);
    for terminal in [0, line.terminals().saturating_sub(1)] {
        line.offer_at(terminal, codes)?;
        line.offer_for(terminal, 0, codes)?;
        line.offer_for(terminal, 3, codes)?;
    }
    Ok(())
}

/// The event of this number. For thirteen events transmissions are carried, and for forty, which is
/// long enough for the most tries, they are lost; after 700 events, one in nine is heard as a
/// broken text. Silence passes while nothing is pending.
fn event_of(step: usize, is_pending: bool) -> Event<'static> {
    if !is_pending {
        return Event::Silence;
    }
    if step > 700 && step % 9 == 0 {
        return Event::Carry {
            heard: Some(BROKEN_TEXT),
        };
    }
    if step % 53 < 13 {
        Event::CarrySent
    } else {
        Event::Carry { heard: None }
    }
}

/// Plays a thousand events, offers each way after each of them, and returns the states that the
/// line went through. Now and then both ends ask for the line, and the terminal accepts no
/// selections.
fn play_and_offer<A: Allocator>(line: &mut Line<A>, chars: u8) -> Result<States, LineError> {
    let mut seen = [false; 6];
    for step in 0..1000usize {
        let event = event_of(step, line.pending().is_some());
        line.run(&[event]).map_err(|stopped| stopped.why)?;
        if step % 11 == 0 {
            line.set_urgent_at(0)?;
            line.set_urgent_for(0)?;
            line.set_ready(0, false)?;
            offer_around(line, chars, step)?;
            line.set_ready(0, true)?;
        }
        offer_around(line, chars, step)?;
        let states = states_of(line);
        for (seen, state) in seen.iter_mut().zip(&states) {
            *seen |= *state;
        }
    }
    Ok(seen)
}

/// The states that a line of this setting goes through.
fn states_with(alloc: Global, memory: &Refusing, setting: &Setting) -> Result<States, Fail> {
    let (chars, block_chars, tries, waits, count) = *setting;
    let setup = Setup::new(chars, block_chars, tries, waits)?;
    let most = most_terminals(4)?;
    let terminals = most.get(..count).ok_or("too few terminals")?;
    let mut line = line_of(alloc, memory, setup, terminals, &[0])?;
    Ok(play_and_offer(&mut line, chars)?)
}

#[test]
fn offers_are_accepted_in_every_state(rt: HostRuntime) -> Result<(), Fail> {
    let memory = Refusing::new(rt.alloc());
    for setting in SETTINGS {
        let states = states_with(rt.alloc(), &memory, setting)?;
        assert!(rt; states == ALL && memory.refused() == 0, "{setting:?}");
    }
    Ok(())
}

/// Offers a record at a terminal, and one for each of its four addresses.
fn offer_each<A: Allocator>(line: &mut Line<A>, terminal: usize) -> Result<(), LineError> {
    line.offer_at(terminal, b"HI")?;
    for select in 0..4usize {
        line.offer_for(terminal, select, b"HI")?;
    }
    Ok(())
}

/// Whether a poll of a terminal is pending.
fn is_polling<A: Allocator>(line: &Line<A>) -> bool {
    match line.pending() {
        Some(sent) => match &sent.message {
            Message::Call(address) => address.codes().starts_with(b"P"),
            _ => false,
        },
        None => false,
    }
}

/// Offers records after each of 100,000 transmissions, at all terminals in turn and for each of
/// their addresses, until this many polls were sent or a station is put off. So much is to be sent
/// that each entry of the poll list is the present one for about as many transmissions as there are
/// terminals. Returns the number of polls.
fn count_polls<A: Allocator>(line: &mut Line<A>, most: usize) -> Result<usize, LineError> {
    let mut polls = 0usize;
    for step in 0..100_000usize {
        go_on(line)?;
        offer_each(line, step % 64)?;
        polls = polls.saturating_add(usize::from(is_polling(line)));
        if polls == most || is_put_off(line) {
            return Ok(polls);
        }
    }
    Ok(polls)
}

/// Offers 1,200 times a record each way of each terminal.
fn offer_on<A: Allocator>(line: &mut Line<A>) -> Result<(), LineError> {
    for _ in 0..1200u16 {
        for terminal in 0..64usize {
            offer_each(line, terminal)?;
        }
    }
    Ok(())
}

#[test]
fn offers_are_accepted_at_each_entry_of_the_longest_poll_list(rt: HostRuntime) -> Result<(), Fail> {
    let memory = Refusing::new(rt.alloc());
    let mut line = line_on(rt.alloc(), &memory, On::Longest)?;
    let polls = count_polls(&mut line, 256)?;
    offer_on(&mut line)?;
    assert!(rt; polls == 256 && memory.refused() == 0, "{polls}");
    Ok(())
}

/// Offers twenty of the longest records at terminal 0, or for it.
fn offer_twenty<A: Allocator>(line: &mut Line<A>, way: Way) -> Result<(), LineError> {
    for _ in 0..20u8 {
        offer(line, 0, way, CHARS)?;
    }
    Ok(())
}

/// Plays 600 transmissions and silences, with offers in between. Memory is granted to the offers
/// only, and to the first `granted` transmissions. Returns how often the sender is put off.
fn count_put_off<A: Allocator>(
    memory: &Refusing,
    line: &mut Line<A>,
    granted: usize,
) -> Result<usize, LineError> {
    let mut count = 0usize;
    for step in 0..600usize {
        if step > granted {
            memory.refuse_from(1);
        }
        let done = go_on(line);
        memory.refuse_none();
        done?;
        offer_around(line, 144, step)?;
        count = count.saturating_add(usize::from(is_put_off(line)));
    }
    Ok(count)
}

/// How often the sender of a bid of the longest records is put off.
fn put_off_on(alloc: Global, memory: &Refusing, way: Way, granted: usize) -> Result<usize, Fail> {
    let setup = Setup::new(144, 400, 15, 255)?;
    let mut line = line_of(alloc, memory, setup, &most_terminals(4)?, &[0])?;
    offer_twenty(&mut line, way)?;
    Ok(count_put_off(memory, &mut line, granted)?)
}

/// The call that selects a terminal has no room at once. A control station that polled has room for
/// the first text.
#[test]
fn offers_are_accepted_while_a_bid_is_put_off_255_times(rt: HostRuntime) -> Result<(), Fail> {
    let memory = Refusing::new(rt.alloc());
    for (way, granted) in [(ToTerminal(0), 0), (FromTerminal, 2)] {
        let count = put_off_on(rt.alloc(), &memory, way, granted)?;
        assert!(rt; count > 255, "{count}");
    }
    Ok(())
}
