//! Each transmission of an exchange is heard as anything near it, by all terminals or by one, and
//! then the exchange goes on for 40 events. All rules of a line have to hold after each event.

use crate::exchanges::{
    Exchange, INTERRUPTED, POLLED, SELECTED, SELECTED_TWICE, Sent, transmissions,
};
use crate::fixtures::Watched;
use bsc_line::Event;
use std::alloc::Global;
use std::test::Fail;
use test_fixtures::octets::{CALL_POLL_A, EOT, TEXT_HI};

/// The greatest number of octets that is decoded as a message.
const LONGEST: usize = 2048;

/// A transmission of an exchange, and an allocator to play it with.
#[derive(Clone, Copy)]
struct Stage<'a> {
    alloc: Global,
    exchange: &'a Exchange,
    sent: &'a Sent,
}

/// Plays the exchange on a new line, with the event at the place of the transmission, and goes on.
fn play(stage: Stage<'_>, event: &Event<'_>) -> Result<(), Fail> {
    let mut watched = Watched::new(stage.alloc)?;
    Ok(watched.play_through(stage.exchange, stage.sent.place, event)?)
}

/// Terminal 0 hears the first item in place of the transmission, and terminal 1 the second.
fn hear_each<'a>(
    stage: Stage<'_>,
    first: Option<&'a [u8]>,
    second: Option<&'a [u8]>,
) -> Result<(), Fail> {
    let items = [first, second];
    play(stage, &Event::CarryEach { heard: &items })
}

/// All stations that hear the transmission hear these octets in its place; if the control station
/// sent it, each single terminal does too, while the other one hears the transmission or nothing.
fn hear(stage: Stage<'_>, octets: &[u8]) -> Result<(), Fail> {
    let heard = Some(octets);
    play(stage, &Event::Carry { heard })?;
    if stage.sent.by_control {
        for other in [Some(stage.sent.octets.as_slice()), None] {
            hear_each(stage, heard, other)?;
            hear_each(stage, other, heard)?;
        }
    }
    Ok(())
}

/// The octet at this place is heard as each of the 256 values.
fn hear_values(stage: Stage<'_>, place: usize) -> Result<(), Fail> {
    let mut heard = stage.sent.octets.clone()?;
    for value in 0..=255u8 {
        if let Some(octet) = heard.get_mut(place) {
            *octet = value;
        }
        hear(stage, heard.as_slice())?;
    }
    Ok(())
}

/// The transmission breaks off before each octet, and each octet is heard as each value.
fn hear_octets(stage: Stage<'_>) -> Result<(), Fail> {
    for len in 0..=stage.sent.octets.len() {
        hear(stage, &stage.sent.octets.as_slice()[..len])?;
    }
    for place in 0..stage.sent.octets.len() {
        hear_values(stage, place)?;
    }
    Ok(())
}

/// The transmission is heard with octets FF after it, up to the most octets, and one more.
fn hear_padded(stage: Stage<'_>) -> Result<(), Fail> {
    for octets in [LONGEST, LONGEST + 1] {
        let mut heard = Vec::from_slice(stage.alloc, stage.sent.octets.as_slice())?;
        heard.resize(octets, 0xff)?;
        hear(stage, heard.as_slice())?;
    }
    Ok(())
}

/// Each transmission of the exchange is heard in place of this one; if the control station sent it,
/// the two terminals also hear this one and each other one.
fn hear_others(stage: Stage<'_>, first: &Sent, all: &[Sent]) -> Result<(), Fail> {
    let first = first.octets.as_slice();
    hear(stage, first)?;
    if stage.sent.by_control {
        for second in all {
            hear_each(stage, Some(first), Some(second.octets.as_slice()))?;
        }
    }
    Ok(())
}

/// Each transmission of the exchange is heard as anything near it.
fn hear_anything(alloc: Global, exchange: &Exchange) -> Result<(), Fail> {
    let all = transmissions(alloc, exchange)?;
    for sent in &all {
        let stage = Stage {
            alloc,
            exchange,
            sent,
        };
        hear_octets(stage)?;
        hear_padded(stage)?;
        for other in &all {
            hear_others(stage, other, all.as_slice())?;
        }
    }
    Ok(())
}

#[test]
fn a_poll_is_heard_as_anything(rt: HostRuntime) -> Result<(), Fail> {
    hear_anything(rt.alloc(), &POLLED)
}

#[test]
fn a_selection_is_heard_as_anything(rt: HostRuntime) -> Result<(), Fail> {
    hear_anything(rt.alloc(), &SELECTED)
}

#[test]
fn a_selection_of_two_blocks_is_heard_as_anything(rt: HostRuntime) -> Result<(), Fail> {
    hear_anything(rt.alloc(), &SELECTED_TWICE)
}

#[test]
fn a_selection_that_is_interrupted_is_heard_as_anything(rt: HostRuntime) -> Result<(), Fail> {
    hear_anything(rt.alloc(), &INTERRUPTED)
}

/// Whether something is pending and whether the line is trusted, after the transmission of this
/// number of a poll was heard as these octets.
fn outcome(alloc: Global, place: usize, octets: &[u8]) -> Result<(bool, bool), Fail> {
    let mut watched = Watched::new(alloc)?;
    watched.begin(&POLLED, place)?;
    let heard = Some(octets);
    let _ = watched.play(&Event::Carry { heard })?;
    Ok((watched.line.pending().is_some(), watched.line.trusted()))
}

/// The transmission is the EOT of terminal 0 that ends its bid; the control station then calls B.
#[test]
fn eot_is_heard_without_pad_and_after_2047_syn(rt: HostRuntime) -> Result<(), Fail> {
    for (syns, is_eot) in [(1, true), (2047, true), (2048, false)] {
        let mut octets = Vec::new(rt.alloc());
        octets.resize(syns, 0x16)?;
        octets.push(0x04)?;
        let seen = outcome(rt.alloc(), 3, octets.as_slice())?;
        assert_eq!(rt; seen, (is_eot, true), "{syns}");
    }
    assert_eq!(rt; outcome(rt.alloc(), 3, EOT)?, (true, true));
    Ok(())
}

#[test]
fn every_front_of_a_call_and_of_a_text_is_heard_fairly(rt: HostRuntime) -> Result<(), Fail> {
    for (place, octets) in [(0, CALL_POLL_A), (1, TEXT_HI)] {
        for len in 0..=octets.len() {
            let (_, trusted) = outcome(rt.alloc(), place, &octets[..len])?;
            assert!(rt; trusted, "the first {len} of transmission {place}");
        }
    }
    Ok(())
}
