//! An offer may fail with `Memory`, and a station may put the sender of records off, only if memory
//! was refused during the event.

use crate::exchanges::HI_AT;
use bsc_line::Event::{CarrySent, Silence};
use bsc_line::{Event, Line, LineError};
use std::alloc::{Allocator, Global};
use std::test::Fail;
use test_alloc::Refusing;
use test_fixtures::lines::{setup, two_terminals};
use test_fixtures::on_heap;
use test_watch::{Broken, LineWatch};

/// Offers HI for terminal 0.
const HI_FOR: Event<'static> = Event::OfferFor {
    terminal: 0,
    select: 0,
    codes: b"HI",
};

/// What the watch reports.
type Seen = Result<Result<(), LineError>, Broken>;

/// Events that are played before memory is refused and after, on a new line.
type Played = (&'static [Event<'static>], &'static [Event<'static>]);

/// A selection for which the terminal has no room, and the answer again; and a text for which the
/// control station has none.
const PUT_OFF: [Played; 2] = [
    (&[HI_FOR], &[Silence, CarrySent, CarrySent, CarrySent]),
    (&[HI_AT], &[Silence, CarrySent, CarrySent]),
];

/// Plays these events, and returns what the watch reports of the last one, or of the first that
/// breaks a rule.
fn play_each<A: Allocator>(
    watch: &mut LineWatch,
    memory: &Refusing,
    line: &mut Line<A>,
    events: &[Event<'_>],
) -> Seen {
    let mut seen = Ok(());
    for event in events {
        seen = watch.play(memory, line, event)?;
    }
    Ok(seen)
}

/// What the watch reports of the last of these events on a new line to which `starved` refuses all
/// memory during the second ones, if the watch takes `memory` as the allocator of the line.
fn seen(
    alloc: Global,
    starved: &Refusing,
    memory: &Refusing,
    played: Played,
) -> Result<Seen, Fail> {
    let (setup, terminals) = (setup(3)?, two_terminals());
    let mut watch = on_heap(alloc, LineWatch::new(alloc, setup, &terminals, &[0, 1]))?;
    starved.refuse_none();
    let mut line = on_heap(alloc, Line::new(starved, setup, &terminals, &[0, 1]))?;
    let before = play_each(&mut watch, memory, &mut line, played.0);
    if before != Ok(Ok(())) {
        return Ok(before);
    }
    starved.refuse_from(1);
    Ok(play_each(&mut watch, memory, &mut line, played.1))
}

/// A record is offered, and memory is refused at once.
const OFFERED: Played = (&[], &[HI_AT]);

#[test]
fn an_offer_fails_only_if_memory_was_refused_during_it(rt: HostRuntime) -> Result<(), Fail> {
    let alloc = rt.alloc();
    let (starved, other) = (Refusing::new(alloc), Refusing::new(alloc));
    let granted = seen(alloc, &starved, &starved, OFFERED)?;
    assert_eq!(rt; granted, Ok(Err(LineError::Memory)));

    // A refusal before the offer is no cause.
    other.refuse_from(1);
    assert!(rt; Vec::<u8, &Refusing>::with_capacity(&other, 1).is_err());
    assert_eq!(rt;
        seen(alloc, &starved, &other, OFFERED)?,
        Err(Broken::Answer)
    );
    Ok(())
}

#[test]
fn a_station_puts_off_only_if_memory_was_refused_to_it(rt: HostRuntime) -> Result<(), Fail> {
    let alloc = rt.alloc();
    let (starved, other) = (Refusing::new(alloc), Refusing::new(alloc));
    for played in PUT_OFF {
        assert_eq!(rt; seen(alloc, &starved, &starved, played)?, Ok(Ok(())));
        assert_eq!(rt; seen(alloc, &starved, &other, played)?, Err(Broken::PutOff));
    }
    Ok(())
}
