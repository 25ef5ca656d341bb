//! Plays random events of all kinds on random lines, and checks all rules of a line after each
//! event.

use crate::events::Events;
use crate::player::Player;
use anyhow::{Context, Result, bail};
use std::alloc::Global;
use std::env;
use std::rt::Env;
use test_alloc::Refusing;
use test_watch::{Counted, Tally};

/// Plays as the command line says, and prints what was counted.
pub(crate) fn run<R: AllocGlobal + Env + Print>(rt: &R) -> Result<()> {
    let mut words = Vec::new(rt.alloc());
    for word in env::args(rt)? {
        words.push(word)?;
    }
    let (events, seed) = read_words(&words)?;
    soak(rt.alloc(), events, seed)?.print(rt)
}

/// The number of events and the seed, after the name of the program.
fn read_words(words: &[String]) -> Result<(u64, u64)> {
    match words {
        [] | [_] => Ok((20_000, 1)),
        [_, events] => Ok((events.parse()?, 1)),
        [_, events, seed] => Ok((events.parse()?, seed.parse()?)),
        _ => bail!("not a number of events and a seed"),
    }
}

/// Plays lines in order until this many events have been played.
fn soak(alloc: Global, events: u64, seed: u64) -> Result<Tally> {
    let memory = Refusing::new(alloc);
    let mut tally = Tally::new();
    for line in 0..events {
        let left = events.saturating_sub(tally.of(Counted::Events));
        if left == 0 {
            return Ok(tally);
        }
        let seed = seed.wrapping_add(line);
        let mut player = Player::new(alloc, &memory, seed)?;
        play_on(alloc, &mut player, seed, left, &mut tally)?;
    }
    Ok(tally)
}

/// Plays at most this many events on the line of this seed, then compares all records, and counts
/// what was seen.
fn play_on(
    alloc: Global,
    player: &mut Player<'_>,
    seed: u64,
    most: u64,
    tally: &mut Tally,
) -> Result<()> {
    let events = life(&mut player.events).min(most);
    for number in 0..events {
        player
            .step(alloc)
            .context(format_args!("line {seed}, event {number}"))?;
    }
    player
        .watch
        .see_all(&player.line)
        .context(format_args!("line {seed}, after {events} events"))?;
    tally.add(Counted::Events, events);
    tally.add(Counted::Lines, 1);
    tally.add(Counted::Untrusted, u64::from(!player.line.trusted()));
    tally.add_all(&player.watch.tally);
    Ok(())
}

/// The number of events to play on a line: few on most lines, since a line loses trust only once.
fn life(events: &mut Events) -> u64 {
    let most = if events.below(8) == 0 { 6000 } else { 1000 };
    (events.below(most) as u64).saturating_add(100)
}
