//! A line that is played with a watch on it.

use crate::events::{Events, Next, RELEASE};
use crate::setups::{poll_list, select_counts, setup, terminals};
use anyhow::Result;
use bsc_bid::{Setup, Terminal};
use bsc_line::{Event, Line};
use std::alloc::{AllocError, Allocator, Global};
use test_alloc::Refusing;
use test_fixtures::Random;
use test_watch::LineWatch;

/// A line, its watch and its events. Short functions own it and lend it to the functions that play.
#[derive(Drop)]
pub struct Player<'a> {
    pub events: Events,
    pub line: Line<&'a Refusing>,
    pub watch: LineWatch,
    memory: &'a Refusing,
    starved: bool,
}

/// A new line and its watch.
fn watched<'a>(
    alloc: Global,
    memory: &'a Refusing,
    setup: Setup,
    terminals: &[Terminal],
    poll_list: &[u8],
) -> Result<(LineWatch, Line<&'a Refusing>)> {
    let watch = LineWatch::new(alloc, setup, terminals, poll_list)?;
    let line = Line::new(memory, setup, terminals, poll_list)?;
    Ok((watch, line))
}

/// Plays an event with any answer of the line.
fn play<A: Allocator>(
    memory: &Refusing,
    watch: &mut LineWatch,
    line: &mut Line<A>,
    event: &Event<'_>,
) -> Result<()> {
    let _ = watch.play(memory, line, event)?;
    Ok(())
}

/// Lends each of these hearings.
fn lend(alloc: Global, hearings: &[Option<Vec<u8>>]) -> Result<Vec<Option<&[u8]>>, AllocError> {
    let mut items = Vec::new(alloc);
    for hearing in hearings {
        items.push(match hearing {
            Some(octets) => Some(octets.as_slice()),
            None => None,
        })?;
    }
    Ok(items)
}

impl<'a> Player<'a> {
    /// Makes a new line from this seed, whose records are allocated from `memory`.
    pub fn new(alloc: Global, memory: &'a Refusing, seed: u64) -> Result<Player<'a>> {
        let mut random = Random::new(seed);
        memory.refuse_none();
        let setup = setup(&mut random)?;
        let terminals = terminals(alloc, &mut random)?;
        let poll_list = poll_list(alloc, &mut random, terminals.len())?;
        let selects = select_counts(alloc, &terminals)?;
        let (watch, line) = watched(alloc, memory, setup, &terminals, &poll_list)?;
        let full = usize::from(setup.format().full());
        Ok(Player {
            events: Events::new(alloc, random, full, selects),
            line,
            watch,
            memory,
            starved: false,
        })
    }

    /// Takes the memory from the line, or gives it back.
    fn feed(&mut self) {
        if self.starved {
            self.memory.refuse_none();
        } else {
            self.memory.refuse_from(1);
        }
        self.starved = !self.starved;
    }

    /// Plays one event.
    pub fn step(&mut self, alloc: Global) -> Result<()> {
        if self.events.below(32) == 0 {
            self.feed();
        }
        let choice = self.events.below(32);
        let doubtful = if choice == RELEASE {
            self.watch.doubtful()
        } else {
            None
        };
        match self.events.next(choice, doubtful, self.line.pending())? {
            Next::Event(event) => play(self.memory, &mut self.watch, &mut self.line, &event),
            Next::Each(hearings) => {
                let items = lend(alloc, hearings)?;
                let heard = items.as_slice();
                let (watch, line) = (&mut self.watch, &mut self.line);
                play(self.memory, watch, line, &Event::CarryEach { heard })
            }
        }
    }
}
