//! The line of these tests, and the player that watches it.

use crate::exchanges::Exchange;
use bsc_bid::Terminal;
use bsc_line::{Event, Line, LineError};
use std::alloc::Global;
use std::test::Fail;
use test_alloc::Refusing;
use test_fixtures::lines::{setup, two_terminals};
use test_fixtures::on_heap;
use test_watch::{Broken, LineWatch};

/// A line with a watch on it. Short functions own it and lend it to the functions that play on it.
/// No memory is refused to the line, so that no offer may fail with `Memory`.
#[derive(Drop)]
pub(crate) struct Watched {
    pub(crate) line: Box<Line<Global>>,
    watch: Box<LineWatch>,
    memory: Refusing,
}

impl Watched {
    /// A new line: terminal 0 is polled by A and selected by a, terminal 1 is polled by B and
    /// selected by b, and they are called in turn.
    pub(crate) fn new(alloc: Global) -> Result<Box<Watched>, Fail> {
        Watched::of(alloc, &two_terminals(), &two_terminals())
    }

    /// A new line of these terminals, whose watch takes it for one of others.
    pub(crate) fn of(
        alloc: Global,
        terminals: &[Terminal],
        others: &[Terminal],
    ) -> Result<Box<Watched>, Fail> {
        let setup = setup(3)?;
        let watch = on_heap(alloc, LineWatch::new(alloc, setup, others, &[0, 1]))?;
        let line = on_heap(alloc, Line::new(alloc, setup, terminals, &[0, 1]))?;
        let watched = Watched {
            line,
            watch,
            memory: Refusing::new(alloc),
        };
        Ok(Box::new(alloc, watched)?)
    }

    /// Plays one event.
    pub(crate) fn play(&mut self, event: &Event<'_>) -> Result<Result<(), LineError>, Broken> {
        self.watch.play(&self.memory, &mut self.line, event)
    }

    /// Plays an event this many times.
    pub(crate) fn repeat(&mut self, count: usize, event: &Event<'_>) -> Result<(), Broken> {
        for _ in 0..count {
            let _ = self.play(event)?;
        }
        Ok(())
    }

    /// Plays each of these events once.
    pub(crate) fn play_each(&mut self, events: &[Event<'_>]) -> Result<(), Broken> {
        for event in events {
            self.repeat(1, event)?;
        }
        Ok(())
    }

    /// Plays the exchange until its transmission of this number, counted from 0, is pending.
    pub(crate) fn begin(&mut self, exchange: &Exchange, place: usize) -> Result<(), Broken> {
        for (count, event) in exchange.offers {
            self.repeat(*count, event)?;
        }
        self.repeat(1, &Event::Silence)?;
        self.repeat(place, &Event::CarrySent)
    }

    /// Ends the doubt of each of the four channels.
    pub(crate) fn release_each(&mut self) -> Result<(), Broken> {
        for _ in 0..4u8 {
            if let Some((terminal, way)) = self.watch.doubtful() {
                let _ = self.play(&Event::Release { terminal, way })?;
            }
        }
        Ok(())
    }

    /// Plays 40 events: what is pending is heard as it was sent, or a silence passes if nothing is
    /// pending. Then compares all records.
    pub(crate) fn go_on(&mut self) -> Result<(), Broken> {
        for _ in 0..40u8 {
            let event = match self.line.pending() {
                Some(_) => Event::CarrySent,
                None => Event::Silence,
            };
            let _ = self.play(&event)?;
        }
        self.watch.see_all(&self.line)
    }

    /// Plays the exchange up to its transmission of this number, then this event, and goes on.
    pub(crate) fn play_through(
        &mut self,
        exchange: &Exchange,
        place: usize,
        event: &Event<'_>,
    ) -> Result<(), Broken> {
        self.begin(exchange, place)?;
        let _ = self.play(event)?;
        self.go_on()
    }
}
