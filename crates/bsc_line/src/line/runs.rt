//! A list of events is run.

ghost use Rattle.std.specs.Prelude.{IsTrue};
ghost use Rattle.bsc_line_model.specs.EveryRun.{HasSameChannels, OffersAccepted};
ghost use Rattle.bsc_line_model.specs.Headline.{KeepsRecords};
ghost use Rattle.bsc_line_model.specs.Holding.{HoldsOnlyWhilePolled};
ghost use Rattle.bsc_line_model.specs.Kept.{IsLine};
ghost use Rattle.bsc_line_model.specs.Rounds.{DeliversVisit, DeliversRound};
ghost use Rattle.bsc_line_model.specs.Runs.{Does, Runs};

use crate::line::Line;
use bsc_line_model::laws::{every_run, headline, line_holder, round, visit};
use bsc_line_model::{Event, LineError, Stopped};
use std::alloc::Allocator;

impl<A: Allocator> Line<A> {
    /// Applies the events in order, up to the first that is refused. The channels are those of
    /// before, and what is offered on them grows by the accepted offers.
    ///
    /// If the line is trusted after them, it has kept the records: on each channel, those that
    /// arrived are the first of those that were offered, in order and each once; they include all
    /// that the sending end counts as delivered; and none reached a terminal that was not
    /// addressed.
    ///
    /// If the line was new, is trusted after them, and none of them is a restart of the control
    /// station, a terminal holds the line only while the control station polls it.
    ///
    /// If the events are the transmissions of a visit or of a round from its beginning, as many as
    /// its length and each heard as it was sent, and no spool is refused room, then all records
    /// that wait there are delivered.
    pub fn run(&mut self, events: &[Event<'_>]) -> Result<(), Stopped>
        ensures does { Runs self.old events.now result self.new }
        ensures line { IsLine self.new }
        ensures channels { HasSameChannels self.old self.new }
        ensures offered { OffersAccepted self.old events.now result self.new }
        ensures headline { IsTrue self.new.trusted →
            KeepsRecords self.old events.now result self.new }
        ensures holder { HoldsOnlyWhilePolled self.old events.now self.new }
        ensures visit { DeliversVisit self.old events.now result self.new }
        ensures round { DeliversRound self.old events.now result self.new }
    {
        every_run();
        headline();
        line_holder();
        visit();
        round();
        self.is_line();
        self.do_each(events)
    }

    /// Applies the events one after the other, up to the first that is refused.
    fn do_each(&mut self, events: &[Event<'_>]) -> Result<(), Stopped>
        ensures { Runs self.old events.now result self.new }
    {
        for (at, event) in events.iter().enumerate() {
            if let Err(why) = self.step(event) {
                return Err(Stopped { at, why });
            }
        }
        Ok(())
    }

    /// Applies one event.
    fn step(&mut self, event: &Event<'_>) -> Result<(), LineError>
        ensures does { Does event.now self.old result self.new }
        ensures line { IsLine self.new }
    {
        match event {
            Event::OfferAt { terminal, codes } => self.offer_at(*terminal, codes),
            Event::OfferFor {
                terminal,
                select,
                codes,
            } => self.offer_for(*terminal, *select, codes),
            Event::Carry { heard } => self.carry(*heard),
            Event::CarryEach { heard } => self.carry_each(heard),
            Event::CarrySent => self.carry_sent(),
            Event::Silence => self.silence(),
            Event::Ready { terminal, ready } => self.set_ready(*terminal, *ready),
            Event::UrgentAt { terminal } => self.set_urgent_at(*terminal),
            Event::UrgentFor { terminal } => self.set_urgent_for(*terminal),
            Event::Polled { terminal, polled } => self.set_polled(*terminal, *polled),
            Event::Release { terminal, way } => self.release(*terminal, *way),
            Event::Restart { party } => self.restart(*party),
        }
    }

    /// States the invariant of the line, for contracts to rest on. The field is read for this only.
    fn is_line(&self)
        ensures { IsLine self.now }
    {
        let _trusted = self.trusted;
    }
}
