//! Records are offered, and flags are set.

ghost use Rattle.bsc_line_model.specs.Runs.{Does};
ghost use Rattle.bsc_line_model.specs.Kept.{IsLine};
ghost use Rattle.bsc_line_model.specs.StepLaws.{StepsAs};

use crate::line::Line;
use crate::reading::read_record;
use crate::terminals::offer_here;
use bsc_line_model::LineError;
use bsc_line_model::laws::each_event;
use std::alloc::Allocator;

impl<A: Allocator> Line<A> {
    ghost use Rattle.bsc_line_model.specs.declared.event.Event.TheVariants as event;

    /// Offers the record of these codes at a terminal, for the control station. Errors, in this
    /// order: `NoSuchTerminal`, `BadRecord` if the codes are not a record of at most the line's
    /// full length, `Memory`.
    pub fn offer_at(&mut self, terminal: usize, codes: &[u8]) -> Result<(), LineError>
        ensures does { Does (event.OfferAt terminal codes.entry) self.old result self.new }
        ensures steps { StepsAs (event.OfferAt terminal codes.entry) self.old result self.new }
        ensures line { IsLine self.new }
    {
        self.each_steps();
        if terminal >= self.terminals.len() {
            return Err(LineError::NoSuchTerminal);
        }
        each_event();
        let record = read_record(codes, self.control.setup())?;
        let station = &mut self.terminals[terminal];
        offer_here(station, record)
    }

    /// Offers the record of these codes at the control station, for a selection address of a
    /// terminal. Errors, in this order: `NoSuchTerminal`, `NoSuchAddress`, `BadRecord` if the codes
    /// are not a record of at most the line's full length, `Memory`.
    pub fn offer_for(
        &mut self,
        terminal: usize,
        select: usize,
        codes: &[u8],
    ) -> Result<(), LineError>
        ensures does { Does (event.OfferFor terminal select codes.entry) self.old result self.new }
        ensures steps { StepsAs (event.OfferFor terminal select codes.entry)
            self.old result self.new }
        ensures line { IsLine self.new }
    {
        self.each_steps();
        if terminal >= self.control.terminals() {
            return Err(LineError::NoSuchTerminal);
        }
        if select >= self.control.addresses(terminal) {
            return Err(LineError::NoSuchAddress);
        }
        each_event();
        let record = read_record(codes, self.control.setup())?;
        match self.control.offer(terminal, select, record) {
            Ok(()) => Ok(()),
            Err(_) => Err(LineError::Memory),
        }
    }

    /// Sets whether a terminal accepts selections; if it is not ready, it answers them by NAK.
    /// Error: `NoSuchTerminal`. (GA27-3004, NAK to a selection.)
    pub fn set_ready(&mut self, terminal: usize, ready: bool) -> Result<(), LineError>
        ensures does { Does (event.Ready terminal ready) self.old result self.new }
        ensures steps { StepsAs (event.Ready terminal ready) self.old result self.new }
        ensures line { IsLine self.new }
    {
        self.each_steps();
        if terminal >= self.terminals.len() {
            return Err(LineError::NoSuchTerminal);
        }
        each_event();
        let station = &mut self.terminals[terminal];
        station.set_ready(ready);
        Ok(())
    }

    /// Makes a terminal ask the control station for the line: the terminal answers the next text
    /// that it takes by a reverse interrupt, unless its last reply was one. A poll of the terminal
    /// clears the request. Error: `NoSuchTerminal`. (GA27-3004: reverse interrupt.)
    pub fn set_urgent_at(&mut self, terminal: usize) -> Result<(), LineError>
        ensures does { Does (event.UrgentAt terminal) self.old result self.new }
        ensures steps { StepsAs (event.UrgentAt terminal) self.old result self.new }
        ensures line { IsLine self.new }
    {
        self.each_steps();
        if terminal >= self.terminals.len() {
            return Err(LineError::NoSuchTerminal);
        }
        each_event();
        let station = &mut self.terminals[terminal];
        station.set_urgent();
        Ok(())
    }

    /// Makes the control station ask a terminal for the line: the control station answers the next
    /// text that it takes from the terminal by a reverse interrupt, unless its last reply was one.
    /// A new selection of the terminal clears the request. Error: `NoSuchTerminal`. (GA27-3004:
    /// reverse interrupt.)
    pub fn set_urgent_for(&mut self, terminal: usize) -> Result<(), LineError>
        ensures does { Does (event.UrgentFor terminal) self.old result self.new }
        ensures steps { StepsAs (event.UrgentFor terminal) self.old result self.new }
        ensures line { IsLine self.new }
    {
        self.each_steps();
        if terminal >= self.control.terminals() {
            return Err(LineError::NoSuchTerminal);
        }
        each_event();
        self.control.set_urgent(terminal);
        Ok(())
    }

    /// Sets whether the control station polls a terminal. One that it does not poll is passed over
    /// in the call order, and keeps its records and doubts; what is under way with it goes on to
    /// its end. Error: `NoSuchTerminal`.
    pub fn set_polled(&mut self, terminal: usize, polled: bool) -> Result<(), LineError>
        ensures does { Does (event.Polled terminal polled) self.old result self.new }
        ensures steps { StepsAs (event.Polled terminal polled) self.old result self.new }
        ensures line { IsLine self.new }
    {
        self.each_steps();
        if terminal >= self.control.terminals() {
            return Err(LineError::NoSuchTerminal);
        }
        each_event();
        self.control.set_polled(terminal, polled);
        Ok(())
    }
}
