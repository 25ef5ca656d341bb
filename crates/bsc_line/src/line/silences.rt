//! A silence passes.

ghost use Rattle.std.specs.Prelude.{◌≡◌, ◌<◌, Some, None};
ghost use Rattle.bsc_line_model.specs.Line.{terminal_count};
ghost use Rattle.bsc_line_model.specs.Terminals.{line_owner};
ghost use Rattle.bsc_line_model.specs.Carries.{TerminalActsAlone, ControlActsAlone};
ghost use Rattle.bsc_line_model.specs.Runs.{Does};
ghost use Rattle.bsc_line_model.specs.Kept.{IsLine};
ghost use Rattle.bsc_line_model.specs.StepLaws.{StepsAs};

use crate::line::Line;
use crate::terminals::line_owner;
use bsc_bid::Speaker;
use bsc_line_model::LineError;
use bsc_line_model::laws::each_event;
use std::alloc::Allocator;

impl<A: Allocator> Line<A> {
    ghost use Rattle.bsc_line_model.specs.declared.event.Event.TheVariants as event;

    /// Lets a silence pass, that is, nothing is heard for the time of a time-out: the terminal with
    /// the least number among those that hold the line acts, or else the control station. Error:
    /// `Pending` if a transmission is pending. (GA27-3004, time-outs.)
    pub fn silence(&mut self) -> Result<(), LineError>
        ensures does { Does event.Silence self.old result self.new }
        ensures steps { StepsAs event.Silence self.old result self.new }
        ensures line { IsLine self.new }
    {
        self.each_steps();
        if self.sent.is_some() {
            return Err(LineError::Pending);
        }
        match line_owner(self.terminals.as_slice()) {
            Some(terminal) => self.act_at(terminal),
            None => self.act_at_control(),
        }
        Ok(())
    }

    /// Lets a terminal act on a silence.
    fn act_at(&mut self, terminal: usize)
        requires there { terminal < terminal_count self.old }
        requires nothing { self.old.pending ≡ None }
        requires owner { line_owner self.old.terminals ≡ Some terminal }
        ensures does { TerminalActsAlone terminal self.old self.new }
        ensures line { IsLine self.new }
    {
        each_event();
        let station = &mut self.terminals[terminal];
        self.sent
            .act(Speaker::Terminal { number: terminal }, station);
    }

    /// Lets the control station act on a silence.
    fn act_at_control(&mut self)
        requires nothing { self.old.pending ≡ None }
        requires nobody { line_owner self.old.terminals ≡ None }
        ensures does { ControlActsAlone self.old self.new }
        ensures line { IsLine self.new }
    {
        each_event();
        self.sent.act(Speaker::Control, &mut self.control);
    }
}
