//! A doubt is released.

ghost use Rattle.std.specs.Prelude.{◌<◌};
ghost use Rattle.bsc_line_model.specs.Line.{terminal_count};
ghost use Rattle.bsc_line_model.specs.Offers.{select_count, ReleasesFrom, ReleasesTo};
ghost use Rattle.bsc_line_model.specs.Runs.{Does};
ghost use Rattle.bsc_line_model.specs.Kept.{IsLine};
ghost use Rattle.bsc_line_model.specs.StepLaws.{StepsAs};

use crate::line::Line;
use crate::reading::tell;
use bsc_control::Way;
use bsc_line_model::LineError;
use bsc_line_model::laws::each_event;
use std::alloc::Allocator;

impl<A: Allocator> Line<A> {
    ghost use Rattle.bsc_line_model.specs.declared.event.Event.TheVariants as event;

    /// Ends a doubt by the count of the records at the other end. Errors, in this order:
    /// `NoSuchTerminal`, `NoSuchAddress`, `NotInDoubt`, `CountMismatch` if that count is neither
    /// the number of the known records nor that number with the doubtful block.
    pub fn release(&mut self, terminal: usize, way: Way) -> Result<(), LineError>
        ensures does { Does (event.Release terminal way) self.old result self.new }
        ensures steps { StepsAs (event.Release terminal way) self.old result self.new }
        ensures line { IsLine self.new }
    {
        self.each_steps();
        if terminal >= self.control.terminals() {
            return Err(LineError::NoSuchTerminal);
        }
        match way {
            Way::FromTerminal => self.release_from(terminal),
            Way::ToTerminal(select) => {
                if select >= self.control.addresses(terminal) {
                    return Err(LineError::NoSuchAddress);
                }
                self.release_to(terminal, select)
            }
        }
    }

    /// Ends a terminal's doubt by the count of the records in the control station's spool.
    fn release_from(&mut self, terminal: usize) -> Result<(), LineError>
        requires { terminal < terminal_count self.old }
        ensures does { ReleasesFrom self.old terminal result self.new }
        ensures line { IsLine self.new }
    {
        each_event();
        let count = self.control.spool(terminal).records().len();
        let station = &mut self.terminals[terminal];
        tell(station.release(count))
    }

    /// Ends the control station's doubt about a selection address by the count of the records in
    /// the terminal's spool.
    fn release_to(&mut self, terminal: usize, select: usize) -> Result<(), LineError>
        requires terminal { terminal < terminal_count self.old }
        requires select { select < select_count self.old terminal }
        ensures does { ReleasesTo self.old terminal select result self.new }
        ensures line { IsLine self.new }
    {
        each_event();
        let station = &self.terminals[terminal];
        let count = station.spool(select).records().len();
        tell(
            self.control
                .release(terminal, Way::ToTerminal(select), count),
        )
    }
}
