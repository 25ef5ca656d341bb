//! A station begins again.

ghost use Rattle.std.specs.Prelude.{◌≡◌, ◌<◌};
ghost use Rattle.bsc_bid.specs.declared.speaker.Speaker.TheVariants.{Control, Terminal};
ghost use Rattle.bsc_line_model.specs.Kept.{IsLine};
ghost use Rattle.bsc_line_model.specs.Line.{terminal_count};
ghost use Rattle.bsc_line_model.specs.Restarts.{restarted};
ghost use Rattle.bsc_line_model.specs.Runs.{Does};
ghost use Rattle.bsc_line_model.specs.StepLaws.{StepsAs};

use crate::line::Line;
use bsc_bid::Speaker;
use bsc_line_model::LineError;
use bsc_line_model::laws::each_event;
use std::alloc::Allocator;

impl<A: Allocator> Line<A> {
    ghost use Rattle.bsc_line_model.specs.declared.event.Event.TheVariants as event;

    /// Lets a station begin again, as after the end of its process. It keeps its records and its
    /// doubts, and a block that nobody answered yet is in doubt. A transmission of the station that
    /// nobody has heard yet is lost; that of another station stays pending. Error:
    /// `NoSuchTerminal`.
    pub fn restart(&mut self, party: Speaker) -> Result<(), LineError>
        ensures does { Does (event.Restart party) self.old result self.new }
        ensures steps { StepsAs (event.Restart party) self.old result self.new }
        ensures line { IsLine self.new }
    {
        self.each_steps();
        match party {
            Speaker::Control => self.restart_control(),
            Speaker::Terminal { number: terminal } => {
                if terminal >= self.terminals.len() {
                    return Err(LineError::NoSuchTerminal);
                }
                self.restart_terminal(terminal);
            }
        }
        Ok(())
    }

    /// Lets the control station begin again.
    fn restart_control(&mut self)
        ensures state { self.new ≡ restarted self.old Control }
        ensures line { IsLine self.new }
    {
        each_event();
        self.control.restart();
        self.sent.lose(Speaker::Control);
    }

    /// Lets a terminal begin again.
    fn restart_terminal(&mut self, terminal: usize)
        requires { terminal < terminal_count self.old }
        ensures state { self.new ≡ restarted self.old (Terminal terminal) }
        ensures line { IsLine self.new }
    {
        each_event();
        let station = &mut self.terminals[terminal];
        station.restart();
        self.sent.lose(Speaker::Terminal { number: terminal });
    }
}
