//! The flags of a terminal, and its restart.

ghost use Rattle.bsc_embed.specs.TerminalFlags.{SetsReady, SetsUrgent, Restarts};

use crate::interface::Fault;
use crate::terminal_calls::MadeTerminal;

/// Sets whether the terminal accepts selections: 0 if it does not, any other number if it does. If
/// it is not ready, it answers them by NAK. A bid that it is receiving continues. There is no
/// fault. (GA27-3004: NAK to a selection.)
pub fn set_ready(terminal: &mut MadeTerminal, ready: u32) -> Result<(), Fault>
    ensures { SetsReady ready terminal.old terminal.new result }
{
    terminal.station.set_ready(ready != 0);
    Ok(())
}

/// Asks for the line: the next text that the terminal takes is answered by a reverse interrupt,
/// unless its last reply was one. A poll of the terminal clears the request. There is no fault.
/// (GA27-3004: reverse interrupt.)
pub fn set_urgent(terminal: &mut MadeTerminal) -> Result<(), Fault>
    ensures { SetsUrgent terminal.old terminal.new result }
{
    terminal.station.set_urgent();
    Ok(())
}

/// Begins again, as after the end of the process: the terminal is in control mode, ready and not
/// urgent, and an unanswered block is in doubt. It keeps its addresses and settings, the records
/// that it has to send, a doubt, and the records that arrived. There is no fault.
pub fn restart(terminal: &mut MadeTerminal) -> Result<(), Fault>
    ensures { Restarts terminal.old terminal.new result }
{
    terminal.station.restart();
    Ok(())
}
