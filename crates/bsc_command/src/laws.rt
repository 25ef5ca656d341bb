//! The law of what is told of faults. It is about the definitions only.

ghost use Rattle.bsc_command.specs.Faults.{IsOneFaultLine};

/// The line of a fault is one line, and nothing in it is obeyed by a terminal, whatever its text
/// is.
pub fn fault_line()
    ensures { IsOneFaultLine }
{}
