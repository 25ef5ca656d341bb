//! What a program in C can make.

use crate::terminal_calls::MadeTerminal;
use bsc_control::Control;
use bsc_line::Line;
use std::alloc::Global;

/// A station or a line.
#[derive(Drop)]
pub enum Made {
    /// A terminal.
    Terminal(MadeTerminal),

    /// A control station.
    Control(Control<Global>),

    /// A whole line.
    Line(Line<Global>),
}
