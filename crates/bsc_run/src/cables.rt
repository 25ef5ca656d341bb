//! The connections that a run needs from the machine, and what it tells its progress to.

ghost use Rattle.std.specs.Prelude.{◌≡◌, ◌≤◌, length, IfOk};

use bsc_carrier::Cable;
use bsc_carrier::limits::MAX_CONNECTIONS;
use bsc_carrier::loopback::LoopbackError;
use bsc_text::progress::{Meter, Work};
use std::io::{Read, Write};

/// Makes connections of which this process holds both ends.
pub trait Cables {
    /// One end of a connection.
    type Stream: Read + Write + Drop;

    /// What shows how far a run has come.
    type Meter: Meter + Drop;

    /// Returns a cable of `count` new connections.
    fn connect(&mut self, count: usize) -> Result<Cable<Self::Stream>, LoopbackError>
        requires least { 1 ≤ count }
        requires most { count ≤ MAX_CONNECTIONS }
        ensures count { IfOk result (λ cable. length cable.control_ends ≡ count) };

    /// Returns what shows the progress of this work, or of none; only if standard error is a
    /// terminal.
    fn meter(&mut self, progress: Option<Work>) -> Self::Meter;
}
