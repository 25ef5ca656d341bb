//! The work that the command line asks for.

use crate::Words;

/// The work that the command line asks for, with what was given of its arguments and options.
#[derive(Debug, Drop)]
pub enum Asked {
    /// Print the names of the transmissions on the lines of standard input.
    Names,

    /// Print the name of one transmission.
    Name { words: Words },

    /// Print the names of the transmissions on the lines of standard input, with the units of
    /// texts.
    Show,

    /// Draw the ladder of a trace.
    Chart { words: Words },

    /// Run a line with a configuration and the events of a script.
    Run { words: Words },

    /// Run one station of a line over TCP.
    Station { words: Words },

    /// Feed a station that serves: send it a command, or each line of standard input as one.
    Feed { words: Words },

    /// Do a work on the store of a station.
    Store { words: Words },
}
