//! Why a control station does not trust its line.

use std::fmt;

/// Why a control station does not trust its line. Connections are named by their places, terminals
/// by their numbers.
#[derive(Clone, Copy, Debug, PartialEq, Eq)]
pub enum Distrust {
    /// A transmission arrived though nothing had been sent since the last answer.
    NothingSent {
        connection: usize,
    },

    /// A connection was heard on which something had arrived out of turn before: something that was
    /// not heard while no terminal owned the connection.
    Barred {
        connection: usize,
    },

    /// The connection of one terminal answered when another one was called.
    OtherTerminal {
        connection: usize,
        terminal: usize,
        called: usize,
    },

    /// A connection answered for a terminal that answers on another one, the first.
    SecondConnection {
        connection: usize,
        first: usize,
        terminal: usize,
    },

    /// A connection answered for a terminal, and its peer may not answer for this terminal.
    OtherAddress {
        connection: usize,
        terminal: usize,
    },

    /// The time-out had passed when an answer was heard.
    LateAnswer,

    /// The time-out had passed since an answer was heard when the control station sent something.
    LateReply,
}

impl fmt::Display for Distrust {
    ghost use Rattle.std.specs.Prelude.{Some};
    ghost use Rattle.bsc_trust.specs.Reasons.{reason_text};

    ghost output = { λ distrust. Some (reason_text distrust) };

    /// Writes the reason. No reason ends with a number, which could be read as octets at the end of
    /// a line of a trace.
    fn fmt<W: fmt::Write>(&self, f: &mut fmt::Formatter<W>) -> fmt::Result {
        match self {
            Distrust::NothingSent { connection } => write!(
                f,
                "connection {connection} was heard though nothing had been sent since the last \
                 answer"
            ),
            Distrust::Barred { connection } => {
                write!(f, "connection {connection} had answered out of turn before")
            }
            Distrust::OtherTerminal {
                connection,
                terminal,
                called,
            } => write!(
                f,
                "connection {connection} of terminal {terminal} answered when terminal {called} \
                 was called"
            ),
            Distrust::SecondConnection {
                connection,
                first,
                terminal,
            } => write!(
                f,
                "connections {first} and {connection} answered when terminal {terminal} was called"
            ),
            Distrust::OtherAddress {
                connection,
                terminal,
            } => write!(
                f,
                "connection {connection} answered for terminal {terminal} from another address"
            ),
            Distrust::LateAnswer => f.write_str("an answer took longer than the time-out"),
            Distrust::LateReply => f.write_str("a reply was sent later than the time-out"),
        }
    }
}
