//! What is told of a terminal of a control station, beside the transmissions.

ghost use Rattle.std.specs.Prelude.{◌≡◌, IfErr, OnOk};
ghost use Rattle.std.specs.Io.KnownBytes.{Appends};
ghost use Rattle.bsc_report.specs.Terminals.{moved_by, news_line, told_answering};
ghost use Rattle.bsc_report.specs.Terminals.{told_leaving};

use bsc_text::PrintError;
use std::io::Write;

/// What is told of a terminal, in a line of its own.
#[derive(Clone, Copy, Debug, PartialEq, Eq)]
pub enum TerminalNews {
    /// It is known now that it answers on the connection at this place.
    Answers { terminal: usize, connection: usize },

    /// The connection on which it answered is closed.
    Left { terminal: usize },

    /// It has answered neither its poll nor a repetition of it.
    Unanswered { terminal: usize },

    /// It is absent now: it is called less often.
    Absent { terminal: usize },

    /// It was absent, and has answered.
    Back { terminal: usize },
}

/// All that is told of terminals with an event.
#[derive(Clone, Copy)]
pub struct TerminalsTold {
    /// What has become known of a connection.
    pub moved: Option<TerminalNews>,

    /// Which terminal has not answered.
    pub silent: Option<TerminalNews>,

    /// What the visit that has ended shows.
    pub visited: Option<TerminalNews>,
}

/// Returns what is told of the terminal that has not answered, if there is one.
pub fn unanswered(terminal: Option<usize>) -> Option<TerminalNews>
    ensures { result ≡ told_answering terminal }
{
    match terminal {
        Some(terminal) => Some(TerminalNews::Unanswered { terminal }),
        None => None,
    }
}

/// Returns what is told of the connection at this place, by the terminals that were known to answer
/// on it before and after an event, if one was.
pub fn moved_by(
    connection: usize,
    before: Option<usize>,
    after: Option<usize>,
) -> Option<TerminalNews>
    ensures { result ≡ moved_by connection before after }
{
    match after {
        Some(terminal) if before == Some(terminal) => None,
        Some(terminal) => Some(TerminalNews::Answers {
            terminal,
            connection,
        }),
        None => left(before),
    }
}

/// Returns what is told of the terminal whose connection is closed, if there is one.
fn left(terminal: Option<usize>) -> Option<TerminalNews>
    ensures { result ≡ told_leaving terminal }
{
    match terminal {
        Some(terminal) => Some(TerminalNews::Left { terminal }),
        None => None,
    }
}

/// Writes the line that tells this, without a time.
pub fn write_news<W: Write>(news: TerminalNews, out: &mut W) -> Result<(), PrintError>
    ensures ok { OnOk result (Appends (W.contents out.old) (W.contents out.new) (news_line news)) }
    ensures err { IfErr result (λ error. error ≡ PrintError.Output) }
{
    match news {
        TerminalNews::Answers {
            terminal,
            connection,
        } => write_answers(terminal, connection, out),
        TerminalNews::Left { terminal } => Ok(write!(out, "terminal {terminal} has left\n")?),
        TerminalNews::Unanswered { terminal } => {
            Ok(write!(out, "terminal {terminal} has not answered\n")?)
        }
        TerminalNews::Absent { terminal } => Ok(write!(out, "terminal {terminal} is absent\n")?),
        TerminalNews::Back { terminal } => Ok(write!(out, "terminal {terminal} is back\n")?),
    }
}

/// Writes the line for a terminal that is known to answer on a connection.
fn write_answers<W: Write>(
    terminal: usize,
    connection: usize,
    out: &mut W,
) -> Result<(), PrintError>
    ensures ok { OnOk result (Appends (W.contents out.old) (W.contents out.new)
        (news_line (TerminalNews.Answers terminal connection))) }
    ensures err { IfErr result (λ error. error ≡ PrintError.Output) }
{
    Ok(write!(
        out,
        "terminal {terminal} answers on connection {connection}\n"
    )?)
}
