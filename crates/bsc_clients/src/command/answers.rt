//! The lines of a station.

ghost use Rattle.std.specs.Prelude.{◌≡◌};
ghost use Rattle.bsc_clients.specs.Answers.{is_fault, kind_of as kind_shown};

use bsc_text::{spells, split_word};

/// What a line of a station is.
#[derive(Clone, Copy)]
pub(crate) enum Kind {
    /// The answer to a command that was done: `ok`, or `ok` and a number.
    Done,

    /// The answer to a command that was refused: `fault` and a text.
    Refused,

    /// Anything else: what arrived, what is delivered, or the state of a channel.
    News,
}

impl Kind {
    /// Whether it is the answer to a command that was refused.
    pub(crate) fn is_fault(self) -> bool
        ensures { result ≡ is_fault self }
    {
        match self {
            Kind::Refused => true,
            Kind::Done | Kind::News => false,
        }
    }
}

/// Returns what this line is, by its first word.
pub(crate) fn kind_of(line: &[u8]) -> Kind
    ensures { result ≡ kind_shown line.now }
{
    let (word, _) = split_word(line);
    if spells(word, "ok") {
        Kind::Done
    } else if spells(word, "fault") {
        Kind::Refused
    } else {
        Kind::News
    }
}
