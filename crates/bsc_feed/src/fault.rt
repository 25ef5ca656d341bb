//! Why a command is refused.

ghost use Rattle.std.specs.Prelude.{◌≡◌};
ghost use Rattle.bsc_feed.specs.Faults.{fault_text, record_fault, release_fault};

use bsc_bid::ReleaseError;
use bsc_block::RecordError;

/// Why a line of a client did nothing.
#[derive(Clone, Copy, Debug, PartialEq, Eq)]
pub enum Fault {
    /// The line is not a command.
    NotACommand,

    /// The line has more than 512 octets before its line feed.
    LineTooLong,

    /// The text of a record is not hexadecimal.
    NotHexadecimal,

    /// The station has no channel of this name.
    NoSuchChannel,

    /// The station does not send on the channel.
    NotSending,

    /// The station is not a terminal.
    NotATerminal,

    /// The station calls no terminal with this number.
    NoSuchTerminal,

    /// The record has more characters than the full length.
    RecordTooLong,

    /// A code of the record is not a record character.
    WrongCharacter,

    /// There is no doubt to end.
    NotInDoubt,

    /// The count is neither that of the known records nor that with the doubtful block.
    CountMismatch,

    /// The store did not keep what was asked for.
    NotKept,

    /// An allocation was refused.
    OutOfMemory,
}

impl Fault {
    /// Returns the text of the fault in an answer.
    pub fn text(self) -> &'static str
        ensures { result.now ≡ fault_text self }
    {
        match self {
            Fault::NotACommand => "not a command",
            Fault::LineTooLong => "line too long",
            Fault::NotHexadecimal => "not hexadecimal",
            Fault::NoSuchChannel => "no such channel",
            Fault::NotSending => "the station does not send on it",
            Fault::NotATerminal => "the station is not a terminal",
            Fault::NoSuchTerminal => "no such terminal",
            Fault::RecordTooLong => "record too long",
            Fault::WrongCharacter => "wrong character",
            Fault::NotInDoubt => "not in doubt",
            Fault::CountMismatch => "count mismatch",
            Fault::NotKept => "not kept",
            Fault::OutOfMemory => "out of memory",
        }
    }

    /// Returns the fault of codes that are not a record.
    pub fn of_record(error: RecordError) -> Fault
        ensures { result ≡ record_fault error }
    {
        match error {
            RecordError::TooLong => Fault::RecordTooLong,
            RecordError::NotText(_) => Fault::WrongCharacter,
        }
    }

    /// Returns the fault of a release that was refused.
    pub fn of_release(error: ReleaseError) -> Fault
        ensures { result ≡ release_fault error }
    {
        match error {
            ReleaseError::NotInDoubt => Fault::NotInDoubt,
            ReleaseError::CountMismatch => Fault::CountMismatch,
        }
    }
}
