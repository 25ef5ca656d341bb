//! Why a call from C does not do what it was asked to do.

ghost use Rattle.std.specs.Prelude.{◌≡◌};
ghost use Rattle.bsc_embed.specs.Faults.{fault_at, fault_number, fault_text, number_of};
ghost use Rattle.bsc_embed.specs.FromFaults.{setting_fault, setup_fault, record_fault};
ghost use Rattle.bsc_embed.specs.FromFaults.{release_fault, recall_fault, line_fault};

use bsc_bid::{RecallError, ReleaseError, SettingError, SetupError};
use bsc_block::RecordError;
use bsc_line_model::LineError;

/// Why a call from C did nothing. Its number in C is its place in this list, counted from 1.
#[derive(Clone, Copy, Debug, PartialEq, Eq)]
pub enum Fault {
    /// The handle has no station and no line: none was made, or it was freed.
    NotMade,

    /// The handle has a station or a line of another kind.
    OtherKind,

    /// The handle already has a station or a line.
    AlreadyMade,

    /// Out of memory.
    Memory,

    /// The buffer of the caller is too short.
    NoRoom,

    /// The full length of a record is not 1 to 144.
    Full,

    /// The number of characters that a block may count is not 146 to 400.
    BlockChars,

    /// The limit of failures is not 1 to 15.
    Tries,

    /// The limit of WACKs is not 1 to 255.
    Waits,

    /// An address does not have 1 to 7 characters, each from 0x21 to 0x7E.
    Address,

    /// The number of selection addresses of a terminal is not 1 to 4.
    Selects,

    /// Two addresses are the same.
    SameAddress,

    /// There is no terminal.
    NoTerminal,

    /// There are more than 64 terminals.
    TooManyTerminals,

    /// The poll list has no entry.
    EmptyPollList,

    /// The poll list has more than 255 entries, or an entry that is not the number of a terminal.
    PollList,

    /// No terminal has this number.
    NoSuchTerminal,

    /// The terminal has no selection address of this number.
    NoSuchAddress,

    /// No record with this number arrived.
    NoSuchRecord,

    /// The record has more characters than the full length.
    TooLong,

    /// A code is not a record character.
    NotText,

    /// There is no doubt to end.
    NotInDoubt,

    /// The count is neither that of the known records nor that with the doubtful block.
    CountMismatch,

    /// Nothing is pending that could be heard.
    NothingSent,

    /// Each terminal was given something to hear, and a terminal's transmission is pending.
    NotControl,

    /// The number of what is heard is not that of the terminals.
    WrongCount,

    /// A silence was to pass, and a transmission is pending.
    Pending,

    /// A station recalls only while it is new.
    NotNew,

    /// More records are known than were offered.
    Known,

    /// The doubtful block does not have 1 to 7 records, or more than are not known.
    Doubt,
}

impl Fault {
    /// Returns the number of the fault in C, 1 to 30.
    pub fn number(self) -> u32
        ensures { result ≡ fault_number self }
    {
        match self {
            Fault::NotMade => 1,
            Fault::OtherKind => 2,
            Fault::AlreadyMade => 3,
            Fault::Memory => 4,
            Fault::NoRoom => 5,
            Fault::Full => 6,
            Fault::BlockChars => 7,
            Fault::Tries => 8,
            Fault::Waits => 9,
            Fault::Address => 10,
            Fault::Selects => 11,
            Fault::SameAddress => 12,
            Fault::NoTerminal => 13,
            Fault::TooManyTerminals => 14,
            Fault::EmptyPollList => 15,
            Fault::PollList => 16,
            Fault::NoSuchTerminal => 17,
            Fault::NoSuchAddress => 18,
            Fault::NoSuchRecord => 19,
            Fault::TooLong => 20,
            Fault::NotText => 21,
            Fault::NotInDoubt => 22,
            Fault::CountMismatch => 23,
            Fault::NothingSent => 24,
            Fault::NotControl => 25,
            Fault::WrongCount => 26,
            Fault::Pending => 27,
            Fault::NotNew => 28,
            Fault::Known => 29,
            Fault::Doubt => 30,
        }
    }

    /// Returns the fault with this number, 1 to 30.
    pub fn numbered(number: u32) -> Option<Fault>
        ensures { result ≡ fault_at number }
    {
        match number {
            1 => Some(Fault::NotMade),
            2 => Some(Fault::OtherKind),
            3 => Some(Fault::AlreadyMade),
            4 => Some(Fault::Memory),
            5 => Some(Fault::NoRoom),
            6 => Some(Fault::Full),
            7 => Some(Fault::BlockChars),
            8 => Some(Fault::Tries),
            9 => Some(Fault::Waits),
            10 => Some(Fault::Address),
            11 => Some(Fault::Selects),
            12 => Some(Fault::SameAddress),
            13 => Some(Fault::NoTerminal),
            14 => Some(Fault::TooManyTerminals),
            15 => Some(Fault::EmptyPollList),
            16 => Some(Fault::PollList),
            17 => Some(Fault::NoSuchTerminal),
            18 => Some(Fault::NoSuchAddress),
            19 => Some(Fault::NoSuchRecord),
            20 => Some(Fault::TooLong),
            21 => Some(Fault::NotText),
            22 => Some(Fault::NotInDoubt),
            23 => Some(Fault::CountMismatch),
            24 => Some(Fault::NothingSent),
            25 => Some(Fault::NotControl),
            26 => Some(Fault::WrongCount),
            27 => Some(Fault::Pending),
            28 => Some(Fault::NotNew),
            29 => Some(Fault::Known),
            30 => Some(Fault::Doubt),
            _ => None,
        }
    }

    /// Returns what the fault means, in English.
    pub fn text(self) -> &'static str
        ensures { result.now ≡ fault_text self }
    {
        match self {
            Fault::NotMade => "nothing was made",
            Fault::OtherKind => "made as another kind",
            Fault::AlreadyMade => "already made",
            Fault::Memory => "out of memory",
            Fault::NoRoom => "the buffer is too short",
            Fault::Full => "the full length is not 1 to 144",
            Fault::BlockChars => "the characters of a block are not 146 to 400",
            Fault::Tries => "the tries are not 1 to 15",
            Fault::Waits => "the waits are not 1 to 255",
            Fault::Address => "wrong address",
            Fault::Selects => "a terminal has one to four selection addresses",
            Fault::SameAddress => "two addresses are the same",
            Fault::NoTerminal => "no terminal",
            Fault::TooManyTerminals => "too many terminals",
            Fault::EmptyPollList => "poll list is empty",
            Fault::PollList => "wrong poll list",
            Fault::NoSuchTerminal => "no such terminal",
            Fault::NoSuchAddress => "no such address",
            Fault::NoSuchRecord => "no such record",
            Fault::TooLong => "record too long",
            Fault::NotText => "wrong character",
            Fault::NotInDoubt => "not in doubt",
            Fault::CountMismatch => "count mismatch",
            Fault::NothingSent => "nothing sent",
            Fault::NotControl => "control is not sending",
            Fault::WrongCount => "wrong number of hearings",
            Fault::Pending => "a transmission is pending",
            Fault::NotNew => "the sender is not new",
            Fault::Known => "more records are known than were offered",
            Fault::Doubt => "the doubtful block does not fit",
        }
    }
}

/// Returns the number of an answer in C: 0 if there is no fault.
pub fn number_of(answer: &Result<(), Fault>) -> u32
    ensures { result ≡ number_of answer.now }
{
    match answer {
        Ok(()) => 0,
        Err(fault) => fault.number(),
    }
}

impl From<SettingError> for Fault {
    ghost from_gives = { λ e f. f ≡ setting_fault e };

    fn from(error: SettingError) -> Fault {
        match error {
            SettingError::Full => Fault::Full,
            SettingError::BlockChars => Fault::BlockChars,
            SettingError::Tries => Fault::Tries,
            SettingError::Waits => Fault::Waits,
        }
    }
}

impl From<SetupError> for Fault {
    ghost from_gives = { λ e f. f ≡ setup_fault e };

    fn from(error: SetupError) -> Fault {
        match error {
            SetupError::NoTerminal => Fault::NoTerminal,
            SetupError::TooMany => Fault::TooManyTerminals,
            SetupError::SameAddress(_, _) => Fault::SameAddress,
            SetupError::EmptyPollList => Fault::EmptyPollList,
            SetupError::PollList(_) => Fault::PollList,
            SetupError::Memory => Fault::Memory,
        }
    }
}

impl From<RecordError> for Fault {
    ghost from_gives = { λ e f. f ≡ record_fault e };

    fn from(error: RecordError) -> Fault {
        match error {
            RecordError::TooLong => Fault::TooLong,
            RecordError::NotText(_) => Fault::NotText,
        }
    }
}

impl From<ReleaseError> for Fault {
    ghost from_gives = { λ e f. f ≡ release_fault e };

    fn from(error: ReleaseError) -> Fault {
        match error {
            ReleaseError::NotInDoubt => Fault::NotInDoubt,
            ReleaseError::CountMismatch => Fault::CountMismatch,
        }
    }
}

impl From<RecallError> for Fault {
    ghost from_gives = { λ e f. f ≡ recall_fault e };

    fn from(error: RecallError) -> Fault {
        match error {
            RecallError::NotNew => Fault::NotNew,
            RecallError::Known => Fault::Known,
            RecallError::Doubt => Fault::Doubt,
        }
    }
}

impl From<LineError> for Fault {
    ghost from_gives = { λ e f. f ≡ line_fault e };

    fn from(error: LineError) -> Fault {
        match error {
            LineError::NothingSent => Fault::NothingSent,
            LineError::NotControl => Fault::NotControl,
            LineError::WrongCount => Fault::WrongCount,
            LineError::Pending => Fault::Pending,
            LineError::NoSuchTerminal => Fault::NoSuchTerminal,
            LineError::NoSuchAddress => Fault::NoSuchAddress,
            LineError::BadRecord(error) => Fault::from(error),
            LineError::Memory => Fault::Memory,
            LineError::NotInDoubt => Fault::NotInDoubt,
            LineError::CountMismatch => Fault::CountMismatch,
        }
    }
}
