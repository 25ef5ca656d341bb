//! The record: what a line carries from one end to the other.
ghost use Rattle.std.specs.Prelude.{◌≡◌, ◌≤◌, IfOk, length, not, position};
ghost use Rattle.bsc_frame.specs.Octet.{is_record_char as is_record_code};

use arrayvec::ArrayVec;
use bsc_frame::is_record_char;
use bsc_frame::limits::MAX_CHARS;
use std::marker::Model;
use thiserror::Error;

/// Why codes are not a record.
#[derive(Clone, Copy, Debug, Error, PartialEq, Eq)]
pub enum RecordError {
    /// There are more codes than the full length.
    #[error("record too long")]
    TooLong,

    /// The first code that is not a record character, by its place counted from 0.
    #[error("wrong character at {0}")]
    NotText(usize),
}

/// A record: at most 144 record characters.
#[derive(Debug, Drop)]
pub struct Record {
    chars: ArrayVec<u8, MAX_CHARS>,
}

impl Model for Record {
    ghost use Rattle.std.specs.Prelude.{ℕ, List};
    ghost use Rattle.bsc_block.specs.Records.{IsRecord};

    ghost Value = { List ℕ };

    ghost view = { λ r. r.chars.items };

    ghost invariant = { λ r. IsRecord r.chars.items };
}

/// Returns the place of the first code that is not a record character.
fn wrong_place(codes: &[u8]) -> Option<usize>
    ensures { result ≡ position (λ c. not (is_record_code c)) codes.now }
{
    codes.iter().position(|&code| !is_record_char(code))
}

impl Record {
    ghost use Rattle.bsc_block.specs.Records.{IsRecord, record_of};

    /// Creates the record of these codes. `full` must be 1 to 144. Fails with `TooLong` if there
    /// are more than `full` codes, else with `NotText` and the place of the first code that is not
    /// a record character, that is, one of the eleven control characters of the line procedure or
    /// 0x80 and above.
    pub fn read(codes: &[u8], full: u8) -> Result<Record, RecordError>
        requires low { 1 ≤ full }
        requires high { full ≤ MAX_CHARS }
        ensures value { result ≡ record_of full codes.now }
        ensures codes { IfOk result (λ r. r ≡ codes.now) }
        ensures record { IfOk result (λ r. IsRecord r) }
        ensures short { IfOk result (λ r. length r ≤ full) }
    {
        if codes.len() > usize::from(full) {
            return Err(RecordError::TooLong);
        }
        if let Some(place) = wrong_place(codes) {
            return Err(RecordError::NotText(place));
        }
        Ok(Record::of(codes))
    }

    /// Creates the record of these characters.
    pub(crate) fn of(chars: &[u8]) -> Record
        requires { IsRecord chars.now }
        ensures { result ≡ chars.now }
    {
        let mut own = ArrayVec::new();
        own.try_extend_from_slice(chars).unwrap();
        Record { chars: own }
    }

    /// Returns the characters, as codes of seven bits.
    pub fn chars(&self) -> &[u8]
        ensures value { result.now ≡ self.now }
        ensures record { IsRecord self.now }
    {
        self.chars.as_slice()
    }
}
