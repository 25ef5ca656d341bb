//! Whole texts, from files or standard input.

ghost use Rattle.std.specs.Prelude.{◌≡◌, ◌≢◌, IfErr, IfOk, codes};
ghost use Rattle.bsc_text.specs.InputTexts.{IsErrorAt, IsReadError, IsTextAt};

use crate::{InputError, Unreadable, read_input};
use std::alloc::Global;
use std::io::Read;
use thiserror::Error;

/// The path that stands for standard input.
pub const STANDARD_INPUT: &str = "-";

/// The reason why a text could not be read.
#[derive(Debug, Drop, Error)]
pub enum TextError {
    /// Standard input has more than [`MAX_INPUT`](crate::MAX_INPUT) octets.
    #[error("input too long")]
    InputTooLong,

    /// Standard input could not be read.
    #[error("input fault")]
    Input,

    /// The file at this path could not be opened or read, for this reason.
    #[error("cannot read {path}: {why}")]
    CannotRead { path: String, why: Unreadable },

    /// The file at this path has more than [`MAX_INPUT`](crate::MAX_INPUT) octets.
    #[error("{path} is too long")]
    FileTooLong { path: String },

    /// An allocation failed.
    #[error("out of memory")]
    Memory,
}

impl From<InputError> for TextError {
    ghost use Rattle.bsc_text.specs.InputTexts.{input_error};

    ghost from_gives = { λ read error. error ≡ input_error read };

    fn from(error: InputError) -> TextError {
        match error {
            InputError::TooLong => TextError::InputTooLong,
            InputError::Device { .. } => TextError::Input,
            InputError::Memory => TextError::Memory,
        }
    }
}

/// The files of a machine.
pub trait Files {
    /// Reads the whole file at this path. Returns `Device` if it cannot be opened or read, and
    /// `TooLong` if it has more than [`MAX_INPUT`](crate::MAX_INPUT) octets.
    fn read_file(&mut self, path: &str) -> Result<Vec<u8>, InputError>;
}

/// Reads all of standard input if the path is `-`, otherwise the whole file at this path. An error
/// of a file names the path, unless memory ran out.
pub fn read_text<R: Read, F: Files>(
    alloc: Global,
    path: &str,
    input: &mut R,
    files: &mut F,
) -> Result<Vec<u8>, TextError>
    ensures text { IfOk result (λ text. IsTextAt path.now (R.remaining input.old) text.items) }
    ensures unasked { path.now ≢ codes "-" → input.new ≡ input.old }
    ensures refused { IfErr result (IsReadError path.now (R.remaining input.old)) }
{
    if path == STANDARD_INPUT {
        return Ok(read_input(alloc, input)?);
    }
    match files.read_file(path) {
        Ok(text) => Ok(text),
        Err(error) => Err(file_error(alloc, path, error)),
    }
}

/// Returns the error for a file that could not be read.
fn file_error(alloc: Global, path: &str, error: InputError) -> TextError
    ensures { IsErrorAt path.now error result }
{
    let Ok(path) = String::from_str(alloc, path) else {
        return TextError::Memory;
    };
    match error {
        InputError::TooLong => TextError::FileTooLong { path },
        InputError::Device { why } => TextError::CannotRead { path, why },
        InputError::Memory => TextError::Memory,
    }
}
