//! The reasons why not all names were printed.
ghost use Rattle.std.specs.Prelude.{◌≡◌};

use bsc_text::PrintError;
use std::alloc::AllocError;
use thiserror::Error;

/// The reason why not all names were printed.
#[derive(Clone, Copy, Debug, PartialEq, Eq, Error)]
pub enum NamingError {
    /// The one transmission to be named is not hexadecimal text.
    #[error("not hexadecimal")]
    NotHexadecimal,

    /// The line with this number, counted from 1, is the first that is neither blank, nor a line of
    /// a trace, nor hexadecimal text.
    #[error("line {line}: not hexadecimal")]
    NotHexadecimalAt { line: u64 },

    /// The line with this number, counted from 1, has more than
    /// [`MAX_INPUT`](bsc_text::MAX_INPUT) octets. A carriage return at its end counts, its line
    /// feed does not.
    #[error("line {line}: too long")]
    TooLongAt { line: u64 },

    /// The input could not be read: a read failed or was interrupted, or the lines are too many for
    /// their numbers, 2^64 - 1 or more.
    #[error("input fault")]
    Input,

    /// The writer did not accept the text.
    #[error("output fault")]
    Output,

    /// An allocation failed.
    #[error("out of memory")]
    Memory,
}

impl From<AllocError> for NamingError {
    ghost use Rattle.bsc_trace.specs.declared.naming.error.NamingError.TheVariants.{Memory};

    ghost from_gives = { λ _ error. error ≡ Memory };

    fn from(_error: AllocError) -> NamingError {
        NamingError::Memory
    }
}

impl From<PrintError> for NamingError {
    ghost use Rattle.bsc_trace.specs.Errors.{print_error};

    ghost from_gives = { λ printed error. error ≡ print_error printed };

    fn from(error: PrintError) -> NamingError {
        match error {
            PrintError::Output => NamingError::Output,
            PrintError::Memory => NamingError::Memory,
        }
    }
}
