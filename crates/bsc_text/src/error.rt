//! The reasons why printing fails.
ghost use Rattle.std.specs.Prelude.{◌≡◌};

use std::alloc::AllocError;
use std::io;
use thiserror::Error;

/// The reason why the output for a transmission was not written.
#[derive(Clone, Copy, Debug, PartialEq, Eq, Error)]
pub enum PrintError {
    /// The writer did not accept the text.
    #[error("output fault")]
    Output,

    /// An allocation failed.
    #[error("out of memory")]
    Memory,
}

impl From<AllocError> for PrintError {
    ghost use Rattle.bsc_text.specs.declared.error.PrintError.TheVariants.{Memory};

    ghost from_gives = { λ _ error. error ≡ Memory };

    fn from(_error: AllocError) -> PrintError {
        PrintError::Memory
    }
}

impl From<io::Error> for PrintError {
    ghost use Rattle.bsc_text.specs.declared.error.PrintError.TheVariants.{Output};

    ghost from_gives = { λ _ error. error ≡ Output };

    fn from(_error: io::Error) -> PrintError {
        PrintError::Output
    }
}
