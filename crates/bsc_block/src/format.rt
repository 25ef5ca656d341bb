//! The limits of what is sent. They are settings of a line, so that a block fits the buffers of its
//! terminals. What is received need not keep to them.
ghost use Rattle.std.specs.Prelude.{◌≡◌, IfOk};

use crate::limits::{MAX_BLOCK_CHARS, MAX_FULL, MIN_BLOCK_CHARS};
use std::marker::Model;
use thiserror::Error;

/// Why two numbers are not a format.
#[derive(Clone, Copy, Debug, Error, PartialEq, Eq)]
pub enum FormatError {
    /// The full length is not 1 to 144.
    #[error("the full length of a record is not 1 to 144")]
    Full,

    /// The limit of a block is not 146 to 400 characters.
    #[error("the characters of a block are not 146 to 400")]
    BlockChars,
}

/// The length of a full record and the limit of a block, both in characters.
#[derive(Clone, Copy, Debug, PartialEq, Eq)]
pub struct Format {
    full: u8,
    block_chars: u16,
}

impl Model for Format {
    ghost use Rattle.bsc_block.specs.Format.{FormatValue, IsFormat};

    ghost Value = { FormatValue };

    ghost view = { λ f. record { full = f.full; block_chars = f.block_chars } };

    ghost invariant = { λ f. IsFormat (record { full = f.full; block_chars = f.block_chars }) };

    ghost inverse = { λ f. record { full = f.full; block_chars = f.block_chars } };
}

impl Format {
    ghost use Rattle.bsc_block.specs.Format.{IsFormat, format_of};

    /// Creates the format with this full length and this limit of a block, both in characters.
    /// Fails with `Full` if the full length is not 1 to 144, else with `BlockChars` if the limit is
    /// not 146 to 400.
    pub fn new(full: u8, block_chars: u16) -> Result<Format, FormatError>
        ensures value { result ≡ format_of full block_chars }
        ensures format { IfOk result (λ f. IsFormat f) }
    {
        if !(1..=MAX_FULL).contains(&full) {
            return Err(FormatError::Full);
        }
        if !(MIN_BLOCK_CHARS..=MAX_BLOCK_CHARS).contains(&block_chars) {
            return Err(FormatError::BlockChars);
        }
        Ok(Format { full, block_chars })
    }

    /// Returns the full length of a record, 1 to 144 characters.
    pub fn full(&self) -> u8
        ensures value { result ≡ self.now.full }
        ensures format { IsFormat self.now }
    {
        self.full
    }

    /// Returns the number of characters that a block may count, 146 to 400.
    pub(crate) fn block_chars(&self) -> u16
        ensures value { result ≡ self.now.block_chars }
        ensures format { IsFormat self.now }
    {
        self.block_chars
    }
}
