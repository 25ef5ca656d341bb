//! The settings with which a station is created.

ghost use Rattle.std.specs.Prelude.{◌≡◌, ◌≤◌, IfOk};
ghost use Rattle.bsc_bid.specs.Setup.{IsSetup, setup_of, setting_error};

use crate::limits::{MAX_TRIES, MAX_WAITS};
use bsc_block::{Format, FormatError};
use std::marker::Model;
use thiserror::Error;

/// How records become blocks, and how many failures and WACKs a station accepts before it gives up.
/// These settings and their limits are this project's own.
#[derive(Clone, Copy, Debug, PartialEq, Eq)]
pub struct Setup {
    /// How records become blocks.
    format: Format,

    /// The limit of failures in a row, 1 to 15. One failure more ends the bid.
    tries: u8,

    /// The limit of WACKs since the last acknowledgement, 1 to 255. One WACK more ends the bid.
    waits: u8,
}

impl Model for Setup {
    ghost use Rattle.bsc_bid.specs.Setup.{SetupValue, IsSetup};

    ghost Value = { SetupValue };

    ghost view = { λ s. record { format = s.format; tries = s.tries; waits = s.waits } };

    ghost invariant = { λ s. IsSetup
        (record { format = s.format; tries = s.tries; waits = s.waits }) };

    ghost inverse = { λ s. record { format = s.format; tries = s.tries; waits = s.waits } };
}

/// The first setting that is outside its limits.
#[derive(Clone, Copy, Debug, PartialEq, Eq, Error)]
pub enum SettingError {
    /// The full length of a record is not 1 to 144.
    #[error("the full length is not 1 to 144")]
    Full,

    /// The number of characters that a block may count is not 146 to 400.
    #[error("the characters of a block are not 146 to 400")]
    BlockChars,

    /// The limit of failures is not 1 to 15.
    #[error("the tries are not 1 to 15")]
    Tries,

    /// The limit of WACKs is 0.
    #[error("the waits are not 1 to 255")]
    Waits,
}

impl From<FormatError> for SettingError {
    ghost from_gives = { λ e s. s ≡ setting_error e };

    fn from(error: FormatError) -> SettingError {
        match error {
            FormatError::Full => SettingError::Full,
            FormatError::BlockChars => SettingError::BlockChars,
        }
    }
}

impl Setup {
    /// Returns the settings: the full length of a record (1 to 144), the number of characters that
    /// a block may count (146 to 400), the limit of failures in a row (1 to 15), and the limit of
    /// WACKs since the last acknowledgement (1 to 255). The error names the first number that is
    /// outside its limits.
    pub fn new(full: u8, block_chars: u16, tries: u8, waits: u8) -> Result<Setup, SettingError>
        ensures value { result ≡ setup_of full block_chars tries waits }
        ensures limits { IfOk result IsSetup }
    {
        let format = Format::new(full, block_chars)?;
        if !(1..=MAX_TRIES).contains(&tries) {
            return Err(SettingError::Tries);
        }
        if !(1..=MAX_WAITS).contains(&waits) {
            return Err(SettingError::Waits);
        }
        Ok(Setup {
            format,
            tries,
            waits,
        })
    }

    /// Returns how records become blocks.
    pub fn format(&self) -> Format
        ensures value { result ≡ self.now.format }
        ensures limits { IsSetup self.now }
    {
        self.format
    }

    /// Returns the limit of failures in a row, 1 to 15.
    pub fn tries(&self) -> u8
        ensures value { result ≡ self.now.tries }
        ensures limits { IsSetup self.now }
    {
        self.tries
    }

    /// Returns the limit of WACKs since the last acknowledgement, 1 to 255.
    pub fn waits(&self) -> u8
        ensures value { result ≡ self.now.waits }
        ensures limits { IsSetup self.now }
    {
        self.waits
    }
}
