//! The reasons for refusing a configuration.

use crate::key::{Key, UnknownKey};
use bsc_bid::SetupError;
use std::alloc::{AllocError, AllocFailed};
use thiserror::Error;

/// The reason for refusing a configuration: the first of these, in this order, that applies.
/// `Memory` may come in place of any other.
#[derive(Debug, Drop, Error)]
pub enum ConfigError {
    /// The text is not UTF-8, or is not a TOML document. It is one up to somewhere on this line of
    /// the text, counted from 1.
    #[error("config: not toml: line {line}")]
    NotToml { line: u64 },

    /// A key that a configuration may not have: the smallest, compared byte by byte, of those in
    /// the document; otherwise the smallest of those in the first terminal that has one.
    #[error("config: unknown key {key}")]
    UnknownKey { key: UnknownKey },

    /// The first required key that is absent: `version`, `poll_list`, `terminals`, and then `poll`
    /// and `select` of each terminal in order.
    #[error("config: missing key {key}")]
    MissingKey { key: Key },

    /// The first key with a value that is not allowed, in the order of [`Key`], one terminal after
    /// another.
    #[error("config: wrong value of {key}")]
    WrongValue { key: Key },

    /// The list of terminals is empty.
    #[error("config: no terminal")]
    NoTerminal,

    /// There are more than 64 terminals.
    #[error("config: too many terminals")]
    TooManyTerminals,

    /// Two addresses are the same. `second` is the least number whose address occurred before, and
    /// `first` is the number where it occurred. Addresses are numbered from 0: the polling address
    /// of terminal 0, its selection addresses in order, the polling address of terminal 1, and so
    /// on.
    #[error("config: addresses {first} and {second} are the same")]
    SameAddresses { first: usize, second: usize },

    /// The poll list has no entry.
    #[error("config: poll list is empty")]
    EmptyPollList,

    /// An entry of the poll list is wrong. `place` is the least index, counted from 0, that is 255
    /// or more, or whose entry is not the number of a terminal.
    #[error("config: poll list entry {place} is wrong")]
    PollListEntry { place: usize },

    /// An allocation failed.
    #[error("out of memory")]
    Memory,
}

impl From<AllocError> for ConfigError {
    ghost use Rattle.std.specs.Prelude.{◌≡◌};
    ghost use Rattle.bsc_config.specs.declared.error.ConfigError.TheVariants.{Memory};

    ghost from_gives = { λ _ error. error ≡ Memory };

    fn from(_error: AllocError) -> ConfigError {
        ConfigError::Memory
    }
}

impl<T: Drop> From<AllocFailed<T>> for ConfigError {
    ghost use Rattle.std.specs.Prelude.{◌≡◌};
    ghost use Rattle.bsc_config.specs.declared.error.ConfigError.TheVariants.{Memory};

    ghost from_gives = { λ _ error. error ≡ Memory };

    fn from(_error: AllocFailed<T>) -> ConfigError {
        ConfigError::Memory
    }
}

impl From<SetupError> for ConfigError {
    ghost use Rattle.std.specs.Prelude.{◌≡◌};
    ghost use Rattle.bsc_config.specs.Refusals.{refusal};

    ghost from_gives = { λ error refused. refused ≡ refusal error };

    fn from(error: SetupError) -> ConfigError {
        match error {
            SetupError::NoTerminal => ConfigError::NoTerminal,
            SetupError::TooMany => ConfigError::TooManyTerminals,
            SetupError::SameAddress(first, second) => ConfigError::SameAddresses { first, second },
            SetupError::EmptyPollList => ConfigError::EmptyPollList,
            SetupError::PollList(place) => ConfigError::PollListEntry { place },
            SetupError::Memory => ConfigError::Memory,
        }
    }
}
