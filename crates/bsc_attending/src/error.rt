//! The reasons why a station fails.
ghost use Rattle.std.specs.Prelude.{◌≡◌};

use crate::cut_short::CutShort;
use bsc_carrier::CarrierError;
use bsc_clients::ClientsError;
use bsc_config::ConfigError;
use bsc_options::OptionError;
use bsc_sockets::SocketsError;
use bsc_spool::StoreFault;
use bsc_station::OfferError;
use bsc_text::{PrintError, TextError};
use std::alloc::{AllocError, AllocFailed};
use thiserror::Error;

/// The reason why a station failed or did not complete its work. Out of memory is always `Memory`.
#[derive(Debug, Drop, Error)]
pub enum AttendingError {
    /// The options are refused.
    #[error(transparent)]
    Options { error: OptionError },

    /// The text of the configuration or of records could not be read.
    #[error(transparent)]
    Text { error: TextError },

    /// The configuration is refused.
    #[error(transparent)]
    Config { error: ConfigError },

    /// A line of the text at this path is not a record.
    #[error("{path} {error}")]
    Offer { path: String, error: OfferError },

    /// The connections of the station could not be made, or waiting for them failed.
    #[error(transparent)]
    Connections { error: SocketsError },

    /// Programs that feed the station cannot reach it.
    #[error("programs cannot be served: {error}")]
    Programs { error: ClientsError },

    /// The connection of a terminal was closed by this fault.
    #[error("connection closed: {error}")]
    Closed { error: CarrierError },

    /// The control station ended, and could not trust the line.
    #[error("the line is not trusted")]
    NotTrusted,

    /// The station ended, and it is in doubt whether some records arrived.
    #[error("records in doubt")]
    InDoubt,

    /// The station ended, and some records that were offered are not known to have arrived.
    #[error("records not delivered")]
    Undelivered,

    /// Standard output did not accept the text.
    #[error("output fault")]
    Output,

    /// Standard output did not accept records that arrived. Without a store they were not
    /// acknowledged; with one they are kept. The station has ended.
    #[error("records that arrived could not be printed")]
    Unprinted,

    /// The store of the station is refused, before a connection is made.
    #[error("store: {error}")]
    Store { error: StoreFault },

    /// What happened could not be kept in the store. Nothing that rests on it was sent, and the
    /// station has ended.
    #[error("what happened could not be kept: {error}")]
    Unkept { error: StoreFault },

    /// An allocation failed.
    #[error("out of memory")]
    Memory,
}

impl From<AllocError> for AttendingError {
    ghost use Rattle.bsc_attending.specs.declared.error.AttendingError.TheVariants.{Memory};

    ghost from_gives = { λ _ attending. attending ≡ Memory };

    fn from(_error: AllocError) -> AttendingError {
        AttendingError::Memory
    }
}

impl<T: Drop> From<AllocFailed<T>> for AttendingError {
    ghost use Rattle.bsc_attending.specs.declared.error.AttendingError.TheVariants.{Memory};

    ghost from_gives = { λ _ attending. attending ≡ Memory };

    fn from(_error: AllocFailed<T>) -> AttendingError {
        AttendingError::Memory
    }
}

impl From<OptionError> for AttendingError {
    ghost use Rattle.bsc_attending.specs.declared.error.AttendingError.TheVariants.{Options};

    ghost from_gives = { λ error attending. attending ≡ Options error };

    fn from(error: OptionError) -> AttendingError {
        AttendingError::Options { error }
    }
}

impl From<TextError> for AttendingError {
    ghost use Rattle.bsc_attending.specs.Errors.{text_error};

    ghost from_gives = { λ error attending. attending ≡ text_error error };

    fn from(error: TextError) -> AttendingError {
        match error {
            TextError::Memory => AttendingError::Memory,
            error => AttendingError::Text { error },
        }
    }
}

impl From<ConfigError> for AttendingError {
    ghost use Rattle.bsc_attending.specs.Errors.{config_error};

    ghost from_gives = { λ error attending. attending ≡ config_error error };

    fn from(error: ConfigError) -> AttendingError {
        match error {
            ConfigError::Memory => AttendingError::Memory,
            error => AttendingError::Config { error },
        }
    }
}

impl From<PrintError> for AttendingError {
    ghost use Rattle.bsc_attending.specs.Errors.{print_error};

    ghost from_gives = { λ error attending. attending ≡ print_error error };

    fn from(error: PrintError) -> AttendingError {
        match error {
            PrintError::Output => AttendingError::Output,
            PrintError::Memory => AttendingError::Memory,
        }
    }
}

impl From<StoreFault> for AttendingError {
    ghost use Rattle.bsc_attending.specs.Errors.{store_error};

    ghost from_gives = { λ error attending. attending ≡ store_error error };

    fn from(error: StoreFault) -> AttendingError {
        match error {
            StoreFault::OutOfMemory => AttendingError::Memory,
            error => AttendingError::Store { error },
        }
    }
}

impl From<CutShort> for AttendingError {
    ghost use Rattle.bsc_attending.specs.Errors.{cut_short_error};

    ghost from_gives = { λ cut attending. attending ≡ cut_short_error cut };

    fn from(cut: CutShort) -> AttendingError {
        match cut {
            CutShort::Connections { error } => AttendingError::Connections { error },
            CutShort::Programs { error } => AttendingError::Programs { error },
            CutShort::Output => AttendingError::Output,
            CutShort::Unprinted => AttendingError::Unprinted,
            CutShort::Unkept { error } => AttendingError::Unkept { error },
            CutShort::Memory => AttendingError::Memory,
        }
    }
}
