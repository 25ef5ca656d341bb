//! Why the work on a store failed.
ghost use Rattle.std.specs.Prelude.{◌≡◌};
ghost use Rattle.bsc_storing.specs.Errors.{exchanged as exchanged_error};
ghost use Rattle.bsc_storing.specs.Errors.{other_error, store_error};

use bsc_bid::ReleaseError;
use bsc_config::ConfigError;
use bsc_spool::StoreFault;
use bsc_station::OfferError;
use bsc_text::TextError;
use std::alloc::{AllocError, AllocFailed};
use thiserror::Error;

/// Why the work on a store failed. After `Output` what was to be kept is kept; after a fault of a
/// store, `Unreachable`, `Full` or `OutOfMemory`, it may be. After any other error the store keeps
/// what it had.
#[derive(Debug, Drop, Error)]
pub enum StoringError {
    /// The text of the configuration or of records could not be read.
    #[error(transparent)]
    Text { error: TextError },

    /// The configuration is refused.
    #[error(transparent)]
    Config { error: ConfigError },

    /// The store is refused, or does not keep the step.
    #[error(transparent)]
    Store { fault: StoreFault },

    /// The other store is refused, or does not keep its step. The first store may have kept its
    /// own.
    #[error("the other store: {fault}")]
    Other { fault: StoreFault },

    /// The store is to be reconciled with itself.
    #[error("the other store: it is the same store")]
    SameStore,

    /// A store is to be made for a terminal that is not in the configuration.
    #[error("--terminal names a terminal that is not in CONFIG")]
    NoTerminal,

    /// The line has no such channel at this station, or the channel has its other end here.
    #[error("the station has no such channel")]
    NoChannel,

    /// A line of the text at this path is not a record. Nothing is offered.
    #[error("{path} {error}")]
    Offer { path: String, error: OfferError },

    /// The doubt of the channel is not released.
    #[error(transparent)]
    Release { error: ReleaseError },

    /// The counts of a channel in the two stores do not fit. Each such channel was printed.
    #[error("the stores do not fit together: one of them is an older copy")]
    Apart,

    /// The stores are not those of a control station and a terminal of one line.
    #[error("the stores are not of two ends of one line")]
    NotTwoEnds,

    /// Standard output did not accept the text.
    #[error("output fault")]
    Output,

    /// An allocation failed.
    #[error("out of memory")]
    Memory,
}

impl From<AllocError> for StoringError {
    ghost use Rattle.std.specs.Prelude.{◌≡◌};
    ghost use Rattle.bsc_storing.specs.declared.error.StoringError.TheVariants.{Memory};

    ghost from_gives = { λ _ storing. storing ≡ Memory };

    fn from(_error: AllocError) -> StoringError {
        StoringError::Memory
    }
}

impl<T: Drop> From<AllocFailed<T>> for StoringError {
    ghost use Rattle.std.specs.Prelude.{◌≡◌};
    ghost use Rattle.bsc_storing.specs.declared.error.StoringError.TheVariants.{Memory};

    ghost from_gives = { λ _ storing. storing ≡ Memory };

    fn from(_error: AllocFailed<T>) -> StoringError {
        StoringError::Memory
    }
}

impl From<TextError> for StoringError {
    ghost use Rattle.std.specs.Prelude.{◌≡◌};
    ghost use Rattle.bsc_storing.specs.Errors.{text_error};

    ghost from_gives = { λ error storing. storing ≡ text_error error };

    fn from(error: TextError) -> StoringError {
        match error {
            TextError::Memory => StoringError::Memory,
            error => StoringError::Text { error },
        }
    }
}

impl From<ConfigError> for StoringError {
    ghost use Rattle.std.specs.Prelude.{◌≡◌};
    ghost use Rattle.bsc_storing.specs.Errors.{config_error};

    ghost from_gives = { λ error storing. storing ≡ config_error error };

    fn from(error: ConfigError) -> StoringError {
        match error {
            ConfigError::Memory => StoringError::Memory,
            error => StoringError::Config { error },
        }
    }
}

/// Returns the error for a store that failed.
pub(crate) fn of_store(fault: StoreFault) -> StoringError
    ensures { result ≡ store_error fault }
{
    match fault {
        StoreFault::OutOfMemory => StoringError::Memory,
        fault => StoringError::Store { fault },
    }
}

/// Returns the error for the same work with both stores exchanged.
pub(crate) fn exchanged(error: StoringError) -> StoringError
    ensures { result ≡ exchanged_error error }
{
    match error {
        StoringError::Store { fault } => StoringError::Other { fault },
        StoringError::Other { fault } => StoringError::Store { fault },
        error => error,
    }
}

/// Returns the error for the other store that failed.
pub(crate) fn of_other(fault: StoreFault) -> StoringError
    ensures { result ≡ other_error fault }
{
    match fault {
        StoreFault::OutOfMemory => StoringError::Memory,
        fault => StoringError::Other { fault },
    }
}
