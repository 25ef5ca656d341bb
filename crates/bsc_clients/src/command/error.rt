//! Why a station was not fed.

ghost use Rattle.std.specs.Prelude.{◌≡◌};

use bsc_text::PrintError;
use std::alloc::{AllocError, AllocFailed};
use thiserror::Error;

/// Why a station was not fed with all that was given.
#[derive(Clone, Copy, Debug, PartialEq, Eq, Error)]
pub enum FeedError {
    /// The address of the station is not one of a host and a port, or the name of the host is not
    /// known. What connects to the station tells it.
    #[error("cannot read the address of the station: it is HOST:PORT or unix:PATH")]
    Address,

    /// The user of this process may not connect to the station: its socket is for the user of the
    /// station only. What connects to the station tells it.
    #[error("no station serves there: permission denied")]
    NotPermitted,

    /// No station answers at the address. What connects to the station tells it.
    #[error("no station serves there")]
    NobodyThere,

    /// The system refused a socket. What connects to the station tells it.
    #[error("cannot make the sockets")]
    Sockets,

    /// The words are not one line: a word has a line feed.
    #[error("the command is more than one line")]
    NotOneLine,

    /// The station closed the connection before it answered, or the connection failed.
    #[error("the station has closed the connection")]
    Closed,

    /// The station answered a fault, which was printed.
    #[error("the station has refused a command")]
    Refused,

    /// A line of the input has more than [`MAX_INPUT`](bsc_text::MAX_INPUT) octets.
    #[error("a line of the input is too long")]
    TooLong,

    /// The input could not be read: a read failed or was interrupted.
    #[error("input fault")]
    Input,

    /// The writer did not accept what the station told.
    #[error("output fault")]
    Output,

    /// An allocation failed.
    #[error("out of memory")]
    Memory,
}

impl From<AllocError> for FeedError {
    ghost use Rattle.bsc_clients.specs.declared.command.error.FeedError.TheVariants.{Memory};

    ghost from_gives = { λ _ error. error ≡ Memory };

    fn from(_error: AllocError) -> FeedError {
        FeedError::Memory
    }
}

impl<T: Drop> From<AllocFailed<T>> for FeedError {
    ghost use Rattle.bsc_clients.specs.declared.command.error.FeedError.TheVariants.{Memory};

    ghost from_gives = { λ _ error. error ≡ Memory };

    fn from(_error: AllocFailed<T>) -> FeedError {
        FeedError::Memory
    }
}

impl From<PrintError> for FeedError {
    ghost use Rattle.bsc_clients.specs.Errors.{print_error};

    ghost from_gives = { λ printed error. error ≡ print_error printed };

    fn from(error: PrintError) -> FeedError {
        match error {
            PrintError::Output => FeedError::Output,
            PrintError::Memory => FeedError::Memory,
        }
    }
}
