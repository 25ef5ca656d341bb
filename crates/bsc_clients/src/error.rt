//! Why programs cannot reach a station.

ghost use Rattle.std.specs.Prelude.{◌≡◌};

use std::alloc::{AllocError, AllocFailed};
use std::io;
use thiserror::Error;

/// Why programs cannot reach a station: it cannot listen for them, or one of them cannot connect.
#[derive(Clone, Copy, Debug, PartialEq, Eq, Error)]
pub enum ClientsError {
    /// The text is not an address of a host and a port, or the name of the host is not known.
    #[error("cannot read the address: it is HOST:PORT or unix:PATH")]
    Address,

    /// An address of the host is not a loopback address, and not anyone may reach the station.
    #[error("the address is not a loopback address")]
    NotLoopback,

    /// Another process listens at this address or path.
    #[error("address in use")]
    InUse,

    /// There is a file at this path that is not a socket.
    #[error("the file at this path is not a socket")]
    OtherFile,

    /// The user of this process may not listen, or connect, at this address or path.
    #[error("cannot listen at this address: permission denied")]
    NotPermitted,

    /// No interface of this machine has this address.
    #[error("cannot listen at this address: no interface of this machine has it")]
    NotHere,

    /// The folder of this path is not there.
    #[error("cannot listen at this address: the folder of the path is not there")]
    NoFolder,

    /// The path is longer than that of a socket may be.
    #[error("cannot listen at this address: the path is too long")]
    TooLong,

    /// The system does not let this process listen at this address or path, for another reason.
    #[error("cannot listen at this address")]
    CannotListen,

    /// No station listens at this address or path: it refused, cannot be reached, or did not answer
    /// in time.
    #[error("nobody is there")]
    NobodyThere,

    /// The system refused a socket or a setting of it.
    #[error("cannot make the sockets")]
    Sockets,

    /// Memory could not be allocated.
    #[error("out of memory")]
    Memory,
}

impl From<io::Error> for ClientsError {
    ghost use Rattle.bsc_clients.specs.declared.error.ClientsError.TheVariants.{Sockets};

    ghost from_gives = { λ _ error. error ≡ Sockets };

    fn from(_error: io::Error) -> ClientsError {
        ClientsError::Sockets
    }
}

impl From<AllocError> for ClientsError {
    ghost use Rattle.bsc_clients.specs.declared.error.ClientsError.TheVariants.{Memory};

    ghost from_gives = { λ _ error. error ≡ Memory };

    fn from(_error: AllocError) -> ClientsError {
        ClientsError::Memory
    }
}

impl<T: Drop> From<AllocFailed<T>> for ClientsError {
    ghost use Rattle.bsc_clients.specs.declared.error.ClientsError.TheVariants.{Memory};

    ghost from_gives = { λ _ error. error ≡ Memory };

    fn from(_error: AllocFailed<T>) -> ClientsError {
        ClientsError::Memory
    }
}
