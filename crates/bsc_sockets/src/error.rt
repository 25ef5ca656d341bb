//! Why connections could not be made.

ghost use Rattle.std.specs.Prelude.{◌≡◌};
ghost use Rattle.bsc_sockets.specs.Errors.{reason};

use std::alloc::{AllocError, AllocFailed};
use std::error::Error;
use std::fmt::{Display, Formatter, Write};
use std::{fmt, io};

/// Why connections could not be made.
#[derive(Clone, Copy, Debug, PartialEq, Eq)]
pub enum SocketsError {
    /// The text is not an address of a host and a port, or the name of the host is not known.
    Address,

    /// Another process listens at this address.
    AddressInUse,

    /// The user of this process may not listen at this address.
    NotPermitted,

    /// No interface of this machine has this address.
    NotHere,

    /// The system does not let this process listen at this address, for another reason.
    CannotListen,

    /// No peer listens at this address: it refused, cannot be reached, or did not answer in time.
    NobodyThere,

    /// A peer did not connect in time.
    NobodyConnected,

    /// The station was asked to end before its peers had connected.
    Stopped,

    /// The system does not report when standard input ends, for example because it is a file.
    CannotWatchInput,

    /// The system refused a socket, a setting of it, or to wait for it.
    Sockets,

    /// Memory could not be allocated.
    Memory,
}

impl SocketsError {
    /// Returns the reason in words.
    fn reason(self) -> &'static str
        ensures { result.now ≡ reason self }
    {
        match self {
            SocketsError::Address => "cannot read the address: it is HOST:PORT",
            SocketsError::AddressInUse => "address in use",
            SocketsError::NotPermitted => "cannot listen at this address: permission denied",
            SocketsError::NotHere => {
                "cannot listen at this address: no interface of this machine has it"
            }
            SocketsError::CannotListen => "cannot listen at this address",
            SocketsError::NobodyThere => "nobody is there",
            SocketsError::NobodyConnected => "nobody has connected",
            SocketsError::Stopped => "the station was asked to end before its peers connected",
            SocketsError::CannotWatchInput => "cannot wait for the end of standard input",
            SocketsError::Sockets => "cannot make the sockets",
            SocketsError::Memory => "out of memory",
        }
    }
}

impl Display for SocketsError {
    ghost use Rattle.std.specs.Prelude.{Some};
    ghost use Rattle.bsc_sockets.specs.Errors.{reason};

    ghost output = { λ error. Some (reason error) };

    /// Writes the reason in words.
    fn fmt<W: Write>(&self, f: &mut Formatter<W>) -> fmt::Result {
        f.write_str(self.reason())
    }
}

impl Error for SocketsError {}

impl From<io::Error> for SocketsError {
    ghost use Rattle.std.specs.Prelude.{◌≡◌};
    ghost use Rattle.bsc_sockets.specs.declared.error.SocketsError.TheVariants.{Sockets};

    ghost from_gives = { λ _ error. error ≡ Sockets };

    fn from(_error: io::Error) -> SocketsError {
        SocketsError::Sockets
    }
}

impl From<AllocError> for SocketsError {
    ghost use Rattle.std.specs.Prelude.{◌≡◌};
    ghost use Rattle.bsc_sockets.specs.declared.error.SocketsError.TheVariants.{Memory};

    ghost from_gives = { λ _ error. error ≡ Memory };

    fn from(_error: AllocError) -> SocketsError {
        SocketsError::Memory
    }
}

impl<T: Drop> From<AllocFailed<T>> for SocketsError {
    ghost use Rattle.std.specs.Prelude.{◌≡◌};
    ghost use Rattle.bsc_sockets.specs.declared.error.SocketsError.TheVariants.{Memory};

    ghost from_gives = { λ _ error. error ≡ Memory };

    fn from(_error: AllocFailed<T>) -> SocketsError {
        SocketsError::Memory
    }
}
