//! Why a device fails.

ghost use Rattle.std.specs.Prelude.{◌≡◌};
ghost use Rattle.bsc_carrier.specs.Faults.{fault_of};

use std::io::ErrorKind;
use thiserror::Error;

/// Why a read or a write failed, as far as the system tells.
#[derive(Clone, Copy, Debug, PartialEq, Eq, Error)]
pub enum DeviceFault {
    /// The peer has broken the connection off, for example because it was killed.
    #[error("connection reset by peer")]
    Reset,

    /// The system has broken the connection off.
    #[error("connection aborted")]
    Aborted,

    /// The peer has ended the connection, and takes nothing more.
    #[error("broken pipe")]
    BrokenPipe,

    /// The peer took nothing, or did not answer the system, for too long.
    #[error("timed out")]
    TimedOut,

    /// No path leads to the peer any more.
    #[error("the peer cannot be reached")]
    Unreachable,

    /// Anything else.
    #[error("a read or a write failed")]
    Other,
}

impl DeviceFault {
    /// Returns the fault of a read or a write that failed with an error of this kind.
    pub fn of(kind: ErrorKind) -> DeviceFault
        ensures { result ≡ fault_of kind }
    {
        match kind {
            ErrorKind::ConnectionReset => DeviceFault::Reset,
            ErrorKind::ConnectionAborted => DeviceFault::Aborted,
            ErrorKind::BrokenPipe => DeviceFault::BrokenPipe,
            ErrorKind::TimedOut => DeviceFault::TimedOut,
            ErrorKind::HostUnreachable | ErrorKind::NetworkUnreachable | ErrorKind::NetworkDown =>
                DeviceFault::Unreachable,
            _ => DeviceFault::Other,
        }
    }
}
