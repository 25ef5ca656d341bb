//! Why a file could not be read.

ghost use Rattle.std.specs.Prelude.{◌≡◌};
ghost use Rattle.bsc_text.specs.Unreadable.{why_of};

use std::io::ErrorKind;
use thiserror::Error;

/// Why a file, or standard input, could not be opened or read.
#[derive(Clone, Copy, Debug, PartialEq, Eq, Error)]
pub enum Unreadable {
    /// There is no such file.
    #[error("no such file")]
    NoSuchFile,

    /// The system does not let this process read it.
    #[error("permission denied")]
    PermissionDenied,

    /// It is a directory.
    #[error("is a directory")]
    IsADirectory,

    /// A part of its path that should be a directory is none.
    #[error("not in a directory")]
    NotInADirectory,

    /// It could not be read for another reason, or the read was interrupted.
    #[error("read fault")]
    ReadFault,
}

impl Unreadable {
    /// Returns the reason that the kind of an error of the system stands for.
    pub fn of(kind: ErrorKind) -> Unreadable
        ensures { result ≡ why_of kind }
    {
        match kind {
            ErrorKind::NotFound => Unreadable::NoSuchFile,
            ErrorKind::PermissionDenied => Unreadable::PermissionDenied,
            ErrorKind::IsADirectory => Unreadable::IsADirectory,
            ErrorKind::NotADirectory => Unreadable::NotInADirectory,
            _ => Unreadable::ReadFault,
        }
    }
}
