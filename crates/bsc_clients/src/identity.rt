//! Which file stands at a path.

ghost use Rattle.std.specs.Prelude.{◌≡◌, ◌↔◌, IsTrue, Some};

use std::fs;
use std::fs::{Files, Metadata};
use std::os::unix::fs::MetadataExt;

/// The device and the number of a file, by which the system tells it from each other file that
/// exists at the same time.
#[derive(Clone, Copy, PartialEq, Eq)]
pub(crate) struct Identity {
    device: u64,
    number: u64,
}

impl Identity {
    /// The file of which the system tells this.
    pub(crate) fn of(metadata: &Metadata) -> Identity {
        Identity {
            device: metadata.dev(),
            number: metadata.ino(),
        }
    }

    /// The file at this path, which may be a link itself; None if there is none.
    pub(crate) fn at<N: Files>(runtime: &N, path: &str) -> Option<Identity> {
        match fs::symlink_metadata(runtime, path) {
            Ok(metadata) => Some(Identity::of(&metadata)),
            Err(_) => None,
        }
    }

    /// Whether what was found at a path is this file. Only then is it removed.
    pub(crate) fn is(self, found: Option<Identity>) -> bool
        ensures { IsTrue result ↔ found ≡ Some self }
    {
        match found {
            Some(found) => found == self,
            None => false,
        }
    }
}
