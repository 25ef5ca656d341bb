//! The right to remove a socket file that was left.

ghost use Rattle.std.specs.Prelude.{IfErr};
ghost use Rattle.bsc_clients.specs.Listening.{IsPathError};

use crate::ClientsError;
use crate::identity::Identity;
use crate::private_folder::unmade;
use std::alloc::Global;
use std::fs;
use std::fs::{File, Files, OpenOptions, TryLockError};
use std::os::unix::fs::OpenOptionsExt;

/// Only the user of the station may ask for the right.
const MODE: u32 = 0o600;

/// How often the right is asked for, if the station that had it gives it up at that moment.
const MAX_TRIES: usize = 1_000;

/// The right to remove the socket file at a path, which one station has at a time: the lock on a
/// file beside it. Without it a station could remove the socket that another one has just put in
/// the place of one that was left. The file is removed when this is dropped.
pub(crate) struct Replacing<'a, N: Files> {
    runtime: &'a N,
    path: String,

    /// The file that is locked, until it is closed.
    file: File,
}

impl<'a, N: Files<File = File>> Replacing<'a, N> {
    /// Takes the right. Fails with `InUse` if another station has it.
    pub(crate) fn begin(
        runtime: &'a N,
        alloc: Global,
        path: &str,
    ) -> Result<Replacing<'a, N>, ClientsError>
        ensures { IfErr result IsPathError }
    {
        let path = format!(in alloc; "{path}.lock")?;
        for _ in 0..MAX_TRIES {
            let file = locked(runtime, path.as_str())?;
            if is_at(runtime, &file, path.as_str()) {
                return Ok(Replacing {
                    runtime,
                    path,
                    file,
                });
            }
        }
        Err(ClientsError::InUse)
    }
}

/// Opens the file at this path, or a new one, and locks it.
fn locked<N: Files<File = File>>(runtime: &N, path: &str) -> Result<File, ClientsError>
    ensures { IfErr result IsPathError }
{
    let mut options = OpenOptions::new();
    options.read(true).write(true).create(true).mode(MODE);
    let file = match options.open(runtime, path) {
        Ok(file) => file,
        Err(error) => return Err(unmade(error.kind())),
    };
    match file.try_lock() {
        Ok(()) => Ok(file),
        Err(TryLockError::WouldBlock) => Err(ClientsError::InUse),
        Err(TryLockError::Error(_)) => Err(ClientsError::CannotListen),
    }
}

/// Whether this file still stands at the path. Whoever had the lock before removes the file first
/// and unlocks it after that, so that a file that was opened in between is no other station's.
fn is_at<N: Files>(runtime: &N, file: &File, path: &str) -> bool {
    match file.metadata() {
        Ok(metadata) => Identity::of(&metadata).is(Identity::at(runtime, path)),
        Err(_) => false,
    }
}

impl<'a, N: Files> Drop for Replacing<'a, N> {
    fn drop(self) {
        let Replacing {
            runtime,
            path,
            file,
        } = self;
        let _ = fs::remove_file(runtime, path.as_str());
        drop(file);
    }
}
