//! The limit on the size of files, for a store.
//!
//! What a store writes, and in which pieces, the database decides; a write that begins at the limit
//! ends the program by a signal. So a commit is made only if the file of the store and its log stay
//! below the limit whatever the commit writes; else the store is full, as on a full disk. (Own.)

ghost use Rattle.std.specs.Prelude.{◌+◌, ◌*◌, ◌≤◌, ◌↔◌, IsTrue};

use crate::file_limit::file_size_limit;
use std::alloc::AllocError;
use std::fs::metadata;
use std::rt::HostRuntime;

/// At least as many octets as a commit writes for one of its changes: two pages of 4,096 octets.
/// Those of a new store are smaller.
const OF_A_CHANGE: u128 = 8_192;

/// At least as many octets as a commit writes beside that, and as it takes to make a store.
const BESIDE: u128 = 524_288;

/// The file of a store, and its log.
#[derive(Drop)]
pub(crate) struct StorePaths<'a> {
    runtime: &'a HostRuntime,
    store: String,
    log: String,
}

impl<'a> StorePaths<'a> {
    /// The files of the store at this path.
    pub(crate) fn of(runtime: &'a HostRuntime, path: &str) -> Result<StorePaths<'a>, AllocError> {
        Ok(StorePaths {
            runtime,
            store: String::from_str(runtime.alloc(), path)?,
            log: format!(in runtime.alloc(); "{path}-wal")?,
        })
    }

    /// Whether a commit of this many changes stays below the limit.
    pub(crate) fn have_room(&self, changes: usize) -> bool {
        match file_size_limit() {
            None => true,
            Some(limit) => fits(
                limit,
                size_of(self.runtime, self.store.as_str()),
                size_of(self.runtime, self.log.as_str()),
                changes as u64,
            ),
        }
    }
}

/// Returns the size of the file at this path in octets, 0 if there is none.
fn size_of(runtime: &HostRuntime, path: &str) -> u64 {
    match metadata(runtime, path) {
        Ok(found) => found.len(),
        Err(_) => 0,
    }
}

/// Returns whether a store whose file and log have these sizes stays below the limit if this many
/// changes are committed and the log is then copied into the file.
fn fits(limit: u64, store: u64, log: u64, changes: u64) -> bool
    ensures { IsTrue result ↔ store + log + changes * OF_A_CHANGE + BESIDE ≤ limit }
{
    let held = u128::from(store) + u128::from(log);
    let written = u128::from(changes) * OF_A_CHANGE + BESIDE;
    held + written <= u128::from(limit)
}
