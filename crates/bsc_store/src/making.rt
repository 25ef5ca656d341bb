//! The empty database of a new store.
//!
//! A commit writes whole pages, and a step changes a few short records. So the pages of a store are
//! as small as they may be: with those of 4,096 octets, which the database takes unasked, a commit
//! takes longer.
ghost use Rattle.std.specs.Prelude.{IsTrue};

use sqlite::{File, FileStore, Files, Options, Unknown};
use sqlite_disk::Disk;
use sqlite_pager::Pager;
use sqlite_std_file::open;
use sqlite_store::Unopened;
use sqlite_wal::PageSize;
use std::alloc::Global;
use std::fs::OpenOptions;
use std::hash::{BuildHasher, RandomState};
use std::os::unix::fs::OpenOptionsExt;
use std::rt::HostRuntime;

/// Only the user of a store reads and writes its file. The database gives its log the same mode.
const MODE: u32 = 0o600;

/// How many octets a page of a new store has.
const PAGE_OCTETS: usize = 512;

/// Whether the database takes the path for something else than the name of a file.
fn is_no_file(path: &str) -> bool {
    path == ":memory:" || path.starts_with("file:")
}

/// Makes an empty database in these files, which have nothing, or what was left when this was cut
/// off. Returns `None` if it is not made; then files that have something else are as they were.
fn make_in<D: Disk + Drop>(alloc: Global, files: Files<D>, seed: u64) -> Option<FileStore<D>>
    requires log { IsTrue (D.Disk.is_usable files.log) }
    requires db { IsTrue (D.Disk.is_usable files.db) }
{
    let size = PageSize::new(PAGE_OCTETS)?;
    let Ok(pager) = Pager::new(alloc, files, size, Options::new(seed)) else {
        return None;
    };
    let Ok(unopened) = Unopened::new(alloc, pager, &[]) else {
        return None;
    };
    match unopened.create() {
        Ok(store) => Some(store),
        Err(_) => None,
    }
}

/// Makes an empty file at the path, for this user only, if there is none. Where that fails, an open
/// of the file tells the fault.
fn make_file(rt: &HostRuntime, path: &str) {
    let mut options = OpenOptions::new();
    options.write(true).create_new(true).mode(MODE);
    drop(options.open(rt, path));
}

/// Makes an empty database at the path, if there is no file, an empty one, or one that was left
/// when this was cut off. Returns `None` if it is not made; then a file that has something else is
/// as it was, and an open of the file tells the fault.
pub(crate) fn make_empty(rt: &HostRuntime, path: &str) -> Option<FileStore<File>> {
    if is_no_file(path) {
        return None;
    }
    let seed = match RandomState::new(rt) {
        Ok(state) => state.hash_one(&0u8),
        Err(_) => return None,
    };
    make_file(rt, path);
    match open(rt, path, Unknown) {
        Ok(files) => make_in(rt.alloc(), files, seed),
        Err(_) => None,
    }
}
