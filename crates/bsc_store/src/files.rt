//! Stores in files.

ghost use Rattle.std.specs.Prelude.{IfOk, string_bytes};
ghost use Rattle.sqlite.specs.Files.{over_files};
ghost use Rattle.bsc_store.specs.Making.{IsNewStore};
ghost use Rattle.bsc_store.specs.Reading.{IsOpenedStore};

use crate::fault::fault_of;
use crate::making::make_empty;
use crate::store::TableStore;
use bsc_spool::StoreFault;
use sqlite::{Connection, File, FileStore};
use std::fs::{exists, metadata};
use std::rt::HostRuntime;

/// How many octets the log of a database has at most that holds nothing.
const EMPTY_LOG: u64 = 41;

impl TableStore<FileStore<File>> {
    /// Makes a store at the path. The file must not be there or be empty, else this fails with
    /// `Taken` or, if it is no database, with `Damaged`. It fails with `Taken` too if there is only
    /// a log: what a store has kept may be in its log only.
    pub fn create(
        rt: &HostRuntime,
        path: &str,
        line: &str,
    ) -> Result<TableStore<FileStore<File>>, StoreFault>
        ensures made { IfOk result (λ store. IsNewStore over_files line.now store.conn) }
    {
        if !is_there(rt, path)? && has_log(rt, path)? {
            return Err(StoreFault::Taken);
        }
        drop(make_empty(rt, path));
        match Connection::open(rt, path) {
            Ok(conn) => TableStore::begin(conn, line),
            Err(error) => Err(fault_of(error)),
        }
    }

    /// Opens the store at the path. Fails with `Missing` if there is no file, and makes none.
    pub fn open(
        rt: &HostRuntime,
        path: &str,
        line: &str,
    ) -> Result<TableStore<FileStore<File>>, StoreFault>
        ensures is { IfOk result
            (λ store. IsOpenedStore over_files line.now store.marks store.conn) }
    {
        TableStore::resume(connect(rt, path)?, line)
    }

    /// Opens the store at the path, of whatever line, and returns the text of its line too. Fails
    /// as `open` does.
    pub fn open_any(
        rt: &HostRuntime,
        path: &str,
    ) -> Result<(TableStore<FileStore<File>>, String), StoreFault>
        ensures is { IfOk result
            (λ found. IsOpenedStore over_files (string_bytes found.1) found.0.marks
            found.0.conn) }
    {
        TableStore::resume_any(connect(rt, path)?)
    }

    /// Copies what is kept into the file itself and closes it.
    pub fn close(self) -> Result<(), StoreFault> {
        let TableStore { conn, .. } = self;
        conn.close().map_err(fault_of)
    }
}

/// Whether there is something at the path.
fn is_there(rt: &HostRuntime, path: &str) -> Result<bool, StoreFault> {
    match exists(rt, path) {
        Ok(is_there) => Ok(is_there),
        Err(_) => Err(StoreFault::Unreachable),
    }
}

/// Whether the database at the path has a log that holds something.
fn has_log(rt: &HostRuntime, path: &str) -> Result<bool, StoreFault> {
    let Ok(log) = format!(in rt.alloc(); "{path}-wal") else {
        return Err(StoreFault::OutOfMemory);
    };
    match metadata(rt, log.as_str()) {
        Ok(found) => Ok(found.is_file() && EMPTY_LOG < found.len()),
        Err(_) => Ok(false),
    }
}

/// Whether the file at the path is empty.
fn is_empty(rt: &HostRuntime, path: &str) -> bool {
    match metadata(rt, path) {
        Ok(found) => found.is_file() && found.len() == 0,
        Err(_) => false,
    }
}

/// Opens the database at the path, if there is a file. In an empty one, of which no log holds
/// anything, the database would be made: it fails with `Damaged`.
fn connect(rt: &HostRuntime, path: &str) -> Result<Connection<FileStore<File>>, StoreFault> {
    if !is_there(rt, path)? {
        return Err(StoreFault::Missing);
    }
    if is_empty(rt, path) && !has_log(rt, path)? {
        return Err(StoreFault::Damaged);
    }
    match Connection::open(rt, path) {
        Ok(conn) => Ok(conn),
        Err(error) => Err(fault_of(error)),
    }
}
