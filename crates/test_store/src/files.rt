//! Stores that are opened, used and closed: the only functions that own one. A store that is used
//! is taken out of its result by `match`, since `?` takes long to check with so large a type.

use crate::checks::{are_checked, is_damaged};
use crate::cut::{has_step, keep_step};
use crate::facts::{from_terminal, to_terminal};
use crate::kept::{fill, is_filled, is_unchanged, keeps_many};
use bsc_spool::{Store, StoreFault};
use bsc_store::TableStore;
use sqlite::{Connection, MemStore, params};
use std::alloc::Global;
use std::rt::HostRuntime;
use std::{fs, io};

/// The line of the tests: many lines, of more than 900 octets.
pub(crate) const LINE: &str = "control station
full length 80
polled 41414141414141 selected 61414141414141 62414141414141 63414141414141 64414141414141
polled 42424242424242 selected 61424242424242 62424242424242 63424242424242 64424242424242
polled 43434343434343 selected 61434343434343 62434343434343 63434343434343 64434343434343
polled 44444444444444 selected 61444444444444 62444444444444 63444444444444 64444444444444
polled 45454545454545 selected 61454545454545 62454545454545 63454545454545 64454545454545
polled 46464646464646 selected 61464646464646 62464646464646 63464646464646 64464646464646
polled 47474747474747 selected 61474747474747 62474747474747 63474747474747 64474747474747
polled 48484848484848 selected 61484848484848 62484848484848 63484848484848 64484848484848
polled 49494949494949 selected 61494949494949 62494949494949 63494949494949 64494949494949
polled 4a4a4a4a4a4a4a selected 614a4a4a4a4a4a 624a4a4a4a4a4a 634a4a4a4a4a4a 644a4a4a4a4a4a
polled 4b4b4b4b4b4b4b selected 614b4b4b4b4b4b 624b4b4b4b4b4b 634b4b4b4b4b4b 644b4b4b4b4b4b
polled 4c4c4c4c4c4c4c selected 614c4c4c4c4c4c 624c4c4c4c4c4c 634c4c4c4c4c4c 644c4c4c4c4c4c
";

/// What is done with a store while it is open. The answer is whether all was as it should be.
#[derive(Clone, Copy)]
pub(crate) enum Task {
    /// Keep the steps of two channels, read them, or both.
    Fill,
    Read,
    FillAndRead,

    /// Keep a step that is refused, and find that nothing changed.
    Refused,

    /// Keep the step that is cut off, and find it as a whole, or nothing of it.
    Step,
    HasStep(bool),

    /// Keep a step of many changes, and find its records.
    Many,

    /// Find the records that have right checks, or that the one with this number is damaged.
    Checked,
    Damaged(u32),

    Nothing,
}

/// Does what is to be done with a store.
fn perform<S: Store>(alloc: Global, store: &mut S, task: Task) -> Result<bool, StoreFault> {
    let one = from_terminal()?;
    let other = to_terminal()?;
    match task {
        Task::Fill => {
            fill(store, one, other)?;
            Ok(true)
        }
        Task::Read => is_filled(store, &one, &other),
        Task::FillAndRead => {
            fill(store, one, other)?;
            is_filled(store, &one, &other)
        }
        Task::Refused => is_unchanged(store, one),
        Task::Step => {
            keep_step(store, one)?;
            Ok(true)
        }
        Task::HasStep(whole) => has_step(store, &one, whole),
        Task::Many => keeps_many(alloc, store, one),
        Task::Checked => are_checked(store, &one),
        Task::Damaged(number) => is_damaged(store, &one, number),
        Task::Nothing => Ok(true),
    }
}

/// Makes a store at a path.
pub(crate) fn create(rt: &HostRuntime, path: &str) -> Result<(), StoreFault> {
    TableStore::create(rt, path, LINE)?.close()
}

/// Copies the database and its log to another path, unless it is the same.
fn copy(rt: &HostRuntime, from: &str, to: &str) -> io::Result<()> {
    if from == to {
        return Ok(());
    }
    fs::copy(rt, from, to)?;
    let from = format!(in rt.alloc(); "{from}-wal")?;
    let to = format!(in rt.alloc(); "{to}-wal")?;
    fs::copy(rt, &from, &to)?;
    Ok(())
}

/// Opens the store at a path, uses it, copies its files and closes it.
fn used(
    rt: &HostRuntime,
    path: &str,
    line: &str,
    task: Task,
    to: &str,
) -> Result<bool, StoreFault> {
    let mut store = match TableStore::open(rt, path, line) {
        Ok(store) => store,
        Err(fault) => return Err(fault),
    };
    let done = perform(rt.alloc(), &mut store, task);
    let is_copied = copy(rt, path, to).is_ok();
    store.close()?;
    Ok(done? && is_copied)
}

/// Opens the store at a path, uses it and closes it.
pub(crate) fn within(
    rt: &HostRuntime,
    path: &str,
    line: &str,
    task: Task,
) -> Result<bool, StoreFault> {
    used(rt, path, line, task, path)
}

/// Opens the store at a path, uses it, copies its files to another path and closes it. The copy is
/// what is left of a process that is killed.
pub(crate) fn copied(
    rt: &HostRuntime,
    path: &str,
    task: Task,
    to: &str,
) -> Result<bool, StoreFault> {
    used(rt, path, LINE, task, to)
}

/// Removes the files of a store, if there are any.
pub(crate) fn delete(rt: &HostRuntime, path: &str) {
    let _ = fs::remove_file(rt, path);
    if let Ok(log) = format!(in rt.alloc(); "{path}-wal") {
        let _ = fs::remove_file(rt, &log);
    }
}

/// Makes a store in memory and uses it.
pub(crate) fn in_memory(alloc: Global, task: Task) -> Result<bool, StoreFault> {
    let Ok(conn) = Connection::open_in_memory(alloc) else {
        return Err(StoreFault::OutOfMemory);
    };
    match TableStore::begin(conn, LINE) {
        Ok(mut store) => perform(alloc, &mut store, task),
        Err(fault) => Err(fault),
    }
}

/// Keeps the line of the tests.
const NAME: &str = "INSERT INTO line (version, line) VALUES (1, ?1)";

/// Goes on with the store of this database, of the line of the tests, and uses it.
fn resumed_of(alloc: Global, conn: Connection<MemStore>, task: Task) -> Result<bool, StoreFault> {
    match TableStore::resume(conn, LINE) {
        Ok(mut store) => perform(alloc, &mut store, task),
        Err(fault) => Err(fault),
    }
}

/// Goes on with the store of this database, of whatever line, reads the text of its line, and uses
/// it.
fn resumed_of_any(
    alloc: Global,
    conn: Connection<MemStore>,
    task: Task,
) -> Result<bool, StoreFault> {
    match TableStore::resume_any(conn) {
        Ok((mut store, line)) => Ok(line.as_str() == LINE && perform(alloc, &mut store, task)?),
        Err(fault) => Err(fault),
    }
}

/// Goes on with the store that these statements make in memory, of the line of the tests, and uses
/// it. If `any` is true it is opened as one of whatever line, and the text of its line is read.
pub(crate) fn resumed(
    alloc: Global,
    made: &str,
    changed: &str,
    any: bool,
    task: Task,
) -> Result<bool, StoreFault> {
    let Ok(mut conn) = Connection::open_in_memory(alloc) else {
        return Err(StoreFault::OutOfMemory);
    };
    let is_made = conn.execute_batch(made).is_ok() && conn.execute(NAME, params![LINE]).is_ok();
    if !is_made || conn.execute_batch(changed).is_err() {
        return Err(StoreFault::Refused);
    }
    if any {
        resumed_of_any(alloc, conn, task)
    } else {
        resumed_of(alloc, conn, task)
    }
}

/// Whether the store at a path is in use while it is open, to one who opens it and to one who makes
/// a store there.
pub(crate) fn is_in_use(rt: &HostRuntime, path: &str) -> Result<bool, StoreFault> {
    let store = match TableStore::open(rt, path, LINE) {
        Ok(store) => store,
        Err(fault) => return Err(fault),
    };
    let opened = within(rt, path, LINE, Task::Nothing);
    let made = create(rt, path);
    store.close()?;
    Ok(opened == Err(StoreFault::InUse) && made == Err(StoreFault::InUse))
}
