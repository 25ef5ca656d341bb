//! The stores of the machine: files that keep what is kept in them.

use bsc_attending::Stores;
use bsc_block::Record;
use bsc_frame::Address;
use bsc_machine::{Machine, Streams};
use bsc_spool::{Change, Channel, Found, Progress, Store, StoreFault};
use bsc_storing::StoreFiles;
use std::fs;
use std::rt::HostRuntime;
use std::test::Fail;

/// The text of the line of a store.
const LINE: &str = "terminal 0\nfull length 80\npolled 41 selected 61\n";

/// Returns the channel from a terminal.
fn channel() -> Result<Channel, StoreFault> {
    match Address::read(b"A") {
        Ok(terminal) => Ok(Channel::From { terminal }),
        Err(_) => Err(StoreFault::Refused),
    }
}

/// Returns the record of these characters.
fn record(text: &str) -> Result<Record, StoreFault> {
    match Record::read(text.as_bytes(), 80) {
        Ok(record) => Ok(record),
        Err(_) => Err(StoreFault::Refused),
    }
}

/// Returns the change by which a record is offered.
fn offered(text: &str) -> Result<Change, StoreFault> {
    let (channel, record) = (channel()?, record(text)?);
    Ok(Change::Offered { channel, record })
}

/// Returns the change by which a record arrives.
fn arrived(text: &str) -> Result<Change, StoreFault> {
    let (channel, record) = (channel()?, record(text)?);
    Ok(Change::Arrived { channel, record })
}

/// Returns the change by which a record is known, and another one is in doubt.
fn known() -> Result<Change, StoreFault> {
    let (channel, known, in_doubt) = (channel()?, 1, 1);
    Ok(Change::Known {
        channel,
        known,
        in_doubt,
    })
}

/// Returns the change by which a record is printed.
fn printed() -> Result<Change, StoreFault> {
    let (channel, count) = (channel()?, 1);
    Ok(Change::Printed { channel, count })
}

/// Keeps that two records were offered, of which one is known and one in doubt, and that one
/// arrived and was printed.
fn keep<S: Store>(store: &mut S, text: &str) -> Result<(), StoreFault> {
    store.commit(&[offered("SENT FIRST")?])?;
    store.commit(&[offered(text)?])?;
    store.commit(&[arrived(text)?])?;
    store.commit(&[known()?, printed()?])
}

/// What is kept, in numbers.
const KEPT: Progress = Progress {
    offered: 2,
    known: 1,
    in_doubt: 1,
    arrived: 1,
    printed: 1,
};

/// Whether these are the characters of the record that was found.
fn is_found(found: Option<Found>, text: &str) -> bool {
    match found {
        Some(found) => found.record.chars() == text.as_bytes(),
        None => false,
    }
}

/// Whether a store has what was kept with this text.
fn has_kept<S: Store>(store: &mut S, text: &str) -> Result<bool, StoreFault> {
    let channel = channel()?;
    Ok(
        store.progress(&channel)? == KEPT
            && is_found(store.offered(&channel, 0, 1)?, text)
            && is_found(store.arrived(&channel, 0, 0)?, text),
    )
}

/// The path of a copy of a store.
const COPY: &str = "copy.db";

/// Makes a store at a path and keeps this in it.
fn make(machine: &mut Machine<'_, HostRuntime>, path: &str) -> Result<(), StoreFault> {
    machine.make_kept(path, LINE)?;
    match machine.open_store(path, LINE) {
        Ok(mut store) => keep(&mut store, path),
        Err(fault) => Err(fault),
    }
}

/// Whether the store at a path has its line and what was kept with this text, and is in use until
/// it is closed.
fn is_whole(
    machine: &mut Machine<'_, HostRuntime>,
    path: &str,
    text: &str,
) -> Result<bool, StoreFault> {
    match machine.open_kept(path) {
        Ok(mut opened) => {
            let has_all = opened.line.as_str() == LINE && has_kept(&mut opened.store, text)?;
            let is_used = machine.open_kept(path).err() == Some(StoreFault::InUse);
            machine.close_kept(opened)?;
            Ok(has_all && is_used)
        }
        Err(fault) => Err(fault),
    }
}

/// Whether the store at a path is whole, and a copy of its file, made after it was closed, too.
fn found(machine: &mut Machine<'_, HostRuntime>, path: &str) -> Result<bool, StoreFault> {
    let is_found = is_whole(machine, path, path)?;
    let is_copied = fs::copy(machine.runtime, path, COPY).is_ok();
    Ok(is_found && is_copied && is_whole(machine, COPY, path)?)
}

#[test]
fn each_store_keeps_what_is_kept_in_it(rt: HostRuntime) -> Result<(), Fail> {
    let streams = Streams::new(false);
    let mut machine = streams.machine(&rt);
    for path in ["first.db", "second.db"] {
        assert!(rt; make(&mut machine, path).is_ok(), "{path}");
    }
    for path in ["first.db", "second.db", "first.db"] {
        assert!(rt; found(&mut machine, path) == Ok(true), "{path}");
    }
    Ok(())
}

#[test]
fn it_is_told_why_a_store_is_refused(rt: HostRuntime) -> Result<(), Fail> {
    let streams = Streams::new(false);
    let mut machine = streams.machine(&rt);
    assert!(rt; machine.make_kept("deck.db", LINE) == Ok(()));
    assert!(rt; machine.make_kept("deck.db", LINE) == Err(StoreFault::Taken));
    for (path, line, fault) in [
        ("deck.db", LINE, None),
        ("deck.db", "x", Some(StoreFault::OtherLine)),
        ("none.db", LINE, Some(StoreFault::Missing)),
    ] {
        assert!(rt; machine.open_store(path, line).err() == fault, "{path}");
    }
    assert!(rt; machine.open_kept("none.db").err() == Some(StoreFault::Missing));
    Ok(())
}
