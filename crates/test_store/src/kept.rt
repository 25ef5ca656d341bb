//! What is kept is read back: from memory, from a file that was closed, and from a copy of one that
//! was not; a step that is refused changes nothing; and a new file has small pages.

use crate::facts::{Fact, Side, are_kept, change, counts};
use crate::files::{LINE, Task, copied, create, delete, in_memory, within};
use bsc_spool::{Channel, Store, StoreFault};
use std::alloc::Global;
use std::fs;
use std::rt::HostRuntime;
use std::test::Fail;

/// Keeps four steps of two channels.
pub(crate) fn fill<S: Store>(
    store: &mut S,
    one: Channel,
    other: Channel,
) -> Result<(), StoreFault> {
    store.commit(&[change(one, Fact::Offered("first"))?])?;
    store.commit(&[
        change(one, Fact::Offered(""))?,
        change(one, Fact::Offered("third"))?,
    ])?;
    store.commit(&[
        change(other, Fact::Arrived("second"))?,
        change(one, Fact::Known(1, 2))?,
    ])?;
    store.commit(&[
        change(other, Fact::Arrived(""))?,
        change(other, Fact::Printed(1))?,
    ])
}

/// Whether a store has what `fill` kept, and no more.
pub(crate) fn is_filled<S: Store>(
    store: &mut S,
    one: &Channel,
    other: &Channel,
) -> Result<bool, StoreFault> {
    let offered = are_kept(store, one, Side::Offered, &["first", "", "third"])?;
    let none = are_kept(store, other, Side::Offered, &[])?;
    let arrived = are_kept(store, other, Side::Arrived, &["second", ""])?;
    let sent = counts(store, one)? == [3, 1, 2, 0, 0];
    Ok(offered && none && arrived && sent && counts(store, other)? == [0, 0, 0, 2, 1])
}

/// The copy has what stands in the files while the store is open, as after a process was killed.
#[test]
fn a_file_keeps_what_was_committed(rt: HostRuntime) -> Result<(), Fail> {
    delete(&rt, "store_kept");
    create(&rt, "store_kept")?;
    assert!(rt; copied(&rt, "store_kept", Task::Fill, "store_copied")?);
    assert!(rt; within(&rt, "store_kept", LINE, Task::Read)?);
    assert!(rt; within(&rt, "store_copied", LINE, Task::Read)?);
    delete(&rt, "store_kept");
    delete(&rt, "store_copied");
    Ok(())
}

/// How many records are offered in one step.
const COUNT: u32 = 2_000;

/// Whether that many records are kept in one step, and the last one is found.
pub(crate) fn keeps_many<S: Store>(
    alloc: Global,
    store: &mut S,
    channel: Channel,
) -> Result<bool, StoreFault> {
    let mut step = Vec::new(alloc);
    for _ in 0..COUNT {
        if step.push(change(channel, Fact::Offered("first"))?).is_err() {
            return Err(StoreFault::OutOfMemory);
        }
    }
    store.commit(&step)?;
    let is_last = store.offered(&channel, 0, COUNT - 1)?.is_some();
    Ok(is_last && counts(store, &channel)? == [COUNT, 0, 0, 0, 0])
}

/// Whether a step of which the last change is refused changes nothing, and the next one is kept.
pub(crate) fn is_unchanged<S: Store>(store: &mut S, channel: Channel) -> Result<bool, StoreFault> {
    store.commit(&[
        change(channel, Fact::Offered("first"))?,
        change(channel, Fact::Known(0, 1))?,
    ])?;
    let refused = store.commit(&[
        change(channel, Fact::Offered("second"))?,
        change(channel, Fact::Known(0, 8))?,
    ]);
    let before = counts(store, &channel)? == [1, 0, 1, 0, 0];
    store.commit(&[change(channel, Fact::Offered("second"))?])?;
    let both = are_kept(store, &channel, Side::Offered, &["first", "second"])?;
    Ok(refused == Err(StoreFault::Refused) && before && both)
}

/// Some steps of two channels, one step of many records, and one that is refused.
#[test]
fn memory_keeps_what_was_committed_and_no_more(rt: HostRuntime) -> Result<(), Fail> {
    for task in [Task::FillAndRead, Task::Many, Task::Refused] {
        assert!(rt; in_memory(rt.alloc(), task)?);
    }
    Ok(())
}

/// How many octets a page of the database at this path has, by its header.
fn page_octets(rt: &HostRuntime, path: &str) -> Result<u32, Fail> {
    let file = fs::read(rt, path)?;
    match (file.get(16), file.get(17)) {
        (Some(high), Some(low)) => Ok(u32::from(*high) * 256 + u32::from(*low)),
        _ => Err(Fail::new("no header")),
    }
}

/// Also where there was an empty file.
#[test]
fn a_new_store_has_small_pages(rt: HostRuntime) -> Result<(), Fail> {
    for is_there in [false, true] {
        delete(&rt, "store_new");
        if is_there {
            fs::write(&rt, "store_new", b"")?;
        }
        create(&rt, "store_new")?;
        assert_eq!(rt; page_octets(&rt, "store_new")?, 512);
    }
    delete(&rt, "store_new");
    Ok(())
}
