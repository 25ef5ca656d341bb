//! What is left where a commit was cut off: copies of the files, in the log of which only the first
//! octets stand, as a process leaves them that was killed as it wrote.

use crate::facts::{Fact, Side, are_kept, change, counts};
use crate::files::{LINE, Task, copied, create, delete, within};
use bsc_spool::{Channel, Store, StoreFault};
use std::fs;
use std::rt::HostRuntime;
use std::test::Fail;

/// Offers two records and keeps that both are in doubt, in one step.
pub(crate) fn keep_step<S: Store>(store: &mut S, channel: Channel) -> Result<(), StoreFault> {
    store.commit(&[
        change(channel, Fact::Offered("first"))?,
        change(channel, Fact::Known(0, 2))?,
        change(channel, Fact::Offered("second"))?,
    ])
}

/// Whether a store has the whole of that step, or nothing of it.
pub(crate) fn has_step<S: Store>(
    store: &mut S,
    channel: &Channel,
    whole: bool,
) -> Result<bool, StoreFault> {
    let numbers = counts(store, channel)?;
    if whole {
        let both = are_kept(store, channel, Side::Offered, &["first", "second"])?;
        Ok(both && numbers == [2, 0, 2, 0, 0])
    } else {
        let none = are_kept(store, channel, Side::Offered, &[])?;
        Ok(none && numbers == [0, 0, 0, 0, 0])
    }
}

/// Copies the database from before the step, with the first octets of the log from after it.
fn copy_cut(rt: &HostRuntime, log: &[u8], octets: usize) -> Result<(), Fail> {
    fs::copy(rt, "store_before", "store_cut")?;
    fs::write(rt, "store_cut-wal", log.get(..octets).unwrap_or(log))?;
    Ok(())
}

/// Whether the copy has the whole step, or nothing of it.
fn has(rt: &HostRuntime, whole: bool) -> Result<bool, StoreFault> {
    within(rt, "store_cut", LINE, Task::HasStep(whole))
}

/// Cuts the log at several places, in each frame of the step and after it. Returns whether the step
/// is absent after the first cuts, more than one of them, and whole after all others: the log may
/// have octets of older commits at its end.
fn is_absent_then_whole(rt: &HostRuntime, log: &[u8]) -> Result<bool, Fail> {
    let (mut absent, mut whole) = (0usize, false);
    for octets in (0..log.len().min(8192)).step_by(251) {
        copy_cut(rt, log, octets)?;
        if !whole && has(rt, false)? {
            absent = absent.saturating_add(1);
        } else if has(rt, true)? {
            whole = true;
        } else {
            return Ok(false);
        }
    }
    copy_cut(rt, log, log.len())?;
    Ok(1 < absent && has(rt, true)?)
}

#[test]
fn a_cut_commit_is_whole_or_absent(rt: HostRuntime) -> Result<(), Fail> {
    for path in ["store_step", "store_cut"] {
        delete(&rt, path);
    }
    create(&rt, "store_step")?;
    fs::copy(&rt, "store_step", "store_before")?;
    assert!(rt; copied(&rt, "store_step", Task::Step, "store_after")?);
    let log = fs::read(&rt, "store_after-wal")?;
    assert!(rt; 8192 < log.len());
    assert!(rt; is_absent_then_whole(&rt, &log)?);
    for path in ["store_step", "store_cut", "store_before", "store_after"] {
        delete(&rt, path);
    }
    Ok(())
}
