//! Writing a step.
//!
//! A statement is given by its text. The connection keeps the plans of the last 64 texts, and fewer
//! are asked of a store; so each is parsed once, and not for each record.
ghost use Rattle.std.specs.Prelude.{◌≡◌, ◌+◌, [], ◌∷◌, IfOk, IsTrue, OnOk, OnErr, pos};
ghost use Rattle.sqlite.specs.Held.{state};
ghost use Rattle.sqlite.specs.State.{ExecutesInside, HasCleanDisk, KeepsCommit, Survives};
ghost use Rattle.sqlite.specs.declared.types.Value.TheVariants.{Int, Text, Blob};
ghost use Rattle.bsc_store.specs.Channels.{address_of, way_of};
ghost use Rattle.bsc_store.specs.Checks.{check_of, marks_after_all};
ghost use Rattle.bsc_store.specs.Checks.{marks_after as marks_after_it};
ghost use Rattle.bsc_store.specs.Tables.{Ran, RanAll, IsAfter, IsAsBefore, SurvivesStep};

use crate::channels::{address, way};
use crate::checks::{CHECK_OCTETS, Marks, digest};
use bsc_block::Record;
use bsc_spool::{Change, Channel};
use sqlite::{Alter, Connection, Error, ErrorCode, Transaction, params};

const OFFER: &str =
    "INSERT INTO offered (way, address, record, id, checked) VALUES (?1, ?2, ?3, ?4, ?5)";

const OFFER_UNCHECKED: &str = "INSERT INTO offered (way, address, record) VALUES (?1, ?2, ?3)";

// A row is changed in its place: one that is deleted and inserted again has its page of the index
// written too.
const KNOW: &str = "INSERT INTO known (way, address, known, in_doubt) VALUES (?1, ?2, ?3, ?4) \
    ON CONFLICT (way, address) DO UPDATE SET known = ?3, in_doubt = ?4";

const ARRIVE: &str =
    "INSERT INTO arrived (way, address, record, id, checked) VALUES (?1, ?2, ?3, ?4, ?5)";

const ARRIVE_UNCHECKED: &str = "INSERT INTO arrived (way, address, record) VALUES (?1, ?2, ?3)";

const PRINT: &str = "INSERT INTO printed (way, address, printed) VALUES (?1, ?2, ?3) \
    ON CONFLICT (way, address) DO UPDATE SET printed = ?3";

/// Returns the mark after this one. Fails after the greatest one.
fn next(mark: u32) -> Result<u32, Error>
    ensures { IfOk result (λ next. next ≡ mark + 1) }
{
    match mark.checked_add(1) {
        Some(next) => Ok(next),
        None => Err(Error::SqliteFailure(ErrorCode::DiskFull)),
    }
}

/// Returns the greatest marks after a change, if records have checks.
fn marks_after(change: &Change, marks: Option<Marks>) -> Result<Option<Marks>, Error>
    ensures { IfOk result (λ it. it ≡ marks_after_it change.now marks) }
{
    let Some(Marks { offered, arrived }) = marks else {
        return Ok(None);
    };
    match change {
        Change::Offered { .. } => {
            let offered = next(offered)?;
            Ok(Some(Marks { offered, arrived }))
        }
        Change::Arrived { .. } => {
            let arrived = next(arrived)?;
            Ok(Some(Marks { offered, arrived }))
        }
        _ => Ok(marks),
    }
}

/// Runs a statement that keeps a record with its mark and its check.
fn write_checked<S: Alter>(
    tx: &mut Transaction<'_, S>,
    text: &str,
    channel: &Channel,
    record: &Record,
    mark: u32,
) -> Result<usize, Error>
    ensures same_reference { tx.new.conn.ghost_name ≡ tx.old.conn.ghost_name }
    ensures runs { HasCleanDisk (state S.Store tx.new.conn.now)
        → IsTrue tx.old.conn.now.in_transaction
        → ExecutesInside 0 text.now (Text (way_of channel.now) ∷ Blob (address_of channel.now)
        ∷ Blob «record».now ∷ Int (pos mark) ∷ Blob (check_of mark channel.now «record».now) ∷ [])
        (state S.Store tx.old.conn.now) (state S.Store tx.new.conn.now) result }
    ensures survives { Survives (state S.Store tx.old.conn.now) (state S.Store tx.new.conn.now)
        (λ _. ⊥) }
{
    let digest = digest(mark, channel, record.chars());
    let check = &digest[..CHECK_OCTETS];
    tx.execute(
        text,
        params![way(channel), address(channel), record.chars(), mark, check],
    )
}

/// Runs the statement of a change. These are the greatest marks after it.
fn write<S: Alter>(
    tx: &mut Transaction<'_, S>,
    marks: Option<Marks>,
    change: &Change,
) -> Result<usize, Error>
    ensures same_reference { tx.new.conn.ghost_name ≡ tx.old.conn.ghost_name }
    ensures ran { HasCleanDisk (state S.Store tx.new.conn.now)
        → IsTrue tx.old.conn.now.in_transaction
        → OnOk result (Ran S.Store marks change.now tx.old.conn.now tx.new.conn.now) }
    ensures kept { HasCleanDisk (state S.Store tx.new.conn.now)
        → IsTrue tx.old.conn.now.in_transaction
        → KeepsCommit (state S.Store tx.old.conn.now) (state S.Store tx.new.conn.now) }
    ensures survives { Survives (state S.Store tx.old.conn.now) (state S.Store tx.new.conn.now)
        (λ _. ⊥) }
{
    match change {
        Change::Offered { channel, record } => match marks {
            Some(marks) => write_checked(tx, OFFER, channel, record, marks.offered),
            None => tx.execute(
                OFFER_UNCHECKED,
                params![way(channel), address(channel), record.chars()],
            ),
        },
        Change::Known {
            channel,
            known,
            in_doubt,
        } => tx.execute(
            KNOW,
            params![way(channel), address(channel), *known, *in_doubt],
        ),
        Change::Arrived { channel, record } => match marks {
            Some(marks) => write_checked(tx, ARRIVE, channel, record, marks.arrived),
            None => tx.execute(
                ARRIVE_UNCHECKED,
                params![way(channel), address(channel), record.chars()],
            ),
        },
        Change::Printed { channel, count } => {
            tx.execute(PRINT, params![way(channel), address(channel), *count])
        }
    }
}

/// Runs the statements of the changes, in order, up to the first that is refused, from these
/// greatest marks on, and returns those after them.
fn write_all<S: Alter>(
    tx: &mut Transaction<'_, S>,
    marks: Option<Marks>,
    step: &[Change],
) -> Result<Option<Marks>, Error>
    ensures same_reference { tx.new.conn.ghost_name ≡ tx.old.conn.ghost_name }
    ensures ran { HasCleanDisk (state S.Store tx.new.conn.now)
        → IsTrue tx.old.conn.now.in_transaction
        → OnOk result (RanAll S.Store marks step.now tx.old.conn.now tx.new.conn.now) }
    ensures marks { IfOk result (λ it. it ≡ marks_after_all step.now marks) }
    ensures kept { HasCleanDisk (state S.Store tx.new.conn.now)
        → IsTrue tx.old.conn.now.in_transaction
        → KeepsCommit (state S.Store tx.old.conn.now) (state S.Store tx.new.conn.now) }
    ensures goes_on { HasCleanDisk (state S.Store tx.new.conn.now)
        → IsTrue tx.old.conn.now.in_transaction
        → OnOk result (IsTrue tx.new.conn.now.in_transaction) }
    ensures survives { Survives (state S.Store tx.old.conn.now) (state S.Store tx.new.conn.now)
        (λ _. ⊥) }
{
    let mut last = marks;
    for change in step {
        let after = marks_after(change, last)?;
        write(tx, after, change)?;
        last = after;
    }
    Ok(last)
}

/// Makes the changes of a step and commits them, all or none, from these greatest marks on, and
/// returns those after them.
pub(crate) fn commit<S: Alter>(
    conn: &mut Connection<S>,
    marks: Option<Marks>,
    step: &[Change],
) -> Result<Option<Marks>, Error>
    ensures kept { HasCleanDisk (state S.Store conn.new) → OnOk result
        (IsAfter S.Store marks step.now conn.old (state S.Store conn.new).committed) }
    ensures marks { IfOk result (λ it. it ≡ marks_after_all step.now marks) }
    ensures unchanged { HasCleanDisk (state S.Store conn.new)
        → IsTrue (state S.Store conn.new).is_open
        → OnErr result (IsAsBefore S.Store conn.old conn.new) }
    ensures crash { SurvivesStep S.Store marks step.now conn.old conn.new }
{
    if !conn.is_autocommit() {
        return Err(Error::SqliteFailure(ErrorCode::TransactionState));
    }
    let mut tx = conn.transaction();
    let last = write_all(&mut tx, marks, step)?;
    tx.commit()?;
    Ok(last)
}
