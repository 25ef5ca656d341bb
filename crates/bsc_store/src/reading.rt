//! Reading what is kept.
ghost use Rattle.std.specs.Prelude.{◌≡◌, ◌⊎◌, pos, [], Some, Ok, Err, IfOk, IfErr, OnOk};
ghost use Rattle.std.specs.Prelude.{IsTrue, string_bytes};
ghost use Rattle.sqlite.specs.Order.{column};
ghost use Rattle.sqlite.specs.declared.types.Value.TheVariants.{Int, Text, Blob};
ghost use Rattle.sqlite.specs.State.{HasCleanDisk};
ghost use Rattle.sqlite.specs.Held.{state};
ghost use Rattle.sqlite.specs.Values.{bound};
ghost use Rattle.bsc_store.specs.declared.queries.Query.TheVariants as query;
ghost use Rattle.bsc_spool.specs.declared.fault.StoreFault.TheVariants.{Damaged};
ghost use Rattle.bsc_spool.specs.declared.store.Found.{Found as FoundValue};
ghost use Rattle.bsc_store.specs.declared.checks.Marks.{Marks as MarksValue};
ghost use Rattle.bsc_block.specs.Records.{record_of};
ghost use Rattle.bsc_store.specs.Checks.{HasCheck};
ghost use Rattle.bsc_store.specs.Reading.{AreMarks, AreNumbers, Gives, GivesValue, IsFound};
ghost use Rattle.bsc_store.specs.Reading.{IsNotFound, IsNumbered, IsProgress, IsRecord, IsRefused};
ghost use Rattle.bsc_store.specs.Reading.{IsUnread, IsUnreadable, OnlyRead, channel_values};
ghost use Rattle.bsc_store.specs.Reading.{query_text, up_to_query, up_to_values};

use crate::channels::{address, way};
use crate::checks::{CHECK_OCTETS, Marks, digest};
use crate::fault::{fault_of, unread};
use crate::queries::{Query, Side};
use crate::tables::UNCHECKED;
use bsc_block::Record;
use bsc_block::limits::MAX_FULL;
use bsc_spool::{Channel, Found, NamedChannel, Progress, StoreFault};
use sqlite::types::ValueRef;
use sqlite::{Alter, Connection, Error as SqlError, Row, params};

/// Returns the first row that a query gives, or none if it gives no row.
fn first_row<S: Alter>(
    conn: &mut Connection<S>,
    query: Query,
    values: &[ValueRef<'_>],
) -> Result<Option<Row>, StoreFault>
    ensures row { HasCleanDisk (state S.Store conn.new)
        → IfOk result (Gives S.Store (query_text query) (bound values.now) conn.old conn.new) }
    ensures read { OnlyRead S.Store conn.old conn.new }
    ensures fault { IfErr result
        (IsRefused S.Store (query_text query) (bound values.now) conn.old conn.new) }
{
    match conn.query_row(query.text(), values) {
        Ok(row) => Ok(Some(row)),
        Err(SqlError::QueryReturnedNoRows) => Ok(None),
        Err(error) => Err(unread(error)),
    }
}

/// Returns the number at a place of a row.
fn number_at(row: &Row, at: usize) -> Result<u32, StoreFault>
    ensures number { IfOk result (λ n. column row.now at ≡ Int (pos n)) }
    ensures fault { IfErr result IsUnreadable }
{
    row.get(at).map_err(fault_of)
}

/// Returns the number that a query gives. Fails with `Damaged` if it gives none.
pub(crate) fn number<S: Alter>(conn: &mut Connection<S>, query: Query) -> Result<u32, StoreFault>
    ensures number { HasCleanDisk (state S.Store conn.new) → IfOk result (λ n.
        GivesValue S.Store (query_text query) (Int (pos n)) conn.old conn.new) }
    ensures read { OnlyRead S.Store conn.old conn.new }
    ensures fault { IfErr result (IsUnread S.Store (query_text query) [] conn.old conn.new) }
{
    match first_row(conn, query, &[])? {
        Some(row) => number_at(&row, 0),
        None => Err(StoreFault::Damaged),
    }
}

/// Returns the text at the first place of a row.
fn text_at(row: &Row) -> Result<String, StoreFault>
    ensures text { IfOk result (λ text. column row.now 0 ≡ Text (string_bytes text)) }
    ensures fault { IfErr result IsUnreadable }
{
    row.get(0).map_err(fault_of)
}

/// Tells whether a query gives this text. Fails with `Damaged` if it gives none.
pub(crate) fn is_text<S: Alter>(
    conn: &mut Connection<S>,
    query: Query,
    text: &str,
) -> Result<bool, StoreFault>
    ensures text { HasCleanDisk (state S.Store conn.new) → IfOk result (λ is. IsTrue is →
        GivesValue S.Store (query_text query) (Text text.now) conn.old conn.new) }
    ensures read { OnlyRead S.Store conn.old conn.new }
    ensures fault { IfErr result (IsUnread S.Store (query_text query) [] conn.old conn.new) }
{
    match first_row(conn, query, &[])? {
        Some(row) => Ok(text_at(&row)?.as_str() == text),
        None => Err(StoreFault::Damaged),
    }
}

/// Returns the text of the line. Fails with `Damaged` if there is none.
pub(crate) fn line_text<S: Alter>(conn: &mut Connection<S>) -> Result<String, StoreFault>
    ensures text { HasCleanDisk (state S.Store conn.new) → IfOk result (λ text.
        GivesValue S.Store (query_text query.Line) (Text (string_bytes text)) conn.old conn.new) }
    ensures read { OnlyRead S.Store conn.old conn.new }
    ensures fault { IfErr result
        (IsUnread S.Store (query_text query.Line) [] conn.old conn.new) }
{
    match first_row(conn, Query::Line, &[])? {
        Some(row) => text_at(&row),
        None => Err(StoreFault::Damaged),
    }
}

/// Returns the numbers in a row.
fn numbers(row: &Row) -> Result<Progress, StoreFault>
    ensures numbers { IfOk result (AreNumbers row.now) }
    ensures fault { IfErr result IsUnreadable }
{
    Ok(Progress {
        offered: number_at(row, 0)?,
        known: number_at(row, 1)?,
        in_doubt: number_at(row, 2)?,
        arrived: number_at(row, 3)?,
        printed: number_at(row, 4)?,
    })
}

/// Returns what a channel has, in numbers.
pub(crate) fn progress<S: Alter>(
    conn: &mut Connection<S>,
    channel: &Channel,
) -> Result<Progress, StoreFault>
    ensures is { HasCleanDisk (state S.Store conn.new) → IfOk result
        (IsProgress S.Store channel.now conn.old conn.new) }
    ensures read { OnlyRead S.Store conn.old conn.new }
    ensures fault { IfErr result (IsUnread S.Store (query_text query.Progress)
        (channel_values channel.now) conn.old conn.new) }
{
    let values = params![way(channel), address(channel)];
    match first_row(conn, Query::Progress, values)? {
        Some(row) => numbers(&row),
        None => Err(StoreFault::Damaged),
    }
}

/// Returns the mark and the record of a row. Fails with `Damaged` if it has none.
fn found(row: &Row) -> Result<Found, StoreFault>
    ensures mark { IfOk result (λ found. column row.now 0 ≡ Int found.mark) }
    ensures is { IfOk result (λ found. column row.now 1 ≡ Blob found.«record») }
    ensures fault { IfErr result IsUnreadable }
    ensures damaged { IfErr result (λ fault. fault ≡ Damaged → (found : FoundValue)
        → column row.now 0 ≡ Int found.mark → column row.now 1 ≡ Blob found.«record»
        → record_of MAX_FULL found.«record» ≡ Ok found.«record» → ⊥) }
    ensures kept { IfOk result (λ found.
        record_of MAX_FULL found.«record» ≡ Ok found.«record») }
{
    let mark: i64 = row.get(0).map_err(fault_of)?;
    let codes: Vec<u8> = row.get(1).map_err(fault_of)?;
    match Record::read(codes.as_slice(), MAX_FULL) {
        Ok(record) => Ok(Found { mark, record }),
        Err(_) => Err(StoreFault::Damaged),
    }
}

/// Fails with `Damaged` if a row does not have the check of this record.
fn check(row: &Row, channel: &Channel, found: &Found) -> Result<(), StoreFault>
    ensures has { OnOk result ((marks : MarksValue) → HasCheck (Some marks) channel.now row.now
        found.now) }
    ensures fault { IfErr result IsUnreadable }
    ensures damaged { IfErr result (λ fault. fault ≡ Damaged → (marks : MarksValue)
        → ¬ HasCheck (Some marks) channel.now row.now found.now) }
{
    let Ok(mark) = u32::try_from(found.mark) else {
        return Err(StoreFault::Damaged);
    };
    let check: Vec<u8> = row.get(2).map_err(fault_of)?;
    let digest = digest(mark, channel, found.record.chars());
    if check.as_slice() != &digest[..CHECK_OCTETS] {
        return Err(StoreFault::Damaged);
    }
    Ok(())
}

/// Returns the record of a row. Fails with `Damaged` if it has none, or if it does not have its
/// check, if records have checks.
fn record_in(row: &Row, marks: Option<Marks>, channel: &Channel) -> Result<Found, StoreFault>
    ensures is { IfOk result (IsRecord marks channel.now row.now) }
    ensures fault { IfErr result IsUnreadable }
    ensures damaged { IfErr result (λ fault. fault ≡ Damaged → (found : FoundValue)
        → ¬ IsRecord marks channel.now row.now found) }
{
    let found = found(row)?;
    if marks.is_none() {
        return Ok(found);
    }
    match check(row, channel, &found) {
        Ok(()) => Ok(found),
        Err(fault) => Err(fault),
    }
}

/// Returns the fault that names the damaged record of a channel that follows `more` others after
/// this mark.
fn damaged<S: Alter>(
    conn: &mut Connection<S>,
    side: Side,
    channel: &Channel,
    mark: i64,
    more: u32,
) -> StoreFault
    ensures names { IsUnread S.Store (query_text (up_to_query side))
        (up_to_values channel.now mark) conn.old conn.new result
        ⊎ IsNumbered S.Store side channel.now mark more conn.old conn.new result }
    ensures read { OnlyRead S.Store conn.old conn.new }
{
    let values = params![way(channel), address(channel), mark];
    match first_row(conn, side.up_to(), values) {
        Ok(Some(row)) => match number_at(&row, 0) {
            Ok(before) => match before.checked_add(more) {
                Some(number) => StoreFault::DamagedRecord {
                    channel: NamedChannel::of(channel),
                    number,
                },
                None => StoreFault::Damaged,
            },
            Err(fault) => fault,
        },
        Ok(None) => StoreFault::Damaged,
        Err(fault) => fault,
    }
}

/// Returns the record of a channel that follows `more` others after this mark, or none if there is
/// none.
pub(crate) fn next<S: Alter>(
    conn: &mut Connection<S>,
    marks: Option<Marks>,
    side: Side,
    channel: &Channel,
    mark: i64,
    more: u32,
) -> Result<Option<Found>, StoreFault>
    ensures is { HasCleanDisk (state S.Store conn.new) → IfOk result
        (IsFound S.Store marks side channel.now mark more conn.old conn.new) }
    ensures read { OnlyRead S.Store conn.old conn.new }
    ensures fault { IfErr result
        (IsNotFound S.Store marks side channel.now mark more conn.old conn.new) }
{
    let values = params![way(channel), address(channel), mark, more];
    match first_row(conn, side.next(marks.is_some()), values)? {
        Some(row) => match record_in(&row, marks, channel) {
            Ok(found) => Ok(Some(found)),
            Err(StoreFault::Damaged) => Err(damaged(conn, side, channel, mark, more)),
            Err(fault) => Err(fault),
        },
        None => Ok(None),
    }
}

/// Returns the greatest marks of a store of this version, if its records have checks.
pub(crate) fn marks<S: Alter>(
    conn: &mut Connection<S>,
    version: u32,
) -> Result<Option<Marks>, StoreFault>
    requires { (version ≡ 1) ⊎ (version ≡ 2) }
    ensures are { HasCleanDisk (state S.Store conn.new)
        → IfOk result (λ marks. AreMarks S.Store marks version conn.old conn.new) }
    ensures read { OnlyRead S.Store conn.old conn.new }
{
    if version == UNCHECKED {
        return Ok(None);
    }
    let offered = number(conn, Query::LastOffered)?;
    let arrived = number(conn, Query::LastArrived)?;
    Ok(Some(Marks { offered, arrived }))
}
