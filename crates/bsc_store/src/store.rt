//! The store.
ghost use Rattle.std.specs.Prelude.{◌≡◌, ◌⊎◌, IfErr, IfOk, IsTrue, List, OnOk, OnErr, Some, pos};
ghost use Rattle.std.specs.Prelude.{string_bytes};
ghost use Rattle.sqlite.specs.Held.{state};
ghost use Rattle.sqlite.specs.State.{HasCleanDisk};
ghost use Rattle.sqlite.specs.declared.error.Error.{Error};
ghost use Rattle.sqlite.specs.declared.types.Value.TheVariants.{Int};
ghost use Rattle.bsc_store.specs.Checks.{marks_after_all};
ghost use Rattle.bsc_store.specs.Faults.{fault_for};
ghost use Rattle.bsc_store.specs.Making.{IsBegun, IsMade, SurvivesMaking};
ghost use Rattle.bsc_store.specs.Reading.{GivesValue, IsFound, IsNotFound, IsProgress, IsStoreOf};
ghost use Rattle.bsc_store.specs.Reading.{IsStoreOfItself, IsUnread, OnlyRead, channel_values};
ghost use Rattle.bsc_store.specs.Reading.{query_text};
ghost use Rattle.bsc_store.specs.declared.queries.Query.TheVariants as query;
ghost use Rattle.bsc_store.specs.declared.queries.Side.TheVariants as side;
ghost use Rattle.bsc_store.specs.Tables.{IsAsBefore, Keeps, Stays, SurvivesStep};

use crate::checks::Marks;
use crate::fault::fault_of;
use crate::queries::{Query, Side};
use crate::writing::commit;
use crate::{reading, tables};
use bsc_spool::{Change, Channel, Found, Progress, Store, StoreFault};
use sqlite::{Alter, Connection, Error as SqlError, params};

/// The store of a station, in the tables of a database.
#[derive(Drop)]
pub struct TableStore<S: Alter> {
    pub(crate) conn: Connection<S>,

    /// The greatest marks, if the records have checks.
    pub(crate) marks: Option<Marks>,
}

impl<S: Alter + Drop> TableStore<S> {
    /// Makes a store of an empty database. `line` is the text of the line's configuration and of
    /// which station this is. Fails with `Taken` if the database has a table. It is made at once or
    /// not at all.
    pub fn begin(mut conn: Connection<S>, line: &str) -> Result<TableStore<S>, StoreFault>
        ensures made { IfOk result (λ store. HasCleanDisk (state S.Store store.conn)
            → IsBegun S.Store line.now conn store.conn) }
        ensures marks { IfOk result (λ store.
            store.marks ≡ Some (record { offered = 0; arrived = 0 })) }
    {
        if reading::number(&mut conn, Query::Tables)? != 0 {
            return Err(StoreFault::Taken);
        }
        match make(&mut conn, line) {
            Ok(()) => {
                let marks = Some(Marks {
                    offered: 0,
                    arrived: 0,
                });
                Ok(TableStore { conn, marks })
            }
            Err(error) => Err(fault_of(error)),
        }
    }

    /// Goes on with a store. The faults, in the order in which they are tested: `Damaged` if the
    /// database is not a store, `Newer`, `OtherLine`, `Damaged` if a channel has more records known
    /// or in doubt than were offered, or more printed than arrived.
    pub fn resume(mut conn: Connection<S>, line: &str) -> Result<TableStore<S>, StoreFault>
        ensures is { IfOk result (λ store. HasCleanDisk (state S.Store store.conn)
            → IsStoreOf S.Store line.now store.marks conn store.conn) }
        ensures read { IfOk result (λ store. OnlyRead S.Store conn store.conn) }
    {
        let marks = check(&mut conn, line)?;
        Ok(TableStore { conn, marks })
    }

    /// Goes on with a store of whatever line, and returns the text of its line too. The faults are
    /// those of `resume` but for `OtherLine`, in the same order.
    pub fn resume_any(mut conn: Connection<S>) -> Result<(TableStore<S>, String), StoreFault>
        ensures is { IfOk result (λ found. HasCleanDisk (state S.Store found.0.conn)
            → IsStoreOfItself S.Store (string_bytes found.1) found.0.marks found.0.conn) }
        ensures read { IfOk result (λ found. OnlyRead S.Store conn found.0.conn) }
    {
        let (line, marks) = line_in(&mut conn)?;
        Ok((TableStore { conn, marks }, line))
    }
}

/// Fails with `Newer` if the version is greater than this one.
fn check_version<S: Alter>(conn: &mut Connection<S>) -> Result<(), StoreFault>
    ensures read { OnlyRead S.Store conn.old conn.new }
{
    let version = reading::number(conn, Query::Version)?;
    if version > tables::VERSION {
        return Err(StoreFault::Newer { version });
    }
    Ok(())
}

/// Returns the version. Fails with `Newer` or `Damaged` if it is none of those that are known.
fn version_in<S: Alter>(conn: &mut Connection<S>) -> Result<u32, StoreFault>
    ensures is { HasCleanDisk (state S.Store conn.new) → IfOk result (λ version.
        GivesValue S.Store (query_text query.Version) (Int (pos version)) conn.old conn.new) }
    ensures known { IfOk result (λ version. (version ≡ 1) ⊎ (version ≡ 2)) }
    ensures read { OnlyRead S.Store conn.old conn.new }
{
    let version = reading::number(conn, Query::Version)?;
    if version > tables::VERSION {
        return Err(StoreFault::Newer { version });
    }
    if version == tables::UNCHECKED {
        return Ok(version);
    }
    if version == tables::VERSION {
        return Ok(version);
    }
    Err(StoreFault::Damaged)
}

/// Checks that the database is a store of this line, and returns the greatest marks, if records
/// have checks.
fn check<S: Alter>(conn: &mut Connection<S>, line: &str) -> Result<Option<Marks>, StoreFault>
    ensures is { HasCleanDisk (state S.Store conn.new) → IfOk result (λ marks.
        IsStoreOf S.Store line.now marks conn.old conn.new) }
    ensures read { OnlyRead S.Store conn.old conn.new }
{
    let version = version_in(conn)?;
    if !reading::is_text(conn, Query::Line, line)? {
        return Err(StoreFault::OtherLine);
    }
    if reading::number(conn, Query::WrongKnown)? != 0 {
        return Err(StoreFault::Damaged);
    }
    if reading::number(conn, Query::WrongPrinted)? != 0 {
        return Err(StoreFault::Damaged);
    }
    let marks = reading::marks(conn, version)?;
    Ok(marks)
}

/// Checks that the database is a store, and returns the text of its line and the greatest marks, if
/// records have checks.
fn line_in<S: Alter>(conn: &mut Connection<S>) -> Result<(String, Option<Marks>), StoreFault>
    ensures is { HasCleanDisk (state S.Store conn.new) → IfOk result (λ found.
        IsStoreOfItself S.Store (string_bytes found.0) found.1 conn.new) }
    ensures read { OnlyRead S.Store conn.old conn.new }
{
    check_version(conn)?;
    let line = reading::line_text(conn)?;
    let marks = check(conn, line.as_str())?;
    Ok((line, marks))
}

/// Makes the tables and keeps the line, in one commit.
fn make<S: Alter>(conn: &mut Connection<S>, line: &str) -> Result<(), SqlError>
    ensures made { HasCleanDisk (state S.Store conn.new)
        → OnOk result (IsMade S.Store line.now conn.old (state S.Store conn.new).committed) }
    ensures unchanged { HasCleanDisk (state S.Store conn.new)
        → IsTrue (state S.Store conn.new).is_open
        → OnErr result (IsAsBefore S.Store conn.old conn.new) }
    ensures crash { SurvivesMaking S.Store line.now conn.old conn.new }
{
    if !conn.is_autocommit() {
        return Err(SqlError::SqliteFailure(sqlite::ErrorCode::TransactionState));
    }
    let mut tx = conn.transaction();
    tx.execute_batch(tables::MAKE)?;
    tx.execute(tables::NAME, params![tables::VERSION, line])?;
    tx.commit()?;
    Ok(())
}

impl<S: Alter> Store for TableStore<S> {
    ghost keeps = { λ step old new. Keeps S.Store old.marks step old.conn new.conn };

    ghost stays = { λ old new. Stays S.Store old.conn new.conn };

    ghost survives = { λ step old new. SurvivesStep S.Store old.marks step old.conn new.conn };

    ghost sound = { λ it. HasCleanDisk (state S.Store it.conn) };

    ghost reads = { λ old new. OnlyRead S.Store old.conn new.conn };

    ghost counts = { λ channel it old new. HasCleanDisk (state S.Store new.conn)
        → IsProgress S.Store channel old.conn new.conn it };

    ghost finds_offered = { λ channel mark more it old new. HasCleanDisk (state S.Store new.conn)
        → IsFound S.Store old.marks side.Offered channel mark more old.conn new.conn it };

    ghost finds_arrived = { λ channel mark more it old new. HasCleanDisk (state S.Store new.conn)
        → IsFound S.Store old.marks side.Arrived channel mark more old.conn new.conn it };

    fn commit(&mut self, step: &[Change]) -> Result<(), StoreFault>
        ensures kept { OnOk result
            (Keeps S.Store self.old.marks step.now self.old.conn self.new.conn) }
        ensures unchanged { OnErr result (Stays S.Store self.old.conn self.new.conn) }
        ensures crash { SurvivesStep S.Store self.old.marks step.now self.old.conn self.new.conn }
        ensures as_before { HasCleanDisk (state S.Store self.new.conn)
            → IsTrue (state S.Store self.new.conn).is_open
            → OnErr result (IsAsBefore S.Store self.old.conn self.new.conn) }
        ensures marks { OnOk result
            (self.new.marks ≡ marks_after_all step.now self.old.marks) }
        ensures same_marks { OnErr result (self.new.marks ≡ self.old.marks) }
        ensures fault { IfErr result (λ fault. (error : Error) × (fault ≡ fault_for error)) }
    {
        match commit(&mut self.conn, self.marks, step) {
            Ok(marks) => {
                self.marks = marks;
                Ok(())
            }
            Err(error) => Err(fault_of(error)),
        }
    }

    fn progress(&mut self, channel: &Channel) -> Result<Progress, StoreFault>
        ensures reads { OnlyRead S.Store self.old.conn self.new.conn }
        ensures counts { IfOk result (λ it. HasCleanDisk (state S.Store self.new.conn)
            → IsProgress S.Store channel.now self.old.conn self.new.conn it) }
        ensures fault { IfErr result (IsUnread S.Store (query_text query.Progress)
            (channel_values channel.now) self.old.conn self.new.conn) }
        ensures same_marks { self.new.marks ≡ self.old.marks }
    {
        reading::progress(&mut self.conn, channel)
    }

    fn offered(
        &mut self,
        channel: &Channel,
        mark: i64,
        more: u32,
    ) -> Result<Option<Found>, StoreFault>
        ensures reads { OnlyRead S.Store self.old.conn self.new.conn }
        ensures finds { IfOk result (λ it. HasCleanDisk (state S.Store self.new.conn)
            → IsFound S.Store self.old.marks side.Offered channel.now mark more self.old.conn
            self.new.conn it) }
        ensures fault { IfErr result (IsNotFound S.Store self.old.marks side.Offered channel.now
            mark more self.old.conn self.new.conn) }
        ensures same_marks { self.new.marks ≡ self.old.marks }
    {
        reading::next(
            &mut self.conn,
            self.marks,
            Side::Offered,
            channel,
            mark,
            more,
        )
    }

    fn arrived(
        &mut self,
        channel: &Channel,
        mark: i64,
        more: u32,
    ) -> Result<Option<Found>, StoreFault>
        ensures reads { OnlyRead S.Store self.old.conn self.new.conn }
        ensures finds { IfOk result (λ it. HasCleanDisk (state S.Store self.new.conn)
            → IsFound S.Store self.old.marks side.Arrived channel.now mark more self.old.conn
            self.new.conn it) }
        ensures fault { IfErr result (IsNotFound S.Store self.old.marks side.Arrived channel.now
            mark more self.old.conn self.new.conn) }
        ensures same_marks { self.new.marks ≡ self.old.marks }
    {
        reading::next(
            &mut self.conn,
            self.marks,
            Side::Arrived,
            channel,
            mark,
            more,
        )
    }
}
