//! The faults of a store, by the errors of the database.
ghost use Rattle.std.specs.Prelude.{◌≡◌};
ghost use Rattle.bsc_store.specs.Faults.{coded as coded_as, fault_for, unread as unread_as};

use bsc_spool::StoreFault;
use sqlite::{Error as SqlError, ErrorCode};

/// Returns the fault for an error code of the database.
fn coded(code: ErrorCode) -> StoreFault
    ensures { result ≡ coded_as code }
{
    match code {
        ErrorCode::DatabaseBusy => StoreFault::InUse,
        ErrorCode::NotADatabase | ErrorCode::DatabaseCorrupt => StoreFault::Damaged,
        ErrorCode::DiskFull => StoreFault::Full,
        ErrorCode::OutOfMemory => StoreFault::OutOfMemory,
        ErrorCode::CannotOpen | ErrorCode::SystemIoFailure | ErrorCode::Closed => {
            StoreFault::Unreachable
        }
        _ => StoreFault::Refused,
    }
}

/// Returns the fault for an error of the database.
pub(crate) fn fault_of(error: SqlError) -> StoreFault
    ensures { result ≡ fault_for error }
{
    match error {
        SqlError::SqliteFailure(code) => coded(code),
        _ => StoreFault::Damaged,
    }
}

/// Returns the fault for an error of a query. A store refuses none of its own queries, so one that
/// is refused shows that the tables are not those of a store.
pub(crate) fn unread(error: SqlError) -> StoreFault
    ensures { result ≡ unread_as (fault_for error) }
{
    match fault_of(error) {
        StoreFault::Refused => StoreFault::Damaged,
        fault => fault,
    }
}
