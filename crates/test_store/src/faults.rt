//! Each fault, by its name, and that what is kept is as it was.

use crate::files::{LINE, Task, create, delete, is_in_use, resumed, within};
use bsc_spool::StoreFault;
use std::fs;
use std::os::unix::fs::PermissionsExt;
use std::rt::HostRuntime;
use std::test::Fail;

/// Paths that are opened with a line, and the fault.
const OPENED: &[(&str, &str, StoreFault)] = &[
    ("store_none", LINE, StoreFault::Missing),
    ("store_made", "another", StoreFault::OtherLine),
    ("store_text", LINE, StoreFault::Damaged),
    ("store_nothing", LINE, StoreFault::Damaged),
    (".", LINE, StoreFault::Unreachable),
];

/// Paths at which a store is made, and the fault. The last two are no names of files.
const MADE: &[(&str, StoreFault)] = &[
    ("store_made", StoreFault::Taken),
    ("store_text", StoreFault::Damaged),
    ("store_log", StoreFault::Taken),
    ("store_none/below", StoreFault::Unreachable),
    (":memory:", StoreFault::Unreachable),
    ("file:store_named", StoreFault::Unreachable),
];

/// Paths at which there is nothing then either.
const ABSENT: &[&str] = &["store_none", "store_log", ":memory:", "file:store_named"];

/// What may be the log of a store whose file was moved away: it is longer than one that holds
/// nothing.
const LOG: &str = "a log of 42 octets, which may hold records";

/// Files and what they hold, which no fault changes.
const HELD: &[(&str, &str)] = &[
    ("store_text", "no database, but a text"),
    ("store_nothing", ""),
    ("store_log-wal", LOG),
];

/// Whether the file at a path holds this.
fn holds(rt: &HostRuntime, path: &str, text: &str) -> Result<bool, Fail> {
    Ok(fs::read(rt, path)?.as_slice() == text.as_bytes())
}

/// Returns the first path that is not refused by the name of its fault.
fn first_accepted(rt: &HostRuntime) -> Option<&'static str> {
    for (path, line, fault) in OPENED {
        if within(rt, path, line, Task::Nothing) != Err(*fault) {
            return Some(*path);
        }
    }
    for (path, fault) in MADE {
        if create(rt, path) != Err(*fault) {
            return Some(*path);
        }
    }
    None
}

/// So is the log of a new store.
#[test]
fn a_new_store_is_for_its_user_only(rt: HostRuntime) -> Result<(), Fail> {
    delete(&rt, "store_own");
    create(&rt, "store_own")?;
    for path in ["store_own", "store_own-wal"] {
        let mode = fs::metadata(&rt, path)?.permissions().mode();
        assert!(rt; mode & 0o777 == 0o600, "{path}");
    }
    delete(&rt, "store_own");
    Ok(())
}

#[test]
fn files_are_refused_by_name_and_stay(rt: HostRuntime) -> Result<(), Fail> {
    delete(&rt, "store_made");
    create(&rt, "store_made")?;
    for (path, text) in HELD {
        fs::write(&rt, *path, *text)?;
    }
    assert_eq!(rt; first_accepted(&rt), None);
    for path in ABSENT {
        assert!(rt; !fs::exists(&rt, *path)?, "{path}");
    }
    for (path, text) in HELD {
        assert!(rt; holds(&rt, path, text)?, "{path}");
    }
    assert!(rt; is_in_use(&rt, "store_made")?);
    assert!(rt; within(&rt, "store_made", LINE, Task::Nothing)?);
    for path in ["store_made", "store_text", "store_nothing", "store_log"] {
        delete(&rt, path);
    }
    Ok(())
}

/// Makes the tables of a store with a record in doubt. Its line is not kept yet.
const SOUND: &str = "CREATE TABLE line (version INTEGER, line TEXT);
CREATE TABLE offered (id INTEGER PRIMARY KEY, way TEXT, address BLOB, record BLOB);
CREATE TABLE known (way TEXT, address BLOB, known INTEGER, in_doubt INTEGER);
CREATE TABLE arrived (id INTEGER PRIMARY KEY, way TEXT, address BLOB, record BLOB);
CREATE TABLE printed (way TEXT, address BLOB, printed INTEGER);
INSERT INTO offered VALUES (1, 'from', x'41', x'4849');
INSERT INTO known VALUES ('from', x'41', 0, 1);";

/// The fault of a store of a later version.
const NEWER: StoreFault = StoreFault::Newer { version: 3 };

/// Statements after which it is refused, and the fault.
const CHANGES: &[(&str, StoreFault)] = &[
    ("UPDATE line SET version = 3", NEWER),
    (
        "DROP TABLE line; CREATE TABLE line (version INTEGER); INSERT INTO line VALUES (3)",
        NEWER,
    ),
    ("UPDATE line SET version = 0", StoreFault::Damaged),
    ("DELETE FROM line", StoreFault::Damaged),
    ("DROP TABLE line", StoreFault::Damaged),
    ("DROP TABLE known", StoreFault::Damaged),
    ("DROP TABLE printed", StoreFault::Damaged),
    ("DELETE FROM offered", StoreFault::Damaged),
    (
        "INSERT INTO printed VALUES ('to', x'61', 1)",
        StoreFault::Damaged,
    ),
];

#[test]
fn changed_stores_are_refused_by_name(rt: HostRuntime) -> Result<(), Fail> {
    for any in [false, true] {
        let is_sound = resumed(rt.alloc(), SOUND, "DELETE FROM printed", any, Task::Nothing);
        assert!(rt; is_sound == Ok(true));
        for (changed, fault) in CHANGES {
            let refused = resumed(rt.alloc(), SOUND, changed, any, Task::Nothing);
            assert!(rt; refused == Err(*fault), "{any} {changed}");
        }
    }
    Ok(())
}
