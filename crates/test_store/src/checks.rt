//! Records that are not as they were kept, or not in their places, and stores of the first version,
//! whose records have no checks.

use crate::facts::{Side, are_kept};
use crate::files::{LINE, Task, create, delete, resumed, within};
use bsc_spool::{Channel, NamedChannel, Store, StoreFault};
use std::fs;
use std::rt::HostRuntime;
use std::test::Fail;

/// Makes the tables of a store with three offered records and one that arrived, with the checks
/// that `md5sum` gives. Its line is kept with version 1.
const CHECKED: &str = "CREATE TABLE line (version INTEGER, line TEXT);
CREATE TABLE offered (id INTEGER PRIMARY KEY, way TEXT, address BLOB, record BLOB, checked BLOB);
CREATE TABLE known (way TEXT, address BLOB, known INTEGER, in_doubt INTEGER);
CREATE TABLE arrived (id INTEGER PRIMARY KEY, way TEXT, address BLOB, record BLOB, checked BLOB);
CREATE TABLE printed (way TEXT, address BLOB, printed INTEGER);
INSERT INTO offered VALUES (1, 'from', x'41', x'4849', x'd7bb84bff5724bf5');
INSERT INTO offered VALUES (2, 'from', x'41', x'484F', x'4fd19c0792ced462');
INSERT INTO offered VALUES (3, 'from', x'41', x'', x'fbdf997f7e324d64');
INSERT INTO arrived VALUES (1, 'from', x'41', x'4849', x'd7bb84bff5724bf5');";

/// Statements that change a record or its place in a store of version 2, and the number of the
/// first record that is damaged then.
const CHANGES: &[(&str, u32)] = &[
    ("UPDATE offered SET record = x'48' WHERE id = 2", 1),
    ("UPDATE offered SET checked = NULL WHERE id = 3", 2),
    ("UPDATE offered SET id = 4 WHERE id = 2", 2),
    // Its check is that of the channel from terminal B.
    (
        "INSERT INTO offered VALUES (4, 'from', x'41', x'4849', x'851da130b3d71e12')",
        3,
    ),
];

/// Whether the offered record with this number is damaged, by its channel and number and after the
/// one before it, and those before it are not.
pub(crate) fn is_damaged<S: Store>(
    store: &mut S,
    channel: &Channel,
    number: u32,
) -> Result<bool, StoreFault> {
    let mut mark = 0;
    for place in 0..number {
        match store.offered(channel, 0, place)? {
            Some(found) => mark = found.mark,
            None => return Ok(false),
        }
    }
    let wanted = Some(StoreFault::DamagedRecord {
        channel: NamedChannel::of(channel),
        number,
    });
    let by_number = store.offered(channel, 0, number).err();
    Ok(by_number == wanted && store.offered(channel, mark, 0).err() == wanted)
}

/// Whether a store has the records with the right checks.
pub(crate) fn are_checked<S: Store>(store: &mut S, channel: &Channel) -> Result<bool, StoreFault> {
    let offered = are_kept(store, channel, Side::Offered, &["HI", "HO", ""])?;
    Ok(offered && are_kept(store, channel, Side::Arrived, &["HI"])?)
}

#[test]
fn damaged_records_are_told_by_their_numbers(rt: HostRuntime) -> Result<(), Fail> {
    let sound = "UPDATE line SET version = 2";
    assert!(rt; resumed(rt.alloc(), CHECKED, sound, false, Task::Checked)?);
    for (changed, number) in CHANGES {
        let changed = format!(in rt.alloc(); "{sound}; {changed}")?;
        let found = resumed(rt.alloc(), CHECKED, &changed, false, Task::Damaged(*number))?;
        assert!(rt; found, "{changed}");
    }
    Ok(())
}

/// The tables of the first version, as its program made them.
const UNCHECKED: &str = "CREATE TABLE line (version INTEGER NOT NULL, line TEXT NOT NULL) STRICT;
CREATE TABLE offered (id INTEGER PRIMARY KEY, way TEXT NOT NULL CHECK (way = 'from' OR way = 'to'),
  address BLOB NOT NULL, record BLOB NOT NULL CHECK (length(record) <= 144)) STRICT;
CREATE TABLE known (way TEXT NOT NULL CHECK (way = 'from' OR way = 'to'), address BLOB NOT NULL,
  known INTEGER NOT NULL CHECK (known >= 0),
  in_doubt INTEGER NOT NULL CHECK (in_doubt >= 0 AND in_doubt <= 7), UNIQUE (way, address)) STRICT;
CREATE TABLE arrived (id INTEGER PRIMARY KEY, way TEXT NOT NULL CHECK (way = 'from' OR way = 'to'),
  address BLOB NOT NULL, record BLOB NOT NULL CHECK (length(record) <= 144)) STRICT;
CREATE TABLE printed (way TEXT NOT NULL CHECK (way = 'from' OR way = 'to'), address BLOB NOT NULL,
  printed INTEGER NOT NULL CHECK (printed >= 0), UNIQUE (way, address)) STRICT";

#[test]
fn a_store_of_the_first_version_is_used(rt: HostRuntime) -> Result<(), Fail> {
    let changed = "DELETE FROM printed";
    assert!(rt; resumed(rt.alloc(), UNCHECKED, changed, false, Task::FillAndRead)?);
    Ok(())
}

/// Inverts the lowest bit of the last octet of these characters, wherever they stand in a file.
fn invert(rt: &HostRuntime, path: &str, chars: &[u8]) -> Result<u32, Fail> {
    let mut file = fs::read(rt, path)?;
    let mut count = 0u32;
    let width = chars.len();
    for place in 0..file.len() {
        let Some(end) = place.checked_add(width) else {
            break;
        };
        if file.get(place..end) == Some(chars) && width > 0 {
            file[end - 1] ^= 1;
            count = count.saturating_add(1);
        }
    }
    fs::write(rt, path, file.as_slice())?;
    Ok(count)
}

#[test]
fn an_inverted_bit_of_a_record_in_the_file_is_found(rt: HostRuntime) -> Result<(), Fail> {
    delete(&rt, "store_damaged");
    create(&rt, "store_damaged")?;
    assert!(rt; within(&rt, "store_damaged", LINE, Task::Fill)?);
    assert!(rt; invert(&rt, "store_damaged", b"third")? > 0);
    assert!(rt; within(&rt, "store_damaged", LINE, Task::Damaged(2))?);
    delete(&rt, "store_damaged");
    Ok(())
}
