//! The tables, which `docs/STORE.md` describes.

/// The version of the tables.
pub(crate) const VERSION: u32 = 2;

/// The version of tables whose records have no check.
pub(crate) const UNCHECKED: u32 = 1;

/// Makes the tables.
pub(crate) const MAKE: &str = "CREATE TABLE line (
  version INTEGER NOT NULL,
  line TEXT NOT NULL
) STRICT;
CREATE TABLE offered (
  id INTEGER PRIMARY KEY,
  way TEXT NOT NULL CHECK (way = 'from' OR way = 'to'),
  address BLOB NOT NULL,
  record BLOB NOT NULL CHECK (length(record) <= 144),
  checked BLOB NOT NULL
) STRICT;
CREATE TABLE known (
  way TEXT NOT NULL CHECK (way = 'from' OR way = 'to'),
  address BLOB NOT NULL,
  known INTEGER NOT NULL CHECK (known >= 0),
  in_doubt INTEGER NOT NULL CHECK (in_doubt >= 0 AND in_doubt <= 7),
  UNIQUE (way, address)
) STRICT;
CREATE TABLE arrived (
  id INTEGER PRIMARY KEY,
  way TEXT NOT NULL CHECK (way = 'from' OR way = 'to'),
  address BLOB NOT NULL,
  record BLOB NOT NULL CHECK (length(record) <= 144),
  checked BLOB NOT NULL
) STRICT;
CREATE TABLE printed (
  way TEXT NOT NULL CHECK (way = 'from' OR way = 'to'),
  address BLOB NOT NULL,
  printed INTEGER NOT NULL CHECK (printed >= 0),
  UNIQUE (way, address)
) STRICT";

/// Keeps the version and the line.
pub(crate) const NAME: &str = "INSERT INTO line (version, line) VALUES (?1, ?2)";
