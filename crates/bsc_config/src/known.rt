//! The check for keys that a configuration may not have.

ghost use Rattle.std.specs.Prelude.{◌≡◌, option_map, string_bytes};
ghost use Rattle.toml.specs.View.{items_view, table_view, view};
ghost use Rattle.bsc_config.specs.Keys.{is_known};
ghost use Rattle.bsc_config.specs.Faults.{Gives};
ghost use Rattle.bsc_config.specs.Checks.{check_each, check_table, first_unknown};
ghost use Rattle.bsc_config.specs.Checks.{known_keys as known_in_document};
ghost use Rattle.bsc_config.specs.Checks.{known_keys_of as known_in_table};

use crate::error::ConfigError;
use crate::key::{Owner, UnknownKey};
use crate::lookup::terminal_tables;
use std::alloc::Global;
use toml::{Table, Value};

/// Whether a table with this owner may have a key with this name.
fn is_known_name(owner: Owner, name: &str) -> bool
    ensures { result ≡ is_known owner name.now }
{
    match owner {
        Owner::Document => {
            name == "version"
                || name == "full"
                || name == "block_chars"
                || name == "tries"
                || name == "waits"
                || name == "poll_list"
                || name == "terminals"
        }
        Owner::Terminal { .. } => name == "poll" || name == "select",
    }
}

/// Returns the smallest key that the table may not have. The keys of a table are sorted by their
/// bytes.
fn unknown_name(table: &Table, owner: Owner) -> Option<&String>
    ensures { option_map (λ n. string_bytes n.now) result
        ≡ first_unknown owner (table_view table.now) }
{
    'names: for name in table.keys() {
        if !is_known_name(owner, name.as_str()) {
            return Some(name);
        }
    }
    None
}

/// Refuses a table with a key that it may not have, and names the smallest such key.
fn known_keys_of(alloc: Global, table: &Table, owner: Owner) -> Result<(), ConfigError>
    ensures { Gives (λ u. u) result (known_in_table owner (table_view table.now)) }
{
    match unknown_name(table, owner) {
        None => Ok(()),
        Some(name) => match String::from_str(alloc, name.as_str()) {
            Ok(name) => Err(ConfigError::UnknownKey {
                key: UnknownKey { owner, name },
            }),
            Err(_) => Err(ConfigError::Memory),
        },
    }
}

/// Refuses a terminal with a key that it may not have. `number` is the number of the terminal. A
/// value that is not a table is accepted here.
fn terminal_keys_known(alloc: Global, value: &Value, number: usize) -> Result<(), ConfigError>
    ensures { Gives (λ u. u) result
        (check_table (known_in_table (Owner.Terminal number)) (view value.now)) }
{
    match value.as_table() {
        Some(table) => known_keys_of(alloc, table, Owner::Terminal { number }),
        None => Ok(()),
    }
}

/// Refuses the first terminal with a key that it may not have, and names the smallest such key.
fn each_terminal_known(alloc: Global, values: &[Value]) -> Result<(), ConfigError>
    ensures { Gives (λ u. u) result
        (check_each (λ n. known_in_table (Owner.Terminal n)) 0 (items_view values.now)) }
{
    for (number, value) in values.iter().enumerate() {
        terminal_keys_known(alloc, value, number)?;
    }
    Ok(())
}

/// Refuses a document with a key that it may not have; otherwise the first terminal with one.
pub(crate) fn known_keys(alloc: Global, document: &Table) -> Result<(), ConfigError>
    ensures { Gives (λ u. u) result (known_in_document (table_view document.now)) }
{
    known_keys_of(alloc, document, Owner::Document)?;
    each_terminal_known(alloc, terminal_tables(document))
}
