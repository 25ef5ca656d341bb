//! The values at the keys of a table.

ghost use Rattle.std.specs.Prelude.{◌≡◌, option_map};
ghost use Rattle.toml.specs.View.{items_view, table_view, view};
ghost use Rattle.bsc_config.specs.Faults.{Gives};
ghost use Rattle.bsc_config.specs.Tables.{are_tables as all_tables, required as required_value};
ghost use Rattle.bsc_config.specs.Tables.{tables_in as tables_of_value};
ghost use Rattle.bsc_config.specs.Tables.{terminal_tables as tables_of_terminals};
ghost use Rattle.bsc_config.specs.Tables.{value_at as value_of_key};

use crate::error::ConfigError;
use crate::key::Key;
use toml::{Table, Value};

/// Returns the value at a key, if the key is present.
pub(crate) fn value_at(table: &Table, key: Key) -> Option<&Value>
    ensures { option_map (λ v. view v.now) result ≡ value_of_key key (table_view table.now) }
{
    table.get(key.name())
}

/// Returns the value at a required key.
pub(crate) fn required(table: &Table, key: Key) -> Result<&Value, ConfigError>
    ensures { Gives (λ v. view v.now) result (required_value key (table_view table.now)) }
{
    match value_at(table, key) {
        Some(value) => Ok(value),
        None => Err(ConfigError::MissingKey { key }),
    }
}

/// Whether all the values are tables.
fn are_tables(values: &[Value]) -> bool
    ensures { result ≡ all_tables (items_view values.now) }
{
    for value in values {
        if !value.is_table() {
            return false;
        }
    }
    true
}

/// Returns the tables in a list of tables, or `None` if the value is not such a list.
pub(crate) fn tables_in(value: &Value) -> Option<&[Value]>
    ensures { option_map (λ s. items_view s.now) result ≡ tables_of_value (view value.now) }
{
    match value.as_array() {
        Some(values) if are_tables(values) => Some(values.as_slice()),
        _ => None,
    }
}

/// Returns the tables of the terminals in a document: none if `terminals` is absent or is not a
/// list of tables.
pub(crate) fn terminal_tables(document: &Table) -> &[Value]
    ensures { items_view result.now ≡ tables_of_terminals (table_view document.now) }
{
    match value_at(document, Key::Terminals) {
        Some(value) => match tables_in(value) {
            Some(tables) => tables,
            None => &[],
        },
        None => &[],
    }
}
