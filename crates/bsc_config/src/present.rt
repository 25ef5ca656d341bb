//! The check for missing keys.

ghost use Rattle.std.specs.Prelude.{◌≡◌};
ghost use Rattle.toml.specs.View.{items_view, table_view, view};
ghost use Rattle.bsc_config.specs.Faults.{Gives};
ghost use Rattle.bsc_config.specs.Checks.{check_each, check_table};
ghost use Rattle.bsc_config.specs.Checks.{keys_present as present_in_document};
ghost use Rattle.bsc_config.specs.Checks.{terminal_keys_present as present_in_terminal};

use crate::error::ConfigError;
use crate::key::Key;
use crate::lookup::{required, terminal_tables};
use toml::{Table, Value};

/// Refuses the table of a terminal if `poll` or `select` is missing.
fn terminal_keys_present(table: &Table, terminal: usize) -> Result<(), ConfigError>
    ensures { Gives (λ u. u) result (present_in_terminal terminal (table_view table.now)) }
{
    required(table, Key::Poll { terminal })?;
    required(table, Key::Select { terminal })?;
    Ok(())
}

/// Refuses a terminal if `poll` or `select` is missing. A value that is not a table is accepted
/// here.
fn value_has_keys(value: &Value, terminal: usize) -> Result<(), ConfigError>
    ensures { Gives (λ u. u) result (check_table (present_in_terminal terminal) (view value.now)) }
{
    match value.as_table() {
        Some(table) => terminal_keys_present(table, terminal),
        None => Ok(()),
    }
}

/// Refuses the first terminal without `poll` or `select`.
fn each_terminal_has_keys(values: &[Value]) -> Result<(), ConfigError>
    ensures { Gives (λ u. u) result (check_each present_in_terminal 0 (items_view values.now)) }
{
    for (terminal, value) in values.iter().enumerate() {
        value_has_keys(value, terminal)?;
    }
    Ok(())
}

/// Refuses a document without a required key; otherwise the first terminal without one of its keys.
pub(crate) fn keys_present(document: &Table) -> Result<(), ConfigError>
    ensures { Gives (λ u. u) result (present_in_document (table_view document.now)) }
{
    required(document, Key::Version)?;
    required(document, Key::PollList)?;
    required(document, Key::Terminals)?;
    each_terminal_has_keys(terminal_tables(document))
}
