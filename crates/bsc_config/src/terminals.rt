//! The terminals of a document.

ghost use Rattle.std.specs.Prelude.{◌≡◌};
ghost use Rattle.toml.specs.View.{items_view, table_view, view};
ghost use Rattle.bsc_config.specs.Faults.{Gives};
ghost use Rattle.bsc_config.specs.Terminals.{selects_in as selects_of_value};
ghost use Rattle.bsc_config.specs.Terminals.{terminal_in as terminal_of_table, terminal_of_value};
ghost use Rattle.bsc_config.specs.Terminals.{terminals_in as terminals_of_document, terminals_of};
ghost use Rattle.bsc_config.specs.Values.{address_in as address_of_value, or_wrong, read_each};

use crate::error::ConfigError;
use crate::key::Key;
use crate::lookup::{required, tables_in};
use crate::values::{Version, address_in};
use bsc_bid::Terminal;
use bsc_frame::Address;
use std::alloc::Global;
use toml::{Table, Value};

/// Returns the addresses in a list of values. `key` is the key of the list.
fn addresses(alloc: Global, values: &[Value], key: Key) -> Result<Vec<Address>, ConfigError>
    ensures { Gives (λ v. v.items) result
        (or_wrong key (read_each address_of_value (items_view values.now))) }
{
    let mut addresses = Vec::new(alloc);
    for value in values {
        match address_in(value) {
            Some(address) => addresses.push(address)?,
            None => return Err(ConfigError::WrongValue { key }),
        }
    }
    Ok(addresses)
}

/// Returns a list of one address. `key` is the key of the value.
fn single(alloc: Global, value: &Value, key: Key) -> Result<Vec<Address>, ConfigError>
    ensures { Gives (λ v. v.items) result
        (or_wrong key (selects_of_value Version.One (view value.now))) }
{
    match address_in(value) {
        Some(address) => {
            let mut addresses = Vec::new(alloc);
            addresses.push(address)?;
            Ok(addresses)
        }
        None => Err(ConfigError::WrongValue { key }),
    }
}

/// Returns the selection addresses in the value at `key`.
fn selects_in(
    alloc: Global,
    value: &Value,
    version: Version,
    key: Key,
) -> Result<Vec<Address>, ConfigError>
    ensures { Gives (λ v. v.items) result
        (or_wrong key (selects_of_value version (view value.now))) }
{
    match version {
        Version::One => single(alloc, value, key),
        Version::Two => match value.as_array() {
            Some(values) => addresses(alloc, values, key),
            None => Err(ConfigError::WrongValue { key }),
        },
    }
}

/// Returns the terminal with this number from its table.
fn terminal_in(
    alloc: Global,
    table: &Table,
    version: Version,
    terminal: usize,
) -> Result<Terminal, ConfigError>
    ensures { Gives (λ t. t) result (terminal_of_table version terminal (table_view table.now)) }
{
    let poll_key = Key::Poll { terminal };
    let select_key = Key::Select { terminal };
    let poll_value = required(table, poll_key)?;
    let poll = match address_in(poll_value) {
        Some(address) => address,
        None => return Err(ConfigError::WrongValue { key: poll_key }),
    };
    let select_value = required(table, select_key)?;
    let selects = selects_in(alloc, select_value, version, select_key)?;
    match Terminal::new(poll, &selects) {
        Ok(terminal) => Ok(terminal),
        Err(_) => Err(ConfigError::WrongValue { key: select_key }),
    }
}

/// Returns the terminal with this number from its value, which must be a table.
fn terminal_of(
    alloc: Global,
    value: &Value,
    version: Version,
    terminal: usize,
) -> Result<Terminal, ConfigError>
    ensures { Gives (λ t. t) result (terminal_of_value version terminal (view value.now)) }
{
    match value.as_table() {
        Some(table) => terminal_in(alloc, table, version, terminal),
        None => Err(ConfigError::WrongValue {
            key: Key::Terminals,
        }),
    }
}

/// Returns the terminals from a list of values, numbered from 0.
fn each_terminal(
    alloc: Global,
    values: &[Value],
    version: Version,
) -> Result<Vec<Terminal>, ConfigError>
    ensures { Gives (λ v. v.items) result (terminals_of version 0 (items_view values.now)) }
{
    let mut terminals = Vec::new(alloc);
    for (number, value) in values.iter().enumerate() {
        let terminal = terminal_of(alloc, value, version, number)?;
        terminals.push(terminal)?;
    }
    Ok(terminals)
}

/// Returns the terminals of a document: a list of tables.
pub(crate) fn terminals_in(
    alloc: Global,
    document: &Table,
    version: Version,
) -> Result<Vec<Terminal>, ConfigError>
    ensures { Gives (λ v. v.items) result
        (terminals_of_document version (table_view document.now)) }
{
    let value = required(document, Key::Terminals)?;
    match tables_in(value) {
        Some(tables) => each_terminal(alloc, tables, version),
        None => Err(ConfigError::WrongValue {
            key: Key::Terminals,
        }),
    }
}
