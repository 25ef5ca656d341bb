//! The poll list of a document.

ghost use Rattle.std.specs.Prelude.{◌≡◌};
ghost use Rattle.toml.specs.View.{items_view, table_view};
ghost use Rattle.bsc_config.specs.Faults.{Gives};
ghost use Rattle.bsc_config.specs.Numbers.{poll_list_in as poll_list_of_document};
ghost use Rattle.bsc_config.specs.Values.{or_wrong, read_each, whole_number as number_of_value};

use crate::error::ConfigError;
use crate::key::Key;
use crate::lookup::required;
use crate::values::whole_number;
use std::alloc::Global;
use toml::{Table, Value};

/// Returns the entries of the poll list from a list of values.
fn entries(alloc: Global, values: &[Value]) -> Result<Vec<u8>, ConfigError>
    ensures { Gives (λ v. v.items) result
        (or_wrong Key.PollList (read_each (number_of_value 0 255) (items_view values.now))) }
{
    let mut entries = Vec::new(alloc);
    for value in values {
        match whole_number(value, 0, 255) {
            Some(entry) => entries.push(entry as u8)?,
            None => return Err(ConfigError::WrongValue { key: Key::PollList }),
        }
    }
    Ok(entries)
}

/// Returns the poll list: whole numbers from 0 to 255.
pub(crate) fn poll_list_in(alloc: Global, document: &Table) -> Result<Vec<u8>, ConfigError>
    ensures { Gives (λ v. v.items) result (poll_list_of_document (table_view document.now)) }
{
    let value = required(document, Key::PollList)?;
    match value.as_array() {
        Some(values) => entries(alloc, values),
        None => Err(ConfigError::WrongValue { key: Key::PollList }),
    }
}
