//! The version and the settings of a document.

ghost use Rattle.std.specs.Prelude.{◌≡◌, ◌≤◌, IfOk};
ghost use Rattle.toml.specs.View.{table_view};
ghost use Rattle.bsc_config.specs.Faults.{Gives};
ghost use Rattle.bsc_config.specs.Numbers.{number_at as number_of_key};
ghost use Rattle.bsc_config.specs.Numbers.{setup_in as setup_of_document};
ghost use Rattle.bsc_config.specs.Numbers.{version_in as version_of_document};

use crate::error::ConfigError;
use crate::key::Key;
use crate::lookup::{required, value_at};
use crate::values::{Version, whole_number};
use bsc_bid::Setup;
use bsc_bid::limits::{MAX_TRIES, MAX_WAITS};
use bsc_block::limits::{MAX_BLOCK_CHARS, MAX_FULL, MIN_BLOCK_CHARS};
use toml::Table;

/// Returns the version, 1 or 2.
pub(crate) fn version_in(document: &Table) -> Result<Version, ConfigError>
    ensures { Gives (λ v. v) result (version_of_document (table_view document.now)) }
{
    let value = required(document, Key::Version)?;
    match whole_number(value, 1, 2) {
        Some(1) => Ok(Version::One),
        Some(_) => Ok(Version::Two),
        None => Err(ConfigError::WrongValue { key: Key::Version }),
    }
}

/// Returns the number at a key, from `least` to `most`, or `absent` if the key is absent.
fn number_at(
    document: &Table,
    key: Key,
    least: u16,
    most: u16,
    absent: u16,
) -> Result<u16, ConfigError>
    requires least { least ≤ absent }
    requires most { absent ≤ most }
    ensures value { Gives (λ n. n) result
        (number_of_key key least most absent (table_view document.now)) }
    ensures least { IfOk result (λ n. least ≤ n) }
    ensures most { IfOk result (λ n. n ≤ most) }
{
    match value_at(document, key) {
        None => Ok(absent),
        Some(value) => match whole_number(value, least, most) {
            Some(number) => Ok(number),
            None => Err(ConfigError::WrongValue { key }),
        },
    }
}

/// Returns the settings. An absent key has its default; the default of `block_chars` is the largest
/// value.
pub(crate) fn setup_in(document: &Table) -> Result<Setup, ConfigError>
    ensures { Gives (λ s. s) result (setup_of_document (table_view document.now)) }
{
    let full = number_at(document, Key::Full, 1, u16::from(MAX_FULL), 80)?;
    let block_chars = number_at(
        document,
        Key::BlockChars,
        MIN_BLOCK_CHARS,
        MAX_BLOCK_CHARS,
        MAX_BLOCK_CHARS,
    )?;
    let tries = number_at(document, Key::Tries, 1, u16::from(MAX_TRIES), 3)?;
    let waits = number_at(document, Key::Waits, 1, u16::from(MAX_WAITS), 10)?;
    match Setup::new(full as u8, block_chars, tries as u8, waits as u8) {
        Ok(setup) => Ok(setup),
        // Each number is within its limits.
        Err(_) => unreachable!(),
    }
}
