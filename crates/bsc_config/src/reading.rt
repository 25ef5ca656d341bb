//! Reads a configuration.

ghost use Rattle.std.specs.Prelude.{◌≡◌, ◌≤◌, ◌+◌, ◌==◌, Some, IfErr, IfOk, count_by, length, take};
ghost use Rattle.toml.specs.View.{table_view};
ghost use Rattle.bsc_config.specs.Answers.{IsConfig, IsDocument, IsRefusedFor, Says};

use crate::config::Config;
use crate::error::ConfigError;
use crate::settings::Settings;
use std::alloc::Global;
use toml::Table;

/// Parses a TOML document into its table.
fn document(alloc: Global, text: &[u8]) -> Result<Table, ConfigError>
    ensures document { IfOk result (λ t. IsDocument text.now (table_view t)) }
    ensures refused { IfErr result (IsRefusedFor text.now) }
{
    match toml::table_from_slice(alloc, text) {
        Ok(table) => Ok(table),
        Err(error) => match error.span() {
            Some(span) => Err(ConfigError::NotToml {
                line: line_of(text, span.start),
            }),
            None => Err(ConfigError::Memory),
        },
    }
}

/// Returns the number of the line of this place in a text, counted from 1.
fn line_of(text: &[u8], place: usize) -> u64
    requires { place ≤ length text.now }
    ensures { result ≡ count_by (λ octet. octet == 10) (take place text.now) + 1 }
{
    let mut line = 1;
    for octet in &text[..place] {
        if *octet == b'\n' {
            line += 1;
        }
    }
    line
}

/// Reads the configuration in a TOML document, or returns the first reason for refusing it, in the
/// order of the variants of [`ConfigError`]. `Memory` may come in place of any answer. `toml`
/// accepts only the global allocator, and so does this function.
pub fn read_config(alloc: Global, text: &[u8]) -> Result<Config, ConfigError>
    ensures says { IfOk result (Says text.now) }
    ensures config { IfOk result IsConfig }
    ensures refused { IfErr result (IsRefusedFor text.now) }
{
    let table = document(alloc, text)?;
    let settings = Settings::read(alloc, &table)?;
    Config::new(alloc, settings)
}
