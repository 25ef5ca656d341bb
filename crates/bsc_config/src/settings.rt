//! The contents of a document.

ghost use Rattle.toml.specs.View.{table_view};
ghost use Rattle.bsc_config.specs.Faults.{Gives};
ghost use Rattle.bsc_config.specs.Settings.{settings_in as settings_of_document};
ghost use Rattle.bsc_config.specs.Settings.{values_in as values_of_document};

use crate::error::ConfigError;
use crate::known::known_keys;
use crate::numbers::{setup_in, version_in};
use crate::poll_list::poll_list_in;
use crate::present::keys_present;
use crate::terminals::terminals_in;
use bsc_bid::{Setup, Terminal};
use std::alloc::Global;
use toml::Table;

/// The contents of a document, before the checks of a line are made.
#[derive(Drop)]
pub(crate) struct Settings {
    pub(crate) setup: Setup,
    pub(crate) terminals: Vec<Terminal>,
    pub(crate) poll_list: Vec<u8>,
}

impl Settings {
    ghost use Rattle.bsc_config.specs.SettingsValues.{settings_value};

    /// Reads the values of a document, in the order of the keys.
    fn values_in(alloc: Global, document: &Table) -> Result<Settings, ConfigError>
        ensures { Gives settings_value result (values_of_document (table_view document.now)) }
    {
        let version = version_in(document)?;
        let setup = setup_in(document)?;
        let poll_list = poll_list_in(alloc, document)?;
        let terminals = terminals_in(alloc, document, version)?;
        Ok(Settings {
            setup,
            terminals,
            poll_list,
        })
    }

    /// Reads a document: refuses unknown keys, then missing keys, and then reads the values.
    pub(crate) fn read(alloc: Global, document: &Table) -> Result<Settings, ConfigError>
        ensures { Gives settings_value result (settings_of_document (table_view document.now)) }
    {
        known_keys(alloc, document)?;
        keys_present(document)?;
        Settings::values_in(alloc, document)
    }
}
