//! The configuration of a line.

ghost use Rattle.std.specs.Prelude.{◌≡◌, length, IfErr, IfOk};
ghost use Rattle.bsc_config.specs.Answers.{IsConfig};
ghost use Rattle.bsc_config.specs.Refusals.{IsRefusal};

use crate::error::ConfigError;
use crate::settings::Settings;
use bsc_bid::{Directory, Setup, Terminal};
use std::alloc::Global;
use std::marker::Model;

/// The configuration of a line: its settings, its terminals and its poll list. It has 1 to 64
/// terminals with distinct addresses, and 1 to 255 entries in its poll list, each the number of one
/// of the terminals. A control station or a line with this configuration is therefore refused only
/// when memory runs out.
#[derive(Debug, Drop)]
pub struct Config {
    setup: Setup,
    terminals: Vec<Terminal>,
    poll_list: Vec<u8>,
}

impl Model for Config {
    ghost use Rattle.bsc_config.specs.Settings.{ConfigValue, config_of};
    ghost use Rattle.bsc_config.specs.Answers.{IsConfig};

    ghost Value = { ConfigValue };

    ghost view = { λ c. config_of c.setup c.terminals.items c.poll_list.items };

    ghost invariant = { λ c.
        IsConfig (config_of c.setup c.terminals.items c.poll_list.items) };
}

impl Config {
    ghost use Rattle.bsc_config.specs.SettingsValues.{settings_value};

    /// Returns the configuration with these settings, or the reason why a line with them is
    /// refused.
    pub(crate) fn new(alloc: Global, settings: Settings) -> Result<Config, ConfigError>
        ensures value { IfOk result (λ c. c ≡ settings_value settings) }
        ensures config { IfOk result IsConfig }
        ensures refused { IfErr result (IsRefusal (settings_value settings)) }
    {
        let Settings {
            setup,
            terminals,
            poll_list,
        } = settings;
        let directory = Directory::new(alloc, &terminals, &poll_list)?;
        drop(directory);
        Ok(Config {
            setup,
            terminals,
            poll_list,
        })
    }

    /// Returns the settings: the format of records and blocks, and the number of failures and WACKs
    /// that a station allows.
    pub fn setup(&self) -> Setup
        ensures value { result ≡ self.now.setup }
        ensures config { IsConfig self.now }
    {
        // Reading a field makes the invariant known here.
        let _ = &self.terminals;
        self.setup
    }

    /// Returns the addresses of each terminal, in the order of the terminal numbers: 1 to 64 of
    /// them.
    pub fn terminal_list(&self) -> &[Terminal]
        ensures value { result.now ≡ self.now.terminals }
        ensures config { IsConfig self.now }
    {
        self.terminals.as_slice()
    }

    /// Returns the poll list: 1 to 255 entries, each the number of a terminal.
    pub fn poll_list(&self) -> &[u8]
        ensures value { result.now ≡ self.now.poll_list }
        ensures config { IsConfig self.now }
    {
        self.poll_list.as_slice()
    }

    /// Returns the number of terminals on the line, 1 to 64.
    pub fn terminals(&self) -> usize
        ensures value { result ≡ length self.now.terminals }
        ensures config { IsConfig self.now }
    {
        self.terminals.len()
    }
}
