//! The configuration of a line: reads a TOML document into the settings, terminals and poll list of
//! a line.
//!
//! Polling addresses, selection addresses and the poll list are those of GA27-3004. The document,
//! its keys, its limits and its errors are this project's own.
//!
//! The document has these keys:
//!
//! | key | value | default |
//! |---|---|---|
//! | `version` | 1 or 2 | none, required |
//! | `full` | the full length of a record in characters, 1 to 144 | 80 |
//! | `block_chars` | the largest character count of a block, 146 to 400 | 400 |
//! | `tries` | the number of failures in a row that are allowed, 1 to 15 | 3 |
//! | `waits` | the number of WACKs that are allowed, 1 to 255 | 10 |
//! | `poll_list` | a list of terminal numbers, each 0 to 255 | none, required |
//! | `terminals` | a list of tables with the keys `poll` and `select` | none, required |
//!
//! `poll` is the polling address of a terminal, a string. `select` is its selection address, a
//! string, in version 1, and a list of one to four such strings in version 2. An address has 1 to 7
//! characters, each from 21 to 7E hexadecimal. Neither the document nor the table of a terminal may
//! have any other key.
//!
//! ```toml
//! version = 1
//! poll_list = [0, 1]
//!
//! [[terminals]]
//! poll = "A"
//! select = "a"
//!
//! [[terminals]]
//! poll = "B"
//! select = "b"
//! ```
#![tactic(auto)]

mod config;
mod error;
mod key;
mod known;
mod lookup;
mod numbers;
mod poll_list;
mod present;
mod reading;
pub mod script;
mod settings;
mod terminals;
mod values;

pub use config::Config;
pub use error::ConfigError;
pub use key::{Key, Owner, UnknownKey};
pub use reading::read_config;
