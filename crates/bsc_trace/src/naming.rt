//! Prints the names of transmissions given in hexadecimal text or in the lines of a trace: the work
//! of `bscline name`, `bscline` and `bscline show`.
//!
//! The transmissions are those of GA27-3004. Their names in print, hexadecimal text and traces are
//! this project's own.

mod error;
mod naming;

pub use error::NamingError;
pub use naming::{last_word, name, names, show};
