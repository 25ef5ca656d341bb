//! What a program in C gives to a station or a line and gets from it, as values: settings,
//! addresses, counts, octets in a buffer of its own, and faults by their numbers.
//!
//! The layouts are those of `embed/bsc.h`. C may put any octet into any field: a number or a
//! character out of its range is a fault. Settings and addresses are those of a line of GA27-3004;
//! the numbers, the layouts and the faults are this project's own.

mod addresses;
mod buffer;
mod counts;
mod fault;
mod settings;

pub use addresses::{StoredAddress, StoredAddresses, read_terminals};
pub use buffer::put;
pub use counts::{Sending, StoredKept};
pub use fault::{Fault, number_of};
pub use settings::Settings;
