//! What `bscline store` does with the store of a station: it makes it, offers records, prints what
//! arrived and how far each channel is, and ends doubts, while no station has the store.
//!
//! The channels of a store are named as in a report: by the numbers of terminals and of their
//! selection addresses, which the text of its line gives.
#![tactic(auto)]

mod arrived;
mod command;
mod error;
mod kept_line;
pub mod laws;
mod offering;
mod reconciling;
mod releasing;
mod status;
mod stores;
mod work;

pub use command::store;
pub use error::StoringError;
pub use kept_line::{KeptLine, read_line_text};
pub use releasing::release;
pub use stores::{Opened, StoreFiles};
pub use work::{Work, do_work};
