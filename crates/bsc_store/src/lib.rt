//! The store of a station in a database: the `Store` of `bsc_spool` over tables, in a file or in
//! memory. All changes of one step of a station are committed at once.
//!
//! The file is one of SQLite, whose tables `docs/STORE.md` describes.
#![tactic(auto)]

mod channels;
mod checks;
mod fault;
mod files;
mod making;
mod queries;
mod reading;
mod store;
mod tables;
mod writing;

pub use store::TableStore;
