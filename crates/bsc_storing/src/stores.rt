//! The stores of a machine.

use bsc_spool::{Store, StoreFault};

/// A store that was opened, and the text of the line and the station to which it belongs.
#[derive(Drop)]
pub struct Opened<S> {
    pub store: S,
    pub line: String,
}

/// The stores of a machine, while no station has them.
pub trait StoreFiles {
    /// A store that is open.
    type Kept: Store + Drop;

    /// Opens the store at this path, whatever its line is. Fails with `InUse` while a station or
    /// anything else has it.
    fn open_kept(&mut self, path: &str) -> Result<Opened<Self::Kept>, StoreFault>;

    /// Closes a store.
    fn close_kept(&mut self, opened: Opened<Self::Kept>) -> Result<(), StoreFault>;

    /// Makes a store at this path, with this text of its line. Fails with `Taken` if there is a
    /// database with a table, and with `Damaged` if there is a file that is none.
    fn make_kept(&mut self, path: &str, line: &str) -> Result<(), StoreFault>;
}
