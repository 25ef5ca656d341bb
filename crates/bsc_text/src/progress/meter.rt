//! What long work is told to.

use crate::progress::Counts;

/// Shows how far work has come.
pub trait Meter {
    /// Whether it is time to show the counts. The work asks after each step, so this costs little.
    fn is_due(&mut self) -> bool;

    /// Shows the counts, if it is time.
    fn show(&mut self, counts: Counts);
}

/// Shows nothing.
#[derive(Clone, Copy, Debug, Drop)]
pub struct Unmetered;

impl Meter for Unmetered {
    fn is_due(&mut self) -> bool {
        false
    }

    fn show(&mut self, _counts: Counts) {}
}
