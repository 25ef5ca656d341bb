//! A clock.

/// A clock that counts from the start of the work.
pub trait Timer {
    /// Returns the milliseconds since the start.
    fn milliseconds(&mut self) -> u64;
}
