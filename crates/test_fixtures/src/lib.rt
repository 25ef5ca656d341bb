//! Data shared by the tests of several crates: the transmissions of their exchanges, the settings
//! and terminals of the line on which most of them play, its configuration, comparisons of records
//! with characters, a store in memory, a writer that fails, and random numbers. The crates of the
//! line use it in their tests only.
//!
//! The transmissions are the standard's (GA27-3004); the settings and terminals are this project's
//! own.
#![tactic(auto)]

pub mod configurations;
mod full;
mod heap;
pub mod lines;
mod memory;
pub mod octets;
mod random;
pub mod records;
#[cfg(test)]
mod tests;

pub use full::Full;
pub use heap::on_heap;
pub use memory::Memory;
pub use random::Random;
