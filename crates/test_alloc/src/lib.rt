//! An allocator for tests. It passes each request to another allocator, counts it, and refuses the
//! requests that the test selects, so that a test can refuse each growth of a collection in turn.
//!
//! Nothing in this crate is part of the line procedure.
#![tactic(auto)]

mod in_turn;
mod refusing;
mod requests;
#[cfg(test)]
mod tests;
mod turns;

pub use in_turn::InTurn;
pub use refusing::{Refusal, Refusing};
pub use turns::TurnError;
