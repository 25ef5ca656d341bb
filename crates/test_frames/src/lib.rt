//! Tests of characters, transmissions and blocks with the public functions of their crates.
//!
//! Codes, control sequences, checks and texts are the standard's (GA27-3004); the limits of
//! addresses, units and records, and what a receiver accepts beyond what is sent, are this
//! project's own.
#![tactic(auto)]

#[cfg(test)]
mod block;
#[cfg(test)]
mod bounds;
#[cfg(test)]
mod definitions;
#[cfg(test)]
mod frame;
#[cfg(test)]
mod octet;
