//! Tests of a line under a watch: each transmission of some exchanges is heard as anything near it,
//! stations begin again at each of them, and what the watch reports of a line on which something
//! happened without it.
//!
//! The messages are the standard's (GA27-3004); the exchanges and what is near a transmission are
//! this project's own.
#![tactic(auto)]

#[cfg(test)]
mod exchanges;
#[cfg(test)]
mod fixtures;
#[cfg(test)]
mod hearings;
#[cfg(test)]
mod restarts;
#[cfg(test)]
mod starved;
#[cfg(test)]
mod told;
