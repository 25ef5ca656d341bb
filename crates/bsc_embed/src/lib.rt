//! The functions of `embed/bsc.h`, for programs in C: frames, with storage that the caller
//! provides, and terminals, control stations and whole lines, by handles.
//!
//! There are three layers. The exports `bsc_..` find what a handle has; `terminal_calls`,
//! `control_calls` and `line_calls` have one function for each of them over the station or the line
//! itself, which requires nothing of the caller, answers with a fault why it did nothing, and then
//! changes nothing; and `interface` has what is given and returned as values. The only raw pointers
//! are in `handles`.
//!
//! The functions require nothing of their arguments except good pointers: a number, a length or a
//! character out of its range is a case of the contract. Of a handle, so are that nothing was made
//! or that it was freed, and that it is of another kind. In C a slice is two arguments, a pointer
//! and a length, and an allocator is none.
//!
//! The messages and their octets, and the stations, are those of GA27-3004, as `bsc_frame` and the
//! crates of the stations have them. The numbers, the layout of the storage, the handles, and what
//! happens with wrong numbers or too little room are this project's own.
#![tactic(auto)]

#[cfg(test)]
mod call_tests;
mod content;
mod control;
mod control_calls;
mod decoder;
mod encoder;
mod errors;
mod handles;
mod interface;
mod keeping;
mod kind;
mod line;
mod line_calls;
mod station_calls;
mod terminal;
mod terminal_calls;
#[cfg(test)]
mod tests;

pub use content::{Content, StoredUnit};
pub use decoder::bsc_decode;
pub use encoder::bsc_encode;
pub use kind::Kind;
