//! A terminal of the line as a pure state machine: octets and silences go in, octets come out.
//!
//! A [`Tributary`] answers calls of its own addresses: if it is polled, it sends the records that
//! were offered to it; if it is selected, it stores what arrives in the spool of the address that
//! was called. It follows its table exactly and can be used by itself, with a control station of
//! another make.
//!
//! Polling, selection, control mode and the tributary's side of a bid are those of GA27-3004.
//! Several selection addresses and spools, the ready and urgent flags, that a sending terminal acts
//! on a silence, and doubt and its release are this project's own.
#![tactic(auto)]

mod called;
pub mod laws;
mod mode;
mod spools;
mod tributary;

pub use called::addresses_differ;
pub use tributary::Tributary;
