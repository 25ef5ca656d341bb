//! Tests of the texts that the libraries read and print: inputs, configurations, scripts, errors,
//! the names of transmissions, and ladders as texts, pictures and pages.
//!
//! All of these texts are this project's own; the transmissions, settings and events in them are
//! those of the line procedure (GA27-3004).
#![tactic(auto)]

#[cfg(test)]
mod configurations;
#[cfg(test)]
mod errors;
#[cfg(test)]
mod faults;
#[cfg(test)]
mod files;
#[cfg(test)]
mod flushes;
#[cfg(test)]
mod inputs;
#[cfg(test)]
mod ladders;
#[cfg(test)]
mod naming;
#[cfg(test)]
mod pictures;
#[cfg(test)]
mod scripts;
#[cfg(test)]
mod sizes;
