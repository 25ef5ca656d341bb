//! Tests of whole runs: over loopback connections, and over connections in memory whose calls go
//! wrong in turn; and of runs from the texts of files.
//!
//! The messages of a run are the standard's (GA27-3004); configurations, scripts, traces and
//! reports are this project's own.
#![tactic(auto)]

#[cfg(test)]
mod devices;
#[cfg(test)]
mod fates;
#[cfg(test)]
mod files;
#[cfg(test)]
mod largest;
#[cfg(test)]
mod memory;
#[cfg(test)]
mod progress;
#[cfg(test)]
mod runs;
#[cfg(test)]
mod sweeps;
#[cfg(test)]
mod watched;
#[cfg(test)]
mod worked;
#[cfg(test)]
mod written;
