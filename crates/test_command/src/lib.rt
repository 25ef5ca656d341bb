//! Tests of the command: its words, its faults, whole runs and stations on a machine made for
//! tests, and the largest inputs.
//!
//! Words, texts, traces and exit statuses are this project's own; the messages in them are the
//! standard's (GA27-3004).
#![tactic(auto)]

#[cfg(test)]
mod backlogs;
#[cfg(test)]
mod bounds;
#[cfg(test)]
mod cases;
#[cfg(test)]
mod commands;
#[cfg(test)]
mod controls;
#[cfg(test)]
mod failing;
#[cfg(test)]
mod faults;
#[cfg(test)]
mod fed;
#[cfg(test)]
mod files;
#[cfg(test)]
mod given;
#[cfg(test)]
mod hostile_words;
#[cfg(test)]
mod kept;
#[cfg(test)]
mod machine;
#[cfg(test)]
mod opened;
#[cfg(test)]
mod pieces;
#[cfg(test)]
mod programs;
#[cfg(test)]
mod record;
#[cfg(test)]
mod runs;
#[cfg(test)]
mod session;
#[cfg(test)]
mod sizes;
#[cfg(test)]
mod stations;
#[cfg(test)]
mod stores;
#[cfg(test)]
mod told;
#[cfg(test)]
mod wires;
#[cfg(test)]
mod words;
