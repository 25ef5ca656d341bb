//! Plays random events of all kinds on random lines under a watch, and prints the counts of what it
//! saw. `bench/soak` runs it with more events than the gate.
//!
//! Its arguments are the number of events and a seed, by default 20,000 and 1.
//!
//! The messages, and who may send which one when, are the standard's (GA27-3004); the events and
//! their numbers are this project's own.
#![tactic(auto)]

mod events;
mod player;
mod setups;
mod soak;
mod spoiling;

fn main(rt: HostRuntime) -> anyhow::Result<()> {
    soak::run(&rt)
}
