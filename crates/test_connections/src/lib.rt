//! Tests of connections: socket records and cables, over streams in memory and over the loopback
//! address; and an attended station, over connections in memory and over sockets of this machine.
//!
//! Time-outs, messages and what socket records carry are the standard's (GA27-3004); connections,
//! socket records, cables and gaps are this project's own.
#![tactic(auto)]

#[cfg(test)]
mod beginning;
#[cfg(test)]
mod calls;
#[cfg(test)]
mod ending;
#[cfg(test)]
mod loopback;
#[cfg(test)]
mod meeting;
#[cfg(test)]
mod patience;
#[cfg(test)]
mod records;
#[cfg(test)]
mod refusals;
#[cfg(test)]
mod scene;
#[cfg(test)]
mod sockets;
#[cfg(test)]
mod waits;
#[cfg(test)]
mod written;
