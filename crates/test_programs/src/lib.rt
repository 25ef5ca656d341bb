//! Tests of the programs that feed a station: the sessions of programs over connections in memory,
//! of which each test decides what they do; the sockets of programs on this machine; and the work
//! of `bscline feed`, over a station that says what the test has it say.
#![tactic(auto)]

#[cfg(test)]
mod acts;
#[cfg(test)]
mod feeding;
#[cfg(test)]
mod kept;
#[cfg(test)]
mod listening;
#[cfg(test)]
mod meetings;
#[cfg(test)]
mod paths;
#[cfg(test)]
mod served;
#[cfg(test)]
mod sockets;
#[cfg(test)]
mod stations;
#[cfg(test)]
mod world;
