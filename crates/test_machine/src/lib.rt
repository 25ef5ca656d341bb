//! Tests of the machine on which the program runs: on the system with its files, stores and
//! sockets, and on a runtime for tests, which keeps what is printed and whose clock is set.
#![tactic(auto)]

#[cfg(test)]
mod connecting;
#[cfg(test)]
mod fake;
#[cfg(test)]
mod files;
#[cfg(test)]
mod kept;
#[cfg(test)]
mod listening;
#[cfg(test)]
mod outputs;
#[cfg(test)]
mod screens;
#[cfg(test)]
mod serving;
