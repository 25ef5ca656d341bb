//! Tests of settings, queues, spools, bids and single stations, in octets, as a program uses one of
//! the libraries with stations of another manufacturer.
//!
//! What the stations send in reply to what is the standard's (GA27-3004); limits of a bid, doubt,
//! release and refused growths are this project's own.
#![tactic(auto)]

#[cfg(test)]
mod bids;
#[cfg(test)]
mod control;
#[cfg(test)]
mod ends;
#[cfg(test)]
mod growths;
#[cfg(test)]
mod hearing;
#[cfg(test)]
mod most;
#[cfg(test)]
mod queues;
#[cfg(test)]
mod receivers;
#[cfg(test)]
mod settings;
#[cfg(test)]
mod tributary;
