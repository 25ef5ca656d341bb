//! Tests of whole lines with all their stations, used as a program uses the libraries.
//!
//! The exchanges of the stations are the standard's (GA27-3004); events, doubt, trust and the
//! limits of a line are this project's own.
#![tactic(auto)]

#[cfg(test)]
mod accepting;
#[cfg(test)]
mod channels;
#[cfg(test)]
mod exchanges;
#[cfg(test)]
mod fixtures;
#[cfg(test)]
mod growths;
#[cfg(test)]
mod makings;
#[cfg(test)]
mod play;
#[cfg(test)]
mod refusals;
#[cfg(test)]
mod rounds;
#[cfg(test)]
mod sizes;
