//! Tests of whole stations as the command runs them: attended over scripted connections, with
//! single notes and events, with growths and writes that fail, and with stores that outlive them.
//!
//! Calls and replies are the standard's (GA27-3004); rounds and visits as limits, notes, traces,
//! reports and stores are this project's own.
#![tactic(auto)]

#[cfg(test)]
mod attended_control;
#[cfg(test)]
mod attended_terminal;
#[cfg(test)]
mod fakes;
#[cfg(test)]
mod forgetting;
#[cfg(test)]
mod kept_stations;
#[cfg(test)]
mod notes;
#[cfg(test)]
mod offered;
#[cfg(test)]
mod some_printed;
#[cfg(test)]
mod stations;
