//! Tests of the code that README.md shows.
#![tactic(auto)]

#[cfg(test)]
mod examples;
