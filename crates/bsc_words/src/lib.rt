//! The command line of `bscline`: reads its arguments with `clap` and returns the work that they
//! ask for.
#![tactic(auto)]

mod entries;
mod given;
mod words;

pub use words::{Shown, read_words, wrong_words};
