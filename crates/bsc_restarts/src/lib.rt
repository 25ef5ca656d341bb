//! A station whose process ends at any moment and that begins again from its store is the one that
//! ended, after a restart.
#![tactic(auto)]

pub mod laws;
