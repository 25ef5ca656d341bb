//! Tests of the store of a station, over files and over memory: what is read back, each fault by
//! its name, and what is left where a commit was cut off; and of the operations of `bscline store`,
//! over stores in memory.
#![tactic(auto)]

#[cfg(test)]
mod checks;
#[cfg(test)]
mod cut;
#[cfg(test)]
mod facts;
#[cfg(test)]
mod faults;
#[cfg(test)]
mod files;
#[cfg(test)]
mod kept;
#[cfg(test)]
mod lines;
#[cfg(test)]
mod machine;
#[cfg(test)]
mod script;
#[cfg(test)]
mod texts;
#[cfg(test)]
mod works;
