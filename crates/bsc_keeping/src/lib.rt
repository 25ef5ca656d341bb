//! A station that outlives its process: what it changes of its records in a step is kept in a store
//! before anything is sent, and a new station is made again from the store.
//!
//! The monitor of a station is told what happened after the station has acted, and before its
//! answer is sent. `Keeping` wraps a monitor: it tells the inner monitor, which reads the clock,
//! and then has kept what the step has changed. If it is not kept, it refuses the step, and nothing
//! is sent. What keeps is a store (`Stored`), or, for a station without one, standard output, to
//! which the records that arrive are printed (`Printed`).
#![tactic(auto)]

mod changes;
mod filling;
mod fills;
mod keeper;
mod keeping;
mod keeps;
pub mod laws;
mod offering;
mod own;
mod own_text;
mod printed;
mod prints;
mod stepping;
mod stored;

pub use filling::{begin_control, begin_terminal};
pub use keeper::Keeper;
pub use keeping::Keeping;
pub use keeps::Keeps;
pub use own::Own;
pub use printed::Printed;
pub use prints::Prints;
pub use stepping::step_kept;
pub use stored::Stored;
