//! The work of `bscline station`: reads and checks the configuration and the records, and then
//! attends one station of the line over connections that the machine makes, until it ends.
//!
//! The station is that of GA27-3004. The options, the connections and the output are this project's
//! own.
#![tactic(auto)]

mod attending;
mod concluding;
mod connections;
mod cut_short;
mod error;
mod forgetting;
mod keeping;
mod live;
mod network;
mod offering;
mod preparing;
mod printer;
mod running;
mod serving;
mod stations;
mod wanted;

pub use error::AttendingError;
pub use network::{Network, Opened, Reachable, Readiness, Stores};
pub use serving::served_at;
pub use stations::station;
pub use wanted::Wanted;
