//! The devices of the program: what the traits of other crates ask of a machine (`Files`, `Traces`,
//! `Cables`, `Network`, `Stores`, `StoreFiles`), and its standard output and standard error.
//!
//! No contract can say what a file, a socket, a clock or a terminal does. So each device takes any
//! runtime, but the stores, which take that of the system: tests can give it one that keeps what is
//! printed and whose clock they set. That is why the devices are a library apart from the program.
#![tactic(auto)]

mod connecting;
mod errors;
mod feeding;
mod file_limit;
mod machine;
mod network;
mod output;
mod readiness;
mod receiving;
mod screen;
mod store_limit;
mod stores;
mod streams;

pub use connecting::{Peer, connect_within};
pub use errors::Errors;
pub use machine::Machine;
pub use output::Output;
pub use readiness::OutputReadiness;
pub use screen::{Progress, Screen, Showing, Since};
pub use stores::KeptFile;
pub use streams::Streams;
