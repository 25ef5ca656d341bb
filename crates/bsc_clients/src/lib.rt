//! The sockets of the programs that feed a station while it runs: the `bsc_serving::Programs` over
//! the sockets of this machine, by the readiness reports of the system, and the connection of such
//! a program to its station. It knows nothing of what is said on them, except for [`command`], the
//! work of `bscline feed`.
//!
//! - `ServedAt` is where programs reach a station: a TCP address or the path of a Unix socket.
//! - `Clients` listens there. Its descriptor tells that a program may have to be served.
//! - `reach` connects a program to a station that serves.
#![tactic(auto)]

mod calls;
mod clients;
pub mod command;
mod error;
mod identity;
mod listener;
mod private_folder;
mod reaching;
mod replacing;
mod served_at;
mod socket_file;
mod stream;

pub use clients::Clients;
pub use error::ClientsError;
pub use reaching::{Direction, Reached, reach};
pub use served_at::ServedAt;
pub use stream::Stream;
