//! The two ends of a channel: the queue of the records that were offered, and the spool of those
//! that arrived; and what is kept of both, so that a station can be made again after its process
//! ended.
//!
//! A station that is killed and started again goes on with what its store kept. At the sending end
//! of a channel that is: the offered records in order, how many of them are known to have arrived,
//! and how many records the block has that is unanswered or in doubt. At the receiving end it is
//! the records that arrived, in order, and how many of them were printed. All changes of one step
//! of a station are kept at once. A `Store` is any place that keeps them.
//!
//! GA27-3004 says that ETB ends a block that others follow, and ETX the last one. Queues, spools,
//! the way in which waiting records are divided into blocks, and stores are this project's own.
#![tactic(auto)]

mod change;
mod channel;
mod ends;
mod fault;
pub mod laws;
mod named;
mod queue;
mod spool;
mod store;

pub use change::Change;
pub use channel::Channel;
pub use ends::{Receiving, Sending};
pub use fault::StoreFault;
pub use named::NamedChannel;
pub use queue::{Next, Queue};
pub use spool::Spool;
pub use store::{Found, Progress, Store};
