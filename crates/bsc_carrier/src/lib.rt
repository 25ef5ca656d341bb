//! Transmissions over byte streams.
//!
//! A transmission crosses a stream as one socket record: a length of two octets, the most
//! significant first, and then 1 to 2,048 octets. The records do not depend on the pieces in which
//! the stream gives its octets. A cable is both ends of a set of connections in one process; only
//! [`loopback`] needs sockets for it.
#![tactic(auto)]

mod assembler;
mod cable;
mod error;
mod fault;
pub mod laws;
pub mod limits;
pub mod loopback;
mod record;
mod two_buffers;

pub use assembler::Assembler;
pub use cable::Cable;
pub use error::{CarrierError, Octets};
pub use fault::DeviceFault;
pub use record::{read_record, write_record};
pub use two_buffers::TwoBuffers;
