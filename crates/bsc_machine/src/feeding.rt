//! The stations that a machine can feed.

ghost use Rattle.std.specs.Prelude.{◌≡◌};
ghost use Rattle.bsc_machine.specs.Feeding.{reach_error};

use crate::machine::Machine;
use bsc_attending::served_at;
use bsc_clients::command::{FeedError, Stations};
use bsc_clients::{ClientsError, Direction, Reached, reach};
use bsc_options::read_serves;
use std::net::Net;
use std::time::Duration;

/// How long a station may take to answer, in seconds.
const PATIENCE_SECONDS: u64 = 3;

/// Returns why a station is not fed that could not be reached for this reason.
fn unreached(error: ClientsError) -> FeedError
    ensures { result ≡ reach_error error }
{
    match error {
        ClientsError::Address => FeedError::Address,
        ClientsError::NotPermitted => FeedError::NotPermitted,
        ClientsError::NobodyThere => FeedError::NobodyThere,
        ClientsError::Memory => FeedError::Memory,
        _ => FeedError::Sockets,
    }
}

impl<R: AllocGlobal + Net> Stations for Machine<'_, R> {
    type Heard = Direction<R::Stream>;

    type Said = Direction<R::Stream>;

    fn reach(&mut self, address: &str) -> Result<Reached<Self::Heard, Self::Said>, FeedError> {
        let at = served_at(read_serves(address, true));
        let patience = Duration::from_secs(PATIENCE_SECONDS);
        match reach(self.runtime, self.runtime.alloc(), at, patience) {
            Ok(reached) => Ok(reached),
            Err(error) => Err(unreached(error)),
        }
    }
}
