//! What programs need to reach a station, and what tells that they do.

ghost use Rattle.std.specs.Prelude.{◌≡◌, IfOk, is_some, option_map};
ghost use Rattle.bsc_attending.specs.Opening.{Reaches};
ghost use Rattle.bsc_attending.specs.Serving.{IsPlace};
ghost use Rattle.bsc_options.specs.Serves.{serves_value};

use crate::{Network, Reachable};
use bsc_clients::{ClientsError, ServedAt};
use bsc_options::Serves;
use bsc_serving::{Programs, Serving};
use std::alloc::{AllocError, Global};
use std::os::fd::RawFd;

/// Returns the place of the sockets for the place that options or words ask for.
pub fn served_at(serves: Serves<'_>) -> ServedAt<'_>
    ensures { IsPlace (serves_value serves.entry) result }
{
    match serves {
        Serves::Address { address, anyone } => ServedAt::Address { address, anyone },
        Serves::Path { path } => ServedAt::Path { path },
    }
}

/// Lets programs reach the station, if it is to serve them. `trace` is whether what happens is
/// traced.
pub(crate) fn reachable<H: Network>(
    serves: Option<Serves<'_>>,
    trace: bool,
    machine: &mut H,
) -> Result<Option<Reachable<H::Programs>>, ClientsError>
    ensures served { IfOk result (λ reachable.
        is_some reachable ≡ is_some (option_map (λ s. serves_value s) serves.entry)) }
    ensures reaches { Reaches H.Network.serves trace (option_map (λ s. serves_value s) serves.entry)
        machine.old result machine.new }
{
    match serves {
        Some(serves) => Ok(Some(machine.serve(served_at(serves), trace)?)),
        None => Ok(None),
    }
}

/// Returns the descriptor that is readable when one of the programs that can reach the station may
/// have to be served.
pub(crate) fn called_by<P: Drop>(reachable: &Option<Reachable<P>>) -> Option<RawFd>
    ensures { result ≡ option_map (λ r. r.descriptor) reachable.now }
{
    match reachable {
        Some(reachable) => Some(reachable.descriptor),
        None => None,
    }
}

/// Returns the sessions of the programs that can reach the station, none of which has begun.
pub(crate) fn serving_of<P: Programs + Drop>(
    alloc: Global,
    reachable: Option<Reachable<P>>,
) -> Result<Option<Serving<P>>, AllocError>
    ensures served { IfOk result (λ serving. is_some serving ≡ is_some reachable) }
    ensures programs { IfOk result (λ serving.
        option_map (λ s. s.programs) serving ≡ option_map (λ r. r.programs) reachable) }
{
    match reachable {
        Some(Reachable { programs, .. }) => Ok(Some(Serving::new(alloc, programs)?)),
        None => Ok(None),
    }
}
