//! One step of a station whose changes are kept.

ghost use Rattle.std.specs.Prelude.{◌≡◌, IfOk, false, true};
ghost use Rattle.bsc_keeping.specs.LiveRuns.{StepsOrWaits};

use crate::{Keeping, Keeps};
use bsc_bid::Station;
use bsc_connections::{Connection, Framing, LiveError, Monitor, Waiter, step};
use std::io::{Read, Write};

/// Waits for the next event and handles it, as `step` of `bsc_connections` does, with a monitor
/// that keeps what the station changes. If something is sent, all that the station has changed was
/// kept before. Returns false if the inner monitor ends the session.
pub fn step_kept<
    'a,
    S: Station,
    R: Read + Drop,
    W: Write + Drop,
    F: Framing + Drop,
    T: Waiter<R, W>,
    M: Monitor<S>,
    Q: Keeps<S>,
>(
    station: &mut S,
    connections: &mut [Connection<R, W, F>],
    waiter: &mut T,
    keeping: &mut Keeping<'a, M, Q>,
) -> Result<bool, LiveError>
    ensures steps { StepsOrWaits S.Station Q.keeps
        (record { station = station.old; kept = keeping.old.kept.now }) result
        (record { station = station.new; kept = keeping.new.kept.now }) }
    ensures ended { IfOk result (λ goes_on.
        goes_on ≡ false → M.has_ended keeping.new.watch.now ≡ true) }
    ensures same_watch { keeping.new.watch.ghost_name ≡ keeping.old.watch.ghost_name }
    ensures same_kept { keeping.new.kept.ghost_name ≡ keeping.old.kept.ghost_name }
{
    step(station, connections, waiter, keeping)
}
