//! Who may answer what a station has sent last.

ghost use Rattle.std.specs.Prelude.{◌≡◌, ◌&&◌, slice_get};
ghost use Rattle.bsc_connections.specs.Attending.{is_any_reached, is_reached_at};

use crate::{Connection, Framing, Monitor};
use std::io::{Read, Write};

/// Returns whether somebody may answer what the station has sent last: a peer that is connected, on
/// whose connection a transmission was written, and that the monitor says may answer.
pub(crate) fn is_any_reached<S, R: Read + Drop, W: Write + Drop, F: Framing + Drop, M: Monitor<S>>(
    station: &S,
    connections: &[Connection<R, W, F>],
    monitor: &M,
) -> bool
    ensures { result
        ≡ is_any_reached (M.may_answer monitor.now station.now) connections.now }
{
    let mut any = false;
    'places: for place in 0..connections.len() {
        any |= is_reached_at(station, connections, place, monitor);
    }
    any
}

/// Returns whether the peer of the connection at this place may answer what the station has sent
/// last.
fn is_reached_at<S, R: Read + Drop, W: Write + Drop, F: Framing + Drop, M: Monitor<S>>(
    station: &S,
    connections: &[Connection<R, W, F>],
    place: usize,
    monitor: &M,
) -> bool
    ensures { result
        ≡ (is_reached_at (slice_get connections.now place)
        && M.may_answer monitor.now station.now place) }
{
    match connections.get(place) {
        Some(connection) => connection.is_reached() && monitor.may_answer(station, place),
        None => false,
    }
}
