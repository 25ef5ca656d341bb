//! Sends what a station answers, or withholds it.

ghost use Rattle.std.specs.Prelude.{◌≡◌, Bool, IfOk, List, false, not, true};
ghost use Rattle.std.specs.List.{AllZip};
ghost use Rattle.bsc_connections.specs.Parts.{connection_parts};
ghost use Rattle.bsc_connections.specs.Connections.{Sends};
ghost use Rattle.bsc_connections.specs.Histories.{Happening, sent_if_in_time};
ghost use Rattle.bsc_connections.specs.Attending.{Replies, WritesIfInTime};

use crate::{Connection, Decoded, Framing, LiveError, Monitor, Note, Waiter};
use bsc_bid::Station;
use bsc_frame::{MessageBuffer, Wire, encode};
use std::io::{Read, Write};

/// Writes a transmission to every open connection.
fn send_all<R: Read + Drop, W: Write + Drop, F: Framing + Drop>(
    connections: &mut [Connection<R, W, F>],
    octets: &[u8],
)
    ensures { AllZip (Sends (connection_parts R.Read W.Write F.Framing) octets.now)
        connections.old connections.new }
{
    'connections: for connection in connections.iter_mut() {
        connection.send(octets);
    }
}

/// Writes a transmission to every open connection if it is in time, and else to none. Then tells
/// the monitor which.
fn send_in_time<
    S: Station,
    R: Read + Drop,
    W: Write + Drop,
    F: Framing + Drop,
    T: Waiter<R, W>,
    M: Monitor<S>,
>(
    station: &S,
    connections: &mut [Connection<R, W, F>],
    transmission: &Decoded<'_>,
    waiter: &mut T,
    monitor: &mut M,
) -> Result<bool, LiveError>
    ensures sends { (in_time : Bool) × T.permits waiter.old in_time waiter.new
        × WritesIfInTime (connection_parts R.Read W.Write F.Framing) in_time transmission.now
        connections.old connections.new
        × M.is_told monitor.old station.now (sent_if_in_time in_time transmission.now) result
        monitor.new }
    ensures answer { IfOk result (λ goes_on. goes_on ≡ not (M.has_ended monitor.new)) }
    ensures kept { M.has_ended monitor.old ≡ true → M.has_ended monitor.new ≡ true }
{
    if !waiter.may_send() {
        return monitor.note(station, Note::Withheld { transmission });
    }
    send_all(connections, transmission.octets());
    monitor.note(station, Note::Sent { transmission })
}

/// Sends the answer of the station, if there is one, the monitor has accepted what happened, and it
/// is in time, and tells the monitor what was sent or withheld. `told` is what the monitor returned
/// before. Returns the first error of the monitor, or whether the station is attended further.
pub(crate) fn reply<
    S: Station,
    R: Read + Drop,
    W: Write + Drop,
    F: Framing + Drop,
    T: Waiter<R, W>,
    M: Monitor<S>,
>(
    station: &S,
    connections: &mut [Connection<R, W, F>],
    told: Result<bool, LiveError>,
    answer: &MessageBuffer,
    waiter: &mut T,
    monitor: &mut M,
) -> Result<bool, LiveError>
    requires { IfOk told (λ goes_on. goes_on ≡ false → M.has_ended monitor.old ≡ true) }
    ensures replies { (happened : List Happening)
        × Replies (connection_parts R.Read W.Write F.Framing) M.is_told T.permits told answer.now
        station.now (record { connections = connections.old; monitor = monitor.old }) waiter.old
        happened result (record { connections = connections.new; monitor = monitor.new })
        waiter.new }
    ensures ended { IfOk result (λ goes_on. goes_on ≡ false → M.has_ended monitor.new ≡ true) }
{
    let goes_on = match told {
        Ok(goes_on) => goes_on,
        Err(error) => return Err(error),
    };
    let Some(message) = answer.message() else {
        return Ok(goes_on);
    };
    let mut wire = Wire::new();
    encode(&message, &mut wire);
    let transmission = &Decoded::sent(message, &wire);
    match send_in_time(station, connections, transmission, waiter, monitor) {
        Ok(goes_on_later) => Ok(goes_on_later && goes_on),
        Err(error) => Err(error),
    }
}
