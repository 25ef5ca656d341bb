//! Runs a station: what happens on its connections is handled one event at a time.

ghost use Rattle.std.specs.Prelude.{◌≡◌, ◌<◌, ◌&&◌, length, List, true, false, is_none, is_some};
ghost use Rattle.std.specs.Prelude.{IfOk, IfSome, OnOk, slice_get};
ghost use Rattle.bsc_connections.specs.Parts.{connection_parts, session_parts};
ghost use Rattle.bsc_connections.specs.Histories.{Happening};
ghost use Rattle.bsc_connections.specs.Attending.{Attends, StepsOrFails, Does, Arrives, IsSilent};
ghost use Rattle.bsc_connections.specs.Attending.{IsEnded, IsTakenAt, PlaceFor, awaits_gap};
ghost use Rattle.bsc_connections.specs.Attending.{first_closed, first_untold, handled_if};

use crate::reached::is_any_reached;
use crate::replying::reply;
use crate::{
    Awaited, Connection, Decoded, Framing, Handled, LiveError, Monitor, Note, Refusal, Taken,
    Waiter,
};
use bsc_bid::Station;
use bsc_frame::{MessageBuffer, TextBuffer};
use std::io::{Read, Write};

/// Attends a station over these connections until the monitor ends it. The station hears each
/// transmission that the monitor admits; of one that it does not admit the monitor is only told.
/// The monitor is told what the station heard, or that a time-out passed, before the station's
/// answer is written. If it accepts that, the answer is written to every open connection before
/// anything else is heard, or withheld where the waiter says that it is late, so that it is lost to
/// the peers and none of them hears it after a time-out; if the monitor refuses, nothing is
/// written. It makes no difference to the station whether its answer is withheld. A connection that
/// fails or ends is closed for good, and a peer that connects later takes its place, or one that is
/// vacant; if none is closed, that of a connection that the waiter says may be replaced. Returns at
/// once with any error of the waiter or of the monitor, and with `Count` after 2^64 - 1 steps.
pub fn attend<
    S: Station,
    R: Read + Drop,
    W: Write + Drop,
    F: Framing + Drop,
    T: Waiter<R, W>,
    M: Monitor<S>,
>(
    station: &mut S,
    connections: &mut [Connection<R, W, F>],
    waiter: &mut T,
    monitor: &mut M,
) -> Result<(), LiveError>
    ensures attends { (history : List Happening)
        × Attends
        (session_parts S.Station R.Read W.Write F.Framing M.is_told M.admits M.may_answer M.paces
        T.Waiter)
        (record {
          station = station.old;
          connections = connections.old;
          monitor = monitor.old;
          waiter = waiter.old;
        })
        history
        (record {
          station = station.new;
          connections = connections.new;
          monitor = monitor.new;
          waiter = waiter.new;
        }) }
    ensures ended { OnOk result (M.has_ended monitor.new ≡ true) }
    ensures by { IsEnded
        (session_parts S.Station R.Read W.Write F.Framing M.is_told M.admits M.may_answer M.paces
        T.Waiter)
        (record {
          station = station.old;
          connections = connections.old;
          monitor = monitor.old;
          waiter = waiter.old;
        })
        result
        (record {
          station = station.new;
          connections = connections.new;
          monitor = monitor.new;
          waiter = waiter.new;
        }) }
{
    'steps: for count in 0..u64::MAX {
        if !step(station, connections, waiter, monitor)? {
            return Ok(());
        }
    }
    Err(LiveError::Count)
}

/// Waits for the next event and handles it; a connection that a failed write has closed is told of
/// first. Returns false if the monitor ends the session.
pub fn step<
    S: Station,
    R: Read + Drop,
    W: Write + Drop,
    F: Framing + Drop,
    T: Waiter<R, W>,
    M: Monitor<S>,
>(
    station: &mut S,
    connections: &mut [Connection<R, W, F>],
    waiter: &mut T,
    monitor: &mut M,
) -> Result<bool, LiveError>
    ensures steps { StepsOrFails
        (session_parts S.Station R.Read W.Write F.Framing M.is_told M.admits M.may_answer M.paces
        T.Waiter)
        (record {
          station = station.old;
          connections = connections.old;
          monitor = monitor.old;
          waiter = waiter.old;
        })
        result
        (record {
          station = station.new;
          connections = connections.new;
          monitor = monitor.new;
          waiter = waiter.new;
        }) }
    ensures ended { IfOk result (λ goes_on. goes_on ≡ false → M.has_ended monitor.new ≡ true) }
{
    if let Some(connection) = first_untold(connections) {
        return read_at(station, connections, connection, waiter, monitor);
    }
    match waiter.wait(is_any_reached(station, connections, monitor)) {
        Ok(Awaited::Octets { connection }) => {
            read_at(station, connections, connection, waiter, monitor)
        }
        Ok(Awaited::Newcomer) => join(station, connections, waiter, monitor),
        Ok(Awaited::NotAccepted) => {
            let (peer, why) = (None, Refusal::NotAccepted);
            monitor.note(station, Note::Refused { peer, why })
        }
        Ok(Awaited::NotAllowed) => {
            let (peer, why) = (waiter.newcomer(), Refusal::NotAllowed);
            waiter.turn_away();
            monitor.note(station, Note::Refused { peer, why })
        }
        Ok(Awaited::Gap { connection }) => {
            gap_at(station, connections, connection, waiter, monitor)
        }
        Ok(Awaited::TimeOut) => silence(station, connections, waiter, monitor),
        Ok(Awaited::Stopped) => monitor.note(station, Note::Stopped),
        Ok(Awaited::Client) => Ok(true),
        Err(error) => Err(error),
    }
}

/// Returns the place of the first connection that a failed write has closed, and of which that is
/// not told yet.
fn first_untold<R: Read + Drop, W: Write + Drop, F: Framing + Drop>(
    connections: &[Connection<R, W, F>],
) -> Option<usize>
    ensures { result ≡ first_untold connections.now }
{
    connections.iter().position(
        |connection| -> bool
            ensures { result ≡ (is_none connection.now.ends && is_some connection.now.untold) }
        { connection.is_untold() },
    )
}

/// Returns whether a transmission has begun at this place that a gap would end.
fn awaits_gap_at<R: Read + Drop, W: Write + Drop, F: Framing + Drop>(
    connections: &[Connection<R, W, F>],
    place: usize,
) -> bool
    ensures value { result ≡ awaits_gap F.awaits (slice_get connections.now place) }
    ensures within { result ≡ true → place < length connections.now }
{
    match connections.get(place) {
        Some(connection) => connection.awaits_gap(),
        None => false,
    }
}

/// Reads once at this place. If the read completes a transmission, the station hears it if the
/// monitor admits it.
fn read_at<
    S: Station,
    R: Read + Drop,
    W: Write + Drop,
    F: Framing + Drop,
    T: Waiter<R, W>,
    M: Monitor<S>,
>(
    station: &mut S,
    connections: &mut [Connection<R, W, F>],
    connection: usize,
    waiter: &mut T,
    monitor: &mut M,
) -> Result<bool, LiveError>
    ensures does { (happened : List Happening)
        × Does
        (session_parts S.Station R.Read W.Write F.Framing M.is_told M.admits M.may_answer M.paces
        T.Waiter)
        (Awaited.Octets connection)
        (record {
          station = station.old;
          connections = connections.old;
          monitor = monitor.old;
          waiter = waiter.old;
        })
        happened result
        (record {
          station = station.new;
          connections = connections.new;
          monitor = monitor.new;
          waiter = waiter.new;
        }) }
    ensures ended { IfOk result (λ goes_on. goes_on ≡ false → M.has_ended monitor.new ≡ true) }
{
    match take_at(connections, connection) {
        Taken::Nothing => {
            waiter.nothing_left(connection);
            Ok(true)
        }
        Taken::Interrupted => Ok(true),
        Taken::Part => {
            if awaits_gap_at(connections, connection) {
                waiter.begin_gap(connection);
            }
            Ok(true)
        }
        Taken::Whole => arrive_at(station, connections, connection, waiter, monitor),
        Taken::Closed { why } => {
            waiter.nothing_left(connection);
            let peer = waiter.peer(connection);
            monitor.note(
                station,
                Note::Closed {
                    connection,
                    peer,
                    why,
                },
            )
        }
    }
}

/// Reads once at this place. Returns `Nothing` if there is no such connection.
fn take_at<R: Read + Drop, W: Write + Drop, F: Framing + Drop>(
    connections: &mut [Connection<R, W, F>],
    place: usize,
) -> Taken
    ensures { IsTakenAt (connection_parts R.Read W.Write F.Framing) place
        connections.old result connections.new }
{
    if place >= connections.len() {
        return Taken::Nothing;
    }
    connections[place].take()
}

/// Lets the station hear the last transmission of the connection at this place if the monitor
/// admits it, tells the monitor what was heard, and sends the station's answer if the monitor
/// accepts and it is in time. The waiter is then told whether the station had an answer. If the
/// monitor does not admit the transmission, it is told of it, and nothing else is done.
fn arrive_at<
    S: Station,
    R: Read + Drop,
    W: Write + Drop,
    F: Framing + Drop,
    T: Waiter<R, W>,
    M: Monitor<S>,
>(
    station: &mut S,
    connections: &mut [Connection<R, W, F>],
    connection: usize,
    waiter: &mut T,
    monitor: &mut M,
) -> Result<bool, LiveError>
    requires { connection < length connections.old }
    ensures arrives { (happened : List Happening)
        × Arrives
        (session_parts S.Station R.Read W.Write F.Framing M.is_told M.admits M.may_answer M.paces
        T.Waiter)
        connection
        (record {
          station = station.old;
          connections = connections.old;
          monitor = monitor.old;
          waiter = waiter.old;
        })
        happened result
        (record {
          station = station.new;
          connections = connections.new;
          monitor = monitor.new;
          waiter = waiter.new;
        }) }
    ensures ended { IfOk result (λ goes_on. goes_on ≡ false → M.has_ended monitor.new ≡ true) }
{
    let mut buffer = TextBuffer::new();
    let transmission = &Decoded::new(connections[connection].octets(), &mut buffer);
    if !monitor.admits(station, connection, transmission) {
        let ignored = Note::Ignored {
            connection,
            transmission,
        };
        return monitor.note(station, ignored);
    }
    let mut answer = MessageBuffer::new();
    station.answer(transmission.heard(), &mut answer);
    let heard = Note::Heard {
        connection,
        transmission,
    };
    let told = monitor.note(station, heard);
    let result = reply(station, connections, told, &answer, waiter, monitor);
    waiter.handled(handled_at(connection, &answer), monitor.pace());
    result
}

/// Returns what a station has handled that heard a transmission at this place, by its answer.
fn handled_at(connection: usize, answer: &MessageBuffer) -> Handled
    ensures { result ≡ handled_if (is_some answer.now) connection }
{
    if answer.is_some() {
        Handled::Answered { connection }
    } else {
        Handled::Unanswered { connection }
    }
}

/// Handles a gap at this place: it ends the transmission that has begun there, if there is one that
/// a gap would end. The station hears that if the monitor admits it.
fn gap_at<
    S: Station,
    R: Read + Drop,
    W: Write + Drop,
    F: Framing + Drop,
    T: Waiter<R, W>,
    M: Monitor<S>,
>(
    station: &mut S,
    connections: &mut [Connection<R, W, F>],
    connection: usize,
    waiter: &mut T,
    monitor: &mut M,
) -> Result<bool, LiveError>
    ensures does { (happened : List Happening)
        × Does
        (session_parts S.Station R.Read W.Write F.Framing M.is_told M.admits M.may_answer M.paces
        T.Waiter)
        (Awaited.Gap connection)
        (record {
          station = station.old;
          connections = connections.old;
          monitor = monitor.old;
          waiter = waiter.old;
        })
        happened result
        (record {
          station = station.new;
          connections = connections.new;
          monitor = monitor.new;
          waiter = waiter.new;
        }) }
    ensures ended { IfOk result (λ goes_on. goes_on ≡ false → M.has_ended monitor.new ≡ true) }
{
    if !awaits_gap_at(connections, connection) {
        return Ok(true);
    }
    let _ = connections[connection].gap();
    arrive_at(station, connections, connection, waiter, monitor)
}

/// Tells the station of a silence, tells the monitor of it, and sends the station's answer if the
/// monitor accepts and it is in time. The waiter is then told of the silence.
fn silence<
    S: Station,
    R: Read + Drop,
    W: Write + Drop,
    F: Framing + Drop,
    T: Waiter<R, W>,
    M: Monitor<S>,
>(
    station: &mut S,
    connections: &mut [Connection<R, W, F>],
    waiter: &mut T,
    monitor: &mut M,
) -> Result<bool, LiveError>
    ensures silent { (happened : List Happening)
        × IsSilent
        (session_parts S.Station R.Read W.Write F.Framing M.is_told M.admits M.may_answer M.paces
        T.Waiter)
        (record {
          station = station.old;
          connections = connections.old;
          monitor = monitor.old;
          waiter = waiter.old;
        })
        happened result
        (record {
          station = station.new;
          connections = connections.new;
          monitor = monitor.new;
          waiter = waiter.new;
        }) }
    ensures ended { IfOk result (λ goes_on. goes_on ≡ false → M.has_ended monitor.new ≡ true) }
{
    let mut answer = MessageBuffer::new();
    station.act(&mut answer);
    let told = monitor.note(station, Note::Silence);
    let result = reply(station, connections, told, &answer, waiter, monitor);
    waiter.handled(Handled::Silence, monitor.pace());
    result
}

/// Returns the place of the first connection that is closed.
fn first_closed<R: Read + Drop, W: Write + Drop, F: Framing + Drop>(
    connections: &[Connection<R, W, F>],
) -> Option<usize>
    ensures first { result ≡ first_closed connections.now }
    ensures within { IfSome result (λ place. place < length connections.now) }
{
    connections.iter().position(
        |connection| -> bool
            ensures { result ≡ is_none connection.now.ends }
        { !connection.is_open() },
    )
}

/// Returns the place that a newcomer gets: the first whose connection is closed, or if there is
/// none that of a connection which the waiter says may be replaced.
fn place_for<R: Read + Drop, W: Write + Drop, F: Framing + Drop, T: Waiter<R, W>>(
    connections: &[Connection<R, W, F>],
    waiter: &T,
) -> Option<usize>
    ensures place { PlaceFor T.may_replace (first_closed connections.now) (length connections.now)
        waiter.now result }
    ensures within { IfSome result (λ place. place < length connections.now) }
{
    if let Some(place) = first_closed(connections) {
        return Some(place);
    }
    match waiter.replaceable() {
        Some(place) if place < connections.len() => Some(place),
        _ => None,
    }
}

/// Gives a peer that has connected the first place whose connection is closed, or if all are open
/// the place of one that may be replaced, or turns it away if there is none.
fn join<
    S: Station,
    R: Read + Drop,
    W: Write + Drop,
    F: Framing + Drop,
    T: Waiter<R, W>,
    M: Monitor<S>,
>(
    station: &mut S,
    connections: &mut [Connection<R, W, F>],
    waiter: &mut T,
    monitor: &mut M,
) -> Result<bool, LiveError>
    ensures does { (happened : List Happening)
        × Does
        (session_parts S.Station R.Read W.Write F.Framing M.is_told M.admits M.may_answer M.paces
        T.Waiter)
        Awaited.Newcomer
        (record {
          station = station.old;
          connections = connections.old;
          monitor = monitor.old;
          waiter = waiter.old;
        })
        happened result
        (record {
          station = station.new;
          connections = connections.new;
          monitor = monitor.new;
          waiter = waiter.new;
        }) }
    ensures ended { IfOk result (λ goes_on. goes_on ≡ false → M.has_ended monitor.new ≡ true) }
{
    let Some(connection) = place_for(connections, waiter) else {
        let (peer, why) = (waiter.newcomer(), Refusal::NoPlace);
        waiter.turn_away();
        return monitor.note(station, Note::Refused { peer, why });
    };
    let Some((reader, writer)) = waiter.join(connection) else {
        return Ok(true);
    };
    let replaces = connections[connection].is_open();
    connections[connection] = Connection::new(reader, writer);
    let peer = waiter.peer(connection);
    monitor.note(
        station,
        Note::Joined {
            connection,
            peer,
            replaces,
        },
    )
}
