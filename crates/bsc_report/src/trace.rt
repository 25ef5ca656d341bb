//! The lines printed for the events of a station.

ghost use Rattle.std.specs.Prelude.{◌≡◌, ◌++◌, IfErr, None, OnOk};
ghost use Rattle.std.specs.Io.KnownBytes.{Appends};
ghost use Rattle.bsc_connections.specs.Notes.{told_by};
ghost use Rattle.bsc_frame.specs.Reading.{heard};
ghost use Rattle.bsc_text.specs.Names.{name_of};
ghost use Rattle.bsc_text.specs.Traces.{octets_shown, silence_line, time_shown};
ghost use Rattle.bsc_text.specs.Traces.{transmission_line};
ghost use Rattle.bsc_report.specs.Traces.{IsTraced, ShowsChange, closed_line, closed_shown};
ghost use Rattle.bsc_report.specs.Traces.{connection_shown, distrust_line};
ghost use Rattle.bsc_report.specs.Traces.{error_shown, fault_shown, joined_line, joined_shown};
ghost use Rattle.bsc_report.specs.Traces.{heard_from as sender_heard};
ghost use Rattle.bsc_report.specs.Traces.{origin_shown, peer_shown, refusal_shown, refused_line};
ghost use Rattle.bsc_report.specs.Traces.{stopped_line, withheld_line};

use bsc_bid::Speaker;
use bsc_carrier::{CarrierError, DeviceFault};
use bsc_connections::{Decoded, Note, Refusal};
use bsc_frame::laws::{one_reading, reading};
use bsc_text::{
    Fate, PrintError, Who, put, write_heard_name, write_octets, write_start, write_time, write_who,
};
use bsc_trust::Distrust;
use std::alloc::Allocator;
use std::io::Write;
use std::net::SocketAddr;

/// Writes the line of a transmission: the time in milliseconds, who sent it, what the station did
/// with it, its name, and its octets in hexadecimal text.
pub(crate) fn write_transmission<A: Allocator, W: Write>(
    alloc: A,
    time: u64,
    who: Who,
    fate: Fate,
    transmission: &Decoded<'_>,
    out: &mut W,
) -> Result<(), PrintError>
    ensures { OnOk result (Appends (W.contents out.old) (W.contents out.new)
        (transmission_line time who fate None (heard transmission.now) transmission.now)) }
{
    write_start(time, who, fate, None, out)?;
    write_content(alloc, transmission, out)
}

/// Writes the name of a transmission, its octets and the end of its line.
fn write_content<A: Allocator, W: Write>(
    alloc: A,
    transmission: &Decoded<'_>,
    out: &mut W,
) -> Result<(), PrintError>
    ensures { OnOk result (Appends (W.contents out.old) (W.contents out.new)
        (name_of (heard transmission.now) ++ octets_shown transmission.now)) }
{
    one_reading();
    reading();
    write_heard_name(transmission.heard(), out)?;
    write_octets(alloc, transmission.octets(), out)
}

/// Writes the line for an event of the station `me`: the time in milliseconds, and then the
/// transmission that it sent, heard, ignored or withheld, the time-out, that it is asked to end, or
/// the change of a connection.
pub fn write_note<A: Allocator, W: Write>(
    alloc: A,
    time: u64,
    me: Speaker,
    note: &Note<'_>,
    out: &mut W,
) -> Result<(), PrintError>
    ensures { OnOk result
        (IsTraced (told_by note.now) time me (W.contents out.old) (W.contents out.new)) }
{
    match note {
        Note::Heard {
            connection,
            transmission,
        } => {
            let who = heard_from(me, *connection);
            write_transmission(alloc, time, who, Fate::Heard, transmission, out)
        }
        Note::Ignored {
            connection,
            transmission,
        } => {
            let who = heard_from(me, *connection);
            write_transmission(alloc, time, who, Fate::Ignored, transmission, out)
        }
        Note::Sent { transmission } => {
            write_transmission(alloc, time, Who::Station(me), Fate::Sent, transmission, out)
        }
        Note::Withheld { transmission } => {
            write_transmission(
                alloc,
                time,
                Who::Station(me),
                Fate::Withheld,
                transmission,
                out,
            )
        }
        Note::Silence => write_silence(time, out),
        Note::Stopped => write_stopped(time, out),
        Note::Joined {
            connection,
            peer,
            replaces,
        } => write_timed_joined(time, *connection, *peer, *replaces, out),
        Note::Refused { peer, why } => write_timed_refused(time, *peer, *why, out),
        Note::Closed {
            connection,
            peer,
            why,
        } => write_timed_closed(time, *connection, *peer, *why, out),
    }
}

/// Writes the line for a peer that took a connection, with the time.
fn write_timed_joined<W: Write>(
    time: u64,
    connection: usize,
    peer: Option<SocketAddr>,
    replaces: bool,
    out: &mut W,
) -> Result<(), PrintError>
    ensures { OnOk result (Appends (W.contents out.old) (W.contents out.new)
        (time_shown time ++ joined_line connection peer replaces)) }
{
    write_time(time, out)?;
    write_joined(connection, peer, replaces, out)
}

/// Writes the line for a peer that has no connection, with the time.
fn write_timed_refused<W: Write>(
    time: u64,
    peer: Option<SocketAddr>,
    why: Refusal,
    out: &mut W,
) -> Result<(), PrintError>
    ensures { OnOk result (Appends (W.contents out.old) (W.contents out.new)
        (time_shown time ++ refused_line peer why)) }
{
    write_time(time, out)?;
    write_refused(peer, why, out)
}

/// Writes the line for a connection that is closed, with the time.
fn write_timed_closed<W: Write>(
    time: u64,
    connection: usize,
    peer: Option<SocketAddr>,
    why: Option<CarrierError>,
    out: &mut W,
) -> Result<(), PrintError>
    ensures { OnOk result (Appends (W.contents out.old) (W.contents out.new)
        (time_shown time ++ closed_line connection peer why)) }
{
    write_time(time, out)?;
    write_closed(connection, peer, why, out)
}

/// Returns the sender of a transmission that the station `me` heard on a connection.
pub(crate) fn heard_from(me: Speaker, connection: usize) -> Who
    ensures { result ≡ sender_heard me connection }
{
    match me {
        Speaker::Control => Who::Connection(connection),
        Speaker::Terminal { .. } => Who::Station(Speaker::Control),
    }
}

/// Writes the line for a peer that joined or was refused, for a connection that is closed, or for
/// something that was withheld, without a time. Writes nothing for any other event.
pub fn write_change<W: Write>(note: &Note<'_>, out: &mut W) -> Result<(), PrintError>
    ensures ok { OnOk result
        (ShowsChange (told_by note.now) (W.contents out.old) (W.contents out.new)) }
    ensures err { IfErr result (λ error. error ≡ PrintError.Output) }
{
    match note {
        Note::Joined {
            connection,
            peer,
            replaces,
        } => write_joined(*connection, *peer, *replaces, out),
        Note::Refused { peer, why } => write_refused(*peer, *why, out),
        Note::Withheld { .. } => write_withheld(out),
        Note::Closed {
            connection,
            peer,
            why,
        } => write_closed(*connection, *peer, *why, out),
        Note::Heard { .. } | Note::Ignored { .. } | Note::Sent { .. } => Ok(()),
        Note::Silence | Note::Stopped => Ok(()),
    }
}

/// Writes the line for a peer that took a connection, without a time.
pub(crate) fn write_joined<W: Write>(
    connection: usize,
    peer: Option<SocketAddr>,
    replaces: bool,
    out: &mut W,
) -> Result<(), PrintError>
    ensures ok { OnOk result (Appends (W.contents out.old) (W.contents out.new)
        (joined_line connection peer replaces)) }
    ensures err { IfErr result (λ error. error ≡ PrintError.Output) }
{
    write_connection(connection, peer, out)?;
    put(joined_text(replaces), out)?;
    Ok(())
}

/// Writes the line for a connection that is closed, without a time.
pub(crate) fn write_closed<W: Write>(
    connection: usize,
    peer: Option<SocketAddr>,
    why: Option<CarrierError>,
    out: &mut W,
) -> Result<(), PrintError>
    ensures ok { OnOk result (Appends (W.contents out.old) (W.contents out.new)
        (closed_line connection peer why)) }
    ensures err { IfErr result (λ error. error ≡ PrintError.Output) }
{
    write_connection(connection, peer, out)?;
    write_end(why, out)
}

/// Writes the line for a time-out.
fn write_silence<W: Write>(time: u64, out: &mut W) -> Result<(), PrintError>
    ensures ok { OnOk result (Appends (W.contents out.old) (W.contents out.new)
        (silence_line time)) }
    ensures err { IfErr result (λ error. error ≡ PrintError.Output) }
{
    Ok(write!(out, "+{time} silence\n")?)
}

/// Writes the line for a station that is asked to end.
fn write_stopped<W: Write>(time: u64, out: &mut W) -> Result<(), PrintError>
    ensures ok { OnOk result (Appends (W.contents out.old) (W.contents out.new)
        (stopped_line time)) }
    ensures err { IfErr result (λ error. error ≡ PrintError.Output) }
{
    Ok(write!(out, "+{time} asked to end\n")?)
}

/// Writes the line for something that was withheld, without a time.
fn write_withheld<W: Write>(out: &mut W) -> Result<(), PrintError>
    ensures ok { OnOk result (Appends (W.contents out.old) (W.contents out.new) withheld_line) }
    ensures err { IfErr result (λ error. error ≡ PrintError.Output) }
{
    put(
        b"a transmission was withheld: it would have been late\n",
        out,
    )?;
    Ok(())
}

/// Writes why the line is not trusted, without a time.
pub fn write_distrust<W: Write>(why: Distrust, out: &mut W) -> Result<(), PrintError>
    ensures ok { OnOk result (Appends (W.contents out.old) (W.contents out.new)
        (distrust_line why)) }
    ensures err { IfErr result (λ error. error ≡ PrintError.Output) }
{
    Ok(write!(out, "not trusted: {why}\n")?)
}

/// Writes the name of the connection with this index, with the address of its peer if it is known.
fn write_connection<W: Write>(
    connection: usize,
    peer: Option<SocketAddr>,
    out: &mut W,
) -> Result<(), PrintError>
    ensures ok { OnOk result (Appends (W.contents out.old) (W.contents out.new)
        (connection_shown connection peer)) }
    ensures err { IfErr result (λ error. error ≡ PrintError.Output) }
{
    write_who(Who::Connection(connection), out)?;
    write_origin(peer, out)?;
    Ok(())
}

/// Writes the address of a peer, if it is known.
fn write_origin<W: Write>(peer: Option<SocketAddr>, out: &mut W) -> Result<(), PrintError>
    ensures ok { OnOk result (Appends (W.contents out.old) (W.contents out.new)
        (origin_shown peer)) }
    ensures err { IfErr result (λ error. error ≡ PrintError.Output) }
{
    let Some(peer) = peer else {
        return Ok(());
    };
    Ok(write!(out, " from {peer}")?)
}

/// Returns the end of the line for a peer that took a connection.
fn joined_text(replaces: bool) -> &'static [u8]
    ensures { result.now ≡ joined_shown replaces }
{
    if replaces {
        b" joined in place of one that did not answer\n"
    } else {
        b" joined\n"
    }
}

/// Writes the line for a peer that has no connection, and why, without a time.
fn write_refused<W: Write>(
    peer: Option<SocketAddr>,
    why: Refusal,
    out: &mut W,
) -> Result<(), PrintError>
    ensures ok { OnOk result (Appends (W.contents out.old) (W.contents out.new)
        (refused_line peer why)) }
    ensures err { IfErr result (λ error. error ≡ PrintError.Output) }
{
    put(b"refused ", out)?;
    write_peer(peer, out)?;
    put(b": ", out)?;
    put(refusal_text(why), out)?;
    put(b"\n", out)
}

/// Writes the address of a peer that has no connection, if it is known.
fn write_peer<W: Write>(peer: Option<SocketAddr>, out: &mut W) -> Result<(), PrintError>
    ensures ok { OnOk result (Appends (W.contents out.old) (W.contents out.new)
        (peer_shown peer)) }
    ensures err { IfErr result (λ error. error ≡ PrintError.Output) }
{
    let Some(peer) = peer else {
        return put(b"a peer", out);
    };
    Ok(write!(out, "{peer}")?)
}

/// Returns why a peer has no connection.
fn refusal_text(why: Refusal) -> &'static [u8]
    ensures { result.now ≡ refusal_shown why }
{
    match why {
        Refusal::NoPlace => b"every place is taken",
        Refusal::NotAccepted => b"the system cannot accept it yet",
        Refusal::NotAllowed => b"its address is not allowed",
    }
}

/// Writes the end of the line for a connection that is closed, and why. Without a reason, its peer
/// closed it between transmissions.
fn write_end<W: Write>(why: Option<CarrierError>, out: &mut W) -> Result<(), PrintError>
    ensures ok { OnOk result (Appends (W.contents out.old) (W.contents out.new)
        (closed_shown why)) }
    ensures err { IfErr result (λ error. error ≡ PrintError.Output) }
{
    let Some(why) = why else {
        return put(b" closed\n", out);
    };
    put(b" closed: ", out)?;
    put(error_text(why), out)?;
    put(b"\n", out)
}

/// Returns why a connection is closed by an error.
fn error_text(why: CarrierError) -> &'static [u8]
    ensures { result.now ≡ error_shown why }
{
    match why {
        CarrierError::Length => b"the length of a record is wrong",
        CarrierError::Short => b"the input ended within a record",
        CarrierError::Device { why } => fault_text(why),
        CarrierError::Unequal => b"two far ends gave different octets",
    }
}

/// Returns why a device failed.
fn fault_text(why: DeviceFault) -> &'static [u8]
    ensures { result.now ≡ fault_shown why }
{
    match why {
        DeviceFault::Reset => b"connection reset by peer",
        DeviceFault::Aborted => b"connection aborted",
        DeviceFault::BrokenPipe => b"broken pipe",
        DeviceFault::TimedOut => b"timed out",
        DeviceFault::Unreachable => b"the peer cannot be reached",
        DeviceFault::Other => b"a read or a write failed",
    }
}
