//! One connection of a station.

ghost use Rattle.std.specs.Prelude.{◌≡◌, ◌<◌, ◌&&◌, length, None, Some, false, not, is_none};
ghost use Rattle.std.specs.Prelude.{is_some};
ghost use Rattle.bsc_connections.specs.Parts.{connection_parts};
ghost use Rattle.bsc_connections.specs.Connections.{Takes, Sends, Reads, untold_taken};
ghost use Rattle.bsc_connections.specs.Connections.{GivesNoOctets, IsEndedBy, failure_means};
ghost use Rattle.bsc_connections.specs.Connections.{is_reached, write_fault};

use crate::Framing;
use crate::limits::MAX_READ;
use bsc_carrier::{CarrierError, DeviceFault};
use std::io::{ErrorKind, Read, Write};
use std::marker::Model;

/// The result of one read.
#[derive(Clone, Copy, Debug, PartialEq, Eq)]
pub enum Taken {
    /// There is nothing to read at present, or the connection is closed.
    Nothing,

    /// The read was interrupted.
    Interrupted,

    /// Octets arrived, but they end no transmission.
    Part,

    /// A transmission is complete; the connection holds its octets.
    Whole,

    /// The connection is closed: this read closed it, or this is the first read since a failed
    /// write did. `why` is the error, or None if the peer ended the connection and cut no
    /// transmission short. A closed connection never opens again.
    Closed { why: Option<CarrierError> },
}

/// One connection of a station: its two directions while it is open, and what its framing holds of
/// the transmissions that arrive.
#[derive(Drop)]
pub struct Connection<R, W, F> {
    /// The two directions, while the connection is open.
    ends: Option<(R, W)>,

    /// The framing of the transmissions that arrive.
    framing: F,

    /// The fault of a write that failed and that no read has reported yet.
    untold: Option<DeviceFault>,

    /// Whether a transmission was written on the connection since it began.
    written: bool,

    /// The octets of the last read.
    read: [u8; MAX_READ],
}

impl<R, W, F> Model for Connection<R, W, F> {
    ghost use Rattle.bsc_connections.specs.Connections.{ConnectionValue};

    ghost Value = { ConnectionValue R W F };

    ghost view = { λ c. record {
      ends = c.ends;
      framing = c.framing;
      untold = c.untold;
      written = c.written;
    } };
}

impl<R: Read + Drop, W: Write + Drop, F: Framing + Drop> Connection<R, W, F> {
    /// Creates an open connection over these two directions, on which nothing has arrived yet.
    pub fn new(reader: R, writer: W) -> Connection<R, W, F>
        ensures is_open { result.ends ≡ Some (reader, writer) }
        ensures starts { F.starts result.framing }
        ensures untold { result.untold ≡ None }
        ensures unwritten { result.written ≡ false }
    {
        Connection {
            ends: Some((reader, writer)),
            framing: F::new(),
            untold: None,
            written: false,
            read: [0; MAX_READ],
        }
    }

    /// Creates a connection that is closed: the place of a peer that has not connected yet. A read
    /// of it tells of nothing, and a peer that connects gets its place as that of any closed one.
    pub fn vacant() -> Connection<R, W, F>
        ensures is_closed { result.ends ≡ None }
        ensures starts { F.starts result.framing }
        ensures untold { result.untold ≡ None }
        ensures unwritten { result.written ≡ false }
    {
        Connection {
            ends: None,
            framing: F::new(),
            untold: None,
            written: false,
            read: [0; MAX_READ],
        }
    }

    /// Returns whether the connection is open.
    pub fn is_open(&self) -> bool
        ensures { result ≡ not (is_none self.now.ends) }
    {
        self.ends.is_some()
    }

    /// Returns whether the connection is open and a transmission was written on it, so that its
    /// peer may answer what was sent last.
    pub(crate) fn is_reached(&self) -> bool
        ensures { result ≡ is_reached self.now }
    {
        self.ends.is_some() && self.written
    }

    /// Returns whether a failed write has closed the connection, and no read has reported that yet.
    pub(crate) fn is_untold(&self) -> bool
        ensures { result ≡ (is_none self.now.ends && is_some self.now.untold) }
    {
        self.ends.is_none() && self.untold.is_some()
    }

    /// Returns the octets of the last complete transmission.
    pub(crate) fn octets(&self) -> &[u8]
        ensures { result.now ≡ F.last self.now.framing }
    {
        self.framing.octets()
    }

    /// Returns whether a transmission has begun that a gap would end.
    pub(crate) fn awaits_gap(&self) -> bool
        ensures { result ≡ F.awaits self.now.framing }
    {
        self.framing.awaits_gap()
    }

    /// Records that a gap has passed. Returns whether that ended a transmission.
    pub(crate) fn gap(&mut self) -> bool
        ensures ends { F.ends self.old.framing result self.new.framing }
        ensures ended { result ≡ F.awaits self.old.framing }
        ensures kept { self.new.ends ≡ self.old.ends }
        ensures untold { self.new.untold ≡ self.old.untold }
        ensures written { self.new.written ≡ self.old.written }
    {
        self.framing.gap()
    }

    /// Reads once, at most as many octets as the framing wants.
    pub(crate) fn take(&mut self) -> Taken
        ensures { Takes (connection_parts R.Read W.Write F.Framing) self.old result self.new }
    {
        let Some((reader, _)) = &mut self.ends else {
            return self.take_closed();
        };
        let taken = read_into(reader, &mut self.framing, self.read.as_mut_slice());
        if let Taken::Closed { .. } = taken {
            self.close();
        }
        taken
    }

    /// Closes the connection.
    fn close(&mut self)
        ensures { self.new ≡ record self.old { ends = None } }
    {
        self.ends = None;
    }

    /// Returns what a read of a closed connection reports: a failed write if no read has reported
    /// it yet, else nothing.
    fn take_closed(&mut self) -> Taken
        requires { self.old.ends ≡ None }
        ensures taken { result ≡ untold_taken self.old.untold }
        ensures told { self.new ≡ record self.old { untold = None } }
    {
        match self.untold.take() {
            Some(why) => Taken::Closed {
                why: Some(CarrierError::Device { why }),
            },
            None => Taken::Nothing,
        }
    }

    /// Sends a transmission if the connection is open. A write that fails closes the connection;
    /// the next read reports it.
    pub(crate) fn send(&mut self, octets: &[u8])
        ensures { Sends (connection_parts R.Read W.Write F.Framing) octets.now self.old
            self.new }
    {
        let Some((_, writer)) = &mut self.ends else {
            return;
        };
        match F::write(writer, octets) {
            Ok(()) => self.written = true,
            Err(error) => {
                self.close();
                self.untold = Some(fault_of(error));
            }
        }
    }
}

/// Reads once, at most as many octets as the framing wants and there is room for, and feeds them to
/// the framing.
fn read_into<R: Read, F: Framing>(reader: &mut R, framing: &mut F, room: &mut [u8]) -> Taken
    requires { 0 < length room.old }
    ensures { Reads R.Read F.Framing result
        (record { reader = reader.old; framing = framing.old })
        (record { reader = reader.new; framing = framing.new }) }
{
    let wanted = framing.wanted().min(room.len());
    match reader.read(&mut room[..wanted]) {
        Ok(0) => ended(framing),
        Ok(count) => match framing.feed(&room[..count]) {
            Ok((_, true)) => Taken::Whole,
            Ok((_, false)) => Taken::Part,
            Err(error) => Taken::Closed { why: Some(error) },
        },
        Err(error) => failed(error.kind()),
    }
}

/// Handles the end of the input. If a gap would end the transmission that has begun, this ends it,
/// and the next read finds the end again. Otherwise it closes the connection: with the error
/// `Short` if it cuts a transmission short, else without an error.
fn ended<F: Framing>(framing: &mut F) -> Taken
    ensures { IsEndedBy F.Framing result framing.old framing.new }
{
    if framing.awaits_gap() {
        let _ = framing.gap();
        return Taken::Whole;
    }
    let why = if framing.is_short() {
        Some(CarrierError::Short)
    } else {
        None
    };
    Taken::Closed { why }
}

/// Returns what a failed read means. It is not an error if nothing arrived in time or the read was
/// interrupted.
fn failed(kind: ErrorKind) -> Taken
    ensures means { result ≡ failure_means kind }
    ensures octets { GivesNoOctets result }
{
    match kind {
        ErrorKind::WouldBlock | ErrorKind::TimedOut => Taken::Nothing,
        ErrorKind::Interrupted => Taken::Interrupted,
        kind => Taken::Closed {
            why: Some(CarrierError::Device {
                why: DeviceFault::of(kind),
            }),
        },
    }
}

/// Returns the fault of a write that failed with this error.
fn fault_of(error: CarrierError) -> DeviceFault
    ensures { result ≡ write_fault error }
{
    match error {
        CarrierError::Device { why } => why,
        _ => DeviceFault::Other,
    }
}
