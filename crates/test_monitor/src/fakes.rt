//! A scripted connection, a clock that counts, and the watches of stations.

use bsc_bid::Station;
use bsc_carrier::CarrierError;
use bsc_connections::{
    Awaited, Connection, Decoded, Handled, LiveError, Monitor, Note, Pace, Refusal, SocketRecords,
    Waiter, attend,
};
use bsc_control::Control;
use bsc_frame::TextBuffer;
use bsc_keeping::{Keeping, Printed};
use bsc_monitor::{AbsenceLimits, ControlWatch, Limits, TerminalWatch, Watch};
use bsc_report::{RecordLines, Tracing};
use bsc_station::Party;
use bsc_text::Form;
use bsc_text::progress::{Counts, Meter, Timer};
use bsc_trust::{TerminalPeers, Trust};
use std::alloc::Global;
use std::io;
use std::io::{Read, Write};
use std::net::SocketAddr;

/// Fails with these errors, one in each read, returns these octets, and then the end of the stream.
#[derive(Drop)]
pub(crate) struct Told {
    pub(crate) fails: &'static [io::ErrorKind],
    pub(crate) octets: &'static [u8],
}

impl Read for Told {
    fn read(&mut self, buffer: &mut [u8]) -> io::Result<usize> {
        if let Some((kind, rest)) = self.fails.split_first() {
            self.fails = rest;
            return Err(io::Error::from(*kind));
        }
        let count = self.octets.len().min(buffer.len());
        buffer[..count].copy_from_slice(&self.octets[..count]);
        self.octets = &self.octets[count..];
        Ok(count)
    }
}

/// Accepts everything that is written, or nothing if it is broken, and cannot pass it on if it is
/// stuck.
#[derive(Clone, Copy, Drop)]
pub(crate) struct Taking {
    pub(crate) is_broken: bool,
    pub(crate) is_stuck: bool,
}

/// Accepts everything.
pub(crate) const TAKING: Taking = Taking {
    is_broken: false,
    is_stuck: false,
};

impl Write for Taking {
    fn write(&mut self, octets: &[u8]) -> io::Result<usize> {
        if self.is_broken {
            return Err(io::Error::from(io::ErrorKind::BrokenPipe));
        }
        Ok(octets.len())
    }

    fn flush(&mut self) -> io::Result<()> {
        if self.is_stuck {
            return Err(io::Error::from(io::ErrorKind::StorageFull));
        }
        Ok(())
    }
}

/// A clock that is one millisecond later each time that it is read. Nothing is due to be shown, and
/// if anything is, the clock goes to its end.
#[derive(Drop)]
pub(crate) struct Counting {
    pub(crate) asked: u64,
}

impl Meter for Counting {
    fn is_due(&mut self) -> bool {
        false
    }

    fn show(&mut self, _counts: Counts) {
        self.asked = u64::MAX;
    }
}

impl Timer for Counting {
    fn milliseconds(&mut self) -> u64 {
        self.asked = self.asked.saturating_add(1);
        self.asked
    }
}

/// Returns what is known at the beginning of a line over one connection for all terminals, with
/// this time-out in milliseconds.
pub(crate) fn trust_of(time_out: u64) -> Trust {
    Trust::new(true, time_out, TerminalPeers::new())
}

/// Reports octets to read on connection 0 for each `r` of the steps, a time-out for each `t`, and
/// that the station is asked to end for each `s`; after the last step there are always octets to
/// read.
#[derive(Drop)]
pub(crate) struct Scripted {
    pub(crate) steps: &'static [u8],
}

impl Waiter<Told, Taking> for Scripted {
    ghost waits = { λ _ _ _ _. Unit {0} };

    ghost handles = { λ _ _ _ _. Unit {0} };

    ghost begins_gap = { λ _ _ _. Unit {0} };

    ghost has_nothing_left = { λ _ _ _. Unit {0} };

    ghost joins = { λ _ _ _ _. Unit {0} };

    ghost turns_away = { λ _ _. Unit {0} };

    ghost may_replace = { λ _ _. Unit {0} };

    ghost permits = { λ _ _ _. Unit {0} };

    ghost names = { λ _ _ _. Unit {0} };

    ghost names_newcomer = { λ _ _. Unit {0} };

    fn wait(&mut self, _is_reached: bool) -> Result<Awaited, LiveError> {
        let Some(&step) = self.steps.first() else {
            return Ok(Awaited::Octets { connection: 0 });
        };
        self.steps = &self.steps[1..];
        match step {
            b't' => Ok(Awaited::TimeOut),
            b's' => Ok(Awaited::Stopped),
            _ => Ok(Awaited::Octets { connection: 0 }),
        }
    }

    fn handled(&mut self, _what: Handled, _pace: Pace) {}

    fn may_send(&mut self) -> bool {
        true
    }

    fn replaceable(&self) -> Option<usize> {
        None
    }

    fn peer(&self, _connection: usize) -> Option<SocketAddr> {
        None
    }

    fn newcomer(&self) -> Option<SocketAddr> {
        None
    }

    fn begin_gap(&mut self, _connection: usize) {}

    fn nothing_left(&mut self, _connection: usize) {}

    fn join(&mut self, _connection: usize) -> Option<(Told, Taking)> {
        None
    }

    fn turn_away(&mut self) {}
}

/// A connection over this reader and this writer.
pub(crate) fn connection(
    alloc: Global,
    told: Told,
    taking: Taking,
) -> Result<Vec<Connection<Told, Taking, SocketRecords>>, LiveError> {
    match Vec::from_array(alloc, [Connection::new(told, taking)]) {
        Ok(connections) => Ok(connections),
        Err(_) => Err(LiveError::Memory),
    }
}

/// Attends a station over these connections until its monitor ends it. The records that arrive are
/// printed so, to this writer.
pub(crate) fn attend_station<S: Station + Party, M: Monitor<S>, W: Write>(
    alloc: Global,
    station: &mut S,
    connections: &mut [Connection<Told, Taking, SocketRecords>],
    waiter: &mut Scripted,
    watch: &mut M,
    lines: RecordLines,
    out: &mut W,
) -> Result<(), LiveError> {
    let Ok(mut printed) = Printed::new(alloc, station, lines, out) else {
        return Err(LiveError::Memory);
    };
    attend(
        station,
        connections,
        waiter,
        &mut Keeping::new(watch, &mut printed),
    )
}

/// Records in hexadecimal, without numbers.
pub(crate) const HEXADECIMAL: RecordLines = RecordLines {
    form: Form::Hexadecimal,
    numbers: false,
};

/// When a terminal is absent: after one visit without an answer.
const ABSENCE: AbsenceLimits = AbsenceLimits {
    absent_after: 1,
    retry: 30_000,
};

/// The watch of a control station that ends at these limits, with a clock that was read so often,
/// over one connection for all terminals, with this time-out in milliseconds.
pub(crate) fn control_watch<'a, D: Write>(
    alloc: Global,
    control: &Control<Global>,
    (tracing, limits, asked, time_out): (Tracing, Limits, u64, u64),
    errors: &'a mut D,
) -> ControlWatch<'a, Global, Counting, D> {
    let watch = Watch::new(alloc, tracing, Counting { asked }, errors);
    ControlWatch::new(control, watch, limits, ABSENCE, false, trust_of(time_out))
}

/// The watch of a terminal.
pub(crate) fn terminal_watch<'a, D: Write>(
    alloc: Global,
    tracing: Tracing,
    errors: &'a mut D,
) -> TerminalWatch<'a, Global, Counting, D> {
    TerminalWatch::new(Watch::new(alloc, tracing, Counting { asked: 0 }, errors))
}

/// What a monitor is told of, with the octets of a transmission before they are decoded.
#[derive(Clone, Copy)]
pub(crate) enum Event<'a> {
    Heard {
        connection: usize,
        octets: &'a [u8],
    },
    Ignored {
        connection: usize,
        octets: &'a [u8],
    },
    Sent {
        octets: &'a [u8],
    },
    Withheld {
        octets: &'a [u8],
    },
    Silence,
    Joined {
        connection: usize,
        peer: Option<SocketAddr>,
        replaces: bool,
    },
    Refused {
        peer: Option<SocketAddr>,
        why: Refusal,
    },
    Closed {
        connection: usize,
        peer: Option<SocketAddr>,
        why: Option<CarrierError>,
    },
    Stopped,
}

/// The octets of the transmission of an event, or none.
fn octets_of<'a>(event: Event<'a>) -> &'a [u8] {
    match event {
        Event::Heard { octets, .. } | Event::Ignored { octets, .. } => octets,
        Event::Sent { octets } | Event::Withheld { octets } => octets,
        _ => &[],
    }
}

/// The note of an event with this transmission.
fn note_of<'a>(event: Event<'_>, transmission: &'a Decoded<'a>) -> Note<'a> {
    match event {
        Event::Heard { connection, .. } => Note::Heard {
            connection,
            transmission,
        },
        Event::Ignored { connection, .. } => Note::Ignored {
            connection,
            transmission,
        },
        Event::Sent { .. } => Note::Sent { transmission },
        Event::Withheld { .. } => Note::Withheld { transmission },
        Event::Silence => Note::Silence,
        Event::Joined {
            connection,
            peer,
            replaces,
        } => Note::Joined {
            connection,
            peer,
            replaces,
        },
        Event::Refused { peer, why } => Note::Refused { peer, why },
        Event::Closed {
            connection,
            peer,
            why,
        } => Note::Closed {
            connection,
            peer,
            why,
        },
        Event::Stopped => Note::Stopped,
    }
}

/// Tells a monitor of an event.
pub(crate) fn tell_event<S, M: Monitor<S>>(
    station: &S,
    monitor: &mut M,
    event: Event<'_>,
) -> Result<bool, LiveError> {
    let mut buffer = TextBuffer::new();
    let transmission = Decoded::new(octets_of(event), &mut buffer);
    monitor.note(station, note_of(event, &transmission))
}

/// Tells a monitor of these events.
pub(crate) fn tell_each<M: Monitor<Control<Global>>>(
    control: &Control<Global>,
    watch: &mut M,
    events: &[Event<'_>],
) -> Result<(), LiveError> {
    for event in events {
        tell_event(control, watch, *event)?;
    }
    Ok(())
}
