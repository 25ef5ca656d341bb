//! The lines printed while a station begins, the lines of a trace, and what is said of trust, for
//! the notes that a watch receives.

use crate::fakes::{Event, control_watch, tell_each, trust_of};
use crate::stations::control_of;
use bsc_carrier::CarrierError;
use bsc_connections::{LiveError, Refusal};
use bsc_control::Control;
use bsc_monitor::Limits;
use bsc_report::{Beginning, Tracing, write_trust};
use bsc_text::PrintError;
use bsc_text::progress::{Meter, Unmetered};
use std::alloc::Global;
use std::io::Write;
use std::net::{Ipv4Addr, SocketAddr, SocketAddrV4};
use std::test::Fail;
use test_fixtures::Full;
use test_fixtures::configurations::TWO_TERMINALS;
use test_fixtures::octets::{ACK1, CALL_POLL_A, ENQ, EOT, NOISE, TEXT_HI};

/// The address at which a station listens, and that of its peer.
fn address() -> SocketAddr {
    SocketAddr::V4(SocketAddrV4::new(Ipv4Addr::LOCALHOST, 2_780))
}

const LINES: &[u8] = b"listening at 127.0.0.1:2780
serving programs at 127.0.0.1:2780
waiting for terminals: 1 of 12 connected
waiting for the control station
connection 3 from 127.0.0.1:2780 joined
connection 3 from 127.0.0.1:2780 closed
refused 127.0.0.1:2780: its address is not allowed
";

/// The octets of the same lines with their times, `+0 `.
const TRACED: usize = LINES.len() + 7 * 3;

/// Writes each of the lines.
fn tell_lines<W: Write>(lines: Beginning, out: &mut W) -> Result<(), PrintError> {
    lines.write_listening(address(), out)?;
    lines.write_serving(address(), out)?;
    lines.write_waiting(1, 12, out)?;
    lines.write_waiting_for_control(out)?;
    lines.write_joined(3, address(), out)?;
    lines.write_left(3, Some(address()), out)?;
    lines.write_refused(address(), out)
}

/// In a trace each line has a time.
#[test]
fn a_station_says_where_it_is_and_for_what_it_waits(rt: HostRuntime) -> Result<(), Fail> {
    let (mut out, mut traced) = (Vec::new(rt.alloc()), Vec::new(rt.alloc()));
    tell_lines(Beginning { trace: false }, &mut out)?;
    tell_lines(Beginning { trace: true }, &mut traced)?;
    assert!(rt; out.as_slice() == LINES && traced.len() == TRACED);
    assert!(rt; !Unmetered.is_due());
    Ok(())
}

/// Events of a peer with this address, if it is known.
fn events_of_peer(peer: Option<SocketAddr>) -> [Event<'static>; 4] {
    [
        Event::Joined {
            connection: 1,
            peer,
            replaces: peer.is_some(),
        },
        Event::Refused {
            peer,
            why: Refusal::NotAllowed,
        },
        Event::Refused {
            peer,
            why: Refusal::NoPlace,
        },
        Event::Closed {
            connection: 1,
            peer,
            why: None,
        },
    ]
}

/// Other events. There are two lines for what is ignored.
const EVENTS: &[Event<'static>] = &[
    Event::Silence,
    Event::Sent { octets: EOT },
    Event::Withheld { octets: ACK1 },
    Event::Heard {
        connection: 0,
        octets: EOT,
    },
    Event::Ignored {
        connection: 1,
        octets: EOT,
    },
    Event::Refused {
        peer: None,
        why: Refusal::NotAccepted,
    },
    Event::Stopped,
    Event::Closed {
        connection: 0,
        peer: None,
        why: Some(CarrierError::Short),
    },
];

/// The lines of these notes. The watch reads the clock at each note.
const TRACE: &[u8] = b"+1 silence
+2 control sent EOT 161604ff
+3 control withheld ACK1 16161031ff
+4 connection 0 heard EOT 161604ff
+5 connection 1 ignored EOT 161604ff
+6 not trusted: connection 1 was heard though nothing had been sent since the last answer
+7 refused a peer: the system cannot accept it yet
+8 asked to end
+9 connection 0 closed: the input ended within a record
+10 connection 1 joined
+11 refused a peer: its address is not allowed
+12 refused a peer: every place is taken
+13 connection 1 closed
+14 connection 1 from 127.0.0.1:2780 joined in place of one that did not answer
+15 refused 127.0.0.1:2780: its address is not allowed
+16 refused 127.0.0.1:2780: every place is taken
+17 connection 1 from 127.0.0.1:2780 closed
";

/// Tells a watch with this trace, a clock that was read so often, and this time-out of these notes.
fn tell<W: Write>(
    alloc: Global,
    control: &Control<Global>,
    (trace, asked, time_out): Settings,
    events: &[&[Event<'_>]],
    errors: &mut W,
) -> Result<(), LiveError> {
    let limits = Limits {
        rounds: None,
        idle_rounds: u64::MAX,
        counts_at_once: true,
    };
    let settings = (trace, limits, asked, time_out);
    let mut watch = control_watch(alloc, control, settings, errors);
    for list in events {
        tell_each(control, &mut watch, *list)?;
    }
    Ok(())
}

/// How notes are told: the trace, how often the clock was read, and the time-out.
type Settings = (Tracing, u64, u64);

const ALL: Settings = (Tracing::All, 0, 1_000);

/// Whether this text is told of these notes at a control station.
fn is_told(
    alloc: Global,
    settings: Settings,
    events: &[&[Event<'_>]],
    text: &[u8],
) -> Result<bool, Fail> {
    let control = control_of(alloc, TWO_TERMINALS)?;
    let mut told = Vec::new(alloc);
    tell(alloc, &control, settings, events, &mut told)?;
    Ok(told.as_slice() == text)
}

#[test]
fn a_trace_has_a_line_for_each_note(rt: HostRuntime) -> Result<(), Fail> {
    let (strangers, peers) = (events_of_peer(None), events_of_peer(Some(address())));
    let events: &[&[Event<'static>]] = &[EVENTS, &strangers, &peers];
    assert!(rt; is_told(rt.alloc(), ALL, events, TRACE)?);
    Ok(())
}

/// A line that is not taken is told, whichever of its first writes fails.
#[test]
fn a_line_of_a_trace_that_is_not_taken_is_told(rt: HostRuntime) -> Result<(), Fail> {
    let control = control_of(rt.alloc(), TWO_TERMINALS)?;
    for left in 0..EVENTS.len() {
        let told = tell(rt.alloc(), &control, ALL, &[EVENTS], &mut Full { left });
        assert!(rt; matches!(told, Err(LiveError::Output)), "{left}");
    }
    Ok(())
}

const CALLED: Event<'static> = Event::Sent {
    octets: CALL_POLL_A,
};

/// What a terminal sends: noise, a text, and ENQ.
const NOTHING: Event<'static> = Event::Heard {
    connection: 0,
    octets: NOISE,
};

const TEXT: Event<'static> = Event::Heard {
    connection: 0,
    octets: TEXT_HI,
};

const ASKED: Event<'static> = Event::Heard {
    connection: 0,
    octets: ENQ,
};

const REPLIED: Event<'static> = Event::Sent { octets: ACK1 };

/// The text arrives three milliseconds after the poll.
const LATE_ANSWER: &[Event<'static>] = &[CALLED, NOTHING, NOTHING, TEXT];

/// The reply to the text is sent three milliseconds after it was heard.
const LATE_REPLY: &[Event<'static>] = &[CALLED, TEXT, NOTHING, NOTHING, REPLIED];

/// The same reply is withheld. The terminal repeats itself, and the reply to that is sent.
const WITHHELD_REPLY: &[Event<'static>] = &[
    CALLED,
    TEXT,
    NOTHING,
    NOTHING,
    Event::Withheld { octets: ACK1 },
    ASKED,
    REPLIED,
];

const SILENCE: &[Event<'static>] = &[Event::Silence];

/// What happens at a control station, and what is told of it: a line of a trace has its time after
/// years, and without a trace what is late is told. The times are those of the clock.
const TIMED: &[(Settings, &[Event<'static>], &str)] = &[
    ((Tracing::All, 65_535, 1_000), SILENCE, "+65536 silence\n"),
    (
        (Tracing::All, 4_294_967_295, 1_000),
        SILENCE,
        "+4294967296 silence\n",
    ),
    (
        (Tracing::All, 18_446_744_073_709_551_614, 1_000),
        SILENCE,
        "+18446744073709551615 silence\n",
    ),
    ((Tracing::Off, 0, 3), LATE_ANSWER, ""),
    (
        (Tracing::Off, 0, 2),
        LATE_ANSWER,
        "not trusted: an answer took longer than the time-out\n",
    ),
    ((Tracing::Off, 0, 3), LATE_REPLY, ""),
    (
        (Tracing::Off, 0, 2),
        LATE_REPLY,
        "not trusted: a reply was sent later than the time-out\n",
    ),
    (
        (Tracing::Off, 0, 2),
        WITHHELD_REPLY,
        "a transmission was withheld: it would have been late\n",
    ),
];

#[test]
fn lines_have_their_times_and_what_is_late_is_told(rt: HostRuntime) -> Result<(), Fail> {
    for (settings, events, text) in TIMED {
        let is_right = is_told(rt.alloc(), *settings, &[*events], text.as_bytes())?;
        assert!(rt; is_right, "{text}");
    }
    Ok(())
}

/// Lines that are not taken are told.
#[test]
fn the_report_ends_with_what_is_known_of_the_line(rt: HostRuntime) -> Result<(), Fail> {
    let mut out = Vec::new(rt.alloc());
    write_trust(&trust_of(100), &mut out)?;
    assert!(rt; out.as_slice() == b"slowest answer: none\ntrusted\n".as_slice());
    assert!(rt; write_trust(&trust_of(100), &mut Full { left: 1 }).is_err());
    Ok(())
}
