//! Exchanges as texts: a word for each event, and what comes of them.

ghost use Rattle.std.specs.Prelude.{◌<◌};
ghost use Rattle.bsc_line_model.specs.Line.{IsChannel, terminal_count};

use crate::channels::are_sound;
use bsc_bid::Speaker;
use bsc_control::Way;
use bsc_frame::{Wire, encode};
use bsc_line::{Event, Line, Transmission};
use std::alloc::Allocator;
use std::test::Fail;
use test_alloc::Refusing;
use test_fixtures::octets::{
    ACK0, ACK1, BROKEN_TEXT, CALL_POLL_A, CALL_POLL_B, CALL_SELECT_A, CALL_SELECT_B, CALL_SELECT_C,
    ENQ, EOT, NAK, NOISE, RVI, TEXT_EMPTY, TEXT_FIRST_SEVEN, TEXT_HI, TEXT_LAST_SEVEN, WACK,
};

/// The name of each transmission of the exchanges, and its octets. A call has its address for a
/// name, and a text its record, or its seven empty records with its end.
const SENT: &[(&str, &[u8])] = &[
    ("A", CALL_POLL_A),
    ("B", CALL_POLL_B),
    ("a", CALL_SELECT_A),
    ("b", CALL_SELECT_B),
    ("c", CALL_SELECT_C),
    ("EOT", EOT),
    ("ENQ", ENQ),
    ("NAK", NAK),
    ("ACK0", ACK0),
    ("ACK1", ACK1),
    ("WACK", WACK),
    ("RVI", RVI),
    ("HI", TEXT_HI),
    ("empty", TEXT_EMPTY),
    ("7ETX", TEXT_LAST_SEVEN),
    ("7ETB", TEXT_FIRST_SEVEN),
];

/// Whether a transmission has these octets.
fn has_octets(wire: &Wire, octets: &[u8]) -> bool {
    wire.as_slice() == octets
}

/// The name of a transmission.
fn name_of(sent: &Transmission<'_>) -> &'static str {
    let mut wire = Wire::new();
    encode(&sent.message, &mut wire);
    for (name, octets) in SENT {
        if has_octets(&wire, octets) {
            return *name;
        }
    }
    "another"
}

/// The name of what is pending.
pub(crate) fn pending_name<A: Allocator>(line: &Line<A>) -> &'static str {
    match line.pending() {
        Some(sent) => name_of(&sent),
        None => "-",
    }
}

/// Offers a record at a terminal.
fn at(terminal: usize, codes: &'static [u8]) -> Event<'static> {
    Event::OfferAt { terminal, codes }
}

/// Offers a record for a selection address of a terminal.
fn to(terminal: usize, select: usize, codes: &'static [u8]) -> Event<'static> {
    Event::OfferFor {
        terminal,
        select,
        codes,
    }
}

/// Each terminal hears its own item.
fn each(heard: &'static [Option<&'static [u8]>]) -> Event<'static> {
    Event::CarryEach { heard }
}

/// The doubt about a channel of terminal 0 is ended.
fn release(way: Way) -> Event<'static> {
    Event::Release { terminal: 0, way }
}

/// A terminal accepts selections, or does not.
fn ready(terminal: usize, ready: bool) -> Event<'static> {
    Event::Ready { terminal, ready }
}

/// A terminal is polled, or is passed over.
fn polled(terminal: usize, polled: bool) -> Event<'static> {
    Event::Polled { terminal, polled }
}

/// The event of a word. `.` is a silence, and `>` carries what is pending as it was sent.
fn event_of(word: &str) -> Option<Event<'static>> {
    let event = match word {
        "." => Event::Silence,
        ">" => Event::CarrySent,
        "lose" => Event::Carry { heard: None },
        "broken" => Event::Carry {
            heard: Some(BROKEN_TEXT),
        },
        "each1" => each(&[None]),
        "each2" => each(&[None, None]),
        "noise1" => each(&[None, Some(NOISE)]),
        "broken0" => each(&[Some(BROKEN_TEXT), None]),
        "text0" => each(&[Some(TEXT_HI), None]),
        "calls" => each(&[Some(CALL_POLL_A), Some(CALL_POLL_B)]),
        "at0" => at(0, b"HI"),
        "at1" => at(1, b"HI"),
        "at64" => at(64, b"HI"),
        "to0" => to(0, 0, b"HI"),
        "to1" => to(1, 0, b"HI"),
        "to0.2" => to(0, 2, b"HI"),
        "e0" => to(0, 0, b""),
        "e0.1" => to(0, 1, b""),
        "unready0" => ready(0, false),
        "ready63" => ready(63, true),
        "ready64" => ready(64, true),
        "off0" => polled(0, false),
        "off1" => polled(1, false),
        "on0" => polled(0, true),
        "off64" => polled(64, false),
        "urgent" => Event::UrgentAt { terminal: 0 },
        "ask" => Event::UrgentFor { terminal: 0 },
        "release-from" => release(Way::FromTerminal),
        "release-to" => release(Way::ToTerminal(0)),
        "restart" => Event::Restart {
            party: Speaker::Control,
        },
        "restart0" => Event::Restart {
            party: Speaker::Terminal { number: 0 },
        },
        _ => return None,
    };
    Some(event)
}

/// Whether something else may be pending after the event.
fn is_turn(event: &Event<'_>) -> bool {
    matches!(
        event,
        Event::Silence
            | Event::CarrySent
            | Event::Carry { .. }
            | Event::CarryEach { .. }
            | Event::Restart { .. }
    )
}

/// Adds what is pending: the number of the terminal that sent it, its name, and a star if the line
/// is not trusted.
fn write_pending<A: Allocator>(line: &Line<A>, log: &mut String) -> Result<(), Fail> {
    let mark = if line.trusted() { "" } else { "*" };
    let Some(sent) = line.pending() else {
        return Ok(write!(log, " -{mark}")?);
    };
    let name = name_of(&sent);
    match sent.speaker {
        Speaker::Control => write!(log, " {name}{mark}")?,
        Speaker::Terminal { number } => write!(log, " {number}:{name}{mark}")?,
    }
    Ok(())
}

/// Plays an event, and adds what comes of it: why it is refused, or what is pending if it may have
/// changed. While the line is trusted, each of its channels has to be sound.
fn play_event<A: Allocator>(
    line: &mut Line<A>,
    event: &Event<'_>,
    log: &mut String,
) -> Result<(), Fail> {
    if let Err(stopped) = line.run(&[*event]) {
        let why = stopped.why;
        return Ok(write!(log, " !{why}")?);
    }
    if is_turn(event) {
        write_pending(line, log)?;
    }
    if line.trusted() && !are_sound(line) {
        return Err("a channel is not sound".into());
    }
    Ok(())
}

/// Adds a record: its characters, or `-` if it has none.
fn write_record(chars: &[u8], log: &mut String) -> Result<(), Fail> {
    log.push_str(if chars.is_empty() { " -" } else { " " })?;
    for code in chars {
        write!(log, "{}", char::from(*code))?;
    }
    Ok(())
}

/// Adds the state of a channel on which a record was offered or arrived: the numbers of the records
/// known to have arrived and of those offered, a question mark if it is in doubt, and the records
/// that arrived.
fn write_channel<A: Allocator>(
    line: &Line<A>,
    terminal: usize,
    way: Way,
    log: &mut String,
) -> Result<(), Fail>
    requires { IsChannel line.now terminal way }
{
    let offered = line.offered(terminal, way).len();
    let known = line.known(terminal, way);
    let doubt = if line.in_doubt(terminal, way) {
        "?"
    } else {
        ""
    };
    let spooled = line.spooled(terminal, way);
    if offered == 0 && spooled.len() == 0 {
        return Ok(());
    }
    match way {
        Way::FromTerminal => write!(log, "; from {terminal}: {known}/{offered}{doubt}")?,
        Way::ToTerminal(select) => {
            write!(log, "; to {terminal}.{select}: {known}/{offered}{doubt}")?
        }
    }
    for place in 0..spooled.len() {
        write_record(spooled.chars(place), log)?;
    }
    Ok(())
}

/// Adds the state of the channels of a terminal.
fn write_terminal<A: Allocator>(
    line: &Line<A>,
    terminal: usize,
    log: &mut String,
) -> Result<(), Fail>
    requires { terminal < terminal_count line.now }
{
    write_channel(line, terminal, Way::FromTerminal, log)?;
    for select in 0..line.addresses(terminal) {
        write_channel(line, terminal, Way::ToTerminal(select), log)?;
    }
    Ok(())
}

/// Adds the state of all channels.
fn write_state<A: Allocator>(line: &Line<A>, log: &mut String) -> Result<(), Fail> {
    for terminal in 0..line.terminals() {
        write_terminal(line, terminal, log)?;
    }
    Ok(())
}

/// Plays the events of these words, and adds what comes of each, and the state of the channels at
/// the end and at each `=`. At `starve` the next growth is refused.
pub(crate) fn play<A: Allocator>(
    memory: &Refusing,
    line: &mut Line<A>,
    words: &str,
    log: &mut String,
) -> Result<(), Fail> {
    for word in words.split(' ') {
        match word {
            "=" => write_state(line, log)?,
            "starve" => memory.refuse_nth(1),
            word => {
                let event = event_of(word).ok_or("no such word")?;
                play_event(line, &event, log)?;
            }
        }
    }
    write_state(line, log)
}
