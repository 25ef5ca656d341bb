//! Writes what is told.

ghost use Rattle.std.specs.Prelude.{◌≡◌, ◌++◌, OnOk, codes};
ghost use Rattle.std.specs.Fmt.{decimal};
ghost use Rattle.std.specs.Io.KnownBytes.{Appends};
ghost use Rattle.bsc_feed.specs.Places.{end_at as at_place};
ghost use Rattle.bsc_feed.specs.Texts.{absent_shown, answers_shown, arrived_text, count_shown};
ghost use Rattle.bsc_feed.specs.Texts.{delivered_text, heard_shown, kept_text, named};
ghost use Rattle.bsc_feed.specs.Texts.{numbered_text, polled_shown, presence_shown};
ghost use Rattle.bsc_feed.specs.Texts.{presence_text, record_at, refused_text, silences_shown};
ghost use Rattle.bsc_feed.specs.Texts.{state_shown, state_text, terminal_shown, told_text};
ghost use Rattle.bsc_feed.specs.Texts.{visits_shown};
ghost use Rattle.bsc_station.specs.EndValues.{end_of};
ghost use Rattle.bsc_station.specs.Ends.{sending};
ghost use Rattle.bsc_report.specs.Printed.{end_shown};
ghost use Rattle.bsc_text.specs.Forms.{escaped};

use crate::Served;
use crate::places::{end_at, has_place, terminal_at, way_at};
use crate::told::Told;
use bsc_bid::Way;
use bsc_monitor::Presence;
use bsc_station::{ChannelEnd, Party};
use bsc_text::{Form, PrintError, doubt_text, put, write_channel_name, write_in_form};
use std::alloc::Allocator;
use std::io::Write;

/// Writes the lines that tell this of a station. After an error a part of them may have been
/// written.
pub(crate) fn write_told<A: Allocator, S: Served, W: Write>(
    alloc: A,
    station: &S,
    told: Told,
    out: &mut W,
) -> Result<(), PrintError>
    ensures { OnOk result (Appends (W.contents out.old) (W.contents out.new)
        (told_text S.Party S.shows station.now told)) }
{
    match told {
        Told::Kept { number } => write_kept(number, out),
        Told::Done => put(b"ok\n", out),
        Told::Refused { fault } => write_refused(fault.text(), out),
        Told::State { place } => write_states(station, place, out),
        Told::Arrived { place, number } => write_arrived(alloc, station, place, number, out),
        Told::Delivered { place, known } => write_delivered(station, place, known, out),
    }
}

/// Writes the answer to an offer.
fn write_kept<W: Write>(number: usize, out: &mut W) -> Result<(), PrintError>
    ensures { OnOk result (Appends (W.contents out.old) (W.contents out.new) (kept_text number)) }
{
    Ok(write!(out, "ok {number}\n")?)
}

/// Writes the answer that a command was refused, with the text of its fault.
fn write_refused<W: Write>(fault: &str, out: &mut W) -> Result<(), PrintError>
    ensures { OnOk result
        (Appends (W.contents out.old) (W.contents out.new) (refused_text fault.now)) }
{
    put(b"fault ", out)?;
    put(fault.as_bytes(), out)?;
    put(b"\n", out)
}

/// Writes the name of the channel at a place, or nothing if there is none.
fn write_name<P: Party, W: Write>(station: &P, place: usize, out: &mut W) -> Result<(), PrintError>
    ensures { OnOk result (Appends (W.contents out.old) (W.contents out.new)
        (named P.Party station.now place)) }
{
    if !has_place(station, place) {
        return put(b"", out);
    }
    let terminal = terminal_at(place);
    let addresses = station.addresses(terminal);
    let number = station.number(terminal);
    write_channel_name(addresses, number, way_at(place), out)
}

/// Writes a number.
fn write_number<W: Write>(number: usize, out: &mut W) -> Result<(), PrintError>
    ensures { OnOk result (Appends (W.contents out.old) (W.contents out.new) (decimal number)) }
{
    Ok(write!(out, "{number}")?)
}

/// Writes a word, the name of the channel at a place and a number.
fn write_numbered<P: Party, W: Write>(
    word: &[u8],
    station: &P,
    place: usize,
    number: usize,
    out: &mut W,
) -> Result<(), PrintError>
    ensures { OnOk result (Appends (W.contents out.old) (W.contents out.new)
        (numbered_text word.now (named P.Party station.now place) number)) }
{
    put(word, out)?;
    put(b" ", out)?;
    write_name(station, place, out)?;
    put(b" ", out)?;
    write_number(number, out)
}

/// Writes the line for what the station knows of the terminal of the channel at a place, if it
/// calls the terminal and the channel is that from it, and the line for the state of the channel.
fn write_states<S: Served, W: Write>(
    station: &S,
    place: usize,
    out: &mut W,
) -> Result<(), PrintError>
    ensures { OnOk result (Appends (W.contents out.old) (W.contents out.new)
        (state_text S.Party S.shows station.now place)) }
{
    let terminal = terminal_at(place);
    write_presence_of(way_at(place), terminal, station.presence(terminal), out)?;
    write_state(station, place, out)
}

/// Writes the line for what is known of a terminal, if it is known and this is the way from it.
fn write_presence_of<W: Write>(
    way: Way,
    terminal: usize,
    presence: Option<Presence>,
    out: &mut W,
) -> Result<(), PrintError>
    ensures { OnOk result (Appends (W.contents out.old) (W.contents out.new)
        (presence_shown way terminal presence)) }
{
    match (way, presence) {
        (Way::FromTerminal, Some(presence)) => write_presence(terminal, presence, out),
        _ => put(b"", out),
    }
}

/// Writes the line for what is known of a terminal.
fn write_presence<W: Write>(
    terminal: usize,
    presence: Presence,
    out: &mut W,
) -> Result<(), PrintError>
    ensures { OnOk result (Appends (W.contents out.old) (W.contents out.new)
        (presence_text terminal presence)) }
{
    write_terminal(terminal, presence.polled, presence.absent, out)?;
    write_visits(presence, out)
}

/// Writes whether a terminal is polled, and whether it is absent.
fn write_terminal<W: Write>(
    terminal: usize,
    polled: bool,
    absent: bool,
    out: &mut W,
) -> Result<(), PrintError>
    ensures { OnOk result (Appends (W.contents out.old) (W.contents out.new)
        (terminal_shown terminal polled absent)) }
{
    put(b"terminal ", out)?;
    write_number(terminal, out)?;
    put(polled_text(polled), out)?;
    put(absent_text(absent), out)
}

/// Writes how often a terminal has answered, and has not, and when it was heard last.
fn write_visits<W: Write>(presence: Presence, out: &mut W) -> Result<(), PrintError>
    ensures { OnOk result
        (Appends (W.contents out.old) (W.contents out.new) (visits_shown presence)) }
{
    write_answers(presence.answers, presence.naks, out)?;
    write_silences(presence.repetitions, presence.silences, out)?;
    write_heard(presence.heard, out)
}

/// Writes how often a terminal has answered, and how often with NAK.
fn write_answers<W: Write>(answers: u64, naks: u64, out: &mut W) -> Result<(), PrintError>
    ensures { OnOk result
        (Appends (W.contents out.old) (W.contents out.new) (answers_shown answers naks)) }
{
    write_count(b"answers", answers, out)?;
    write_count(b"NAKs", naks, out)
}

/// Writes how many calls of a terminal were repeated, and how many silences have passed.
fn write_silences<W: Write>(repetitions: u64, silences: u64, out: &mut W) -> Result<(), PrintError>
    ensures { OnOk result
        (Appends (W.contents out.old) (W.contents out.new) (silences_shown repetitions silences)) }
{
    write_count(b"repetitions", repetitions, out)?;
    write_count(b"silences", silences, out)
}

/// Writes the name of a count, and the count.
fn write_count<W: Write>(name: &[u8], count: u64, out: &mut W) -> Result<(), PrintError>
    ensures { OnOk result
        (Appends (W.contents out.old) (W.contents out.new) (count_shown name.now count)) }
{
    put(name, out)?;
    Ok(write!(out, " {count}, ")?)
}

/// Writes how long ago a terminal was heard last, and ends the line.
fn write_heard<W: Write>(heard: Option<u64>, out: &mut W) -> Result<(), PrintError>
    ensures { OnOk result
        (Appends (W.contents out.old) (W.contents out.new) (heard_shown heard)) }
{
    match heard {
        Some(heard) => Ok(write!(out, "heard {heard} ms ago\n")?),
        None => put(b"never heard\n", out),
    }
}

/// Returns the text that says whether a terminal is polled.
fn polled_text(polled: bool) -> &'static [u8]
    ensures { result.now ≡ polled_shown polled }
{
    if polled {
        b": polled, "
    } else {
        b": not polled, "
    }
}

/// Returns the text that says whether a terminal is absent.
fn absent_text(absent: bool) -> &'static [u8]
    ensures { result.now ≡ absent_shown absent }
{
    if absent { b"absent, " } else { b"present, " }
}

/// Writes the line for the state of the channel at a place.
fn write_state<P: Party, W: Write>(station: &P, place: usize, out: &mut W) -> Result<(), PrintError>
    ensures { OnOk result (Appends (W.contents out.old) (W.contents out.new)
        (named P.Party station.now place ++ state_shown (at_place P.Party station.now place))) }
{
    write_name(station, place, out)?;
    match end_at(station, place) {
        Some(end) => write_end(&end, out),
        None => put(b"\n", out),
    }
}

/// Writes the state of a channel with this end.
fn write_end<A: Allocator, W: Write>(end: &ChannelEnd<'_, A>, out: &mut W) -> Result<(), PrintError>
    ensures { OnOk result
        (Appends (W.contents out.old) (W.contents out.new) (end_shown None (end_of end.now))) }
{
    match end {
        ChannelEnd::Sending {
            offered,
            known,
            doubt,
        } => write_sending(*offered, *known, *doubt, out),
        ChannelEnd::Receiving { records } => write_receiving(records.len(), out),
    }
}

/// Writes the state of a channel on which the station sends.
fn write_sending<W: Write>(
    offered: usize,
    known: usize,
    doubt: bool,
    out: &mut W,
) -> Result<(), PrintError>
    ensures { OnOk result (Appends (W.contents out.old) (W.contents out.new)
        (end_shown None (sending offered known doubt))) }
{
    put(b": offered ", out)?;
    write_number(offered, out)?;
    put(b", known ", out)?;
    write_number(known, out)?;
    put(doubt_text(doubt), out)
}

/// Writes the state of a channel on which this many records arrived.
fn write_receiving<W: Write>(spooled: usize, out: &mut W) -> Result<(), PrintError>
    ensures { OnOk result (Appends (W.contents out.old) (W.contents out.new)
        (codes ": spooled " ++ decimal spooled ++ codes "\n")) }
{
    put(b": spooled ", out)?;
    write_number(spooled, out)?;
    put(b"\n", out)
}

/// Writes the line for the record with this number that arrived on the channel at a place.
fn write_arrived<A: Allocator, P: Party, W: Write>(
    alloc: A,
    station: &P,
    place: usize,
    number: usize,
    out: &mut W,
) -> Result<(), PrintError>
    ensures { OnOk result (Appends (W.contents out.old) (W.contents out.new)
        (arrived_text (named P.Party station.now place) number
        (record_at (at_place P.Party station.now place) number))) }
{
    write_numbered(b"arrived", station, place, number, out)?;
    put(b" ", out)?;
    write_record(alloc, station, place, number, out)?;
    put(b"\n", out)
}

/// Writes the characters of the record with this number that arrived on the channel at a place.
fn write_record<A: Allocator, P: Party, W: Write>(
    alloc: A,
    station: &P,
    place: usize,
    number: usize,
    out: &mut W,
) -> Result<(), PrintError>
    ensures { OnOk result (Appends (W.contents out.old) (W.contents out.new)
        (escaped (record_at (at_place P.Party station.now place) number))) }
{
    match end_at(station, place) {
        Some(ChannelEnd::Receiving { records }) if number < records.len() => {
            write_in_form(alloc, Form::Text, records.chars(number), out)
        }
        _ => put(b"", out),
    }
}

/// Writes the line for how many records of the channel at a place are known to have arrived.
fn write_delivered<P: Party, W: Write>(
    station: &P,
    place: usize,
    known: usize,
    out: &mut W,
) -> Result<(), PrintError>
    ensures { OnOk result (Appends (W.contents out.old) (W.contents out.new)
        (delivered_text (named P.Party station.now place) known)) }
{
    write_numbered(b"delivered", station, place, known, out)?;
    put(b"\n", out)
}
