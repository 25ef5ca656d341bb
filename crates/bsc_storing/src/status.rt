//! How far the channels of a store are.
ghost use Rattle.std.specs.Prelude.{◌≡◌, ◌+◌, ◌++◌, OnOk, length};
ghost use Rattle.std.specs.Io.KnownBytes.{Appends};
ghost use Rattle.bsc_storing.specs.Lines.{doubt_shown, offered_shown, receiving_shown};
ghost use Rattle.bsc_storing.specs.Lines.{ShowsChannel, ShowsPlaces, ShowsTerminals};
ghost use Rattle.bsc_storing.specs.Names.{name_at, name_shown};

use crate::error::{StoringError, of_store};
use crate::kept_line::KeptLine;
use bsc_bid::limits::MAX_SELECTS;
use bsc_bid::{ChannelName, Way};
use bsc_spool::{Progress, Store};
use bsc_text::write_channel_name;
use std::io::Write;

/// Writes the name of a channel of a line.
pub(crate) fn write_name<W: Write>(
    line: &KeptLine,
    name: ChannelName,
    out: &mut W,
) -> Result<(), StoringError>
    ensures { OnOk result
        (Appends (W.contents out.old) (W.contents out.new) (name_shown line.now name)) }
{
    let addresses = line.addresses(name.terminal);
    match write_channel_name(addresses, name.terminal, name.way, out) {
        Ok(()) => Ok(()),
        Err(_) => Err(StoringError::Output),
    }
}

/// Writes how many records were offered, and how many of them are known.
fn write_offered<W: Write>(it: Progress, out: &mut W) -> Result<(), StoringError>
    ensures { OnOk result
        (Appends (W.contents out.old) (W.contents out.new) (offered_shown it)) }
{
    let (offered, known) = (it.offered, it.known);
    match write!(out, ": offered {offered}, known {known}") {
        Ok(()) => Ok(()),
        Err(_) => Err(StoringError::Output),
    }
}

/// Writes how many records are in doubt.
fn write_doubt<W: Write>(it: Progress, out: &mut W) -> Result<(), StoringError>
    ensures { OnOk result
        (Appends (W.contents out.old) (W.contents out.new) (doubt_shown it)) }
{
    let in_doubt = it.in_doubt;
    match writeln!(out, ", in doubt {in_doubt}") {
        Ok(()) => Ok(()),
        Err(_) => Err(StoringError::Output),
    }
}

/// Writes the numbers of a channel at its sending end.
fn write_sending<W: Write>(it: Progress, out: &mut W) -> Result<(), StoringError>
    ensures { OnOk result
        (Appends (W.contents out.old) (W.contents out.new) (offered_shown it ++ doubt_shown it)) }
{
    write_offered(it, out)?;
    write_doubt(it, out)
}

/// Writes the numbers of a channel at its receiving end.
fn write_receiving<W: Write>(it: Progress, out: &mut W) -> Result<(), StoringError>
    ensures { OnOk result
        (Appends (W.contents out.old) (W.contents out.new) (receiving_shown it)) }
{
    let (arrived, printed) = (it.arrived, it.printed);
    match writeln!(out, ": arrived {arrived}, printed {printed}") {
        Ok(()) => Ok(()),
        Err(_) => Err(StoringError::Output),
    }
}

/// Writes the line of a channel, if it has an end at the station.
fn write_channel<S: Store, W: Write>(
    store: &mut S,
    line: &KeptLine,
    name: ChannelName,
    out: &mut W,
) -> Result<(), StoringError>
    ensures { OnOk result (ShowsChannel S.Store line.now name store.old store.new
        (W.contents out.old) (W.contents out.new)) }
{
    let Some(channel) = line.channel(name) else {
        return Ok(());
    };
    let (sends, receives) = (line.sends(name), line.receives(name));
    if !sends && !receives {
        return Ok(());
    }
    let progress = store.progress(&channel).map_err(of_store)?;
    write_name(line, name, out)?;
    if sends {
        write_sending(progress, out)
    } else {
        write_receiving(progress, out)
    }
}

/// Returns the name of the channel at this place of a terminal: first the one from it, and then
/// those to its selection addresses.
pub(crate) fn name_at(terminal: usize, place: usize) -> ChannelName
    ensures { result ≡ name_at terminal place }
{
    let way = if place == 0 {
        Way::FromTerminal
    } else {
        Way::ToTerminal(place - 1)
    };
    ChannelName { terminal, way }
}

/// Writes a line for each channel of a terminal that has an end at the station.
fn write_terminal<S: Store, W: Write>(
    store: &mut S,
    line: &KeptLine,
    terminal: usize,
    out: &mut W,
) -> Result<(), StoringError>
    ensures { OnOk result (ShowsPlaces S.Store line.now terminal (MAX_SELECTS + 1)
        store.old store.new (W.contents out.old) (W.contents out.new)) }
{
    'places: for place in 0..MAX_SELECTS + 1 {
        write_channel(store, line, name_at(terminal, place), out)?;
    }
    Ok(())
}

/// Writes a line for each channel that has an end at the station, in the order of a report.
pub(crate) fn write_status<S: Store, W: Write>(
    store: &mut S,
    line: &KeptLine,
    out: &mut W,
) -> Result<(), StoringError>
    ensures { OnOk result (ShowsTerminals S.Store line.now (length line.now.terminals.items)
        store.old store.new (W.contents out.old) (W.contents out.new)) }
{
    'terminals: for terminal in 0..line.terminals.len() {
        write_terminal(store, line, terminal, out)?;
    }
    Ok(())
}
