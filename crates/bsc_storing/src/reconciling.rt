//! Comparing the counts of two stores, and ending the doubts between them.

ghost use Rattle.std.specs.Prelude.{◌≡◌, ◌<◌, ◌+◌, IfOk, OnOk, codes, length};
ghost use Rattle.std.specs.Io.KnownBytes.{Appends};
ghost use Rattle.bsc_text.specs.Channels.{each_below};
ghost use Rattle.bsc_storing.specs.Endings.{AddsIfAny, AddsPlaces, AddsTerminals, EndsDoubts};
ghost use Rattle.bsc_storing.specs.Endings.{FindsUnfit, IsComparedIfAny, KeepsIfAny, added};
ghost use Rattle.bsc_storing.specs.Lines.{all_ended_shown, difference_shown, ended_at, unfit_at};
ghost use Rattle.bsc_storing.specs.Names.{are_two_ends};
ghost use Rattle.bsc_storing.specs.Releases.{compared as compared_as};

use crate::error::{StoringError, exchanged, of_other, of_store};
use crate::kept_line::KeptLine;
use crate::releasing::release;
use crate::status::{name_at, write_name};
use bsc_bid::limits::MAX_SELECTS;
use bsc_bid::{ChannelName, ReleaseError, Speaker};
use bsc_spool::{Change, Channel, Progress, Store, StoreFault};
use std::alloc::Global;
use std::io::Write;

/// The channel of a doubt that is ended, and how many records its other end has.
#[derive(Clone, Copy)]
pub(crate) struct Ended {
    pub(crate) name: ChannelName,
    pub(crate) count: u32,
}

/// A channel whose counts do not fit: how many records are known to have arrived, and how many have
/// arrived.
#[derive(Clone, Copy)]
pub(crate) struct Unfit {
    pub(crate) name: ChannelName,
    pub(crate) known: u32,
    pub(crate) arrived: u32,
}

/// What is printed of the channels between two stations.
#[derive(Drop)]
pub(crate) struct Outcome {
    pub(crate) ended: Vec<Ended>,
    pub(crate) unfit: Vec<Unfit>,
}

/// What came of comparing two stores.
#[derive(Clone, Copy)]
pub(crate) enum Reconciled {
    /// The counts of all channels fit, and each doubt is ended.
    Ended,

    /// The counts of some channels do not fit, and nothing is kept.
    Apart,
}

/// What the counts of the two ends of a channel say.
#[derive(Drop)]
pub(crate) enum Verdict {
    /// They fit, and nothing is in doubt.
    Settled,

    /// They fit, and this change ends the doubt, at the count of the receiving end.
    Ends { change: Change, count: u32 },

    /// They do not fit.
    Apart { known: u32, arrived: u32 },
}

/// Returns what the counts of the two ends of a channel say: those of the sending end, and how many
/// records have arrived at the other.
fn compared(channel: Channel, progress: Progress, arrived: u32) -> Verdict
    ensures { result ≡ compared_as channel progress arrived }
{
    let known = progress.known;
    match release(channel, progress, arrived) {
        Ok(change) => Verdict::Ends {
            change,
            count: arrived,
        },
        Err(ReleaseError::NotInDoubt) if arrived == known => Verdict::Settled,
        Err(ReleaseError::NotInDoubt) => Verdict::Apart { known, arrived },
        Err(ReleaseError::CountMismatch) => Verdict::Apart { known, arrived },
    }
}

/// Returns what the counts of the channel with this name say, by both stores.
fn compare<S: Store, T: Store>(
    sender: &mut S,
    receiver: &mut T,
    line: &KeptLine,
    name: ChannelName,
) -> Result<Verdict, StoringError>
    ensures { IfOk result (IsComparedIfAny S.Store T.Store line.now name
        sender.old sender.new receiver.old receiver.new) }
{
    let Some(channel) = line.channel(name) else {
        return Ok(Verdict::Settled);
    };
    let progress = sender.progress(&channel).map_err(of_store)?;
    let arrived = receiver.progress(&channel).map_err(of_other)?.arrived;
    Ok(compared(channel, progress, arrived))
}

/// Adds what the counts of the channel with this name say.
fn add(
    compared: Verdict,
    name: ChannelName,
    step: &mut Vec<Change>,
    outcome: &mut Outcome,
) -> Result<(), StoringError>
    ensures { OnOk result ((step.new.items, (outcome.new.ended.items, outcome.new.unfit.items))
        ≡ added name compared
        (step.old.items, (outcome.old.ended.items, outcome.old.unfit.items))) }
{
    match compared {
        Verdict::Settled => {}
        Verdict::Ends { change, count } => {
            step.push(change)?;
            outcome.ended.push(Ended { name, count })?;
        }
        Verdict::Apart { known, arrived } => {
            outcome.unfit.push(Unfit {
                name,
                known,
                arrived,
            })?;
        }
    }
    Ok(())
}

/// Adds what the counts of the channel with this name say, if one station sends to the other on it.
fn add_ending<S: Store, T: Store>(
    sender: &mut S,
    receiver: &mut T,
    line: &KeptLine,
    other: &KeptLine,
    name: ChannelName,
    step: &mut Vec<Change>,
    outcome: &mut Outcome,
) -> Result<(), StoringError>
    ensures { OnOk result (AddsIfAny S.Store T.Store line.now other.now name
        (step.old.items, (outcome.old.ended.items, outcome.old.unfit.items))
        (step.new.items, (outcome.new.ended.items, outcome.new.unfit.items))
        sender.old sender.new receiver.old receiver.new) }
{
    if !line.sends(name) || !other.receives(name) {
        return Ok(());
    }
    let compared = compare(sender, receiver, line, name)?;
    add(compared, name, step, outcome)
}

/// Adds what the counts of the channels of a terminal say on which one station sends to the other.
fn add_endings_at<S: Store, T: Store>(
    sender: &mut S,
    receiver: &mut T,
    line: &KeptLine,
    other: &KeptLine,
    terminal: usize,
    step: &mut Vec<Change>,
    outcome: &mut Outcome,
) -> Result<(), StoringError>
    ensures { OnOk result (AddsPlaces S.Store T.Store line.now other.now terminal
        (MAX_SELECTS + 1) (step.old.items, (outcome.old.ended.items, outcome.old.unfit.items))
        (step.new.items, (outcome.new.ended.items, outcome.new.unfit.items)) sender.old sender.new
        receiver.old receiver.new) }
{
    'places: for place in 0..MAX_SELECTS + 1 {
        let name = name_at(terminal, place);
        add_ending(sender, receiver, line, other, name, step, outcome)?;
    }
    Ok(())
}

/// Adds what the counts of the channels say on which one station sends to the other.
pub(crate) fn add_endings<S: Store, T: Store>(
    sender: &mut S,
    receiver: &mut T,
    line: &KeptLine,
    other: &KeptLine,
    step: &mut Vec<Change>,
    outcome: &mut Outcome,
) -> Result<(), StoringError>
    ensures { OnOk result (AddsTerminals S.Store T.Store line.now other.now
        (length line.now.terminals.items)
        (step.old.items, (outcome.old.ended.items, outcome.old.unfit.items))
        (step.new.items, (outcome.new.ended.items, outcome.new.unfit.items))
        sender.old sender.new receiver.old receiver.new) }
{
    'terminals: for terminal in 0..line.terminals.len() {
        add_endings_at(sender, receiver, line, other, terminal, step, outcome)?;
    }
    Ok(())
}

/// Writes that there was no doubt.
fn write_none<W: Write>(out: &mut W) -> Result<(), StoringError>
    ensures { OnOk result
        (Appends (W.contents out.old) (W.contents out.new) (codes "nothing in doubt\n")) }
{
    match writeln!(out, "nothing in doubt") {
        Ok(()) => Ok(()),
        Err(_) => Err(StoringError::Output),
    }
}

/// Writes the doubt at this place that was ended.
fn write_one<W: Write>(
    line: &KeptLine,
    ended: &[Ended],
    place: usize,
    out: &mut W,
) -> Result<(), StoringError>
    requires { place < length ended.now }
    ensures { OnOk result
        (Appends (W.contents out.old) (W.contents out.new) (ended_at line.now ended.now place)) }
{
    let it = ended[place];
    write_name(line, it.name, out)?;
    let count = it.count;
    match writeln!(out, ": released at {count}") {
        Ok(()) => Ok(()),
        Err(_) => Err(StoringError::Output),
    }
}

/// Writes each doubt that was ended.
fn write_each<W: Write>(line: &KeptLine, ended: &[Ended], out: &mut W) -> Result<(), StoringError>
    ensures { OnOk result
        (Appends (W.contents out.old) (W.contents out.new)
        (each_below (ended_at line.now ended.now) (length ended.now))) }
{
    'ended: for place in 0..ended.len() {
        write_one(line, ended, place, out)?;
    }
    Ok(())
}

/// Writes the doubts that were ended, or that there was none.
pub(crate) fn write_ended<W: Write>(
    line: &KeptLine,
    ended: &[Ended],
    out: &mut W,
) -> Result<(), StoringError>
    ensures { OnOk result
        (Appends (W.contents out.old) (W.contents out.new) (all_ended_shown line.now ended.now)) }
{
    if ended.is_empty() {
        write_none(out)
    } else {
        write_each(line, ended, out)
    }
}

/// Writes by how many records the counts of a channel differ.
fn write_difference<W: Write>(known: u32, arrived: u32, out: &mut W) -> Result<(), StoringError>
    ensures { OnOk result
        (Appends (W.contents out.old) (W.contents out.new) (difference_shown known arrived)) }
{
    let written = if known < arrived {
        let more = arrived - known;
        writeln!(out, ": arrived but not known: {more}")
    } else {
        let more = known - arrived;
        writeln!(out, ": known but not arrived: {more}")
    };
    match written {
        Ok(()) => Ok(()),
        Err(_) => Err(StoringError::Output),
    }
}

/// Writes the channel at this place whose counts do not fit.
fn write_unfit_one<W: Write>(
    line: &KeptLine,
    unfit: &[Unfit],
    place: usize,
    out: &mut W,
) -> Result<(), StoringError>
    requires { place < length unfit.now }
    ensures { OnOk result
        (Appends (W.contents out.old) (W.contents out.new) (unfit_at line.now unfit.now place)) }
{
    let it = unfit[place];
    write_name(line, it.name, out)?;
    write_difference(it.known, it.arrived, out)
}

/// Writes each channel whose counts do not fit.
fn write_unfit<W: Write>(line: &KeptLine, unfit: &[Unfit], out: &mut W) -> Result<(), StoringError>
    ensures { OnOk result
        (Appends (W.contents out.old) (W.contents out.new)
        (each_below (unfit_at line.now unfit.now) (length unfit.now))) }
{
    'unfit: for place in 0..unfit.len() {
        write_unfit_one(line, unfit, place, out)?;
    }
    Ok(())
}

/// Tells whether one station is the control station and the other a terminal.
pub(crate) fn are_two_ends(one: Speaker, other: Speaker) -> bool
    ensures { result ≡ are_two_ends one other }
{
    match (one, other) {
        (Speaker::Control, Speaker::Terminal { .. })
        | (Speaker::Terminal { .. }, Speaker::Control) => true,
        _ => false,
    }
}

/// Compares the counts of each channel between two stores of one line, and ends each doubt by what
/// both have. All is found before anything is kept: if the counts of a channel do not fit, nothing
/// is, and each such channel is printed.
pub(crate) fn reconcile<S: Store, T: Store, W: Write>(
    alloc: Global,
    one: &mut S,
    two: &mut T,
    line: &KeptLine,
    other: &KeptLine,
    out: &mut W,
) -> Result<Reconciled, StoringError>
    ensures ends { IfOk result (λ it. it ≡ Reconciled.Ended → EndsDoubts S.Store T.Store line.now
        other.now one.old one.new two.old two.new (W.contents out.old) (W.contents out.new)) }
    ensures apart { IfOk result (λ it. it ≡ Reconciled.Apart → FindsUnfit S.Store T.Store line.now
        other.now one.old one.new two.old two.new (W.contents out.old) (W.contents out.new)) }
{
    let mut outcome = Outcome {
        ended: Vec::new(alloc),
        unfit: Vec::new(alloc),
    };
    let (mut first, mut second) = (Vec::new(alloc), Vec::new(alloc));
    add_endings(one, two, line, other, &mut first, &mut outcome)?;
    add_endings(two, one, other, line, &mut second, &mut outcome).map_err(exchanged)?;
    if !outcome.unfit.is_empty() {
        write_unfit(line, &outcome.unfit, out)?;
        return Ok(Reconciled::Apart);
    }
    commit_if_any(one, &first).map_err(of_store)?;
    commit_if_any(two, &second).map_err(of_other)?;
    write_ended(line, &outcome.ended, out)?;
    Ok(Reconciled::Ended)
}

/// Keeps a step, unless it is empty.
fn commit_if_any<S: Store>(store: &mut S, step: &[Change]) -> Result<(), StoreFault>
    ensures { OnOk result (KeepsIfAny S.Store step.now store.old store.new) }
{
    if step.is_empty() {
        return Ok(());
    }
    store.commit(step)
}
