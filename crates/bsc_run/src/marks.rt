//! The lines of the trace for events in which nothing is sent.

ghost use Rattle.std.specs.Prelude.{OnOk, IfErr, IsTrue, is_some};
ghost use Rattle.std.specs.Io.KnownBytes.{Appends};
ghost use Rattle.bsc_config.specs.Actions.{event_in};
ghost use Rattle.bsc_config.specs.Events.{offer_at, offer_for, polled as polled_event};
ghost use Rattle.bsc_config.specs.Events.{ready as ready_event, urgent_at, urgent_for};
ghost use Rattle.bsc_run.specs.Traces.{doubt_of, if_traced, mark, mark_line, place_shown};
ghost use Rattle.bsc_run.specs.Traces.{record_shown};

use bsc_config::script::Action;
use bsc_control::Way;
use bsc_text::{Form, PrintError, put, write_in_form, write_time};
use std::alloc::Allocator;
use std::io::Write;

/// Writes a record as text on one line, between bars.
pub(crate) fn write_record<A: Allocator, W: Write>(
    alloc: A,
    codes: &[u8],
    out: &mut W,
) -> Result<(), PrintError>
    ensures { OnOk result
        (Appends (W.contents out.old) (W.contents out.new) (record_shown codes.now)) }
{
    put(b"|", out)?;
    write_in_form(alloc, Form::Text, codes, out)?;
    put(b"|", out)
}

/// Writes that a record is offered at a terminal.
fn write_offer_at<A: Allocator, W: Write>(
    alloc: A,
    terminal: usize,
    codes: &[u8],
    out: &mut W,
) -> Result<(), PrintError>
    ensures { OnOk result (Appends (W.contents out.old) (W.contents out.new)
        (mark (offer_at terminal codes.now))) }
{
    write!(out, "offered at terminal {terminal}: ")?;
    write_record(alloc, codes, out)
}

/// Writes a selection address of a terminal.
pub(crate) fn write_place<W: Write>(
    terminal: usize,
    select: usize,
    out: &mut W,
) -> Result<(), PrintError>
    ensures { OnOk result
        (Appends (W.contents out.old) (W.contents out.new) (place_shown terminal select)) }
{
    Ok(write!(out, "{terminal}.{select}")?)
}

/// Writes that a record is offered for a selection address of a terminal.
fn write_offer_for<A: Allocator, W: Write>(
    alloc: A,
    terminal: usize,
    select: usize,
    codes: &[u8],
    out: &mut W,
) -> Result<(), PrintError>
    ensures { OnOk result (Appends (W.contents out.old) (W.contents out.new)
        (mark (offer_for terminal select codes.now))) }
{
    put(b"offered for terminal ", out)?;
    write_place(terminal, select, out)?;
    put(b": ", out)?;
    write_record(alloc, codes, out)
}

/// Writes whether a terminal accepts selections from now on.
fn write_ready<W: Write>(terminal: usize, ready: bool, out: &mut W) -> Result<(), PrintError>
    ensures { OnOk result (Appends (W.contents out.old) (W.contents out.new)
        (mark (ready_event terminal ready))) }
{
    let written = match ready {
        true => write!(out, "terminal {terminal} is ready"),
        false => write!(out, "terminal {terminal} is not ready"),
    };
    Ok(written?)
}

/// Writes whether the control station polls a terminal from now on.
fn write_polled<W: Write>(terminal: usize, polled: bool, out: &mut W) -> Result<(), PrintError>
    ensures { OnOk result (Appends (W.contents out.old) (W.contents out.new)
        (mark (polled_event terminal polled))) }
{
    let written = match polled {
        true => write!(out, "terminal {terminal} is polled"),
        false => write!(out, "terminal {terminal} is not polled"),
    };
    Ok(written?)
}

/// Writes that the doubt about the records from a terminal is meant.
fn write_doubt_from<W: Write>(terminal: usize, out: &mut W) -> Result<(), PrintError>
    ensures { OnOk result (Appends (W.contents out.old) (W.contents out.new)
        (doubt_of terminal Way.FromTerminal)) }
{
    Ok(write!(out, "the doubt from {terminal}")?)
}

/// Writes that the doubt about the records to an address of a terminal is meant.
fn write_doubt_to<W: Write>(terminal: usize, select: usize, out: &mut W) -> Result<(), PrintError>
    ensures { OnOk result (Appends (W.contents out.old) (W.contents out.new)
        (doubt_of terminal (Way.ToTerminal select))) }
{
    put(b"the doubt to ", out)?;
    write_place(terminal, select, out)
}

/// Writes which doubt is meant.
pub(crate) fn write_doubt<W: Write>(
    terminal: usize,
    way: Way,
    out: &mut W,
) -> Result<(), PrintError>
    ensures { OnOk result
        (Appends (W.contents out.old) (W.contents out.new) (doubt_of terminal way)) }
{
    match way {
        Way::FromTerminal => write_doubt_from(terminal, out),
        Way::ToTerminal(select) => write_doubt_to(terminal, select, out),
    }
}

/// Writes that a terminal asks for the line.
fn write_urgent_at<W: Write>(terminal: usize, out: &mut W) -> Result<(), PrintError>
    ensures { OnOk result (Appends (W.contents out.old) (W.contents out.new)
        (mark (urgent_at terminal))) }
{
    Ok(write!(out, "terminal {terminal} asks for the line")?)
}

/// Writes that the control station asks a terminal for the line.
fn write_urgent_for<W: Write>(terminal: usize, out: &mut W) -> Result<(), PrintError>
    ensures { OnOk result (Appends (W.contents out.old) (W.contents out.new)
        (mark (urgent_for terminal))) }
{
    Ok(write!(out, "control asks terminal {terminal} for the line")?)
}

/// Writes what is said of an event in which nothing is sent.
fn write_mark<A: Allocator, B: Allocator, W: Write>(
    alloc: A,
    action: &Action<'_, B>,
    out: &mut W,
) -> Result<(), PrintError>
    ensures { OnOk result
        (Appends (W.contents out.old) (W.contents out.new) (mark (event_in action.now))) }
{
    match action {
        Action::OfferAt { terminal, codes } => write_offer_at(alloc, *terminal, codes, out),
        Action::OfferFor {
            terminal,
            select,
            codes,
        } => write_offer_for(alloc, *terminal, *select, codes, out),
        Action::Carry | Action::Lose | Action::Heard { .. } | Action::HeardEach { .. } => Ok(()),
        Action::Silence => put(b"silence", out),
        Action::Ready { terminal, ready } => write_ready(*terminal, *ready, out),
        Action::Polled { terminal, polled } => write_polled(*terminal, *polled, out),
        Action::UrgentAt { terminal } => write_urgent_at(*terminal, out),
        Action::UrgentFor { terminal } => write_urgent_for(*terminal, out),
        Action::Release { terminal, way } => {
            write_doubt(*terminal, *way, out)?;
            put(b" is ended", out)
        }
    }
}

/// Writes the line for an event in which nothing is sent, if there is a trace.
pub(crate) fn trace_mark<A: Allocator, B: Allocator, W: Write>(
    alloc: A,
    number: Option<u64>,
    action: &Action<'_, B>,
    out: &mut W,
) -> Result<(), PrintError>
    ensures traced { OnOk result (Appends (W.contents out.old) (W.contents out.new)
        (if_traced number (λ n. mark_line n (event_in action.now)))) }
    ensures cause { IfErr result (λ error. IsTrue (is_some number)) }
{
    let Some(number) = number else {
        return Ok(());
    };
    write_time(number, out)?;
    write_mark(alloc, action, out)?;
    put(b"\n", out)
}
