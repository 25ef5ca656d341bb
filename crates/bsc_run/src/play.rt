//! Runs the events of a script in order, prints what is pending after each and its lines of the
//! trace, and prints the report.

ghost use Rattle.std.specs.Prelude.{◌≡◌, map, OnOk, IfErr, IsTrue};
ghost use Rattle.std.specs.Io.KnownBytes.{Appends};
ghost use Rattle.bsc_text.specs.Fronts.{Extends};
ghost use Rattle.bsc_config.specs.Actions.{event_in, numbered};
ghost use Rattle.bsc_run.specs.Crossing.{streams_of};
ghost use Rattle.bsc_run.specs.Faults.{TellsLine};
ghost use Rattle.bsc_run.specs.Causes.{HasEventCause, HasStepCause, IsEnded};
ghost use Rattle.bsc_run.specs.Plays.{TakesStep, Played, Runs, WhereWhole, playing};
ghost use Rattle.bsc_run.specs.Speaking.{Fits};
ghost use Rattle.bsc_run.specs.Steps.{is_heard as is_heard_event, pending_after};
ghost use Rattle.bsc_run.specs.Traces.{number_if};

use crate::actions::act;
use crate::changes::trace_changes;
use crate::counting::show_progress;
use crate::error::RunError;
use crate::pending::write_pending;
use crate::report::write_report;
use crate::standing::line_standing;
use bsc_carrier::Cable;
use bsc_config::script::{Action, Step};
use bsc_line::Line;
use bsc_line_model::laws::{every_run, headline, round, visit};
use bsc_text::PrintError;
use bsc_text::progress::Meter;
use std::alloc::Allocator;
use std::io::{Read, Write};

/// Runs the events of a script on a line in order, up to the first that is refused, over a cable
/// with a connection for each terminal. Prints the pending transmission after each event of hearing
/// (`carry`, `lose`, `heard`, `heard-each` and `silence`), and the report at the end, also if an
/// event is refused. After `Output`, `Socket` and `Memory` there is no report, and what was written
/// before stays.
///
/// With `tracing` the lines of the trace for each accepted event are written to `trace`: what
/// became of the transmission that was pending, or what the event is; and then the records that
/// landed, each doubt that begins, and the end of trust. Otherwise nothing is written there. After
/// each event `meter` is shown how far the run has come, if it is time.
///
/// The events that were accepted are a run of the line, each with the octets that were read. So
/// what `Line::run` promises holds of it: if the line is trusted at the end, the records that
/// arrived on each channel are the first of those that were offered before and then by the script,
/// in order and each once; and if the script, from some step on, is as many `carry` as the visit or
/// the round takes that begins there, each read as it was sent, and no spool is refused room, then
/// the records that wait there are delivered.
pub fn run_on<
    S: Read + Write + Drop,
    A: Allocator,
    B: Allocator,
    C: Allocator,
    E: Allocator + Copy,
    W: Write,
    D: Write,
    M: Meter,
>(
    alloc: E,
    line: &mut Line<B>,
    steps: &[Step<'_, C>],
    cable: &mut Cable<S, A>,
    out: &mut W,
    tracing: bool,
    trace: &mut D,
    meter: &mut M,
) -> Result<(), RunError>
    requires { Fits line.old cable.old }
    ensures socket { TellsLine (map numbered steps.now) cable.new.fault result }
    ensures cause { IfErr result (λ error. IsEnded (streams_of S.contents S.remaining) tracing
        (map numbered steps.now)
        (playing line.old cable.old (W.contents out.old) (D.contents trace.old)) error
        (playing line.new cable.new (W.contents out.new) (D.contents trace.new))) }
    ensures whole { WhereWhole result (Runs (streams_of S.contents S.remaining) tracing
        (map numbered steps.now)
        (playing line.old cable.old (W.contents out.old) (D.contents trace.old)) result
        (playing line.new cable.new (W.contents out.new) (D.contents trace.new))) }
    ensures stays { Extends (W.contents out.old) (W.contents out.new) }
{
    every_run();
    headline();
    visit();
    round();
    match play(alloc, line, steps, cable, out, tracing, trace, meter) {
        Ok(()) => Ok(write_report(alloc, line, out)?),
        Err(RunError::Refused { line: number, why }) => {
            write_report(alloc, line, out)?;
            Err(RunError::Refused { line: number, why })
        }
        Err(fault) => Err(fault),
    }
}

/// Performs the events in order, up to the first that is refused, and prints what is pending after
/// them and their lines of the trace.
fn play<
    S: Read + Write + Drop,
    A: Allocator,
    B: Allocator,
    C: Allocator,
    E: Allocator + Copy,
    W: Write,
    D: Write,
    M: Meter,
>(
    alloc: E,
    line: &mut Line<B>,
    steps: &[Step<'_, C>],
    cable: &mut Cable<S, A>,
    out: &mut W,
    tracing: bool,
    trace: &mut D,
    meter: &mut M,
) -> Result<(), RunError>
    requires { Fits line.old cable.old }
    ensures cause { IfErr result
        (HasEventCause tracing (map numbered steps.now) cable.new.fault) }
    ensures whole { WhereWhole result (Played (streams_of S.contents S.remaining) tracing
        (map numbered steps.now)
        (playing line.old cable.old (W.contents out.old) (D.contents trace.old)) result
        (playing line.new cable.new (W.contents out.new) (D.contents trace.new))) }
    ensures stays { Extends (W.contents out.old) (W.contents out.new) }
{
    let mut events: u64 = 0;
    'steps: for step in steps {
        if let Err(error) = take(alloc, line, step, cable, out, tracing, trace) {
            return Err(error);
        }
        events = events.saturating_add(1);
        show_progress(line, events, meter);
    }
    Ok(())
}

/// Performs one event, prints its lines of the trace if there is one, and prints the pending
/// transmission if it is an event of hearing.
fn take<
    S: Read + Write + Drop,
    A: Allocator,
    B: Allocator,
    C: Allocator,
    E: Allocator + Copy,
    W: Write,
    D: Write,
>(
    alloc: E,
    line: &mut Line<B>,
    step: &Step<'_, C>,
    cable: &mut Cable<S, A>,
    out: &mut W,
    tracing: bool,
    trace: &mut D,
) -> Result<(), RunError>
    requires { Fits line.old cable.old }
    ensures takes { TakesStep (streams_of S.contents S.remaining) tracing (numbered step.now)
        (playing line.old cable.old (W.contents out.old) (D.contents trace.old)) result
        (playing line.new cable.new (W.contents out.new) (D.contents trace.new)) }
    ensures cause { IfErr result (HasStepCause tracing (numbered step.now) cable.new.fault) }
    ensures stays { Extends (W.contents out.old) (W.contents out.new) }
{
    let number = traced_number(tracing, step.line);
    let before = line_standing(alloc, tracing, line)?;
    match act(alloc, number, line, &step.action, cable, trace) {
        Ok(()) => {
            trace_changes(alloc, number, &before, line, trace)?;
            Ok(write_after(&step.action, line, out)?)
        }
        Err(error) => Err(error.at(step.line)),
    }
}

/// Returns the number of a line of the script, if there is a trace.
fn traced_number(tracing: bool, line: u64) -> Option<u64>
    ensures { result ≡ number_if tracing line }
{
    if tracing { Some(line) } else { None }
}

/// Writes the pending transmission if this action is an event of hearing.
fn write_after<A: Allocator, B: Allocator, W: Write>(
    action: &Action<'_, B>,
    line: &Line<A>,
    out: &mut W,
) -> Result<(), PrintError>
    ensures ok { OnOk result (Appends (W.contents out.old) (W.contents out.new)
        (pending_after (event_in action.now) line.now)) }
    ensures err { IfErr result (λ error. error ≡ PrintError.Output) }
    ensures heard { IfErr result (λ error. IsTrue (is_heard_event (event_in action.now))) }
    ensures stays { Extends (W.contents out.old) (W.contents out.new) }
{
    if is_heard(action) {
        return write_pending(line, out);
    }
    Ok(())
}

/// Whether the action is an event of hearing: `carry`, `lose`, `heard`, `heard-each` or `silence`.
fn is_heard<C: Allocator>(action: &Action<'_, C>) -> bool
    ensures { result ≡ is_heard_event (event_in action.now) }
{
    match action {
        Action::Carry
        | Action::Lose
        | Action::Heard { .. }
        | Action::HeardEach { .. }
        | Action::Silence => true,
        _ => false,
    }
}
