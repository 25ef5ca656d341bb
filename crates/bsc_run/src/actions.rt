//! The effect of each event of a script on the line and the cable.

ghost use Rattle.std.specs.Prelude.{◌≡◌, ◌≢◌, length, None, Some, Ok, Err};
ghost use Rattle.std.specs.Prelude.{OnOk, IfErr};
ghost use Rattle.std.specs.Io.KnownBytes.{Appends};
ghost use Rattle.bsc_frame.specs.declared.message.Message.{Message as MessageValue};
ghost use Rattle.bsc_frame.specs.Wire.{wire};
ghost use Rattle.bsc_carrier.specs.Record.{IsCarried};
ghost use Rattle.bsc_line_model.specs.declared.error.LineError.{LineError as Why};
ghost use Rattle.bsc_line_model.specs.declared.event.Event.TheVariants as event;
ghost use Rattle.bsc_line_model.specs.Kept.{IsLine};
ghost use Rattle.bsc_line_model.specs.Runs.{Does};
ghost use Rattle.bsc_config.specs.Actions.{event_in};
ghost use Rattle.bsc_run.specs.Crossing.{connection_count, streams_of};
ghost use Rattle.bsc_config.specs.Events.{carry, heard as heard_event, heard_each};
ghost use Rattle.bsc_config.specs.Events.{lose as lose_event};
ghost use Rattle.bsc_run.specs.Faults.{HasCause, IsCableFault, IsTraceFault};
ghost use Rattle.bsc_run.specs.Faults.{IsTraceFaultOrRefusal, told};
ghost use Rattle.bsc_run.specs.Hearing.{IsRefusedEach, ReadsAsSent, WasSent};
ghost use Rattle.bsc_run.specs.Speaking.{Fits};
ghost use Rattle.bsc_run.specs.Steps.{Acts, Answers, Sends, acting};
ghost use Rattle.bsc_run.specs.Traces.{heard_line, if_sent, if_traced, item_lines, mark_line};

use crate::crossing::{cross, cross_each, slices};
use crate::error::StepError;
use crate::marks::trace_mark;
use crate::trace::{trace_heard, trace_items, trace_lost};
use bsc_bid::Speaker;
use bsc_carrier::{Cable, Octets};
use bsc_config::script::{Action, HeardOctets};
use bsc_frame::laws::{one_reading, reading};
use bsc_frame::{Wire, encode};
use bsc_line::{Line, LineError};
use std::alloc::Allocator;
use std::io::{Read, Write};

/// Performs an event of the script, and writes its lines of the trace if there is one: then
/// `number` is that of its line. A refused event sends nothing over the cable.
pub(crate) fn act<
    S: Read + Write + Drop,
    A: Allocator,
    B: Allocator,
    C: Allocator,
    E: Allocator + Copy,
    D: Write,
>(
    alloc: E,
    number: Option<u64>,
    line: &mut Line<B>,
    action: &Action<'_, C>,
    cable: &mut Cable<S, A>,
    trace: &mut D,
) -> Result<(), StepError>
    requires { Fits line.old cable.old }
    ensures acts { Acts (streams_of S.contents S.remaining) number (event_in action.now)
        (acting line.old cable.old (D.contents trace.old)) result
        (acting line.new cable.new (D.contents trace.new)) }
    ensures cause { IfErr result (HasCause number (event_in action.now) cable.new.fault) }
{
    match action {
        Action::OfferAt { terminal, codes } => {
            tell(
                alloc,
                number,
                line.offer_at(*terminal, codes),
                action,
                trace,
            )
        }
        Action::OfferFor {
            terminal,
            select,
            codes,
        } => {
            let answer = line.offer_for(*terminal, *select, codes);
            tell(alloc, number, answer, action, trace)
        }
        Action::Carry => carry_pending(alloc, number, line, cable, trace),
        Action::Lose => lose(alloc, number, line, cable, trace),
        Action::Heard { octets } => carry_given(alloc, number, line, octets, cable, trace),
        Action::HeardEach { items } => carry_items(alloc, number, line, items, cable, trace),
        Action::Silence => tell(alloc, number, line.silence(), action, trace),
        Action::Ready { terminal, ready } => {
            tell(
                alloc,
                number,
                line.set_ready(*terminal, *ready),
                action,
                trace,
            )
        }
        Action::Polled { terminal, polled } => {
            tell(
                alloc,
                number,
                line.set_polled(*terminal, *polled),
                action,
                trace,
            )
        }
        Action::UrgentAt { terminal } => {
            tell(alloc, number, line.set_urgent_at(*terminal), action, trace)
        }
        Action::UrgentFor { terminal } => {
            tell(alloc, number, line.set_urgent_for(*terminal), action, trace)
        }
        Action::Release { terminal, way } => {
            tell(alloc, number, line.release(*terminal, *way), action, trace)
        }
    }
}

/// Converts the answer of a line to that of a step in which nothing is sent. If the line accepted
/// it, its line of the trace is written.
fn tell<A: Allocator, C: Allocator, D: Write>(
    alloc: A,
    number: Option<u64>,
    answer: Result<(), LineError>,
    action: &Action<'_, C>,
    trace: &mut D,
) -> Result<(), StepError>
    ensures answers { Answers answer (if_traced number (λ n. mark_line n (event_in action.now)))
        result (D.contents trace.old) (D.contents trace.new) }
    ensures cause { IfErr result (IsTraceFaultOrRefusal number) }
{
    match answer {
        Ok(()) => Ok(trace_mark(alloc, number, action, trace)?),
        Err(why) => Err(StepError::Refused(why)),
    }
}

/// Lets the pending transmission be lost.
fn lose<S: Read + Write + Drop, A: Allocator, B: Allocator, E: Allocator, D: Write>(
    alloc: E,
    number: Option<u64>,
    line: &mut Line<B>,
    cable: &Cable<S, A>,
    trace: &mut D,
) -> Result<(), StepError>
    requires { Fits line.old cable.now }
    ensures acts { Acts (streams_of S.contents S.remaining) number lose_event
        (acting line.old cable.now (D.contents trace.old)) result
        (acting line.new cable.now (D.contents trace.new)) }
    ensures cause { IfErr result (IsTraceFaultOrRefusal number) }
{
    trace_lost(alloc, number, line, trace)?;
    tell_lost(line.carry(None))
}

/// Converts the answer of a line to that of a step.
fn tell_lost(answer: Result<(), LineError>) -> Result<(), StepError>
    ensures { result ≡ told answer }
{
    match answer {
        Ok(()) => Ok(()),
        Err(why) => Err(StepError::Refused(why)),
    }
}

/// Sends the pending transmission over the cable; the octets that are read there are heard.
fn carry_pending<S: Read + Write + Drop, A: Allocator, B: Allocator, E: Allocator, D: Write>(
    alloc: E,
    number: Option<u64>,
    line: &mut Line<B>,
    cable: &mut Cable<S, A>,
    trace: &mut D,
) -> Result<(), StepError>
    requires { Fits line.old cable.old }
    ensures acts { Acts (streams_of S.contents S.remaining) number carry
        (acting line.old cable.old (D.contents trace.old)) result
        (acting line.new cable.new (D.contents trace.new)) }
    ensures cause { IfErr result (HasCause number carry cable.new.fault) }
{
    let mut read = Octets::new();
    send_pending(line, cable, &mut read)?;
    hear(alloc, number, line, read.as_slice(), trace)
}

/// Sends these octets over the cable in place of the pending transmission; the octets that are read
/// there are heard.
fn carry_given<
    S: Read + Write + Drop,
    A: Allocator,
    B: Allocator,
    C: Allocator,
    E: Allocator,
    D: Write,
>(
    alloc: E,
    number: Option<u64>,
    line: &mut Line<B>,
    octets: &HeardOctets<C>,
    cable: &mut Cable<S, A>,
    trace: &mut D,
) -> Result<(), StepError>
    requires { Fits line.old cable.old }
    ensures acts { Acts (streams_of S.contents S.remaining) number (heard_event octets.now)
        (acting line.old cable.old (D.contents trace.old)) result
        (acting line.new cable.new (D.contents trace.new)) }
    ensures cause { IfErr result (HasCause number (heard_event octets.now) cable.new.fault) }
{
    let mut read = Octets::new();
    send_given(line, octets.as_slice(), cable, &mut read)?;
    hear(alloc, number, line, read.as_slice(), trace)
}

/// Sends the pending transmission over the cable, and stores the octets that are read in `read`.
fn send_pending<S: Read + Write + Drop, A: Allocator, B: Allocator>(
    line: &Line<B>,
    cable: &mut Cable<S, A>,
    read: &mut Octets,
) -> Result<(), StepError>
    requires { Fits line.now cable.old }
    ensures sends { OnOk result
        (Sends (streams_of S.contents S.remaining) wire line.now read.new.items cable.old
        cable.new) }
    ensures refused { (why : Why) → result ≡ Err (StepError.Refused why) →
        (why ≡ LineError.NothingSent) × (line.now.pending ≡ None) × (cable.new ≡ cable.old) }
    ensures count { connection_count cable.new ≡ connection_count cable.old }
    ensures cause { IfErr result (IsCableFault cable.new.fault) }
{
    one_reading();
    match line.pending() {
        None => Err(StepError::Refused(LineError::NothingSent)),
        Some(sent) => {
            let mut octets = Wire::new();
            encode(&sent.message, &mut octets);
            Ok(cross(cable, sent.speaker, octets.as_slice(), read)?)
        }
    }
}

/// Sends these octets over the cable in place of the pending transmission, and stores the octets
/// that are read in `read`.
fn send_given<S: Read + Write + Drop, A: Allocator, B: Allocator>(
    line: &Line<B>,
    octets: &[u8],
    cable: &mut Cable<S, A>,
    read: &mut Octets,
) -> Result<(), StepError>
    requires fits { Fits line.now cable.old }
    requires carried { IsCarried octets.now }
    ensures sends { OnOk result (Sends (streams_of S.contents S.remaining)
        (λ (message : MessageValue). octets.now) line.now read.new.items cable.old cable.new) }
    ensures refused { (why : Why) → result ≡ Err (StepError.Refused why) →
        (why ≡ LineError.NothingSent) × (line.now.pending ≡ None) × (cable.new ≡ cable.old) }
    ensures count { connection_count cable.new ≡ connection_count cable.old }
    ensures cause { IfErr result (IsCableFault cable.new.fault) }
{
    match line.pending() {
        None => Err(StepError::Refused(LineError::NothingSent)),
        Some(sent) => Ok(cross(cable, sent.speaker, octets, read)?),
    }
}

/// Lets the pending transmission be heard as these octets, after its line of the trace is written.
fn hear<A: Allocator, B: Allocator, D: Write>(
    alloc: A,
    number: Option<u64>,
    line: &mut Line<B>,
    octets: &[u8],
    trace: &mut D,
) -> Result<(), StepError>
    requires { line.old.pending ≢ None }
    ensures does { OnOk result (Does (event.Carry (Some octets.entry)) line.old (Ok tt) line.new) }
    ensures reads { ReadsAsSent line.old }
    ensures line { OnOk result (IsLine line.new) }
    ensures traced { OnOk result (Appends (D.contents trace.old) (D.contents trace.new)
        (if_traced number (λ n. if_sent line.old.pending
        (λ sent. heard_line n sent None octets.now)))) }
    ensures faults { IfErr result (IsTraceFault number) }
{
    reads_as_sent(line);
    trace_heard(alloc, number, line, octets, trace)?;
    line.carry(Some(octets)).unwrap();
    Ok(())
}

/// States that the octets of the pending transmission are heard as its message, for contracts to
/// rest on.
fn reads_as_sent<B: Allocator>(line: &Line<B>)
    ensures { ReadsAsSent line.now }
{
    one_reading();
    reading();
    let _pending = line.pending();
}

/// Sends each item over the connection with its number; each terminal hears the octets that are
/// read at its end.
fn carry_items<
    S: Read + Write + Drop,
    A: Allocator,
    B: Allocator,
    C: Allocator,
    E: Allocator + Copy,
    D: Write,
>(
    alloc: E,
    number: Option<u64>,
    line: &mut Line<B>,
    items: &[Option<HeardOctets<C>>],
    cable: &mut Cable<S, A>,
    trace: &mut D,
) -> Result<(), StepError>
    requires { Fits line.old cable.old }
    ensures acts { Acts (streams_of S.contents S.remaining) number (heard_each items.now)
        (acting line.old cable.old (D.contents trace.old)) result
        (acting line.new cable.new (D.contents trace.new)) }
    ensures cause { IfErr result (HasCause number (heard_each items.now) cable.new.fault) }
{
    check_items(line, items.len())?;
    let words = cross_each(alloc, cable, items)?;
    let words = slices(alloc, &words)?;
    hear_each(alloc, number, line, &words, trace)
}

/// Checks that a transmission of the control station is pending, and that there is one item for
/// each terminal.
fn check_items<B: Allocator>(line: &Line<B>, count: usize) -> Result<(), LineError>
    ensures right { OnOk result (WasSent line.now count) }
    ensures wrong { IfErr result (λ why. IsRefusedEach line.now count why) }
{
    let Some(sent) = line.pending() else {
        return Err(LineError::NothingSent);
    };
    match sent.speaker {
        Speaker::Terminal { .. } => Err(LineError::NotControl),
        Speaker::Control => {
            if count == line.terminals() {
                Ok(())
            } else {
                Err(LineError::WrongCount)
            }
        }
    }
}

/// Lets each terminal hear its word, after the lines of the trace are written.
fn hear_each<B: Allocator, E: Allocator + Copy, D: Write>(
    alloc: E,
    number: Option<u64>,
    line: &mut Line<B>,
    words: &[Option<&[u8]>],
    trace: &mut D,
) -> Result<(), StepError>
    requires { WasSent line.old (length words.now) }
    ensures does { OnOk result (Does (event.CarryEach words.entry) line.old (Ok tt) line.new) }
    ensures line { OnOk result (IsLine line.new) }
    ensures traced { OnOk result (Appends (D.contents trace.old) (D.contents trace.new)
        (if_traced number (λ n. if_sent line.old.pending (λ sent. item_lines n sent words.now)))) }
    ensures faults { IfErr result (IsTraceFault number) }
{
    trace_items(alloc, number, line, words, trace)?;
    line.carry_each(words).unwrap();
    Ok(())
}
