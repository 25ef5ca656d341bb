//! Each call of each stream and of the writers goes wrong in turn: it fails, is interrupted, or
//! moves no octet. The same is tried with calls that move at most one octet each.

use crate::watched::{Connections, Part, Plan, RunWatch, TRACED, Trouble, When, watched_writer};
use crate::worked::{WORKED, Worked};
use crate::written::{Case, Ended};
use bsc_control::Way;
use bsc_line::Line;
use bsc_run::{RunError, run_on};
use bsc_text::progress::Unmetered;
use std::alloc::Global;
use std::test::Fail;
use test_fixtures::configurations::TWO_TERMINALS;
use test_fixtures::on_heap;

/// The ends of both connections.
const ENDS: &[Part] = &[
    Part::ControlEnd { terminal: 0 },
    Part::ControlEnd { terminal: 1 },
    Part::TerminalEnd { terminal: 0 },
    Part::TerminalEnd { terminal: 1 },
];

/// The number of lines in the text.
fn count_lines(text: &[u8]) -> usize {
    text.iter().filter(|octet| **octet == b'\n').count()
}

/// The line of the script whose event a trace tells first.
fn first_line(trace: &str) -> Option<u64> {
    let (line, _) = trace.strip_prefix("+")?.split_once(' ')?;
    line.parse().ok()
}

/// Whether a run was traced up to the events of this line of the script, or not at all.
fn is_traced_before(worked: &Worked, ended: &Ended, line: u64) -> bool {
    let Ok(trace) = str::from_utf8(ended.trace.as_slice()) else {
        return false;
    };
    match worked.traced.strip_prefix(trace) {
        Some(left) => trace.is_empty() || first_line(left) == Some(line),
        None => false,
    }
}

/// Whether a run ended as it has to after a call of a stream went wrong: with a socket fault at the
/// event that the call was for, after the lines of all events before it, and without a further
/// call.
fn is_socket_fault(worked: &Worked, ended: &Ended) -> bool {
    let printed = ended.out.as_slice();
    let Some(line) = worked.lines.get(count_lines(printed)) else {
        return false;
    };
    let is_lines = printed.is_empty() || printed.ends_with(b"\n");
    let is_due = ended.answer == Err(RunError::Socket { line: *line });
    is_lines && is_due && worked.is_part(ended) && is_traced_before(worked, ended, *line)
}

/// Whether a run of this plan wrote and answered what it has to, given what was seen of its calls.
fn is_right(worked: &Worked, plan: Plan, ended: &Ended) -> bool {
    let is_writer = matches!(plan.part, Part::Writer | Part::Tracer);

    // A write that was interrupted is repeated.
    if ended.seen.troubles == 0 || (is_writer && plan.trouble == Trouble::Interrupted) {
        return worked.is_whole(ended) && worked.is_traced(ended);
    }
    if ended.seen.later > 0 {
        return false;
    }
    if is_writer {
        let is_front = worked.is_part(ended) && worked.is_traced(ended);
        return is_front && ended.answer == Err(RunError::Output);
    }
    is_socket_fault(worked, ended)
}

/// Runs by this plan and checks the result. Returns the number of calls that went wrong.
fn try_plan(alloc: Global, worked: &Worked, case: &Case<'_>, plan: Plan) -> Result<usize, Fail> {
    let ended = case.run(alloc, alloc, plan)?;
    if !is_right(worked, plan, &ended) {
        return Err(Fail::new(format_args!("at call {}", ended.seen.calls)));
    }
    Ok(ended.seen.troubles)
}

/// Lets each call of a part go wrong in turn, until a run has no such call. Returns the number of
/// calls.
fn try_calls(
    alloc: Global,
    worked: &Worked,
    case: &Case<'_>,
    (part, trouble): (Part, Trouble),
    (traced, most): (bool, usize),
) -> Result<usize, Fail> {
    for call in 1..5000usize {
        let plan = Plan {
            part,
            trouble,
            when: When::At { call },
            most,
            traced,
            due: true,
        };
        if try_plan(alloc, worked, case, plan)? == 0 {
            return Ok(call - 1);
        }
    }
    Err(Fail::new("no end of calls"))
}

/// Lets each call of a part go wrong in turn in a run: with a trace, with calls that move all the
/// octets they are asked to move, and with calls that move one. Returns whether there are enough
/// calls.
fn try_part(alloc: Global, worked: &Worked, kind: (Part, Trouble)) -> Result<bool, Fail> {
    let case = Case::read(alloc, TWO_TERMINALS, worked.script)?;
    let traced = try_calls(alloc, worked, &case, kind, (true, usize::MAX))?;
    let wide = try_calls(alloc, worked, &case, kind, (false, usize::MAX))?;
    let narrow = try_calls(alloc, worked, &case, kind, (false, 1))?;
    let is_tracer = kind.0 == Part::Tracer;
    Ok(traced > 0 && (is_tracer || (wide > 0 && narrow > wide)))
}

/// Lets each call of these parts go wrong in turn in each run, in this way.
fn try_parts(alloc: Global, parts: &[Part], trouble: Trouble) -> Result<(), Fail> {
    for part in parts {
        for worked in WORKED {
            if !try_part(alloc, worked, (*part, trouble))? {
                return Err(Fail::new("too few calls"));
            }
        }
    }
    Ok(())
}

/// The ways in which a call goes wrong.
const TROUBLES: &[Trouble] = &[Trouble::Failed, Trouble::Interrupted, Trouble::Nothing];

/// An interrupted call of a stream counts as one that failed.
#[test]
fn each_call_of_a_stream_goes_wrong_in_turn(rt: HostRuntime) -> Result<(), Fail> {
    for trouble in TROUBLES {
        try_parts(rt.alloc(), ENDS, *trouble)?;
    }
    Ok(())
}

/// The writers of the output and of the trace.
const WRITERS: &[Part] = &[Part::Writer, Part::Tracer];

/// A write that is interrupted is made again.
#[test]
fn each_write_goes_wrong_in_turn(rt: HostRuntime) -> Result<(), Fail> {
    for trouble in TROUBLES {
        try_parts(rt.alloc(), WRITERS, *trouble)?;
    }
    Ok(())
}

/// Runs a script with a trace, while every second write of one octet of this part is interrupted.
/// Returns the number of such writes.
fn try_interrupted(alloc: Global, worked: &Worked, part: Part) -> Result<usize, Fail> {
    let plan = Plan {
        part,
        trouble: Trouble::Interrupted,
        when: When::EverySecond,
        most: 1,
        ..TRACED
    };
    let case = Case::read(alloc, TWO_TERMINALS, worked.script)?;
    try_plan(alloc, worked, &case, plan)
}

#[test]
fn every_second_write_is_made_again(rt: HostRuntime) -> Result<(), Fail> {
    for part in WRITERS {
        for worked in WORKED {
            assert!(rt; try_interrupted(rt.alloc(), worked, *part)? > 1);
        }
    }
    Ok(())
}

/// The number of lines of a trace that tell a record that arrived.
fn count_arrived(trace: &[u8]) -> usize {
    let word = b" arrived ".as_slice();
    trace.windows(9).filter(|part| *part == word).count()
}

/// The number of records that arrived at an end of terminal 0, if this is its line.
fn count_spooled(line: &Line<Global>) -> Option<usize> {
    if line.terminals() != 2 || line.addresses(0) != 1 {
        return None;
    }
    let up = line.spooled(0, Way::FromTerminal).len();
    up.checked_add(line.spooled(0, Way::ToTerminal(0)).len())
}

/// Runs a script by this plan on a line that is looked at then. Returns whether as many records
/// arrived as the trace tells.
fn tells_arrivals(alloc: Global, case: &Case<'_>, plan: Plan) -> Result<bool, Fail> {
    let config = &case.config;
    if config.terminals() != 2 {
        return Ok(false);
    }
    let (terminals, poll_list) = (config.terminal_list(), config.poll_list());
    let made = Line::new(alloc, config.setup(), terminals, poll_list);
    let mut line = on_heap(alloc, made)?;
    let (connections, watch) = (Connections::new(alloc), RunWatch::new(plan));
    let mut cable = connections.cable(alloc, &watch)?;
    let mut out = watched_writer(alloc, &watch, Part::Writer);
    let mut trace = watched_writer(alloc, &watch, Part::Tracer);
    let _ = run_on(
        alloc,
        &mut line,
        case.script.steps(),
        &mut cable,
        &mut out,
        plan.traced,
        &mut trace,
        &mut Unmetered,
    );
    Ok(count_spooled(&line) == Some(count_arrived(&trace.inner)))
}

/// Whether as many records arrive as the trace tells, if the first calls of a part fail in turn.
fn are_arrivals_told(alloc: Global, worked: &Worked, part: Part) -> Result<bool, Fail> {
    let case = Case::read(alloc, TWO_TERMINALS, worked.script)?;
    for call in 1..60usize {
        let plan = Plan {
            part,
            when: When::At { call },
            ..TRACED
        };
        if !tells_arrivals(alloc, &case, plan)? {
            return Ok(false);
        }
    }
    Ok(true)
}

#[test]
fn no_record_arrives_at_a_fault(rt: HostRuntime) -> Result<(), Fail> {
    for worked in WORKED {
        for part in ENDS {
            assert!(rt; are_arrivals_told(rt.alloc(), worked, *part)?);
        }
    }
    Ok(())
}
