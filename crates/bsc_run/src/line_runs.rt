//! Runs a script on the line of a configuration.

ghost use Rattle.std.specs.Prelude.{◌≡◌, length, IfErr};
ghost use Rattle.bsc_text.specs.Fronts.{Extends};
ghost use Rattle.bsc_run.specs.Crossing.{connection_count, streams_of};
ghost use Rattle.bsc_run.specs.Causes.{IsScriptEnded};
ghost use Rattle.bsc_run.specs.Faults.{TellsLine};
ghost use Rattle.bsc_run.specs.Plays.{WhereWhole, holding};
ghost use Rattle.bsc_run.specs.Runs.{RunsScript};

use crate::addresses::trace_addresses;
use crate::error::RunError;
use crate::play::run_on;
use bsc_carrier::Cable;
use bsc_config::Config;
use bsc_config::script::Script;
use bsc_line::Line;
use bsc_text::progress::Meter;
use std::alloc::Allocator;
use std::io::{Read, Write};

/// Runs a script on a new line with this configuration, over a cable with a connection for each
/// terminal.
///
/// The events are performed in order, up to the first that the line refuses. Each transmission that
/// is carried crosses the cable as one record, and is heard as the octets that were read there.
/// After each event of hearing (`carry`, `lose`, `heard`, `heard-each`, `silence`) one line is
/// printed: the sender and the name of the pending transmission, or that none is pending. After the
/// last event, or the first that is refused, the report of the line is printed.
///
/// With `tracing` a trace of the run is written to `trace`, in the form of that of a station: first
/// the addresses of each terminal, and then the lines of each accepted event. Each begins with the
/// number of the line of the script, and tells what became of the transmission that was pending,
/// who heard it, its name and its octets as they were read; or what the event is. Further lines
/// tell each record that landed, each doubt that begins, and the end of trust. While it runs,
/// `meter` is shown how far it has come, each time that it is due.
///
/// `Refused` is returned after the report is printed, with the number of the line of the refused
/// event; nothing crossed the cable for that event. After `Output`, `Socket` and `Memory` there is
/// no report. What was printed before stays, whatever the result is. After `Socket` the cable
/// remains faulty.
pub fn run_line<
    S: Read + Write + Drop,
    A: Allocator,
    C: Allocator,
    E: Allocator + Copy,
    W: Write,
    D: Write,
    M: Meter,
>(
    alloc: E,
    config: &Config,
    script: &Script<'_, C>,
    cable: &mut Cable<S, A>,
    out: &mut W,
    tracing: bool,
    trace: &mut D,
    meter: &mut M,
) -> Result<(), RunError>
    requires { connection_count cable.old ≡ length config.now.terminals }
    ensures socket { TellsLine script.now cable.new.fault result }
    ensures cause { IfErr result (λ error. IsScriptEnded (streams_of S.contents S.remaining)
        tracing config.now script.now (record {
          cable = cable.old;
          held = holding (W.contents out.old) (D.contents trace.old);
        }) error
        (record {
          cable = cable.new;
          held = holding (W.contents out.new) (D.contents trace.new);
        })) }
    ensures whole { WhereWhole result (RunsScript (streams_of S.contents S.remaining) tracing
        config.now script.now (record {
          cable = cable.old;
          held = holding (W.contents out.old) (D.contents trace.old);
        }) result
        (record {
          cable = cable.new;
          held = holding (W.contents out.new) (D.contents trace.new);
        })) }
    ensures stays { Extends (W.contents out.old) (W.contents out.new) }
{
    let (terminals, poll_list) = (config.terminal_list(), config.poll_list());
    trace_addresses(tracing, terminals, trace)?;
    match Line::new(alloc, config.setup(), terminals, poll_list) {
        Ok(mut line) => {
            let steps = script.steps();
            run_on(alloc, &mut line, steps, cable, out, tracing, trace, meter)
        }
        // A line can be made of every configuration, if there is enough memory.
        Err(_) => Err(RunError::Memory),
    }
}
