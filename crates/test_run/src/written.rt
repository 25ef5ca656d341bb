//! Runs over sockets and over connections in memory, and what they write.

ghost use Rattle.std.specs.Prelude.{◌≡◌, length};
ghost use Rattle.bsc_run.specs.Crossing.{connection_count};

use crate::progress::Kept;
use crate::watched::{Connections, Part, Plan, RunWatch, Seen, TRACED, watched_writer};
use bsc_carrier::Cable;
use bsc_carrier::loopback::connect;
use bsc_config::script::{Script, read_script};
use bsc_config::{Config, read_config};
use bsc_run::{RunError, run_line};
use std::alloc::{Allocator, Global};
use std::io::{Read, Write};
use std::test::Fail;

/// What a run wrote and told of its progress, what was seen of its calls, and how it ended.
#[derive(Drop)]
pub(crate) struct Ended {
    pub(crate) out: Vec<u8>,
    pub(crate) trace: Vec<u8>,
    pub(crate) kept: Kept,
    pub(crate) seen: Seen,
    pub(crate) answer: Result<(), RunError>,
}

impl Ended {
    /// Whether exactly this was printed.
    pub(crate) fn has_printed(&self, text: &str) -> bool {
        self.out.as_slice() == text.as_bytes()
    }
}

/// A configuration and a script.
#[derive(Drop)]
pub(crate) struct Case<'a> {
    pub(crate) config: Config,
    pub(crate) script: Script<'a, Global>,
}

impl<'a> Case<'a> {
    pub(crate) fn read(alloc: Global, config: &str, script: &'a str) -> Result<Case<'a>, Fail> {
        Ok(Case {
            config: read_config(alloc, config.as_bytes())?,
            script: read_script(alloc, script.as_bytes())?,
        })
    }

    /// Runs the script on a new line of two terminals, over watched connections in memory. The line
    /// allocates from `stations`.
    pub(crate) fn run<E: Allocator + Copy>(
        &self,
        alloc: Global,
        stations: E,
        plan: Plan,
    ) -> Result<Ended, Fail> {
        if self.config.terminals() != 2 {
            return Err(Fail::new("not two terminals"));
        }
        let (connections, watch) = (Connections::new(alloc), RunWatch::new(plan));
        let mut cable = connections.cable(alloc, &watch)?;
        let (config, script) = (&self.config, &self.script);
        Ok(run_over(alloc, stations, config, script, &mut cable, &watch))
    }
}

/// Runs a script on a new line, over a cable with a connection for each terminal, and watches what
/// it writes. The line allocates from `stations`.
fn run_over<S: Read + Write + Drop, E: Allocator + Copy>(
    alloc: Global,
    stations: E,
    config: &Config,
    script: &Script<'_, Global>,
    cable: &mut Cable<S>,
    watch: &RunWatch,
) -> Ended
    requires { connection_count cable.old ≡ length config.now.terminals }
{
    let mut out = watched_writer(alloc, watch, Part::Writer);
    let mut trace = watched_writer(alloc, watch, Part::Tracer);
    let mut kept = Kept::new(watch.plan.due);
    let tracing = watch.plan.traced;
    let answer = run_line(
        stations, config, script, cable, &mut out, tracing, &mut trace, &mut kept,
    );
    Ended {
        out: out.inner,
        trace: trace.inner,
        kept,
        seen: watch.seen(),
        answer,
    }
}

/// Runs a script over connections in memory.
pub(crate) fn run_in_memory(
    alloc: Global,
    config: &str,
    script: &str,
    plan: Plan,
) -> Result<Ended, Fail> {
    let case = Case::read(alloc, config, script)?;
    case.run(alloc, alloc, plan)
}

/// Runs a script over sockets, with a trace.
pub(crate) fn run_over_sockets(
    rt: &HostRuntime,
    config: &str,
    script: &str,
) -> Result<Ended, Fail> {
    let Case { config, script } = Case::read(rt.alloc(), config, script)?;
    let mut cable = connect(rt, rt.alloc(), config.terminals())?;
    let (alloc, watch) = (rt.alloc(), RunWatch::new(TRACED));
    Ok(run_over(alloc, alloc, &config, &script, &mut cable, &watch))
}
