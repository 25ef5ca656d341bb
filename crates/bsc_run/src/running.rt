//! Runs a line: reads the texts, checks them, and then runs the events.

ghost use Rattle.std.specs.Prelude.{◌≡◌, ◌≢◌, Err, IfErr, IfOk, IsTrue, Ok, OnOk, codes, false};
ghost use Rattle.bsc_run.specs.Errors.{IsEarly};
ghost use Rattle.bsc_run.specs.Crossing.{streams_of};
ghost use Rattle.bsc_run.specs.Plays.{holding};
ghost use Rattle.bsc_run.specs.declared.running_error.RunningError.TheVariants.{BothStandardInput};
ghost use Rattle.bsc_run.specs.Running.{AreTexts, HasFailed, HasNoTexts, HasStopped, IsRunDone};
ghost use Rattle.bsc_run.specs.Running.{RunsOnCable, paths_of, progress_in};

use crate::{Cables, RunningError, run_line};
use bsc_config::script::{Script, read_script};
use bsc_config::{Config, read_config};
use bsc_text::progress::Work;
use bsc_text::{Files, STANDARD_INPUT, read_text};
use std::alloc::Global;
use std::io::{Read, Write};

/// What is to be run: the texts of a run by their paths, of which one may be `-`, which is standard
/// input. (Own.)
#[derive(Clone, Copy, Debug, PartialEq, Eq)]
pub struct RunWords<'a> {
    /// The path of the configuration.
    pub config: &'a str,

    /// The path of the script.
    pub script: &'a str,

    /// Both are only read and checked.
    pub check: bool,

    /// A trace of the run is printed.
    pub trace: bool,

    /// No progress is shown.
    pub quiet: bool,
}

/// Runs the events of the script on a line of the configuration, over a cable of the machine, and
/// prints what is on the line after each event that is heard, and a report at the end, also if an
/// event is refused. Both are read before what they say is checked, the configuration first. With
/// `check` nothing is run or printed. If the words ask for a trace, it is written to `trace` as
/// `run_line` does, and otherwise nothing is. Without a trace the progress is shown, unless the
/// words ask for none. (Own.)
pub fn run<R: Read, H: Files + Cables, W: Write, D: Write>(
    alloc: Global,
    words: RunWords<'_>,
    input: &mut R,
    machine: &mut H,
    out: &mut W,
    trace: &mut D,
) -> Result<(), RunningError>
    ensures early { IfErr result (λ error. IsEarly error →
        (out.new ≡ out.old) × (trace.new ≡ trace.old)) }
    ensures checked { IsTrue words.entry.check → (out.new ≡ out.old) × (trace.new ≡ trace.old) }
    ensures both { words.entry.config.now ≡ codes "-" → words.entry.script.now ≡ codes "-" →
        result ≡ Err BothStandardInput }
    ensures done { OnOk result
        (IsRunDone (streams_of H.Stream.contents H.Stream.remaining) words.entry.trace
        words.entry.check (paths_of words.entry (R.remaining input.old))
        (holding (W.contents out.old) (D.contents trace.old))
        (holding (W.contents out.new) (D.contents trace.new))) }
    ensures failed { IfErr result (λ error.
        HasFailed (streams_of H.Stream.contents H.Stream.remaining) words.entry.trace error
        words.entry.check (paths_of words.entry (R.remaining input.old))
        (holding (W.contents out.old) (D.contents trace.old))
        (holding (W.contents out.new) (D.contents trace.new))) }
{
    let texts = read_texts(alloc, words, input, machine)?;
    let config = read_config(alloc, &texts.config)?;
    let script = read_script(alloc, &texts.script)?;
    if words.check {
        return Ok(());
    }
    let progress = progress_of(words);
    run_on_cable(
        alloc,
        &config,
        &script,
        machine,
        out,
        words.trace,
        trace,
        progress,
    )
}

/// Returns of what work the progress is shown: of the events, or of none with a trace, or if none
/// is wanted.
fn progress_of(words: RunWords<'_>) -> Option<Work>
    ensures { result ≡ progress_in words.entry.trace words.entry.quiet }
{
    if words.trace || words.quiet {
        return None;
    }
    Some(Work::Events)
}

/// The texts of a run.
#[derive(Drop)]
struct RunTexts {
    config: Vec<u8>,
    script: Vec<u8>,
}

/// Reads both texts, the configuration first.
fn read_texts<R: Read, F: Files>(
    alloc: Global,
    words: RunWords<'_>,
    input: &mut R,
    files: &mut F,
) -> Result<RunTexts, RunningError>
    ensures texts { IfOk result (λ texts.
        AreTexts (paths_of words.entry (R.remaining input.old)) texts.config.items
        texts.script.items) }
    ensures both { words.entry.config.now ≡ codes "-" → words.entry.script.now ≡ codes "-" →
        result ≡ Err BothStandardInput }
    ensures unread { IfErr result (λ error.
        HasNoTexts error (paths_of words.entry (R.remaining input.old))) }
{
    if are_both_standard_input(words.config, words.script) {
        return Err(RunningError::BothStandardInput);
    }
    let config = read_text(alloc, words.config, input, files)?;
    let script = read_text(alloc, words.script, input, files)?;
    Ok(RunTexts { config, script })
}

/// Whether both paths are standard input.
fn are_both_standard_input(config: &str, script: &str) -> bool
    ensures both { IsTrue result → (config.now ≡ codes "-") × (script.now ≡ codes "-") }
    ensures one { result ≡ false → script.now ≡ codes "-" → config.now ≢ codes "-" }
{
    config == STANDARD_INPUT && script == STANDARD_INPUT
}

/// Runs the events on a new line, over new connections.
fn run_on_cable<H: Cables, W: Write, D: Write>(
    alloc: Global,
    config: &Config,
    script: &Script<'_, Global>,
    machine: &mut H,
    out: &mut W,
    tracing: bool,
    trace: &mut D,
    progress: Option<Work>,
) -> Result<(), RunningError>
    ensures early { IfErr result (λ error. IsEarly error →
        (out.new ≡ out.old) × (trace.new ≡ trace.old)) }
    ensures ran { OnOk result
        (RunsOnCable (streams_of H.Stream.contents H.Stream.remaining) tracing config.now
        script.now (Ok tt) (holding (W.contents out.old) (D.contents trace.old))
        (holding (W.contents out.new) (D.contents trace.new))) }
    ensures stopped { IfErr result (λ error.
        HasStopped (streams_of H.Stream.contents H.Stream.remaining) tracing error config.now
        script.now (holding (W.contents out.old) (D.contents trace.old))
        (holding (W.contents out.new) (D.contents trace.new))) }
{
    let mut cable = machine.connect(config.terminals())?;
    let mut meter = machine.meter(progress);
    run_line(
        alloc, config, script, &mut cable, out, tracing, trace, &mut meter,
    )?;
    Ok(())
}
