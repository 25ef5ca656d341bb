//! The work of the program, over any reader, writer and machine.
ghost use Rattle.std.specs.Prelude.{◌≡◌, ℕ, Bool, OnOk, IfErr, List};
ghost use Rattle.std.specs.Prelude.{IsTrue, Some, map, string_bytes, true};
ghost use Rattle.std.specs.Io.KnownBytes.{Keeps};
ghost use Rattle.bsc_options.specs.Asked.{asked as asked_now, name as name_asked};
ghost use Rattle.bsc_options.specs.Asked.{run as run_asked, run_in};
ghost use Rattle.bsc_options.specs.ChartWords.{chart_given};
ghost use Rattle.bsc_options.specs.StoreWords.{store_given};
ghost use Rattle.bsc_options.specs.Words.{words_value};
ghost use Rattle.bsc_command.specs.Faults.{IsChartingFault, IsEarly, IsFeedFault, IsStoreFault};
ghost use Rattle.bsc_command.specs.Faults.{IsTraceFault};
ghost use Rattle.bsc_command.specs.Program.{HasDoneRun, HasFailedAs, HasFailedOn, HasFailedWith};
ghost use Rattle.bsc_command.specs.Program.{IfNamed, IsChartedOn, IsDone};
ghost use Rattle.bsc_chart.specs.Named.{ChartsNamed, FailsChart, IsCharted, file_of};
ghost use Rattle.bsc_chart.specs.declared.named.TraceError.{TraceError};
ghost use Rattle.bsc_command.specs.Program.{HasFailedChart, HasFailedFeed, HasFailedReport};
ghost use Rattle.bsc_command.specs.Program.{HasFailedStore, HasWork, IsFaultOf, IsReportedOn};
ghost use Rattle.bsc_clients.specs.Feeding.{HasFed};
ghost use Rattle.bsc_run.specs.Errors.{IsEarly as IsEarlyRunning};
ghost use Rattle.bsc_run.specs.Running.{paths_of};

use crate::Fault;
use crate::fault::{attending_fault, feeding_fault, running_fault, store_words_fault, trace_fault};
use bsc_attending::{Network, Stores, station};
use bsc_chart::{Traces, draw_named};
use bsc_clients::command::{Stations, feed_at};
use bsc_options::{Asked, Words, read_store_work};
use bsc_run::{Cables, RunWords, RunningError, run};
use bsc_storing::{StoreFiles, store};
use bsc_text::Files;
use bsc_trace::naming::{name, names, show};
use std::alloc::Global;
use std::io::{Read, Write};

/// Does the requested work. The names of the lines of an input are printed as the lines are read.
/// A run reads its files and makes its connections through the machine. When it succeeds it has
/// printed the output of `bsc_run::run_line` for its texts, or nothing if it only checks them; if
/// an event is refused, it has printed the output up to that event, and the report. The trace of a
/// run is written to that of the machine. A station is attended until it ends; `bsc_report` defines
/// its output.
pub fn perform<
    R: Read,
    H: Files + Traces + Cables + Network + Stations + Stores + StoreFiles,
    W: Write,
>(alloc: Global, asked: &Asked, input: &mut R, machine: &mut H, out: &mut W) -> Result<(), Fault>
    ensures ok { OnOk result
        (IsDone H.Stream.contents H.Stream.remaining H.Trace.contents H.traces
        (asked_now asked.now) (R.remaining input.old) (W.contents out.old) (W.contents out.new)) }
    ensures fault { IfErr result (IsFaultOf (asked_now asked.now)) }
    ensures failed { IfErr result (λ fault.
        HasFailedAs H.Stream.contents H.Stream.remaining H.Trace.contents H.traces
        (asked_now asked.now) fault (R.remaining input.old) (W.contents out.old)
        (W.contents out.new)) }
    ensures reported { OnOk result (IsReportedOn W.contents (asked_now asked.now)
        (R.remaining input.old) out.new) }
    ensures unreported { IfErr result (λ fault. HasFailedReport W.contents (asked_now asked.now)
        fault (R.remaining input.old) out.new) }
    ensures charted { OnOk result (IsChartedOn H.tells H.opens H.File.remaining
        (asked_now asked.now) (R.remaining input.old) (W.contents out.old)
        (W.contents out.new) (H.told machine.old) (H.told machine.new)) }
    ensures uncharted { IfErr result (λ fault. HasFailedOn H.tells H.opens H.refuses
        H.File.remaining (asked_now asked.now) fault (R.remaining input.old)
        (W.contents out.old) (W.contents out.new) (H.told machine.old) (H.told machine.new)) }
    ensures named { IfNamed (asked_now asked.now) (input.new ≡ input.old) }
    ensures early { IfErr result (λ fault. IsEarly fault → out.new ≡ out.old) }
    ensures unasked { (text : List ℕ) → asked_now asked.now ≡ name_asked text →
        input.new ≡ input.old }
    ensures checked { (config script : List ℕ) (trace quiet : Bool)
        → asked_now asked.now ≡ run_asked config script true trace quiet → out.new ≡ out.old }
{
    match asked {
        Asked::Names => Ok(names(alloc, input, out)?),
        Asked::Name { words } => Ok(name(alloc, words.required("HEX"), out)?),
        Asked::Show => Ok(show(alloc, input, out)?),
        Asked::Chart { words } => draw_chart(alloc, words, input, machine, out),
        Asked::Run { words } => match run_traced(alloc, run_words(words), input, machine, out) {
            Ok(()) => Ok(()),
            Err(error) => Err(running_fault(alloc, error)),
        },
        Asked::Station { words } => match station(alloc, words, input, machine, out) {
            Ok(()) => Ok(()),
            Err(error) => Err(attending_fault(alloc, error)),
        },
        Asked::Feed { words } => {
            let (address, command) = (words.required("ADDRESS"), words.texts("COMMAND"));
            feed_station(alloc, address, command, input, machine, out)
        }
        Asked::Store { words } => do_store(alloc, words, input, machine, out),
    }
}

/// Returns the run that the words ask for.
fn run_words(words: &Words) -> RunWords<'_>
    ensures { run_asked result.config.now result.script.now result.check result.trace result.quiet
        ≡ run_in (words_value words.now) }
{
    RunWords {
        config: words.required("CONFIG"),
        script: words.required("SCRIPT"),
        check: words.is_given("check"),
        trace: words.is_given("trace"),
        quiet: words.is_given("quiet"),
    }
}

/// Feeds the station that serves at this address.
fn feed_station<R: Read, H: Stations, W: Write>(
    alloc: Global,
    address: &str,
    command: &[String],
    input: &mut R,
    machine: &mut H,
    out: &mut W,
) -> Result<(), Fault>
    ensures ok { OnOk result (HasFed (map string_bytes command.now) (R.remaining input.old)
        (W.contents out.old) (W.contents out.new)) }
    ensures fault { IfErr result IsFeedFault }
    ensures failed { IfErr result (λ fault.
        HasFailedFeed fault (W.contents out.old) (W.contents out.new)) }
    ensures early { IfErr result (λ fault. IsEarly fault → out.new ≡ out.old) }
{
    match feed_at(alloc, address, command, input, machine, out) {
        Ok(()) => Ok(()),
        Err(error) => Err(feeding_fault(alloc, error)),
    }
}

/// Runs a line, and writes its trace to that of the machine.
fn run_traced<R: Read, H: Files + Cables + Network, W: Write>(
    alloc: Global,
    words: RunWords<'_>,
    input: &mut R,
    machine: &mut H,
    out: &mut W,
) -> Result<(), RunningError>
    ensures early { IfErr result (λ error. IsEarlyRunning error → out.new ≡ out.old) }
    ensures checked { IsTrue words.entry.check → out.new ≡ out.old }
    ensures done { OnOk result (HasDoneRun H.Stream.contents H.Stream.remaining
        H.Trace.contents H.traces
        words.entry.check words.entry.trace (paths_of words.entry (R.remaining input.old))
        (W.contents out.old) (W.contents out.new)) }
    ensures failed { IfErr result (λ error. HasFailedWith H.Stream.contents H.Stream.remaining
        H.Trace.contents H.traces
        error words.entry.check words.entry.trace
        (paths_of words.entry (R.remaining input.old)) (W.contents out.old)
        (W.contents out.new)) }
{
    let mut trace = machine.trace(true);
    run(alloc, words, input, machine, out, &mut trace)
}

/// Does a work on a store.
fn do_store<R: Read, H: Files + StoreFiles, W: Write>(
    alloc: Global,
    words: &Words,
    input: &mut R,
    machine: &mut H,
    out: &mut W,
) -> Result<(), Fault>
    ensures ok { OnOk result (HasWork (store_given words.now)) }
    ensures fault { IfErr result IsStoreFault }
    ensures failed { IfErr result (λ fault. HasFailedStore fault (store_given words.now)) }
    ensures early { IfErr result (λ fault. IsEarly fault → out.new ≡ out.old) }
{
    match read_store_work(words) {
        Err(error) => Err(store_words_fault(alloc, error)),
        Ok(work) => match store(alloc, words.required("FILE"), work, input, machine, out) {
            Ok(()) => Ok(()),
            Err(error) => Err(Fault::Storing { error }),
        },
    }
}

/// Draws a ladder.
fn draw_chart<R: Read, T: Traces, W: Write>(
    alloc: Global,
    words: &Words,
    input: &mut R,
    machine: &mut T,
    out: &mut W,
) -> Result<(), Fault>
    ensures ok { OnOk result (IsCharted (chart_given words.now) (R.remaining input.old)
        (W.contents out.old) (W.contents out.new)) }
    ensures fault { IfErr result IsChartingFault }
    ensures failed { IfErr result (λ fault. HasFailedChart fault (chart_given words.now)
        (R.remaining input.old) (W.contents out.old) (W.contents out.new)) }
    ensures drawn { OnOk result (ChartsNamed T.tells T.opens T.File.remaining
        (chart_given words.now) (R.remaining input.old) (W.contents out.old) (W.contents out.new)
        (T.told machine.old) (T.told machine.new)) }
    ensures undrawn { IfErr result (λ fault. (error : TraceError) × IsTraceFault error fault
        × FailsChart T.tells T.opens T.refuses T.File.remaining (chart_given words.now) error
        (R.remaining input.old) (W.contents out.old) (W.contents out.new)
        × Keeps (T.told machine.old) (T.told machine.new)) }
    ensures unasked { (path : List ℕ) → file_of (chart_given words.now).file ≡ Some path
        → input.new ≡ input.old }
    ensures early { IfErr result (λ fault. IsEarly fault → out.new ≡ out.old) }
{
    match draw_named(alloc, words, input, machine, out) {
        Ok(()) => Ok(()),
        Err(error) => Err(trace_fault(alloc, error)),
    }
}
