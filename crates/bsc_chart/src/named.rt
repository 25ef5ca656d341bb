//! The ladder of the trace that the words of the command name: a file, or standard input.
ghost use Rattle.std.specs.Prelude.{◌≡◌, ◌∷◌, [], OnErr, OnOk, IfErr, IfOk, Ok, Some, None};
ghost use Rattle.std.specs.Prelude.{ℕ, List, Option, option_map, string_bytes};
ghost use Rattle.std.specs.Io.KnownBytes.{Appends, Keeps};
ghost use Rattle.bsc_options.specs.ChartWords.{chart_given};
ghost use Rattle.bsc_text.specs.declared.unreadable.Unreadable.{Unreadable as UnreadableValue};
ghost use Rattle.bsc_chart.specs.Named.{HasFailedAs, HasFailedFile, HasFailedInput};
ghost use Rattle.bsc_chart.specs.Named.{HasFailedTrace, HasPassed, HoldsOf, IsCharted, IsDrawn};
ghost use Rattle.bsc_chart.specs.Named.{ChartsNamed, DrawsNamed, DrawsTold, FailsAt, FailsChart};
ghost use Rattle.bsc_chart.specs.Named.{FailsNamed, IsEarlyTrace, IsFileError, IsLateTrace};
ghost use Rattle.bsc_chart.specs.Named.{IsUnread, file_of as file_in, told_for};

use crate::words::{read_drawing, text_of};
use crate::{ChartError, Drawing, chart};
use bsc_options::Words;
use bsc_text::{STANDARD_INPUT, Unreadable};
use std::alloc::Global;
use std::io::{Read, Write};
use thiserror::Error;

/// The traces of a machine, and the terminal on which they are drawn.
pub trait Traces {
    /// The file of a trace.
    type File: Read + Drop;

    /// What the machine may tell of the width of the terminal.
    ghost tells: { Option (List ℕ) → Type 0 };

    /// Whether this file may be opened at this path.
    ghost opens: { List ℕ → Self.File → Type 0 };

    /// Whether this may be the reason why no file can be opened at this path.
    ghost refuses: { List ℕ → UnreadableValue → Type 0 };

    /// The numbers of lines that the machine was told as passed over, in order, where they are
    /// known.
    ghost told: { Self → Option (List ℕ) } = { λ _. None };

    /// Opens the file at this path. The error is the reason why it cannot be opened.
    fn open_trace(&mut self, path: &str) -> Result<Self::File, Unreadable>
        ensures opened { IfOk result (opens path.now) }
        ensures refused { IfErr result (refuses path.now) }
        ensures untold { Keeps (told self.old) (told self.new) };

    /// Returns the width of the terminal in characters, in decimal digits, if the machine is told
    /// it.
    fn columns(&mut self) -> Option<String>
        ensures width { tells (option_map string_bytes result) }
        ensures untold { Keeps (told self.old) (told self.new) };

    /// Tells that this many lines of a trace are no lines of a trace and were passed over.
    fn passed_over(&mut self, count: u64)
        ensures { Appends (told self.old) (told self.new) (count ∷ []) };
}

/// The reason why not all of the trace that was named was drawn.
#[derive(Debug, Drop, Error)]
pub enum TraceError {
    /// The file at this path could not be opened or read, for this reason.
    #[error("cannot read {path}: {why}")]
    CannotRead { path: String, why: Unreadable },

    /// Any other reason. Of a file it is not [`ChartError::Input`].
    #[error(transparent)]
    Chart { error: ChartError },
}

/// Draws the ladder of the trace that the words name as they ask for: that in the file, or on
/// standard input if none is named or its name is `-`. Before anything is read or opened, the
/// errors of the words are told. Otherwise the same as [`draw`](crate::draw), with the width that
/// the machine tells; if the file cannot be opened, or a read of it fails, the error is
/// `CannotRead`. If lines were passed over, the machine is told how many once the ladder is written
/// and flushed; after an error it is not told.
pub fn draw_named<R: Read, T: Traces, W: Write>(
    alloc: Global,
    words: &Words,
    input: &mut R,
    machine: &mut T,
    out: &mut W,
) -> Result<(), TraceError>
    ensures ok { OnOk result (IsCharted (chart_given words.now) (R.remaining input.old)
        (W.contents out.old) (W.contents out.new)) }
    ensures failed { IfErr result (λ error. HasFailedTrace (chart_given words.now) error
        (R.remaining input.old) (W.contents out.old) (W.contents out.new)) }
    ensures drawn { OnOk result (ChartsNamed T.tells T.opens T.File.remaining
        (chart_given words.now) (R.remaining input.old) (W.contents out.old) (W.contents out.new)
        (T.told machine.old) (T.told machine.new)) }
    ensures undrawn { IfErr result (λ error. FailsChart T.tells T.opens T.refuses T.File.remaining
        (chart_given words.now) error (R.remaining input.old) (W.contents out.old)
        (W.contents out.new)) }
    ensures untold { OnErr result (Keeps (T.told machine.old) (T.told machine.new)) }
    ensures early { IfErr result (λ error. IsEarlyTrace error → out.new ≡ out.old) }
    ensures unasked { (path : List ℕ) → file_in (chart_given words.now).file ≡ Some path
        → input.new ≡ input.old }
{
    let columns = machine.columns();
    match read_drawing(words, text_of(&columns)) {
        Ok(drawing) => draw_and_tell(alloc, words, drawing, input, machine, out),
        Err(error) => Err(TraceError::Chart { error }),
    }
}

/// Draws the trace that the words name in this way, and tells how many of its lines were passed
/// over.
fn draw_and_tell<R: Read, T: Traces, W: Write>(
    alloc: Global,
    words: &Words,
    drawing: Drawing,
    input: &mut R,
    machine: &mut T,
    out: &mut W,
) -> Result<(), TraceError>
    ensures ok { OnOk result (HoldsOf (chart_given words.now) (R.remaining input.old)
        (IsDrawn (Ok drawing) (W.contents out.old) (W.contents out.new))) }
    ensures failed { IfErr result (λ error. HasFailedAs (chart_given words.now) (Ok drawing) error
        (R.remaining input.old) (W.contents out.old) (W.contents out.new)) }
    ensures drawn { OnOk result (DrawsTold T.opens T.File.remaining
        (file_in (chart_given words.now).file) (Ok drawing) (R.remaining input.old)
        (W.contents out.old) (W.contents out.new) (T.told machine.old) (T.told machine.new)) }
    ensures undrawn { IfErr result (λ error. FailsNamed T.opens T.refuses T.File.remaining
        (file_in (chart_given words.now).file) drawing error (R.remaining input.old)
        (W.contents out.old) (W.contents out.new)) }
    ensures untold { OnErr result (Keeps (T.told machine.old) (T.told machine.new)) }
    ensures late { IfErr result IsLateTrace }
    ensures unasked { (path : List ℕ) → file_in (chart_given words.now).file ≡ Some path
        → input.new ≡ input.old }
{
    match draw_from(alloc, words, drawing, input, machine, out) {
        Ok(count) => tell_passed(count, machine, out),
        Err(error) => Err(error),
    }
}

/// Tells how many lines were passed over, if there are any, once the ladder is flushed.
fn tell_passed<T: Traces, W: Write>(
    count: u64,
    machine: &mut T,
    out: &mut W,
) -> Result<(), TraceError>
    ensures told { OnOk result
        (Appends (T.told machine.old) (T.told machine.new) (told_for count)) }
    ensures kept { Keeps (W.contents out.old) (W.contents out.new) }
    ensures untold { OnErr result (Keeps (T.told machine.old) (T.told machine.new)) }
    ensures fault { IfErr result (λ error. error ≡ TraceError.Chart ChartError.Output) }
{
    if count == 0 {
        return Ok(());
    }
    match out.flush() {
        Ok(()) => {
            machine.passed_over(count);
            Ok(())
        }
        Err(_) => Err(TraceError::Chart {
            error: ChartError::Output,
        }),
    }
}

/// Returns the path of the file that the words name, or `None` for standard input.
fn file_of(words: &Words) -> Option<&str>
    ensures { option_map (λ p. p.now) result ≡ file_in (chart_given words.now).file }
{
    match words.text("FILE") {
        Some(path) => unless_standard(path),
        None => None,
    }
}

/// Returns the path, or `None` if it is that of standard input.
fn unless_standard(path: &str) -> Option<&str>
    ensures { option_map (λ p. p.now) result ≡ file_in (Some path.now) }
{
    if path == STANDARD_INPUT {
        None
    } else {
        Some(path)
    }
}

/// Draws the trace that the words name in this way. Returns how many of its lines were passed
/// over.
fn draw_from<R: Read, T: Traces, W: Write>(
    alloc: Global,
    words: &Words,
    drawing: Drawing,
    input: &mut R,
    machine: &mut T,
    out: &mut W,
) -> Result<u64, TraceError>
    ensures ok { OnOk result (HoldsOf (chart_given words.now) (R.remaining input.old)
        (IsDrawn (Ok drawing) (W.contents out.old) (W.contents out.new))) }
    ensures failed { IfErr result (λ error. HasFailedAs (chart_given words.now) (Ok drawing) error
        (R.remaining input.old) (W.contents out.old) (W.contents out.new)) }
    ensures drawn { IfOk result (DrawsNamed T.opens T.File.remaining
        (file_in (chart_given words.now).file) (Ok drawing) (R.remaining input.old)
        (W.contents out.old) (W.contents out.new)) }
    ensures undrawn { IfErr result (λ error. FailsNamed T.opens T.refuses T.File.remaining
        (file_in (chart_given words.now).file) drawing error (R.remaining input.old)
        (W.contents out.old) (W.contents out.new)) }
    ensures untold { Keeps (T.told machine.old) (T.told machine.new) }
    ensures late { IfErr result IsLateTrace }
    ensures unasked { (path : List ℕ) → file_in (chart_given words.now).file ≡ Some path
        → input.new ≡ input.old }
{
    match file_of(words) {
        None => draw_input(alloc, drawing, input, out),
        Some(path) => draw_file(alloc, path, drawing, machine, out),
    }
}

/// Draws the trace on standard input. Returns how many of its lines were passed over.
fn draw_input<R: Read, W: Write>(
    alloc: Global,
    drawing: Drawing,
    input: &mut R,
    out: &mut W,
) -> Result<u64, TraceError>
    ensures ok { OnOk result (IsDrawn (Ok drawing) (W.contents out.old) (W.contents out.new)
        (R.remaining input.old)) }
    ensures passed { IfOk result (λ count. HasPassed count (R.remaining input.old)) }
    ensures failed { IfErr result (λ error. HasFailedInput drawing error (R.remaining input.old)
        (W.contents out.old) (W.contents out.new)) }
    ensures late { IfErr result IsLateTrace }
{
    match chart(alloc, drawing, input, out) {
        Ok(count) => Ok(count),
        Err(error) => Err(TraceError::Chart { error }),
    }
}

/// Draws the trace in the file at this path. Returns how many of its lines were passed over.
fn draw_file<T: Traces, W: Write>(
    alloc: Global,
    path: &str,
    drawing: Drawing,
    machine: &mut T,
    out: &mut W,
) -> Result<u64, TraceError>
    ensures ok { OnOk result ((trace : Option (List ℕ))
        × IsDrawn (Ok drawing) (W.contents out.old) (W.contents out.new) trace) }
    ensures read { IfOk result (λ count. (file : T.File) × T.opens path.now file
        × IsDrawn (Ok drawing) (W.contents out.old) (W.contents out.new) (T.File.remaining file)
        × HasPassed count (T.File.remaining file)) }
    ensures unread { IfErr result (λ error. FailsAt T.opens T.refuses T.File.remaining path.now
        drawing error (W.contents out.old) (W.contents out.new)) }
    ensures failed { IfErr result (λ error. (trace : Option (List ℕ))
        × HasFailedFile path.now drawing error trace (W.contents out.old) (W.contents out.new)) }
    ensures untold { Keeps (T.told machine.old) (T.told machine.new) }
    ensures late { IfErr result IsLateTrace }
{
    match machine.open_trace(path) {
        Ok(mut file) => draw_opened(alloc, path, drawing, &mut file, out),
        Err(why) => Err(cannot_read(alloc, path, why)),
    }
}

/// Draws the trace in a file that was opened at this path. Returns how many of its lines were
/// passed over.
fn draw_opened<F: Read, W: Write>(
    alloc: Global,
    path: &str,
    drawing: Drawing,
    file: &mut F,
    out: &mut W,
) -> Result<u64, TraceError>
    ensures ok { OnOk result (IsDrawn (Ok drawing) (W.contents out.old) (W.contents out.new)
        (F.remaining file.old)) }
    ensures passed { IfOk result (λ count. HasPassed count (F.remaining file.old)) }
    ensures failed { IfErr result (λ error. HasFailedFile path.now drawing error
        (F.remaining file.old) (W.contents out.old) (W.contents out.new)) }
    ensures late { IfErr result IsLateTrace }
{
    match chart(alloc, drawing, file, out) {
        Ok(count) => Ok(count),
        Err(error) => Err(file_error(alloc, path, error)),
    }
}

/// Returns the error for the trace in the file at this path.
fn file_error(alloc: Global, path: &str, error: ChartError) -> TraceError
    ensures { IsFileError path.now error result }
{
    match error {
        ChartError::Input { why } => cannot_read(alloc, path, why),
        error => TraceError::Chart { error },
    }
}

/// Returns the error that the file at this path could not be read, or out of memory.
fn cannot_read(alloc: Global, path: &str, why: Unreadable) -> TraceError
    ensures { IsUnread path.now why result }
{
    match String::from_str(alloc, path) {
        Ok(path) => TraceError::CannotRead { path, why },
        Err(_) => TraceError::Chart {
            error: ChartError::Memory,
        },
    }
}
