//! The whole command, from the command line to the exit status.

ghost use Rattle.std.specs.Prelude.{◌≡◌, ◌≢◌, ◌⊎◌, [], map, string_bytes};
ghost use Rattle.std.specs.Prelude.{Err, IfErr, IfOk, IsOkAnd, Ok, OnOk, true};
ghost use Rattle.std.specs.Io.Buffered.{writer_buffer, writer_contents};
ghost use Rattle.std.specs.Io.KnownBytes.{Keeps};
ghost use Rattle.bsc_command.specs.declared.fault.Fault.{Fault as FaultValue};
ghost use Rattle.bsc_command.specs.Faults.{IsEarly, IsPrintFault, IsToldFlushed};
ghost use Rattle.bsc_command.specs.Faults.{is_about_records, status_of};
ghost use Rattle.bsc_command.specs.Program.{HasFailedReportAt, IsFaultAt, IsObeyed, IsReportedAt};

use crate::help::help_or_fault;
use crate::{Fault, fail, perform};
use bsc_attending::{AttendingError, Network, Stores};
use bsc_chart::Traces;
use bsc_clients::command::Stations;
use bsc_run::Cables;
use bsc_storing::StoreFiles;
use bsc_text::Files;
use bsc_words::read_words;
use std::alloc::{AllocError, Global};
use std::io::{BufWriter, Read, Write};

/// Returns the arguments as texts, as `clap` takes them.
fn texts_of(alloc: Global, words: &[String]) -> Result<Vec<&str>, AllocError>
    ensures { IfOk result (λ texts. map (λ s. s.now) texts.items ≡ map string_bytes words.now) }
{
    let mut texts = Vec::new(alloc);
    'words: for word in words {
        texts.push(word.as_str())?;
    }
    Ok(texts)
}

/// Does the work that the arguments ask for, or prints the help or the version.
fn obey<R: Read, H: Files + Traces + Cables + Network + Stations + Stores + StoreFiles, W: Write>(
    alloc: Global,
    words: &[String],
    input: &mut R,
    machine: &mut H,
    out: &mut W,
) -> Result<(), Fault>
    ensures ok { OnOk result
        (IsObeyed H.Stream.contents H.Stream.remaining H.Trace.contents H.traces
        (map string_bytes words.now) (R.remaining input.old) (W.contents out.old)
        (W.contents out.new)) }
    ensures fault { IfErr result (λ fault.
        IsFaultAt H.Stream.contents H.Stream.remaining H.Trace.contents H.traces
        (map string_bytes words.now) fault (R.remaining input.old) (W.contents out.old)
        (W.contents out.new)) }
    ensures reported { OnOk result (IsReportedAt W.contents (map string_bytes words.now)
        (R.remaining input.old) out.new) }
    ensures unreported { IfErr result (λ fault. HasFailedReportAt W.contents
        (map string_bytes words.now) fault (R.remaining input.old) out.new) }
    ensures early { IfErr result (λ fault. IsEarly fault → out.new ≡ out.old) }
{
    let words = texts_of(alloc, words)?;
    match read_words(alloc, &words) {
        Ok(asked) => perform(alloc, &asked, input, machine, out),
        Err(error) => help_or_fault(error, out),
    }
}

/// Does the work that the arguments ask for, if they are available.
fn obey_given<
    R: Read,
    H: Files + Traces + Cables + Network + Stations + Stores + StoreFiles,
    W: Write,
>(
    alloc: Global,
    words: Result<Vec<String>, Fault>,
    input: &mut R,
    machine: &mut H,
    out: &mut W,
) -> Result<(), Fault>
    ensures ok { OnOk result
        (IsOkAnd words (λ given.
        IsObeyed H.Stream.contents H.Stream.remaining H.Trace.contents H.traces
        (map string_bytes given.items) (R.remaining input.old) (W.contents out.old)
        (W.contents out.new))) }
    ensures fault { IfErr result (λ fault.
        IfOk words (λ given.
        IsFaultAt H.Stream.contents H.Stream.remaining H.Trace.contents H.traces
        (map string_bytes given.items) fault (R.remaining input.old) (W.contents out.old)
        (W.contents out.new))
        × IfErr words (λ given. fault ≡ given)) }
    ensures reported { OnOk result (IsOkAnd words (λ given. IsReportedAt W.contents
        (map string_bytes given.items) (R.remaining input.old) out.new)) }
    ensures unreported { IfErr result (λ fault. IfOk words (λ given. HasFailedReportAt W.contents
        (map string_bytes given.items) fault (R.remaining input.old) out.new)) }
    ensures early { IfErr result (λ fault. IsEarly fault → out.new ≡ out.old) }
{
    match words {
        Ok(words) => obey(alloc, &words, input, machine, out),
        Err(fault) => Err(fault),
    }
}

/// Returns whether a station could not print the records that arrived, or could not keep what
/// happened.
fn is_about_records(fault: &Fault) -> bool
    ensures { result ≡ is_about_records fault.now }
{
    match fault {
        Fault::Attending { error } => match error {
            AttendingError::Unprinted | AttendingError::Unkept { .. } => true,
            _ => false,
        },
        _ => false,
    }
}

/// Flushes the buffer, and returns the outcome of the work, or `Output` if the flush fails. The
/// fault of a station that could not print its records, or not keep what happened, stays.
fn flush_after<W: Write + Drop>(
    outcome: Result<(), Fault>,
    out: &mut BufWriter<W>,
) -> Result<(), Fault>
    ensures kept { Keeps (writer_contents W.contents out.old) (writer_contents W.contents out.new) }
    ensures ok { OnOk result (outcome ≡ Ok tt) }
    ensures flushed { OnOk result (writer_buffer out.new ≡ []) }
    ensures fault { IfErr result (λ fault. IsPrintFault fault ⊎ (outcome ≡ Err fault)) }
    ensures stays { IfErr outcome (λ fault. is_about_records fault ≡ true
        → result ≡ outcome) }
    ensures told { IfErr result (λ fault. IsToldFlushed fault → writer_buffer out.new ≡ []) }
{
    match (out.flush(), outcome) {
        (Ok(()), outcome) => outcome,
        (Err(_), Err(fault)) if is_about_records(&fault) => Err(fault),
        (Err(_), _) => Err(Fault::Output),
    }
}

/// Does the work that the arguments ask for, and returns the exit status: 0 if the work succeeded
/// or the help or the version was printed, otherwise that of the fault, which `fail` reports. The
/// first argument is the name of the program. The output is flushed even after a fault; if the
/// flush fails, the fault is `Output`, or stays that of records that could not be printed. If the
/// arguments are not available, `words` is the fault.
pub fn command<
    R: Read,
    H: Files + Traces + Cables + Network + Stations + Stores + StoreFiles,
    W: Write + Drop,
    E: Write,
>(
    alloc: Global,
    words: Result<Vec<String>, Fault>,
    input: &mut R,
    machine: &mut H,
    out: &mut BufWriter<W>,
    errors: &mut E,
) -> u8
    ensures done { result ≡ 0 →
        IsOkAnd words (λ given.
        IsObeyed H.Stream.contents H.Stream.remaining H.Trace.contents H.traces
        (map string_bytes given.items) (R.remaining input.old)
        (writer_contents W.contents out.old) (writer_contents W.contents out.new)) }
    ensures flushed { result ≡ 0 → writer_buffer out.new ≡ [] }
    ensures reported { result ≡ 0 → IsOkAnd words (λ given.
        IsReportedAt (writer_contents W.contents) (map string_bytes given.items)
        (R.remaining input.old) out.new) }
    ensures untold { result ≡ 0 → errors.new ≡ errors.old }
    ensures fault { result ≢ 0 → (fault : FaultValue)
        × IfOk words (λ given.
        IsFaultAt H.Stream.contents H.Stream.remaining H.Trace.contents H.traces
        (map string_bytes given.items) fault (R.remaining input.old)
        (writer_contents W.contents out.old) (writer_contents W.contents out.new))
        × IfErr words (λ given. (fault ≡ given) ⊎ IsPrintFault fault)
        × (result ≡ status_of fault)
        × IfOk words (λ given.
        HasFailedReportAt (writer_contents W.contents) (map string_bytes given.items) fault
        (R.remaining input.old) out.new)
        × (IsEarly fault
        → Keeps (writer_contents W.contents out.old) (writer_contents W.contents out.new)) }
{
    let outcome = obey_given(alloc, words, input, machine, out);
    match flush_after(outcome, out) {
        Ok(()) => 0,
        Err(fault) => fail(alloc, &fault, errors),
    }
}
