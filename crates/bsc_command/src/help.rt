//! The help and the version.

ghost use Rattle.std.specs.Prelude.{◌≡◌, ◌≢◌, ◌⊎◌, Err, Ok};
ghost use Rattle.clap.specs.Words.{kind_of};
ghost use Rattle.bsc_words.specs.CommandLine.{IsHelp};

use crate::Fault;
use clap::Error;
use clap::error::ErrorKind;
use std::io::Write;

/// Prints the help or the version, if the arguments asked for it. Every other error of `clap` is a
/// fault, and nothing is printed.
pub(crate) fn help_or_fault<W: Write>(error: Error, out: &mut W) -> Result<(), Fault>
    ensures help { IsHelp (kind_of error) → (result ≡ Ok tt) ⊎ (result ≡ Err Fault.Output) }
    ensures memory { kind_of error ≡ ErrorKind.OutOfMemory → result ≡ Err Fault.OutOfMemory }
    ensures usage { (IsHelp (kind_of error) → ⊥) → kind_of error ≢ ErrorKind.OutOfMemory
        → result ≡ Err (Fault.Usage error) }
    ensures quiet { (IsHelp (kind_of error) → ⊥) → out.new ≡ out.old }
{
    match error.kind() {
        ErrorKind::DisplayHelp | ErrorKind::DisplayVersion => match write!(out, "{error}") {
            Ok(()) => Ok(()),
            Err(_) => Err(Fault::Output),
        },
        _ => Err(Fault::from(error)),
    }
}
