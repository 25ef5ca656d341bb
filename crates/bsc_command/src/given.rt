//! The arguments with which the program was started.

ghost use Rattle.std.specs.Prelude.{IfErr};
ghost use Rattle.bsc_command.specs.Faults.{IsUsageOf};
ghost use Rattle.clap.specs.declared.error.kind.ErrorKind.TheVariants.{InvalidValue};

use crate::{Fault, not_text};
use std::alloc::Global;
use std::env;
use std::io::ErrorKind;
use std::rt::Env;

/// Returns the arguments of the command line. The first is the name of the program. If one of them
/// is not UTF-8, the fault is that of any other wrong value.
pub fn given_words<R: AllocGlobal + Env>(rt: &R) -> Result<Vec<String>, Fault>
    ensures { IfErr result (IsUsageOf InvalidValue) }
{
    match env::args(rt) {
        Ok(words) => Ok(words.collect(rt.alloc())?),
        Err(error) => Err(fault(rt.alloc(), error.kind())),
    }
}

/// Returns the fault for arguments that are not available, for this reason.
fn fault(alloc: Global, kind: ErrorKind) -> Fault
    ensures { IsUsageOf InvalidValue result }
{
    match kind {
        ErrorKind::OutOfMemory => Fault::OutOfMemory,
        _ => not_text(alloc),
    }
}
