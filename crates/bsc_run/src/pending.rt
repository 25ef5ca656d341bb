//! The line for the pending transmission.

ghost use Rattle.std.specs.Prelude.{◌≡◌, Some, OnOk, IfErr};
ghost use Rattle.std.specs.Io.KnownBytes.{Appends};
ghost use Rattle.bsc_text.specs.Fronts.{Extends};
ghost use Rattle.bsc_run.specs.Printed.{pending_line};

use bsc_line::{Line, Transmission};
use bsc_text::{PrintError, Who, put, write_name, write_who};
use std::alloc::Allocator;
use std::io::Write;

/// Writes the line for a transmission.
fn write_sent<W: Write>(sent: &Transmission<'_>, out: &mut W) -> Result<(), PrintError>
    ensures ok { OnOk result
        (Appends (W.contents out.old) (W.contents out.new) (pending_line (Some sent.now))) }
    ensures stays { Extends (W.contents out.old) (W.contents out.new) }
    ensures err { IfErr result (λ error. error ≡ PrintError.Output) }
{
    write_who(Who::Station(sent.speaker), out)?;
    put(b" ", out)?;
    write_name(&sent.message, out)?;
    put(b"\n", out)
}

/// Writes the line for the pending transmission, or that none is pending.
pub(crate) fn write_pending<A: Allocator, W: Write>(
    line: &Line<A>,
    out: &mut W,
) -> Result<(), PrintError>
    ensures ok { OnOk result
        (Appends (W.contents out.old) (W.contents out.new) (pending_line line.now.pending)) }
    ensures stays { Extends (W.contents out.old) (W.contents out.new) }
    ensures err { IfErr result (λ error. error ≡ PrintError.Output) }
{
    match line.pending() {
        None => put(b"quiet\n", out),
        Some(sent) => write_sent(&sent, out),
    }
}
