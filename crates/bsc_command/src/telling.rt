//! What is told of a fault on standard error.

ghost use Rattle.std.specs.Prelude.{◌≡◌, OnOk};
ghost use Rattle.std.specs.Io.KnownBytes.{Appends};
ghost use Rattle.bsc_command.specs.Faults.{status_of, told_text};

use crate::{Fault, status};
use bsc_text::{Escaped, Lines};
use std::alloc::Global;
use std::io;
use std::io::Write;

/// Writes the text of a fault: that of wrong usage as lines, any other as one line that begins with
/// the name of the program. Keys, paths, words and whatever else the text has from elsewhere begin
/// no line.
fn tell<E: Write>(fault: &Fault, text: &str, errors: &mut E) -> io::Result<()>
    ensures { OnOk result (Appends (E.contents errors.old) (E.contents errors.new)
        (told_text fault.now text.now)) }
{
    match fault {
        Fault::Usage(_) => {
            let lines = Lines(text.as_bytes());
            write!(errors, "{lines}")
        }
        _ => {
            let line = Escaped(text.as_bytes());
            writeln!(errors, "bscline: {line}")
        }
    }
}

/// Reports the fault on `errors`, and returns its exit status. Wrong usage is reported by the text
/// of `clap`; any other fault by one line that begins with `bscline: `. If there is no memory for
/// the text, `out of memory` is reported in its place.
pub fn fail<E: Write>(alloc: Global, fault: &Fault, errors: &mut E) -> u8
    ensures { result ≡ status_of fault.now }
{
    // If `errors` accepts no text, only the status reports the fault.
    let _ = match fault.to_string(alloc) {
        Ok(text) => tell(fault, text.as_str(), errors),
        Err(_) => tell(&Fault::OutOfMemory, "out of memory", errors),
    };
    status(fault)
}
