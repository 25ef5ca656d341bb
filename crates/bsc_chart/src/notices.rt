//! What is told of the lines that were passed over.
ghost use Rattle.std.specs.Prelude.{OnOk};
ghost use Rattle.std.specs.Io.KnownBytes.{Appends};
ghost use Rattle.bsc_chart.specs.Notices.{passed_line};

use std::io;
use std::io::Write;

/// Writes the line that tells that this many lines are no lines of a trace and were passed over. It
/// begins as the faults of the program do, so that a trace with it can be drawn again.
pub fn write_passed_over<W: Write>(count: u64, out: &mut W) -> io::Result<()>
    ensures { OnOk result
        (Appends (W.contents out.old) (W.contents out.new) (passed_line count)) }
{
    match count {
        1 => writeln!(
            out,
            "bscline: 1 line is no line of a trace and was passed over"
        ),
        _ => writeln!(
            out,
            "bscline: {count} lines are no lines of a trace and were passed over"
        ),
    }
}
