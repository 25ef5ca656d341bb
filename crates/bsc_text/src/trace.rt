//! The parts of the lines of a trace.

ghost use Rattle.std.specs.Prelude.{◌≡◌, IfErr, OnErr, OnOk};
ghost use Rattle.std.specs.Io.KnownBytes.{Appends};
ghost use Rattle.bsc_text.specs.Fronts.{AppendsFront};
ghost use Rattle.bsc_text.specs.Traces.{fate_shown, hearer_shown, octets_shown, start_shown};
ghost use Rattle.bsc_text.specs.Traces.{time_shown, who_shown};

use crate::{PrintError, put, put_numbered, write_chars};
use bsc_bid::Speaker;
use std::alloc::Allocator;
use std::io::Write;

/// The sender of a transmission, as far as it is known.
#[derive(Clone, Copy)]
pub enum Who {
    /// This station.
    Station(Speaker),

    /// A station reached by the connection with this index.
    Connection(usize),
}

/// What became of a transmission.
#[derive(Clone, Copy)]
pub enum Fate {
    /// It was sent. Whether it was heard is not known.
    Sent,

    /// It was heard, as it was sent if that is known.
    Heard,

    /// It was heard as another message than the one that was sent.
    Turned,

    /// It arrived, and was not heard, since it was not admitted.
    Ignored,

    /// It was lost on the way.
    Lost,

    /// It was not sent, since it would have been late.
    Withheld,
}

/// Writes the time at the start of a line: the milliseconds since the start, or the number of the
/// line of the script.
pub fn write_time<W: Write>(time: u64, out: &mut W) -> Result<(), PrintError>
    ensures ok { OnOk result (Appends (W.contents out.old) (W.contents out.new)
        (time_shown time)) }
    ensures err { IfErr result (λ error. error ≡ PrintError.Output) }
{
    Ok(write!(out, "+{time} ")?)
}

/// Writes the sender of a transmission. After an error a front of it has been written.
pub fn write_who<W: Write>(who: Who, out: &mut W) -> Result<(), PrintError>
    ensures ok { OnOk result (Appends (W.contents out.old) (W.contents out.new) (who_shown who)) }
    ensures front { OnErr result
        (AppendsFront (W.contents out.old) (W.contents out.new) (who_shown who)) }
    ensures err { IfErr result (λ error. error ≡ PrintError.Output) }
{
    match who {
        Who::Station(Speaker::Control) => put(b"control", out),
        Who::Station(Speaker::Terminal { number }) => {
            put_numbered(b"terminal ", number as u64, out)
        }
        Who::Connection(place) => put_numbered(b"connection ", place as u64, out),
    }
}

/// Returns the word for what became of a transmission.
fn fate_text(fate: Fate) -> &'static [u8]
    ensures { result.now ≡ fate_shown fate }
{
    match fate {
        Fate::Sent => b" sent ",
        Fate::Heard => b" heard ",
        Fate::Turned => b" turned ",
        Fate::Ignored => b" ignored ",
        Fate::Lost => b" lost ",
        Fate::Withheld => b" withheld ",
    }
}

/// Writes which terminal heard, if the line is about one of them only.
fn write_hearer<W: Write>(hearer: Option<usize>, out: &mut W) -> Result<(), PrintError>
    ensures { OnOk result
        (Appends (W.contents out.old) (W.contents out.new) (hearer_shown hearer)) }
{
    let Some(terminal) = hearer else {
        return Ok(());
    };
    Ok(write!(out, "at {terminal} ")?)
}

/// Writes the start of the line for a transmission: the time, who sent it, what became of it, and
/// which terminal heard, if the line is about one of them only.
pub fn write_start<W: Write>(
    time: u64,
    who: Who,
    fate: Fate,
    hearer: Option<usize>,
    out: &mut W,
) -> Result<(), PrintError>
    ensures { OnOk result (Appends (W.contents out.old) (W.contents out.new)
        (start_shown time who fate hearer)) }
{
    write_time(time, out)?;
    write_who(who, out)?;
    put(fate_text(fate), out)?;
    write_hearer(hearer, out)
}

/// Writes the octets of a transmission in hexadecimal text and the end of its line.
pub fn write_octets<A: Allocator, W: Write>(
    alloc: A,
    octets: &[u8],
    out: &mut W,
) -> Result<(), PrintError>
    ensures { OnOk result
        (Appends (W.contents out.old) (W.contents out.new) (octets_shown octets.now)) }
{
    put(b" ", out)?;
    write_chars(alloc, octets, out)?;
    put(b"\n", out)
}
