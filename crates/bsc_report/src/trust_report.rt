//! The last lines of the report of a control station.

ghost use Rattle.std.specs.Prelude.{◌≡◌, IfErr, OnOk};
ghost use Rattle.std.specs.Io.KnownBytes.{Appends};
ghost use Rattle.bsc_report.specs.TrustReport.{advice_shown, measured_line, share_shown};
ghost use Rattle.bsc_report.specs.TrustReport.{slowest_line, trust_report, trusted_line};

use crate::trace::write_distrust;
use bsc_text::{PrintError, put};
use bsc_trust::{Distrust, Trust};
use std::io::Write;

/// The share of the time-out, in hundredths, from which on it should be longer.
const SLOW: u64 = 50;

/// Writes the last lines of the report of a control station: the time of its slowest answer in
/// hundredths of the time-out, if an answer was heard whose time counts, and that the time-out
/// should be longer if that is 50 or more; then that the line is trusted, or the first reason why
/// it is not. After an error a part of them may have been written.
pub fn write_trust<W: Write>(trust: &Trust, out: &mut W) -> Result<(), PrintError>
    ensures ok { OnOk result (Appends (W.contents out.old) (W.contents out.new)
        (trust_report trust.now)) }
    ensures err { IfErr result (λ error. error ≡ PrintError.Output) }
{
    write_slowest(trust.slowest_share(), out)?;
    write_trusted(trust.distrust(), out)
}

/// Writes the line for the slowest answer, by its time in hundredths of the time-out.
fn write_slowest<W: Write>(share: Option<u64>, out: &mut W) -> Result<(), PrintError>
    ensures ok { OnOk result (Appends (W.contents out.old) (W.contents out.new)
        (slowest_line share)) }
    ensures err { IfErr result (λ error. error ≡ PrintError.Output) }
{
    match share {
        Some(share) => write_measured(share, out),
        None => put(b"slowest answer: none\n", out),
    }
}

/// Writes the line for the slowest answer, of this time.
fn write_measured<W: Write>(share: u64, out: &mut W) -> Result<(), PrintError>
    ensures ok { OnOk result (Appends (W.contents out.old) (W.contents out.new)
        (measured_line share)) }
    ensures err { IfErr result (λ error. error ≡ PrintError.Output) }
{
    write_share(share, out)?;
    write_advice(SLOW <= share, out)?;
    Ok(())
}

/// Writes the time of the slowest answer.
fn write_share<W: Write>(share: u64, out: &mut W) -> Result<(), PrintError>
    ensures ok { OnOk result (Appends (W.contents out.old) (W.contents out.new)
        (share_shown share)) }
    ensures err { IfErr result (λ error. error ≡ PrintError.Output) }
{
    Ok(write!(out, "slowest answer: {share}% of the time-out")?)
}

/// Writes the end of the line for the slowest answer.
fn write_advice<W: Write>(is_slow: bool, out: &mut W) -> Result<(), PrintError>
    ensures ok { OnOk result (Appends (W.contents out.old) (W.contents out.new)
        (advice_shown is_slow)) }
    ensures err { IfErr result (λ error. error ≡ PrintError.Output) }
{
    if is_slow {
        put(b", which should be longer\n", out)
    } else {
        put(b"\n", out)
    }
}

/// Writes whether the line is trusted, or the first reason why it is not.
fn write_trusted<W: Write>(why: Option<Distrust>, out: &mut W) -> Result<(), PrintError>
    ensures ok { OnOk result (Appends (W.contents out.old) (W.contents out.new)
        (trusted_line why)) }
    ensures err { IfErr result (λ error. error ≡ PrintError.Output) }
{
    match why {
        Some(why) => write_distrust(why, out),
        None => put(b"trusted\n", out),
    }
}
