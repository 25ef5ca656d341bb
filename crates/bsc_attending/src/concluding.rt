//! What a station prints at its end, and its result.

ghost use Rattle.std.specs.Prelude.{◌≡◌, IfErr, IfOk};
ghost use Rattle.bsc_attending.specs.Ending.{IsConcluded, ReportsIn};
ghost use Rattle.bsc_attending.specs.Errors.{IsLate, IsPrintFault, control_outcome_of, outcome_of};
ghost use Rattle.bsc_attending.specs.Errors.{terminal_outcome_of};

use crate::AttendingError;
use crate::attending::Left;
use crate::preparing::Prepared;
use bsc_carrier::CarrierError;
use bsc_report::{write_report, write_trust};
use bsc_station::{Standing, station_standing};
use bsc_text::Form;
use bsc_trust::Trust;
use std::alloc::Global;
use std::io::Write;

/// Prints the report of a station that has ended, and returns its result. That its line is not
/// trusted comes first, then what is in doubt or not delivered, and then a fault that closed its
/// connection.
pub(crate) fn conclude<W: Write>(
    alloc: Global,
    reported: Option<Form>,
    prepared: &Prepared,
    left: Left,
    out: &mut W,
) -> Result<(), AttendingError>
    ensures late { IfErr result IsLate }
    ensures concluded { IsConcluded reported prepared.now left result
        (W.contents out.old) (W.contents out.new) }
{
    let standing = report(alloc, reported, prepared, out)?;
    match left {
        Left::Control { trust } => {
            write_trust(&trust, out)?;
            control_outcome(&trust, standing)
        }
        Left::Terminal { closed } => terminal_outcome(closed, standing),
    }
}

/// Prints the report of a station, and returns the state of the channels on which it sends.
pub(crate) fn report<W: Write>(
    alloc: Global,
    reported: Option<Form>,
    prepared: &Prepared,
    out: &mut W,
) -> Result<Standing, AttendingError>
    ensures fault { IfErr result IsPrintFault }
    ensures reported { IfOk result
        (ReportsIn reported prepared.now (W.contents out.old) (W.contents out.new)) }
{
    match prepared {
        Prepared::Control { control } => {
            write_report(alloc, reported, control, out)?;
            Ok(station_standing(control))
        }
        Prepared::Terminal { terminal } => {
            write_report(alloc, reported, terminal, out)?;
            Ok(station_standing(terminal))
        }
    }
}

/// Returns the result of a control station that ended in this state, with what it can tell of its
/// line.
fn control_outcome(trust: &Trust, standing: Standing) -> Result<(), AttendingError>
    ensures { result ≡ control_outcome_of trust.now standing }
{
    match trust.distrust() {
        Some(_) => Err(AttendingError::NotTrusted),
        None => outcome(standing),
    }
}

/// Returns the result of a terminal that ended in this state, and of the fault that closed its
/// connection, if one did.
fn terminal_outcome(closed: Option<CarrierError>, standing: Standing) -> Result<(), AttendingError>
    ensures { result ≡ terminal_outcome_of closed standing }
{
    outcome(standing)?;
    match closed {
        Some(error) => Err(AttendingError::Closed { error }),
        None => Ok(()),
    }
}

/// Returns the result of a station that ended in this state.
fn outcome(standing: Standing) -> Result<(), AttendingError>
    ensures { result ≡ outcome_of standing }
{
    if standing.doubt {
        return Err(AttendingError::InDoubt);
    }
    if standing.waiting {
        return Err(AttendingError::Undelivered);
    }
    Ok(())
}
