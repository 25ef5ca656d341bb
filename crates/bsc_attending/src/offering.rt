//! The records that a station has to send.

ghost use Rattle.std.specs.Prelude.{◌≡◌, ◌≢◌, IfErr, IfOk, List, OnOk, Option, codes, map, ℕ};
ghost use Rattle.std.specs.Prelude.{string_bytes};
ghost use Rattle.bsc_attending.specs.Errors.{IsOfferError};
ghost use Rattle.bsc_attending.specs.Offering.{AddsAllLines, AddsLines, AddsNoLines, AreLinesAt};
ghost use Rattle.bsc_attending.specs.Offering.{HasNoRecords, HasWrongLine, IsOfferRefused};
ghost use Rattle.bsc_attending.specs.Offering.{OffersAllLines, OffersLines, OffersNoLines};
ghost use Rattle.bsc_block.specs.Blocks.{AreShort};

use crate::AttendingError;
use bsc_bid::Setup;
use bsc_block::{Record, RecordError};
use bsc_control::Control;
use bsc_options::{Offer, OptionError, offer_of};
use bsc_station::{LineTerminal, OfferError, offer_at_terminal, offer_for_terminal, read_records};
use bsc_text::{Files, read_text};
use std::alloc::Global;
use std::io::Read;

/// Returns the error for the text at this path, of which the line with this number is not a record.
fn offer_error(alloc: Global, path: &str, line: u64, why: RecordError) -> AttendingError
    ensures error { IsOfferError result }
    ensures refused { (full : ℕ) (input : Option (List ℕ)) →
        HasWrongLine full path.now input (OfferError.Refused line why) →
        HasNoRecords full path.now input result }
{
    let Ok(path) = String::from_str(alloc, path) else {
        return AttendingError::Memory;
    };
    let error = OfferError::Refused { line, why };
    AttendingError::Offer { path, error }
}

/// Returns the records on the lines of the text at this path.
fn records_at<R: Read, F: Files>(
    alloc: Global,
    path: &str,
    setup: Setup,
    input: &mut R,
    files: &mut F,
) -> Result<Vec<Record>, AttendingError>
    ensures error { IfErr result IsOfferError }
    ensures refused { IfErr result
        (HasNoRecords setup.format.full path.now (R.remaining input.old)) }
    ensures are_lines { IfOk result
        (λ records. AreLinesAt path.now (R.remaining input.old) records.items) }
    ensures unasked { path.now ≢ codes "-" → input.new ≡ input.old }
    ensures short { IfOk result (λ records. AreShort setup.format.full records.items) }
{
    let text = read_text(alloc, path, input, files)?;
    match read_records(alloc, &text, setup.format().full()) {
        Ok(records) => Ok(records),
        Err(OfferError::Refused { line, why }) => Err(offer_error(alloc, path, line, why)),
        Err(OfferError::Memory) => Err(AttendingError::Memory),
    }
}

/// Offers the lines of each text at a terminal.
pub(crate) fn offer_all_at_terminal<R: Read, F: Files>(
    alloc: Global,
    offers: &[String],
    setup: Setup,
    terminal: &mut LineTerminal<Global>,
    input: &mut R,
    files: &mut F,
) -> Result<(), AttendingError>
    requires { terminal.old.tributary.queue.format ≡ setup.format }
    ensures error { IfErr result IsOfferError }
    ensures format { terminal.new.tributary.queue.format ≡ setup.format }
    ensures offers { OnOk result (AddsAllLines (map string_bytes offers.now)
        (R.remaining input.old, terminal.old) (R.remaining input.new, terminal.new)) }
    ensures refused { IfErr result
        (AddsNoLines (map string_bytes offers.now) (R.remaining input.old, terminal.old)) }
{
    'offers: for path in offers {
        add_lines(alloc, path.as_str(), setup, terminal, input, files)?;
    }
    Ok(())
}

/// Offers the lines of one text at a terminal.
fn add_lines<R: Read, F: Files>(
    alloc: Global,
    path: &str,
    setup: Setup,
    terminal: &mut LineTerminal<Global>,
    input: &mut R,
    files: &mut F,
) -> Result<(), AttendingError>
    requires { terminal.old.tributary.queue.format ≡ setup.format }
    ensures error { IfErr result IsOfferError }
    ensures format { terminal.new.tributary.queue.format ≡ setup.format }
    ensures adds { OnOk result (AddsLines path.now (R.remaining input.old) (R.remaining input.new)
        terminal.old terminal.new) }
    ensures refused { IfErr result
        (HasNoRecords setup.format.full path.now (R.remaining input.old)) }
{
    let records = records_at(alloc, path, setup, input, files)?;
    match offer_at_terminal(terminal, records) {
        Ok(()) => Ok(()),
        Err(_) => Err(AttendingError::Memory),
    }
}

/// Offers the lines of each text at the control station.
pub(crate) fn offer_all_for_terminals<R: Read, F: Files>(
    alloc: Global,
    offers: &[String],
    control: &mut Control<Global>,
    input: &mut R,
    files: &mut F,
) -> Result<(), AttendingError>
    ensures error { IfErr result IsOfferError }
    ensures offers { OnOk result (OffersAllLines (map string_bytes offers.now)
        (R.remaining input.old, control.old) (R.remaining input.new, control.new)) }
    ensures refused { IfErr result
        (OffersNoLines (map string_bytes offers.now) (R.remaining input.old, control.old)) }
{
    'offers: for text in offers {
        offer_for(alloc, text.as_str(), control, input, files)?;
    }
    Ok(())
}

/// Offers the lines of one text at the control station.
fn offer_for<R: Read, F: Files>(
    alloc: Global,
    text: &str,
    control: &mut Control<Global>,
    input: &mut R,
    files: &mut F,
) -> Result<(), AttendingError>
    ensures error { IfErr result IsOfferError }
    ensures offers { OnOk result (OffersLines text.now (R.remaining input.old)
        (R.remaining input.new) control.old control.new) }
    ensures refused { IfErr result
        (IsOfferRefused text.now (R.remaining input.old) control.old) }
{
    let Some(offer) = offer_of(text) else {
        let error = OptionError::OfferForm;
        return Err(AttendingError::Options { error });
    };
    let Offer {
        terminal,
        select,
        path,
    } = offer;
    if terminal >= control.terminals() || select >= control.addresses(terminal) {
        let error = OptionError::NoChannel;
        return Err(AttendingError::Options { error });
    }
    let records = records_at(alloc, path, control.setup(), input, files)?;
    match offer_for_terminal(control, terminal, select, records) {
        Ok(()) => Ok(()),
        Err(_) => Err(AttendingError::Memory),
    }
}
