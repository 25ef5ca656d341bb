//! Reading offered codes, and turning the answers of a release into those of the line.

ghost use Rattle.std.specs.Prelude.{◌≡◌};
ghost use Rattle.bsc_line_model.specs.Offers.{read_for, told};

use bsc_bid::{ReleaseError, Setup};
use bsc_block::Record;
use bsc_line_model::LineError;

/// Reads the record of these codes. The error is `BadRecord` with the reason.
pub(crate) fn read_record(codes: &[u8], setup: Setup) -> Result<Record, LineError>
    ensures { result ≡ read_for setup.format.full codes.now }
{
    match Record::read(codes, setup.format().full()) {
        Ok(record) => Ok(record),
        Err(error) => Err(LineError::BadRecord(error)),
    }
}

/// Turns the answer of a station's release into that of the line.
pub(crate) fn tell(answer: Result<(), ReleaseError>) -> Result<(), LineError>
    ensures { result ≡ told answer }
{
    match answer {
        Ok(()) => Ok(()),
        Err(ReleaseError::NotInDoubt) => Err(LineError::NotInDoubt),
        Err(ReleaseError::CountMismatch) => Err(LineError::CountMismatch),
    }
}
