//! The reasons why a run of a script ends early.

ghost use Rattle.std.specs.Prelude.{◌≡◌};
ghost use Rattle.bsc_run.specs.Faults.{fault_at, print_fault};

use bsc_carrier::CarrierError;
use bsc_line::LineError;
use bsc_text::PrintError;
use std::alloc::{AllocError, AllocFailed};
use thiserror::Error;

/// The reason why a run of a script ended early. Lines of the script are counted from 1.
#[derive(Clone, Copy, Debug, PartialEq, Eq, Error)]
pub enum RunError {
    /// The writer of the output or of the trace did not accept it. There is no report.
    #[error("output fault")]
    Output,

    /// The cable did not carry the octets for the `carry`, `heard` or `heard-each` on this line.
    /// There is no report.
    #[error("script line {line}: socket fault")]
    Socket { line: u64 },

    /// An allocation failed that was not for an offered record: one for the line, the items of
    /// `heard-each`, the trace or the report. There is no report.
    #[error("out of memory")]
    Memory,

    /// The line refused the event on this line of the script. The event changed nothing, the events
    /// before it are done, and the report is printed.
    #[error("script line {line}: refused: {why}")]
    Refused { line: u64, why: LineError },
}

impl From<PrintError> for RunError {
    ghost use Rattle.bsc_run.specs.Faults.{run_fault};

    ghost from_gives = { λ error fault. fault ≡ run_fault error };

    fn from(error: PrintError) -> RunError {
        match error {
            PrintError::Output => RunError::Output,
            PrintError::Memory => RunError::Memory,
        }
    }
}

impl From<AllocError> for RunError {
    ghost use Rattle.bsc_run.specs.declared.error.RunError.TheVariants.{Memory};

    ghost from_gives = { λ _ fault. fault ≡ Memory };

    fn from(_error: AllocError) -> RunError {
        RunError::Memory
    }
}

/// The reason why a step failed.
#[derive(Clone, Copy)]
pub(crate) enum StepError {
    /// The writer did not accept the output.
    Output,

    /// The cable did not carry the octets.
    Socket,

    /// An allocation failed that was not for an offered record.
    Memory,

    /// The line refused the event.
    Refused(LineError),
}

impl StepError {
    /// Returns the error for the step on this line of the script.
    pub(crate) fn at(self, line: u64) -> RunError
        ensures { result ≡ fault_at line self }
    {
        match self {
            StepError::Output => RunError::Output,
            StepError::Socket => RunError::Socket { line },
            StepError::Memory => RunError::Memory,
            StepError::Refused(why) => RunError::Refused { line, why },
        }
    }
}

impl From<PrintError> for StepError {
    ghost use Rattle.bsc_run.specs.Faults.{print_fault};

    ghost from_gives = { λ error fault. fault ≡ print_fault error };

    fn from(error: PrintError) -> StepError {
        match error {
            PrintError::Output => StepError::Output,
            PrintError::Memory => StepError::Memory,
        }
    }
}

impl From<CarrierError> for StepError {
    ghost use Rattle.bsc_run.specs.declared.error.StepError.TheVariants.{Socket};

    ghost from_gives = { λ _ fault. fault ≡ Socket };

    fn from(_error: CarrierError) -> StepError {
        StepError::Socket
    }
}

impl From<AllocError> for StepError {
    ghost use Rattle.bsc_run.specs.declared.error.StepError.TheVariants.{Memory};

    ghost from_gives = { λ _ fault. fault ≡ Memory };

    fn from(_error: AllocError) -> StepError {
        StepError::Memory
    }
}

impl<T: Drop> From<AllocFailed<T>> for StepError {
    ghost use Rattle.bsc_run.specs.declared.error.StepError.TheVariants.{Memory};

    ghost from_gives = { λ _ fault. fault ≡ Memory };

    fn from(_error: AllocFailed<T>) -> StepError {
        StepError::Memory
    }
}

impl From<LineError> for StepError {
    ghost use Rattle.bsc_run.specs.declared.error.StepError.TheVariants.{Refused};

    ghost from_gives = { λ why fault. fault ≡ Refused why };

    fn from(why: LineError) -> StepError {
        StepError::Refused(why)
    }
}
