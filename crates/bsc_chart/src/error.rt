//! The reasons why a trace was not drawn.
ghost use Rattle.std.specs.Prelude.{◌≡◌};

use bsc_text::{PrintError, Unreadable};
use std::alloc::AllocError;
use thiserror::Error;

/// The reason why not all of a trace was drawn.
#[derive(Clone, Copy, Debug, PartialEq, Eq, Error)]
pub enum ChartError {
    /// The line with this number, counted from 1, has more than
    /// [`MAX_INPUT`](bsc_text::MAX_INPUT) octets. A carriage return at its end counts, its line
    /// feed does not.
    #[error("line {line}: too long")]
    TooLongAt { line: u64 },

    /// The width is not a number from 40 to 1000.
    #[error("--width is not from 40 to 1000")]
    Width,

    /// More than one form was asked for.
    #[error("--text, --svg and --html exclude one another")]
    Forms,

    /// `--from` or `--to` is not the number of a line, from 1 on.
    #[error("--from or --to is not the number of a line")]
    Lines,

    /// A picture, also that of a page, has room for no more than [`MAX_ARROWS`](crate::MAX_ARROWS)
    /// arrows and [`MAX_ROWS`](crate::picture::MAX_ROWS) rows.
    #[error("more than 5000 arrows or 20000 rows: draw a part with --from and --to")]
    TooMany,

    /// The input could not be read for this reason. That the lines are too many for their numbers,
    /// 2^64 - 1 or more, is a read fault.
    #[error("input fault")]
    Input { why: Unreadable },

    /// The writer did not accept the text.
    #[error("output fault")]
    Output,

    /// An allocation failed.
    #[error("out of memory")]
    Memory,
}

impl From<AllocError> for ChartError {
    ghost use Rattle.bsc_chart.specs.declared.error.ChartError.TheVariants.{Memory};

    ghost from_gives = { λ _ error. error ≡ Memory };

    fn from(_error: AllocError) -> ChartError {
        ChartError::Memory
    }
}

impl From<PrintError> for ChartError {
    ghost use Rattle.bsc_chart.specs.Errors.{print_error};

    ghost from_gives = { λ printed error. error ≡ print_error printed };

    fn from(error: PrintError) -> ChartError {
        match error {
            PrintError::Output => ChartError::Output,
            PrintError::Memory => ChartError::Memory,
        }
    }
}
