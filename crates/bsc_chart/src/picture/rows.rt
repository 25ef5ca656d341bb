//! The rows of a picture.
ghost use Rattle.std.specs.Prelude.{◌≡◌, IfOk};
ghost use Rattle.bsc_trace.specs.Rows.{row_in};
ghost use Rattle.bsc_chart.specs.PictureRows.{kept_in};

use bsc_trace::ladder::{Course, Fate, Mark, Row};
use std::alloc::{AllocError, Allocator};

/// A row that is kept.
#[derive(Drop)]
pub enum PictureRow<A: Allocator> {
    /// A transmission.
    Arrow {
        /// When it was sent or heard, in decimal digits.
        time: Vec<u8, A>,

        /// From where to where it went.
        course: Course,

        /// What became of it.
        fate: Fate,

        /// Its name.
        name: Vec<u8, A>,

        /// The characters of its records.
        note: Vec<u8, A>,

        /// Its octets.
        octets: Vec<u8, A>,
    },

    /// A time-out in which nothing was heard.
    Silence {
        /// When it ended, in decimal digits.
        time: Vec<u8, A>,
    },

    /// Anything else.
    Mark {
        /// When it was told, in decimal digits.
        time: Vec<u8, A>,

        /// Where it stands, and what it is.
        mark: Mark,

        /// What was told.
        text: Vec<u8, A>,
    },
}

/// Returns an owned copy of some octets. The error means out of memory.
pub fn owned<A: Allocator>(alloc: A, octets: &[u8]) -> Result<Vec<u8, A>, AllocError>
    ensures { IfOk result (λ own. own.items ≡ octets.now) }
{
    let mut own = Vec::new(alloc);
    own.extend_from_slice(octets)?;
    Ok(own)
}

impl<A: Allocator> PictureRow<A> {
    /// Returns the row that is kept.
    pub fn row(&self) -> Row<'_>
        ensures { row_in result ≡ kept_in self.now }
    {
        match self {
            PictureRow::Arrow {
                time,
                course,
                fate,
                name,
                note,
                octets,
            } => Row::Arrow {
                time,
                course: *course,
                fate: *fate,
                name,
                note,
                octets,
            },
            PictureRow::Silence { time } => Row::Silence { time },
            PictureRow::Mark { time, mark, text } => Row::Mark {
                time,
                mark: *mark,
                text,
            },
        }
    }
}
