//! The options for the output of a station.

use crate::{RecordLines, Tracing};

/// How the records that arrive at a station are printed, and what is traced.
#[derive(Clone, Copy)]
pub struct Printing {
    /// How the records are printed.
    pub records: RecordLines,

    /// Which transmissions and time-outs have a line. With any a line is also printed for each
    /// connection that begins or ends.
    pub trace: Tracing,
}
