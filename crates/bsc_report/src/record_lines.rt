//! The form of the lines of the records that arrive.

use bsc_text::Form;

/// How the records that arrive are printed, one line each.
#[derive(Clone, Copy)]
pub struct RecordLines {
    /// The form in which the characters are printed.
    pub form: Form,

    /// Whether each line has the number of its record among those that arrived on its channel,
    /// counted from 0.
    pub numbers: bool,
}
