//! The stations of a line.

/// A station of a line, of which one at a time sends (GA27-3004, centralised multipoint operation).
#[derive(Clone, Copy, Debug, PartialEq, Eq)]
pub enum Speaker {
    /// The control station, which all terminals hear.
    Control,

    /// The terminal with this number, counted from 0, which only the control station hears.
    Terminal { number: usize },
}
