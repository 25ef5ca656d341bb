//! What a terminal does on the line at present.

/// The mode of a terminal (GA27-3004, control mode and text mode).
#[derive(Clone, Copy, Debug, PartialEq, Eq)]
pub enum Mode {
    /// It listens for calls only.
    Control,

    /// It was selected by the address of this number, and takes texts into the spool of that
    /// address.
    Receiving { select: usize },

    /// It was polled, and sends its records. It holds the line.
    Sending,
}
