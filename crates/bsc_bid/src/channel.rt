//! The channels between the control station and a terminal.

use crate::Way;

/// The name of a channel: the number of its terminal on the line, counted from 0, and the way. Not
/// every name is that of a channel of the line.
#[derive(Clone, Copy, Debug, PartialEq, Eq)]
pub struct ChannelName {
    pub terminal: usize,
    pub way: Way,
}
