//! What becomes of a bid after a call of its sender. The message itself is left in a place that the
//! station lends, because it has room for a text, which should not be copied from call to call.

/// What becomes of a bid after a call of its sender (GA27-3004, acknowledgements and time-outs).
#[derive(Clone, Copy, Debug, PartialEq, Eq)]
pub enum Outcome {
    /// The bid continues: the sender transmits the message that it left, which is a block, or ENQ
    /// to ask for the last reply again.
    Sends,

    /// The bid is over, and the sender left no message. The station sends EOT, or whatever else it
    /// has to send.
    Over,

    /// Nothing is transmitted, and the sender left no message.
    Quiet,
}
