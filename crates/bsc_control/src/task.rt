//! What the control station does with the terminal of its present entry.

ghost use Rattle.std.specs.Prelude.{◌≡◌};
ghost use Rattle.bsc_control.specs.Table.{replied_after, is_interrupted};

use bsc_frame::Reply;

/// The replies sent so far in a poll.
#[derive(Clone, Copy)]
pub enum Replied {
    /// No reply yet.
    Nothing,

    /// Replies, but no RVI among them.
    Uninterrupted,

    /// Replies, and RVI among them.
    Interrupted,
}

impl Replied {
    /// Returns what was replied once this reply, or none, is sent.
    pub(crate) fn after(self, reply: Option<Reply>) -> Replied
        ensures { result ≡ replied_after self reply }
    {
        match (self, reply) {
            (_, None) => self,
            (Replied::Interrupted, _) | (_, Some(Reply::Rvi)) => Replied::Interrupted,
            _ => Replied::Uninterrupted,
        }
    }

    /// Whether RVI is among the replies.
    pub(crate) fn is_interrupted(self) -> bool
        ensures { result ≡ is_interrupted self }
    {
        matches!(self, Replied::Interrupted)
    }
}

/// What the control station does at present (GA27-3004, polling and selection).
#[derive(Clone, Copy)]
pub enum Task {
    /// It has not made a call yet, or no terminal in its poll list is polled.
    AtRest,

    /// It called the selection address of this number. `enquired` says that it sent ENQ last, after
    /// WACK.
    Selecting { select: usize, enquired: bool },

    /// It sends the records of the selection address of this number.
    Sending { select: usize },

    /// It called the polling address, and takes texts.
    Polling { replied: Replied },
}
