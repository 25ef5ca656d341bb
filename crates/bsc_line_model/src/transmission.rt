//! The pending transmission.

ghost use Rattle.std.specs.Prelude.{◌≡◌};
ghost use Rattle.bsc_line_model.specs.Transmission.{sent_by};

use bsc_bid::Speaker;
use bsc_frame::Message;

/// A transmission that nobody has heard yet. Its message may borrow the units of a text.
#[derive(Drop)]
pub struct Transmission<'a> {
    /// The sender.
    pub speaker: Speaker,

    /// The message.
    pub message: Message<'a>,
}

impl<'a> Transmission<'a> {
    /// Returns the transmission by this station of the message, or `None` if there is no message.
    pub fn by(speaker: Speaker, message: Option<Message<'a>>) -> Option<Transmission<'a>>
        ensures { result ≡ sent_by speaker message.entry }
    {
        match message {
            Some(message) => Some(Transmission { speaker, message }),
            None => None,
        }
    }
}
