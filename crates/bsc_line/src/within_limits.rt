//! The limits of the pending message.

ghost use Rattle.std.specs.Prelude.{IfSome};
ghost use Rattle.bsc_frame.specs.Message.{IsMessage};
ghost use Rattle.bsc_line_model.specs.declared.transmission.Transmission.{Transmission as TransmissionValue};

use bsc_frame::Message;
use bsc_line_model::Transmission;

/// States that the message of a transmission keeps its limits, for contracts to rest on.
pub(crate) fn within_limits(sent: &Option<Transmission<'_>>)
    ensures { IfSome sent.now (λ (s : TransmissionValue). IsMessage s.message) }
{
    match sent {
        Some(sent) => is_message(&sent.message),
        None => {}
    }
}

/// States that a message keeps its limits, for contracts to rest on. Its parts are read for this
/// only.
fn is_message(message: &Message<'_>)
    ensures { IsMessage message.now }
{
    match message {
        Message::Call(address) => {
            let _codes = address.codes();
        }
        Message::Text(text) => {
            let _count = text.count();
        }
        _ => {}
    }
}
