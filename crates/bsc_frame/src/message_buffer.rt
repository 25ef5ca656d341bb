//! Room for one message, or for none: what a station leaves to be sent, and what is pending on a
//! line.
ghost use Rattle.std.specs.Prelude.{◌≡◌, ◌<◌, ◌≤◌, length, map, is_some, None, Some};
ghost use Rattle.std.specs.List.{AllByRecursion};
ghost use Rattle.bsc_frame.specs.Units.{text_unit};
ghost use Rattle.bsc_frame.specs.Texts.{IsUnit};
ghost use Rattle.bsc_frame.specs.declared.message.Message.TheVariants as m;

use crate::limits::MAX_UNITS;
use crate::{Address, End, Message, Reply, TextBuffer, Unit};
use std::marker::Model;

/// A message, or none, without the units of a text.
#[derive(Clone, Copy)]
enum Kind {
    Nothing,
    Eot,
    Call(Address),
    Enq,
    Reply(Reply),

    /// The text in the buffer.
    Text,
}

/// A message, or none, with room for the units of a text. To replace the message costs little: only
/// a text is copied, into the room that is there.
#[derive(Drop)]
pub struct MessageBuffer {
    kind: Kind,
    text: TextBuffer,
}

impl Model for MessageBuffer {
    ghost use Rattle.std.specs.Prelude.{Option};
    ghost use Rattle.bsc_frame.specs.declared.message.Message.{Message};
    ghost use Rattle.bsc_frame.specs.MessageBuffers.{message_in, HoldsMessage};

    ghost Value = { Option Message };

    ghost view = { λ b. message_in b.kind b.text };

    ghost invariant = { λ b. HoldsMessage b.kind b.text };
}

impl MessageBuffer {
    /// Returns a buffer without a message.
    pub fn new() -> Self
        ensures { result ≡ None }
    {
        MessageBuffer {
            kind: Kind::Nothing,
            text: TextBuffer::new(),
        }
    }

    /// Removes the message.
    pub fn clear(&mut self)
        ensures { self.new ≡ None }
    {
        self.kind = Kind::Nothing;
    }

    /// Replaces the message by EOT.
    pub fn set_eot(&mut self)
        ensures { self.new ≡ Some m.Eot }
    {
        self.kind = Kind::Eot;
    }

    /// Replaces the message by a call of this address.
    pub fn set_call(&mut self, address: Address)
        ensures { self.new ≡ Some (m.Call address) }
    {
        self.kind = Kind::Call(address);
    }

    /// Replaces the message by ENQ.
    pub fn set_enq(&mut self)
        ensures { self.new ≡ Some m.Enq }
    {
        self.kind = Kind::Enq;
    }

    /// Replaces the message by this reply.
    pub fn set_reply(&mut self, reply: Reply)
        ensures { self.new ≡ Some (m.Reply reply) }
    {
        self.kind = Kind::Reply(reply);
    }

    /// Replaces the message by the text of these units, 1 to 7 of at most 144 record characters
    /// each, with this end.
    pub fn set_text(&mut self, units: &[Unit], end: End)
        requires some { 0 < length units.now }
        requires most { length units.now ≤ MAX_UNITS }
        requires each { AllByRecursion IsUnit (map text_unit units.now) }
        ensures { self.new ≡ Some (m.Text (record { units = map text_unit units.now; end = end })) }
    {
        self.text.set(units, end);
        self.kind = Kind::Text;
    }

    /// Returns whether there is a message.
    pub fn is_some(&self) -> bool
        ensures { result ≡ is_some self.now }
    {
        match &self.kind {
            Kind::Nothing => false,
            _ => true,
        }
    }

    /// Lends the message, or returns `None` if there is none.
    pub fn message(&self) -> Option<Message<'_>>
        ensures { result ≡ self.entry.now }
    {
        match &self.kind {
            Kind::Nothing => None,
            Kind::Eot => Some(Message::Eot),
            Kind::Call(address) => Some(Message::Call(*address)),
            Kind::Enq => Some(Message::Enq),
            Kind::Reply(reply) => Some(Message::Reply(*reply)),
            Kind::Text => Some(Message::Text(self.text.text())),
        }
    }
}
