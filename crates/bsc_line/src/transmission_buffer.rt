//! Room for one transmission, or for none.

ghost use Rattle.std.specs.Prelude.{◌≡◌, is_some, None, Option};
ghost use Rattle.bsc_frame.specs.declared.message.Message.{Message as MessageValue};
ghost use Rattle.bsc_line_model.specs.Restarts.{pending_without};
ghost use Rattle.bsc_line_model.specs.Transmission.{sent_by, speaker_of};

use bsc_bid::{Speaker, Station};
use bsc_frame::{Heard, MessageBuffer};
use bsc_line_model::Transmission;
use std::marker::Model;

/// A transmission, or none, with room for a text.
#[derive(Drop)]
pub(crate) struct TransmissionBuffer {
    /// The sender of the message, if there is one.
    speaker: Speaker,

    message: MessageBuffer,
}

impl Model for TransmissionBuffer {
    ghost use Rattle.std.specs.Prelude.{Option};
    ghost use Rattle.bsc_line_model.specs.declared.transmission.Transmission.{Transmission};
    ghost use Rattle.bsc_line_model.specs.Transmission.{sent_by};

    ghost Value = { Option Transmission };

    ghost view = { λ b. sent_by b.speaker b.message };
}

impl TransmissionBuffer {
    /// Returns a buffer without a transmission.
    pub(crate) fn new() -> Self
        ensures { result ≡ None }
    {
        TransmissionBuffer {
            speaker: Speaker::Control,
            message: MessageBuffer::new(),
        }
    }

    /// Removes the transmission.
    pub(crate) fn clear(&mut self)
        ensures { self.new ≡ None }
    {
        self.message.clear();
    }

    /// Lends the transmission, or returns `None` if there is none.
    #[inline(always)]
    pub(crate) fn transmission(&self) -> Option<Transmission<'_>>
        ensures { result ≡ self.entry.now }
    {
        Transmission::by(self.speaker, self.message.message())
    }

    /// Returns whether there is a transmission.
    pub(crate) fn is_some(&self) -> bool
        ensures { result ≡ is_some self.now }
    {
        self.message.is_some()
    }

    /// Returns the sender of the transmission.
    pub(crate) fn speaker(&self) -> Option<Speaker>
        ensures { result ≡ speaker_of self.now }
    {
        if self.message.is_some() {
            Some(self.speaker)
        } else {
            None
        }
    }

    /// Removes the transmission if this station sent it.
    pub(crate) fn lose(&mut self, party: Speaker)
        ensures { self.new ≡ pending_without party self.old }
    {
        if self.speaker == party {
            self.message.clear();
        }
    }

    /// Lets a station hear this, and keeps its answer.
    pub(crate) fn answer<S: Station>(
        &mut self,
        speaker: Speaker,
        station: &mut S,
        heard: &Heard<'_>,
    )
        ensures { (sent : Option MessageValue) × (S.hears station.old heard.now station.new sent
            × (self.new ≡ sent_by speaker sent)) }
    {
        self.speaker = speaker;
        station.answer(heard, &mut self.message);
    }

    /// Lets a station act on a silence, and keeps its message.
    pub(crate) fn act<S: Station>(&mut self, speaker: Speaker, station: &mut S)
        ensures { (sent : Option MessageValue) × (S.acts station.old station.new sent
            × (self.new ≡ sent_by speaker sent)) }
    {
        self.speaker = speaker;
        station.act(&mut self.message);
    }
}
