//! A transmission as its octets and as what they are read as. What arrives is decoded once, where
//! it arrives; what is sent is the message that it is.

ghost use Rattle.std.specs.Prelude.{◌≡◌};
ghost use Rattle.bsc_frame.specs.Message.{IsMessage};
ghost use Rattle.bsc_frame.specs.Reading.{heard};
ghost use Rattle.bsc_frame.specs.Spells.{IsHeardAs};
ghost use Rattle.bsc_frame.specs.Wire.{wire};

use bsc_frame::laws::{one_reading, reading};
use bsc_frame::{Heard, Message, TextBuffer, decode};
use std::marker::Model;

/// The octets of a transmission, and what they are read as.
#[derive(Drop)]
pub struct Decoded<'a> {
    octets: &'a [u8],
    heard: Heard<'a>,
}

impl<'a> Model for Decoded<'a> {
    ghost use Rattle.std.specs.Prelude.{◌≡◌, ℕ, List};
    ghost use Rattle.bsc_frame.specs.Reading.{heard as heard_as};

    ghost Value = { List ℕ };

    ghost view = { λ d. d.octets.now };

    ghost invariant = { λ d. d.heard ≡ heard_as d.octets.now };
}

impl<'a> Decoded<'a> {
    /// Decodes octets. The units of a text are left in the buffer, and borrowed from it.
    pub fn new(octets: &'a [u8], buffer: &'a mut TextBuffer) -> Decoded<'a>
        ensures { result ≡ octets.now }
    {
        Decoded {
            octets,
            heard: decode(octets, buffer),
        }
    }

    /// Returns the transmission of a message whose octets these are.
    pub fn sent(message: Message<'a>, octets: &'a [u8]) -> Decoded<'a>
        requires message { IsMessage message }
        requires octets { octets.now ≡ wire message }
        ensures { result ≡ octets.now }
    {
        one_reading();
        reading();
        Decoded {
            octets,
            heard: Heard::Whole(message),
        }
    }

    /// Returns its octets.
    pub fn octets(&self) -> &[u8]
        ensures { result.now ≡ self.now }
    {
        self.octets
    }

    /// Returns what they are read as.
    pub fn heard(&self) -> &Heard<'a>
        ensures reading { result.now ≡ heard self.now }
        ensures spelled { IsHeardAs self.now result.now }
    {
        reading();
        &self.heard
    }
}
