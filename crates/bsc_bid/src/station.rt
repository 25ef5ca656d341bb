//! What a station of the line does: it hears transmissions, and it answers or stays quiet.

ghost use Rattle.std.specs.Prelude.{◌≡◌, Option, Bool};
ghost use Rattle.bsc_frame.specs.declared.message.Message.{Message as MessageValue};
ghost use Rattle.bsc_frame.specs.declared.message.Heard.{Heard as HeardValue};
ghost use Rattle.bsc_frame.specs.declared.message.Heard.TheVariants.{Noise};
ghost use Rattle.bsc_frame.specs.Spells.{IsHeardAs};
ghost use Rattle.bsc_bid.specs.Station.{IsSent, StaysQuiet};

use bsc_frame::{Heard, MessageBuffer, TextBuffer, Wire, decode, encode};

/// A station of the line (GA27-3004, centralised multipoint operation).
pub trait Station {
    /// What the station does with what it hears: the station before, what is heard, the station
    /// after, and the message that it sends.
    ghost hears: { Self → HeardValue → Self → Option MessageValue → Type 0 };

    /// What the station does on a silence: the station before, the station after, and the message
    /// that it sends.
    ghost acts: { Self → Self → Option MessageValue → Type 0 };

    /// Whether the station acts on a silence before the control station does.
    ghost holds: { Self → Bool };

    /// Hears what octets were decoded as, and replaces `sent` by the message to send, or by none.
    /// The call may try to reserve memory; if that fails, only a reply changes.
    fn answer(&mut self, heard: &Heard<'_>, sent: &mut MessageBuffer)
        ensures { hears self.old heard.now self.new sent.new };

    /// Reports that nothing was heard for the time of a time-out, and replaces `sent` by the
    /// message to send, or by none.
    fn act(&mut self, sent: &mut MessageBuffer)
        ensures { acts self.old self.new sent.new };

    /// Hears what octets were decoded as. Returns true if the wire now holds the message to send;
    /// otherwise the wire is empty. The call may try to reserve memory; if that fails, only a reply
    /// changes.
    fn hear_message(&mut self, heard: &Heard<'_>, wire: &mut Wire) -> bool
        ensures { (sent : Option MessageValue) × hears self.old heard.now self.new sent
            × IsSent sent result wire.new.items }
    {
        let mut sent = MessageBuffer::new();
        self.answer(heard, &mut sent);
        transmit(&sent, wire)
    }

    /// Hears octets. Returns true if the wire now holds the message to send; otherwise the wire is
    /// empty. The call may try to reserve memory; if that fails, only a reply changes.
    fn hear(&mut self, octets: &[u8], wire: &mut Wire) -> bool
        ensures { (heard : HeardValue) × (IsHeardAs octets.now heard
            × ((sent : Option MessageValue) × hears self.old heard self.new sent
            × IsSent sent result wire.new.items)) }
    {
        let mut buffer = TextBuffer::new();
        self.hear_message(&decode(octets, &mut buffer), wire)
    }

    /// Reports that nothing was heard for the time of a time-out. Returns true if the wire now
    /// holds the message to send; otherwise the wire is empty.
    fn silence(&mut self, wire: &mut Wire) -> bool
        ensures { (sent : Option MessageValue) × acts self.old self.new sent
            × IsSent sent result wire.new.items }
    {
        let mut sent = MessageBuffer::new();
        self.act(&mut sent);
        transmit(&sent, wire)
    }

    /// Returns whether the station acts on a silence before the control station does.
    fn holds_line(&self) -> bool
        ensures { result ≡ holds self.now };

    /// Noise changes nothing, and nothing is sent.
    ghost ignores_noise: { (old new : Self) (sent : Option MessageValue)
        → hears old Noise new sent → StaysQuiet old new sent };
}

/// Replaces the contents of the wire by the octets of the message in the buffer, or clears the wire
/// if there is no message. Returns true if there is one.
pub fn transmit(message: &MessageBuffer, wire: &mut Wire) -> bool
    ensures { IsSent message.now result wire.new.items }
{
    match &message.message() {
        Some(message) => {
            encode(message, wire);
            true
        }
        None => {
            wire.clear();
            false
        }
    }
}
