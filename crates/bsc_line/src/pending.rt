//! The pending transmission, and room for the answer to it.

ghost use Rattle.std.specs.Prelude.{◌≡◌, None, Option, IfSome, is_some, length};
ghost use Rattle.bsc_frame.specs.declared.message.Message.{Message as MessageValue};
ghost use Rattle.bsc_frame.specs.declared.message.Heard.TheVariants as h;
ghost use Rattle.bsc_line_model.specs.declared.transmission.Transmission.{Transmission as TransmissionValue};
ghost use Rattle.bsc_line_model.specs.Restarts.{pending_without};
ghost use Rattle.bsc_line_model.specs.Terminals.{EachHears, EachKeeps, first_answer};
ghost use Rattle.bsc_line_model.specs.Transmission.{sent_by, speaker_of};
ghost use Rattle.bsc_line.specs.Hearings.{hearing_of};

use crate::hearing::Hearings;
use crate::terminals::hear_in;
use crate::transmission_buffer::TransmissionBuffer;
use bsc_bid::{Speaker, Station};
use bsc_frame::Heard;
use bsc_line_model::Transmission;
use bsc_tributary::Tributary;
use std::alloc::Allocator;
use std::marker::Model;

/// The pending transmission, or none. There are two buffers, so that the answer is written into one
/// while the stations hear what is in the other.
#[derive(Drop)]
pub(crate) struct Pending {
    /// Whether the pending transmission is in the second buffer.
    in_second: bool,

    first: TransmissionBuffer,
    second: TransmissionBuffer,
}

impl Model for Pending {
    ghost use Rattle.std.specs.Prelude.{Option, if◌then◌else◌};
    ghost use Rattle.bsc_line_model.specs.declared.transmission.Transmission.{Transmission};

    ghost Value = { Option Transmission };

    ghost view = { λ p. if p.in_second then p.second else p.first };
}

impl Pending {
    /// Returns a value with nothing pending.
    pub(crate) fn new() -> Self
        ensures { result ≡ None }
    {
        Pending {
            in_second: false,
            first: TransmissionBuffer::new(),
            second: TransmissionBuffer::new(),
        }
    }

    /// Lends the pending transmission, or returns `None` if nothing is pending.
    #[inline(always)]
    pub(crate) fn transmission(&self) -> Option<Transmission<'_>>
        ensures { result ≡ self.entry.now }
    {
        if self.in_second {
            self.second.transmission()
        } else {
            self.first.transmission()
        }
    }

    /// Returns whether a transmission is pending.
    pub(crate) fn is_some(&self) -> bool
        ensures { result ≡ is_some self.now }
    {
        if self.in_second {
            self.second.is_some()
        } else {
            self.first.is_some()
        }
    }

    /// Returns the sender of the pending transmission.
    pub(crate) fn speaker(&self) -> Option<Speaker>
        ensures { result ≡ speaker_of self.now }
    {
        if self.in_second {
            self.second.speaker()
        } else {
            self.first.speaker()
        }
    }

    /// Loses the pending transmission if this station sent it.
    pub(crate) fn lose(&mut self, party: Speaker)
        ensures { self.new ≡ pending_without party self.old }
    {
        if self.in_second {
            self.second.lose(party);
        } else {
            self.first.lose(party);
        }
    }

    /// Lets a station hear this; then its answer is pending.
    pub(crate) fn answer<S: Station>(
        &mut self,
        speaker: Speaker,
        station: &mut S,
        heard: &Heard<'_>,
    )
        ensures { (sent : Option MessageValue) × (S.hears station.old heard.now station.new sent
            × (self.new ≡ sent_by speaker sent)) }
    {
        self.in_second = false;
        self.first.answer(speaker, station, heard);
    }

    /// Lets a station act on a silence; then its message is pending.
    pub(crate) fn act<S: Station>(&mut self, speaker: Speaker, station: &mut S)
        ensures { (sent : Option MessageValue) × (S.acts station.old station.new sent
            × (self.new ≡ sent_by speaker sent)) }
    {
        self.in_second = false;
        self.first.act(speaker, station);
    }

    /// Lets a station hear the pending transmission as it was sent; then its answer is pending.
    pub(crate) fn answer_whole<S: Station>(&mut self, speaker: Speaker, station: &mut S)
        ensures { IfSome self.old (λ (s : TransmissionValue). (sent : Option MessageValue)
            × (S.hears station.old (h.Whole s.message) station.new sent
            × (self.new ≡ sent_by speaker sent))) }
    {
        if self.in_second {
            self.in_second = false;
            let heard = whole(self.second.transmission());
            self.first.answer(speaker, station, &heard);
        } else {
            self.in_second = true;
            let heard = whole(self.first.transmission());
            self.second.answer(speaker, station, &heard);
        }
    }

    /// Lets each terminal hear what arrives at its place; then the answer of the terminal with the
    /// least number among those that answer is pending.
    pub(crate) fn hear_down<A: Allocator>(
        &mut self,
        terminals: &mut Vec<Tributary<A>, A>,
        hearings: &Hearings<'_>,
    )
        ensures each { EachHears terminals.old.items (hearing_of hearings.now) terminals.new.items }
        ensures keeps { EachKeeps terminals.old.items (hearing_of hearings.now)
            terminals.new.items }
        ensures first { self.new ≡ first_answer terminals.old.items (hearing_of hearings.now)
            terminals.new.items (length terminals.old.items) }
    {
        self.in_second = false;
        hear_in(terminals, hearings, &mut self.first);
    }

    /// Lets each terminal hear the pending transmission as it was sent; then the answer of the
    /// terminal with the least number among those that answer is pending.
    pub(crate) fn hear_down_whole<A: Allocator>(&mut self, terminals: &mut Vec<Tributary<A>, A>)
        ensures each { IfSome self.old (λ (s : TransmissionValue).
            EachHears terminals.old.items (λ t. h.Whole s.message) terminals.new.items) }
        ensures keeps { IfSome self.old (λ (s : TransmissionValue).
            EachKeeps terminals.old.items (λ t. h.Whole s.message) terminals.new.items) }
        ensures first { IfSome self.old (λ (s : TransmissionValue).
            self.new ≡ first_answer terminals.old.items (λ t. h.Whole s.message)
            terminals.new.items (length terminals.old.items)) }
    {
        if self.in_second {
            self.in_second = false;
            let heard = whole(self.second.transmission());
            hear_in(terminals, &Hearings::Alike(&heard), &mut self.first);
        } else {
            self.in_second = true;
            let heard = whole(self.first.transmission());
            hear_in(terminals, &Hearings::Alike(&heard), &mut self.second);
        }
    }
}

/// Returns the transmission as it is heard unspoiled.
pub(crate) fn whole<'a>(sent: Option<Transmission<'a>>) -> Heard<'a>
    ensures { IfSome sent.entry (λ (s : TransmissionValue). result ≡ h.Whole s.message) }
{
    match sent {
        Some(sent) => Heard::Whole(sent.message),
        None => Heard::Noise,
    }
}
