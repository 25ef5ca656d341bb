//! The pending transmission is heard.

ghost use Rattle.std.specs.Prelude.{◌≡◌, Some};
ghost use Rattle.bsc_frame.specs.declared.message.Heard.TheVariants as h;
ghost use Rattle.bsc_frame.specs.Reading.{heard};
ghost use Rattle.bsc_line_model.specs.declared.transmission.Transmission.{Transmission as TransmissionValue};
ghost use Rattle.bsc_line_model.specs.Carries.{IsCarriedDown, IsCarriedUp};
ghost use Rattle.bsc_line_model.specs.Runs.{Carries, Does, IsFromTerminal, IsFromControl};
ghost use Rattle.bsc_line_model.specs.Kept.{IsLine};
ghost use Rattle.bsc_line_model.specs.StepLaws.{StepsAs};
ghost use Rattle.bsc_line.specs.Hearings.{hearing_of};

use crate::addressing::addressed_after;
use crate::hearing::Hearings;
use crate::line::Line;
use crate::pending::whole;
use crate::trust::{both, is_down_fair, is_up_fair};
use bsc_bid::Speaker;
use bsc_frame::{Heard, TextBuffer, decode, decode_short};
use bsc_line_model::LineError;
use bsc_line_model::laws::each_event;
use std::alloc::Allocator;

impl<A: Allocator> Line<A> {
    ghost use Rattle.bsc_line_model.specs.declared.event.Event.TheVariants as event;

    /// Lets the pending transmission be heard as these octets, by all terminals or by the control
    /// station; `None` means that it is lost. Error: `NothingSent` if nothing is pending. A station
    /// may try to reserve memory; a refusal only changes its reply.
    pub fn carry(&mut self, heard: Option<&[u8]>) -> Result<(), LineError>
        ensures does { Does (event.Carry heard.entry) self.old result self.new }
        ensures steps { StepsAs (event.Carry heard.entry) self.old result self.new }
        ensures line { IsLine self.new }
    {
        self.each_steps();
        match heard {
            Some(octets) => self.carry_octets(octets),
            None => self.carry_as(&Heard::Noise),
        }
    }

    /// Lets the pending transmission be heard as these octets.
    fn carry_octets(&mut self, octets: &[u8]) -> Result<(), LineError>
        ensures does { Carries (λ (sent : TransmissionValue). heard octets.now) self.old result
            self.new }
        ensures line { IsLine self.new }
    {
        match decode_short(octets) {
            Some(short) => self.carry_as(&short.heard()),
            None => self.carry_text(octets),
        }
    }

    /// Lets the pending transmission be heard as these octets, which begin as a text. This is a
    /// function of its own so that only a text needs a buffer.
    #[inline(never)]
    fn carry_text(&mut self, octets: &[u8]) -> Result<(), LineError>
        ensures does { Carries (λ (sent : TransmissionValue). heard octets.now) self.old result
            self.new }
        ensures line { IsLine self.new }
    {
        let mut buffer = TextBuffer::new();
        self.carry_as(&decode(octets, &mut buffer))
    }

    /// Lets each terminal hear the control station's transmission as the item of its number; `None`
    /// means that it is lost there. Errors, in this order: `NothingSent` if nothing is pending,
    /// `NotControl` if a terminal's transmission is pending, `WrongCount` if the number of items is
    /// not that of the terminals. A terminal may try to reserve memory; a refusal only changes its
    /// reply.
    pub fn carry_each(&mut self, items: &[Option<&[u8]>]) -> Result<(), LineError>
        ensures does { Does (event.CarryEach items.entry) self.old result self.new }
        ensures steps { StepsAs (event.CarryEach items.entry) self.old result self.new }
        ensures line { IsLine self.new }
    {
        self.each_steps();
        match self.sent.speaker() {
            None => return Err(LineError::NothingSent),
            Some(Speaker::Terminal { .. }) => return Err(LineError::NotControl),
            Some(Speaker::Control) => {}
        }
        if items.len() != self.terminals.len() {
            return Err(LineError::WrongCount);
        }
        self.carry_down(&Hearings::Each(items));
        Ok(())
    }

    /// Lets the pending transmission be heard as it was sent, without reading an octet of it.
    /// Error: `NothingSent` if nothing is pending. A station may try to reserve memory; a refusal
    /// only changes its reply.
    pub fn carry_sent(&mut self) -> Result<(), LineError>
        ensures does { Does event.CarrySent self.old result self.new }
        ensures steps { StepsAs event.CarrySent self.old result self.new }
        ensures line { IsLine self.new }
    {
        self.each_steps();
        match self.sent.speaker() {
            None => return Err(LineError::NothingSent),
            Some(Speaker::Control) => self.carry_down_whole(),
            Some(Speaker::Terminal { .. }) => self.carry_up_whole(),
        }
        Ok(())
    }

    /// Lets the pending transmission be heard as this, by all terminals or by the control station.
    fn carry_as(&mut self, heard: &Heard<'_>) -> Result<(), LineError>
        ensures does { Carries (λ (sent : TransmissionValue). heard.now) self.old result self.new }
        ensures line { IsLine self.new }
    {
        match self.sent.speaker() {
            None => return Err(LineError::NothingSent),
            Some(Speaker::Control) => self.carry_down(&Hearings::Alike(heard)),
            Some(Speaker::Terminal { .. }) => self.carry_up(heard),
        }
        Ok(())
    }

    /// Lets the terminals hear the control station's transmission.
    fn carry_down(&mut self, hearings: &Hearings<'_>)
        requires { IsFromControl self.old }
        ensures does { (sent : TransmissionValue) → self.old.pending ≡ Some sent →
            IsCarriedDown sent.message (hearing_of hearings.now) self.old self.new }
        ensures line { IsLine self.new }
    {
        each_event();
        let count = self.terminals.len();
        let fair = is_down_fair(&self.sent.transmission(), count, hearings);
        self.addressed = addressed_after(&self.control, self.addressed, count, hearings);
        self.sent.hear_down(&mut self.terminals, hearings);
        self.trusted = both(self.trusted, fair);
    }

    /// Lets the terminals hear the control station's transmission as it was sent, which is fair.
    fn carry_down_whole(&mut self)
        requires { IsFromControl self.old }
        ensures does { (sent : TransmissionValue) → self.old.pending ≡ Some sent →
            IsCarriedDown sent.message (λ t. h.Whole sent.message) self.old self.new }
        ensures line { IsLine self.new }
    {
        each_event();
        let count = self.terminals.len();
        let heard = whole(self.sent.transmission());
        let hearings = Hearings::Alike(&heard);
        self.addressed = addressed_after(&self.control, self.addressed, count, &hearings);
        self.sent.hear_down_whole(&mut self.terminals);
    }

    /// Lets the control station hear a terminal's transmission.
    fn carry_up(&mut self, heard: &Heard<'_>)
        requires { IsFromTerminal self.old }
        ensures does { (sent : TransmissionValue) → self.old.pending ≡ Some sent →
            IsCarriedUp sent.message heard.now self.old self.new }
        ensures line { IsLine self.new }
    {
        each_event();
        let fair = is_up_fair(&self.sent.transmission(), heard);
        self.sent.answer(Speaker::Control, &mut self.control, heard);
        self.trusted = both(self.trusted, fair);
    }

    /// Lets the control station hear a terminal's transmission as it was sent, which is fair.
    fn carry_up_whole(&mut self)
        requires { IsFromTerminal self.old }
        ensures does { (sent : TransmissionValue) → self.old.pending ≡ Some sent →
            IsCarriedUp sent.message (h.Whole sent.message) self.old self.new }
        ensures line { IsLine self.new }
    {
        each_event();
        self.sent.answer_whole(Speaker::Control, &mut self.control);
    }
}
