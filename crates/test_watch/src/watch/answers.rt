//! Which station may send next, and which channel is addressed.

use crate::broken::Broken;
use crate::channel::Channel;
use crate::heard::{Kind, is_sent_as, kind_at};
use crate::pending::{Sent, find, read_pending, speaker_of};
use crate::step::Effect;
use crate::watch::LineWatch;
use bsc_bid::Speaker;
use bsc_control::Way;
use bsc_frame::{Heard, Message, TextBuffer, decode};
use bsc_line::{Event, Line};
use std::alloc::Allocator;

/// Whether the line still shows this as pending.
fn is_shown<A: Allocator>(line: &Line<A>, sent: &Option<Sent>) -> bool {
    match (line.pending(), sent) {
        (None, None) => true,
        (Some(pending), Some(sent)) => {
            pending.speaker == sent.speaker && is_sent_as(&pending.message, sent.octets.as_slice())
        }
        _ => false,
    }
}

/// The terminal and direction of the channel that this message calls, if it calls one.
fn channel_in(channels: &[Channel], message: &Message<'_>) -> Option<(usize, Way)> {
    match message {
        Message::Call(address) => match find(channels, address) {
            Some(channel) => Some((channel.terminal, channel.way)),
            None => None,
        },
        _ => None,
    }
}

impl LineWatch {
    /// Whether all terminals heard a message of this kind.
    fn all_heard(&self, kind: Kind) -> bool {
        let hearings = self.hearings.as_slice();
        hearings.iter().all(|hearing| hearing.kind == kind)
    }

    /// Stores the channel that is addressed after a transmission of the control station: the called
    /// one if all terminals heard a call, and none if all heard EOT. Which one it is matters only
    /// while all terminals have always heard the same octets.
    pub(crate) fn see_addressed(&mut self, event: &Event<'_>, effect: Effect) {
        if effect != Effect::Down {
            return;
        }
        if self.all_heard(Kind::Eot) {
            self.addressed = None;
        } else if self.all_heard(Kind::Call) {
            self.addressed = self.called(event);
        }
    }

    /// The terminal and direction of the channel that terminal 0 heard called, if it heard a call.
    fn called(&self, event: &Event<'_>) -> Option<(usize, Way)> {
        match decode(self.octets_heard(event, 0), &mut TextBuffer::new()) {
            Heard::Whole(message) => channel_in(&self.channels, &message),
            _ => None,
        }
    }

    /// Stores which stations take no part after the event: one that began again takes none, and
    /// loses what it sent; a terminal takes part again once it hears a call.
    pub(crate) fn see_aside(&mut self, effect: Effect) {
        match effect {
            Effect::Restarted(party) => {
                self.aside.set(party, true);
                if speaker_of(&self.sent) == Some(party) {
                    self.sent = None;
                }
            }
            Effect::Down => self.call_each(),
            _ => {}
        }
    }

    /// Lets each terminal that heard a call take part.
    fn call_each(&mut self) {
        for (terminal, hearing) in self.hearings.as_slice().iter().enumerate() {
            if hearing.kind == Kind::Call {
                self.aside
                    .set(Speaker::Terminal { number: terminal }, false);
            }
        }
    }

    /// Stores which terminals are polled after the event: all of them once the control station has
    /// begun again.
    pub(crate) fn see_poll_list(&mut self, effect: Effect) {
        match effect {
            Effect::Polled { terminal, polled } => self.poll_list.set(terminal, polled),
            Effect::Restarted(Speaker::Control) => self.poll_list.restart(),
            _ => {}
        }
    }

    /// Checks that what is pending may be pending after the event.
    pub(crate) fn see_pending<A: Allocator>(
        &mut self,
        line: &Line<A>,
        effect: Effect,
    ) -> Result<(), Broken> {
        if matches!(effect, Effect::Silence | Effect::Down | Effect::Up) {
            let addressed = if self.trusted { self.addressed } else { None };
            let next = read_pending(line, &self.channels, addressed)?;
            self.see_next(effect, &next)?;
            self.see_order(line, effect)?;
            self.sent = next;
            Ok(())
        } else if is_shown(line, &self.sent) {
            Ok(())
        } else {
            Err(Broken::Pending)
        }
    }

    /// Checks that this may be sent next, and counts it; its sender takes part from now on.
    fn see_next(&mut self, effect: Effect, next: &Option<Sent>) -> Result<(), Broken> {
        if !self.may_follow(effect, speaker_of(next)) {
            return Err(Broken::Pending);
        }
        let Some(next) = next else {
            return Ok(());
        };
        // A station that has taken no part yet sends nothing but a call.
        if self.aside.has(next.speaker) && next.kind != Kind::Call {
            return Err(Broken::Pending);
        }
        self.aside.set(next.speaker, false);
        self.tally.count_sent(next.kind);
        Ok(())
    }

    /// Checks that a call that the control station sends is of a terminal that is to be called.
    fn see_order<A: Allocator>(&mut self, line: &Line<A>, effect: Effect) -> Result<(), Broken> {
        let Some(pending) = line.pending() else {
            return Ok(());
        };
        if pending.speaker != Speaker::Control {
            return Ok(());
        }
        let called = channel_in(&self.channels, &pending.message);
        let tries = usize::from(self.setup.tries());
        if self
            .poll_list
            .may_send(called, effect == Effect::Silence, tries)
        {
            Ok(())
        } else {
            Err(Broken::Order)
        }
    }

    /// Whether this station may send next, after a silence or a transmission.
    fn may_follow(&self, effect: Effect, next: Option<Speaker>) -> bool {
        match (effect, next) {
            // After a silence some station has to send, unless no terminal in the poll list is
            // polled; a terminal only if it is addressed and sends, unless several terminals can be
            // out of control mode.
            (Effect::Silence, None) => !self.poll_list.is_any_polled(),
            (Effect::Silence, Some(Speaker::Control)) => true,
            (Effect::Silence, Some(Speaker::Terminal { number: terminal })) => {
                !self.is_focused() || self.addressed == Some((terminal, Way::FromTerminal))
            }
            // The control station is answered by a terminal that heard more than noise; if all
            // terminals heard the call, the called terminal has to answer.
            (Effect::Down, None) => !self.was_called(),
            (Effect::Down, Some(Speaker::Terminal { number: terminal })) => {
                let heard = kind_at(self.hearings.as_slice(), terminal);
                heard != Kind::Noise && self.may_speak(terminal)
            }
            // A terminal is answered by the control station, if that heard more than noise and has
            // made a call.
            (Effect::Up, None) => true,
            (Effect::Up, Some(Speaker::Control)) => {
                kind_at(self.hearings.as_slice(), 0) != Kind::Noise
                    && !self.aside.has(Speaker::Control)
            }
            _ => false,
        }
    }

    /// Whether only the addressed terminal can be out of control mode.
    fn is_focused(&self) -> bool {
        self.trusted || self.alike
    }

    /// Whether all terminals heard a call as it was sent.
    fn was_called(&self) -> bool {
        let hearings = self.hearings.as_slice();
        self.all_heard(Kind::Call) && hearings.iter().all(|hearing| hearing.itself)
    }

    /// Whether the terminal may answer: the addressed terminal always may, any other one only if
    /// several terminals can be out of control mode and the call was not heard by all as it was
    /// sent.
    fn may_speak(&self, terminal: usize) -> bool {
        let addressed = match self.addressed {
            Some((addressed, _)) => addressed == terminal,
            None => false,
        };
        addressed || !(self.is_focused() || self.was_called())
    }
}
