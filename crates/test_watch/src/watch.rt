//! The watch of a line.

mod answers;
mod moves;

use crate::aside::Aside;
use crate::broken::Broken;
use crate::channel::{Channel, sender_of};
use crate::heard::{Hearing, Kind, hear, is_fair, kind_at};
use crate::pending::{Sent, speaker_of};
use crate::poll_list::PollList;
use crate::refusals::{due, may_fail};
use crate::step::{Effect, effect_of, is_sound};
use crate::taking::take;
use crate::tally::Tally;
use arrayvec::ArrayVec;
use bsc_bid::limits::MAX_TERMINALS;
use bsc_bid::{Setup, Speaker, Terminal};
use bsc_control::Way;
use bsc_frame::Reply;
use bsc_line::{Event, Line, LineError};
use std::alloc::{AllocError, Allocator, Global};
use test_alloc::Refusing;

/// What each station that hears a transmission heard.
type Hearings = ArrayVec<Hearing, MAX_TERMINALS>;

/// The state of a watch, which follows a line from its beginning.
#[derive(Drop)]
pub struct LineWatch {
    setup: Setup,
    terminals: usize,
    channels: Vec<Channel>,
    // What was pending after the last event.
    sent: Option<Sent>,
    // Whether each transmission so far was heard fairly, and whether all terminals always heard
    // the same octets.
    trusted: bool,
    alike: bool,
    // The channel named by the last call that all terminals heard whole.
    addressed: Option<(usize, Way)>,
    // The stations that have taken no part since they began.
    aside: Aside,
    // The terminal that may be called next.
    poll_list: PollList,
    // What each station that hears the transmission heard.
    hearings: Hearings,
    // The counts of what was seen so far.
    pub tally: Tally,
}

/// Adds the channels of this terminal.
fn add_channels(
    channels: &mut Vec<Channel>,
    number: usize,
    terminal: &Terminal,
) -> Result<(), AllocError> {
    channels.push(Channel::new(number, Way::FromTerminal, terminal.poll()))?;
    for select in 0..terminal.selects() {
        let way = Way::ToTerminal(select);
        channels.push(Channel::new(number, way, terminal.select(select)))?;
    }
    Ok(())
}

/// Adds what this many stations hear, each the same.
fn hear_alike(hearings: &mut Hearings, count: usize, hearing: Hearing) {
    for _ in 0..count {
        let _ = hearings.try_push(hearing);
    }
}

/// Adds what each of these items is heard as if `sent` was sent.
fn hear_each(hearings: &mut Hearings, sent: &[u8], items: &[Option<&[u8]>]) {
    for item in items {
        let _ = hearings.try_push(hear(sent, *item));
    }
}

impl LineWatch {
    /// Watches a new line with these settings, terminals and poll list.
    pub fn new(
        alloc: Global,
        setup: Setup,
        terminals: &[Terminal],
        poll_list: &[u8],
    ) -> Result<LineWatch, AllocError> {
        let mut channels = Vec::new(alloc);
        for (number, terminal) in terminals.iter().enumerate() {
            add_channels(&mut channels, number, terminal)?;
        }
        Ok(LineWatch {
            setup,
            terminals: terminals.len(),
            channels,
            sent: None,
            trusted: true,
            alike: true,
            addressed: None,
            aside: Aside::all(),
            poll_list: PollList::new(alloc, poll_list)?,
            hearings: Hearings::new(),
            tally: Tally::new(),
        })
    }

    /// The terminal and direction of the first channel that is in doubt, in the order of the
    /// terminals, and for each terminal the channel from it before the channels to it.
    pub fn doubtful(&self) -> Option<(usize, Way)> {
        for channel in self.channels.iter() {
            if channel.seen.view.in_doubt {
                return Some((channel.terminal, channel.way));
            }
        }
        None
    }

    /// Plays an event on the line, and compares what the line shows with what the event may do.
    /// `memory` is the allocator of the line: only if it refuses a request during an offer may the
    /// offer fail with `Memory`, and only if it does while a transmission is heard may the station
    /// that answers put the sender off. Returns the answer of the line, or the first rule that it
    /// broke.
    pub fn play<A: Allocator>(
        &mut self,
        memory: &Refusing,
        line: &mut Line<A>,
        event: &Event<'_>,
    ) -> Result<Result<(), LineError>, Broken> {
        let speaker = speaker_of(&self.sent);
        let due = due(line, self.setup, speaker, event);
        self.hear(event);
        let refused_before = memory.refused();
        let answer = take(line, event);
        let starved = memory.refused() != refused_before;
        let fails = due.is_ok() && may_fail(event, answer, starved, self.trusted);
        if answer != due && !fails {
            return Err(Broken::Answer);
        }
        let effect = match answer {
            Ok(()) => effect_of(event, speaker),
            Err(_) => Effect::Nothing,
        };
        self.tally.count_answer(answer, effect);
        self.see(line, event, effect)?;
        if self.is_put_off(effect) && !starved {
            return Err(Broken::PutOff);
        }
        Ok(answer)
    }

    /// Whether the station that answers what it heard puts the sender of records off: by WACK, or
    /// by NAK to a whole text. It may only if it has no room for a text.
    fn is_put_off(&self, effect: Effect) -> bool {
        let (Some(sent), Effect::Down | Effect::Up) = (&self.sent, effect) else {
            return false;
        };
        let station = match sent.speaker {
            Speaker::Control => 0,
            Speaker::Terminal { number } => number,
        };
        match sent.kind {
            Kind::Reply(Reply::Wack) => true,
            Kind::Reply(Reply::Nak) => kind_at(self.hearings.as_slice(), station) == Kind::Text,
            _ => false,
        }
    }

    /// Stores what each station hears of what is pending.
    fn hear(&mut self, event: &Event<'_>) {
        self.hearings.clear();
        let Some(sent) = &self.sent else {
            return;
        };
        let count = match sent.speaker {
            Speaker::Control => self.terminals,
            Speaker::Terminal { .. } => 1,
        };
        let octets = sent.octets.as_slice();
        let whole = Hearing {
            kind: sent.kind,
            itself: true,
        };
        match *event {
            Event::Carry { heard } => hear_alike(&mut self.hearings, count, hear(octets, heard)),
            Event::CarrySent => hear_alike(&mut self.hearings, count, whole),
            Event::CarryEach { heard } => hear_each(&mut self.hearings, octets, heard),
            _ => {}
        }
    }

    /// Checks what the line shows after an event with this effect.
    fn see<A: Allocator>(
        &mut self,
        line: &Line<A>,
        event: &Event<'_>,
        effect: Effect,
    ) -> Result<(), Broken> {
        self.see_trust(line, event, effect)?;
        self.see_channels(line, event, effect)?;
        self.see_addressed(event, effect);
        self.see_aside(effect);
        self.see_poll_list(effect);
        self.see_soundness()?;
        self.see_pending(line, effect)
    }

    /// Checks that the line is trusted exactly if everything was heard fairly.
    fn see_trust<A: Allocator>(
        &mut self,
        line: &Line<A>,
        event: &Event<'_>,
        effect: Effect,
    ) -> Result<(), Broken> {
        if effect == Effect::Down || effect == Effect::Up {
            self.trusted = self.trusted && self.was_fair();
            self.alike = self.alike && !matches!(event, Event::CarryEach { .. });
        }
        if line.trusted() == self.trusted {
            Ok(())
        } else {
            Err(Broken::Trust)
        }
    }

    /// Whether what was pending was heard fairly.
    fn was_fair(&self) -> bool {
        match &self.sent {
            Some(sent) => is_fair(sent.kind, self.hearings.as_slice()),
            None => true,
        }
    }

    /// Checks that each channel of a trusted line is sound.
    fn see_soundness(&self) -> Result<(), Broken> {
        for channel in self.channels.iter() {
            let (terminal, way) = (channel.terminal, channel.way);
            let in_use = self.addressed == Some((terminal, way))
                && !self.aside.has(sender_of(terminal, way));
            if self.trusted && !is_sound(channel.seen.view, in_use) {
                return Err(Broken::NotSound);
            }
        }
        Ok(())
    }
}
