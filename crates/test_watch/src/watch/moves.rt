//! How the channels of a line may change.

use crate::broken::Broken;
use crate::channel::{Channel, Seen, Shown, View, look};
use crate::records::{EMPTY, are_all, begins, is_text_of, with_records};
use crate::step::{Effect, allowed, check, moved, steps};
use crate::watch::LineWatch;
use bsc_control::Way;
use bsc_line::{Event, Line};
use std::alloc::Allocator;

/// The codes of the record that the event offers.
fn codes_of<'a>(event: &Event<'a>) -> &'a [u8] {
    match *event {
        Event::OfferAt { codes, .. } => codes,
        Event::OfferFor { codes, .. } => codes,
        _ => &[],
    }
}

impl LineWatch {
    /// Checks that each channel did only what the event may do to it, and that no two channels
    /// changed at an event that may change only one: several may only if the control station sent,
    /// the line is not trusted, and the terminals have not always heard the same octets, and then
    /// one of each terminal.
    pub(crate) fn see_channels<A: Allocator>(
        &mut self,
        line: &Line<A>,
        event: &Event<'_>,
        effect: Effect,
    ) -> Result<(), Broken> {
        let several = effect == Effect::Down && !self.trusted && !self.alike;
        let mut last = None;
        for place in 0..self.channels.len() {
            let Some(channel) = self.channels.get(place) else {
                return Ok(());
            };
            let (terminal, before) = (channel.terminal, channel.seen.view);
            let after = self.see_channel(line, event, effect, channel)?;
            if moved(before, after.view) {
                self.tally.count_move(before, after.view);
                if last.is_some() && (!several || last == Some(terminal)) {
                    return Err(Broken::TwoMoved);
                }
                last = Some(terminal);
            }
            if let Some(channel) = self.channels.get_mut(place) {
                channel.seen = after;
            }
        }
        Ok(())
    }

    /// Checks that this channel did only what the event may do to it, and returns what is seen of
    /// it after the event.
    fn see_channel<A: Allocator>(
        &self,
        line: &Line<A>,
        event: &Event<'_>,
        effect: Effect,
        channel: &Channel,
    ) -> Result<Seen, Broken> {
        let (terminal, way, seen) = (channel.terminal, channel.way, channel.seen);
        let Some(shown) = look(line, terminal, way) else {
            return Err(Broken::Channel);
        };
        let hearings = self.hearings.as_slice();
        let may = allowed(effect, hearings, &self.aside, terminal, way);
        check(seen.view, shown.view, may)?;
        if shown.view == seen.view {
            return Ok(seen);
        }
        self.see_records(event, channel, &shown)?;
        self.see_addressed_only(effect, channel, shown.view)?;
        Ok(Seen {
            view: shown.view,
            offered: with_records(seen.offered, shown.offered, seen.view.offered),
            spooled: with_records(seen.spooled, shown.spooled, seen.view.spooled),
        })
    }

    /// Checks that the records offered on a channel since it was last seen are the record of the
    /// event, and that the records that arrived are those of the text that was heard there, and on
    /// a trusted line those that were offered at the same places.
    fn see_records<A: Allocator>(
        &self,
        event: &Event<'_>,
        channel: &Channel,
        shown: &Shown<'_, A>,
    ) -> Result<(), Broken> {
        let from = channel.seen.view.spooled;
        if !are_all(shown.offered, channel.seen.view.offered, codes_of(event)) {
            return Err(Broken::Offered);
        }
        if shown.spooled.len() <= from {
            return Ok(());
        }
        let text = self.octets_heard(event, channel.terminal);
        if !is_text_of(text, shown.spooled, from) {
            return Err(Broken::Spooled);
        }
        if self.trusted && !begins(shown.spooled, shown.offered, from) {
            return Err(Broken::OtherRecords);
        }
        Ok(())
    }

    /// The octets that the terminal of this number hears at an event, or that the control station
    /// hears; the number matters only if each terminal hears its own octets.
    pub(crate) fn octets_heard<'a>(&'a self, event: &Event<'a>, terminal: usize) -> &'a [u8] {
        match *event {
            Event::Carry {
                heard: Some(octets),
            } => octets,
            Event::CarrySent => match &self.sent {
                Some(sent) => sent.octets.as_slice(),
                None => &[],
            },
            Event::CarryEach { heard } => match heard.get(terminal) {
                Some(Some(octets)) => octets,
                _ => &[],
            },
            _ => &[],
        }
    }

    /// Checks that, on a trusted line, only the addressed channel changed; and that a terminal
    /// received records only if it is addressed, provided that all terminals have always heard the
    /// same octets.
    fn see_addressed_only(
        &self,
        effect: Effect,
        channel: &Channel,
        after: View,
    ) -> Result<(), Broken> {
        let before = channel.seen.view;
        let addressed = self.addressed == Some((channel.terminal, channel.way));
        let landed = after.spooled != before.spooled;
        if self.alike && landed && !addressed && channel.way != Way::FromTerminal {
            return Err(Broken::NotAddressed);
        }
        let is_release = matches!(effect, Effect::Released(..));
        if !self.trusted || is_release || !moved(before, after) {
            return Ok(());
        }
        if !addressed {
            return Err(Broken::NotAddressed);
        }
        if steps(before, after) {
            Ok(())
        } else {
            Err(Broken::NotSound)
        }
    }

    /// Compares all records of the line with those that were seen event by event, and, if the line
    /// is trusted, the records that arrived with those that were offered. For each channel the
    /// errors come in this order: `Channel` if the line has no such channel, `Offered` or `Spooled`
    /// if the records differ from those that were seen, `OtherRecords` if the line is trusted and
    /// records arrived that are not the first of those offered.
    pub fn see_all<A: Allocator>(&self, line: &Line<A>) -> Result<(), Broken> {
        for channel in self.channels.iter() {
            let Some(shown) = look(line, channel.terminal, channel.way) else {
                return Err(Broken::Channel);
            };
            see_whole(&channel.seen, &shown, self.trusted)?;
        }
        Ok(())
    }
}

/// Compares all records of a channel.
fn see_whole<A: Allocator>(seen: &Seen, shown: &Shown<'_, A>, trusted: bool) -> Result<(), Broken> {
    if with_records(EMPTY, shown.offered, 0) != seen.offered {
        return Err(Broken::Offered);
    }
    if with_records(EMPTY, shown.spooled, 0) != seen.spooled {
        return Err(Broken::Spooled);
    }
    if trusted && !begins(shown.spooled, shown.offered, 0) {
        return Err(Broken::OtherRecords);
    }
    Ok(())
}
