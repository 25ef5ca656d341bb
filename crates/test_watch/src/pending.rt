//! Whether a station may send what is pending.

use crate::broken::Broken;
use crate::channel::{Channel, look};
use crate::heard::{Kind, octets_of};
use crate::records::carried;
use bsc_bid::Speaker;
use bsc_control::Way;
use bsc_frame::{Address, Message, Text, Wire};
use bsc_line::Line;
use std::alloc::Allocator;

/// A transmission that has not been heard yet.
#[derive(Drop)]
pub(crate) struct Sent {
    pub(crate) speaker: Speaker,
    pub(crate) kind: Kind,
    pub(crate) octets: Wire,
}

/// The station that sent this.
pub(crate) fn speaker_of(sent: &Option<Sent>) -> Option<Speaker> {
    match sent {
        Some(sent) => Some(sent.speaker),
        None => None,
    }
}

/// Whether a station of this kind sends messages of this kind. The control station sends EOT only
/// as part of a call, and only it sends calls.
fn sends(speaker: Speaker, kind: Kind) -> bool {
    match speaker {
        Speaker::Control => kind != Kind::Eot,
        Speaker::Terminal { .. } => kind != Kind::Call,
    }
}

/// The channel with this address.
pub(crate) fn find<'a>(channels: &'a [Channel], address: &Address) -> Option<&'a Channel> {
    channels
        .iter()
        .find(|channel| channel.address.codes() == address.codes())
}

/// Whether the control station may call this address: a polling address of the line, or a selection
/// address for which records wait and that is not in doubt.
fn is_due(channels: &[Channel], address: &Address) -> bool {
    match find(channels, address) {
        None => false,
        Some(channel) => {
            let view = channel.seen.view;
            channel.way == Way::FromTerminal || (view.known < view.offered && !view.in_doubt)
        }
    }
}

/// Whether the text carries the next records of this channel, at least one.
fn carries_next<A: Allocator>(line: &Line<A>, terminal: usize, way: Way, text: &Text<'_>) -> bool {
    match look(line, terminal, way) {
        Some(shown) => {
            let count = carried(text, shown.offered, shown.view.known);
            matches!(count, Some(count) if count > 0)
        }
        None => false,
    }
}

/// Whether a text that this station sent carries the next records of its channel. The channel of a
/// text of the control station is the addressed one; if no channel is addressed, any text is
/// accepted unless the line is trusted.
fn is_next<A: Allocator>(
    line: &Line<A>,
    speaker: Speaker,
    addressed: Option<(usize, Way)>,
    text: &Text<'_>,
) -> bool {
    match (speaker, addressed) {
        (Speaker::Terminal { number }, _) => carries_next(line, number, Way::FromTerminal, text),
        (Speaker::Control, Some((_, Way::FromTerminal))) => false,
        (Speaker::Control, Some((terminal, way))) => carries_next(line, terminal, way, text),
        (Speaker::Control, None) => !line.trusted(),
    }
}

/// What is pending, or the rule that is broken if its sender may not send it: a call has to be to
/// an address that may be called, and a text has to carry the next records.
pub(crate) fn read_pending<A: Allocator>(
    line: &Line<A>,
    channels: &[Channel],
    addressed: Option<(usize, Way)>,
) -> Result<Option<Sent>, Broken> {
    let Some(pending) = line.pending() else {
        return Ok(None);
    };
    let (speaker, kind) = (pending.speaker, Kind::of(&pending.message));
    if !sends(speaker, kind) {
        return Err(Broken::Message);
    }
    match &pending.message {
        Message::Call(address) if !is_due(channels, address) => Err(Broken::Call),
        Message::Text(text) if !is_next(line, speaker, addressed, text) => Err(Broken::Text),
        message => Ok(Some(Sent {
            speaker,
            kind,
            octets: octets_of(message),
        })),
    }
}
