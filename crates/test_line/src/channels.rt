//! What a line shows of its channels, and whether they are sound.

ghost use Rattle.std.specs.Prelude.{◌<◌, IsTrue};
ghost use Rattle.bsc_line_model.specs.Line.{IsChannel, terminal_count};

use bsc_block::Records;
use bsc_control::Way;
use bsc_frame::{Message, Reply};
use bsc_line::{Line, LineError};
use std::alloc::Allocator;

/// Whether the line has this channel.
pub(crate) fn is_channel<A: Allocator>(line: &Line<A>, terminal: usize, way: Way) -> bool
    ensures { IsTrue result → IsChannel line.now terminal way }
{
    terminal < line.terminals()
        && match way {
            Way::FromTerminal => true,
            Way::ToTerminal(select) => select < line.addresses(terminal),
        }
}

/// Offers a record on a channel.
pub(crate) fn offer<A: Allocator>(
    line: &mut Line<A>,
    terminal: usize,
    way: Way,
    codes: &[u8],
) -> Result<(), LineError> {
    match way {
        Way::FromTerminal => line.offer_at(terminal, codes),
        Way::ToTerminal(select) => line.offer_for(terminal, select, codes),
    }
}

/// The number of records offered on a channel; 0 if the line has no such channel.
pub(crate) fn offered_count<A: Allocator>(line: &Line<A>, terminal: usize, way: Way) -> usize {
    if is_channel(line, terminal, way) {
        line.offered(terminal, way).len()
    } else {
        0
    }
}

/// Whether this many records were offered on a channel, arrived, and are known to have arrived,
/// without a doubt.
pub(crate) fn has_count<A: Allocator>(
    line: &Line<A>,
    terminal: usize,
    way: Way,
    count: usize,
) -> bool {
    is_channel(line, terminal, way)
        && line.offered(terminal, way).len() == count
        && line.spooled(terminal, way).len() == count
        && line.known(terminal, way) == count
        && !line.in_doubt(terminal, way)
}

/// Whether the receiver of a text or of a selection puts the sender off, with NAK or WACK.
pub(crate) fn is_put_off<A: Allocator>(line: &Line<A>) -> bool {
    match line.pending() {
        Some(sent) => matches!(&sent.message, Message::Reply(Reply::Nak | Reply::Wack)),
        None => false,
    }
}

/// Whether `first` are the first of `records`, in order.
fn is_front<A: Allocator>(first: &Records<A>, records: &Records<A>) -> bool {
    for place in 0..first.len() {
        if place >= records.len() || first.chars(place) != records.chars(place) {
            return false;
        }
    }
    true
}

/// Whether the records that arrived on a channel are the first of those that were offered, in order
/// and each record once, and include those that the sending end knows to have arrived.
fn is_sound<A: Allocator>(line: &Line<A>, terminal: usize, way: Way) -> bool
    requires { IsChannel line.now terminal way }
{
    let offered = line.offered(terminal, way);
    let spooled = line.spooled(terminal, way);
    line.known(terminal, way) <= spooled.len() && is_front(spooled, offered)
}

/// Whether all channels of a terminal are sound.
fn are_sound_at<A: Allocator>(line: &Line<A>, terminal: usize) -> bool
    requires { terminal < terminal_count line.now }
{
    for select in 0..line.addresses(terminal) {
        if !is_sound(line, terminal, Way::ToTerminal(select)) {
            return false;
        }
    }
    is_sound(line, terminal, Way::FromTerminal)
}

/// Whether all channels of a line are sound.
pub(crate) fn are_sound<A: Allocator>(line: &Line<A>) -> bool {
    for terminal in 0..line.terminals() {
        if !are_sound_at(line, terminal) {
            return false;
        }
    }
    true
}
