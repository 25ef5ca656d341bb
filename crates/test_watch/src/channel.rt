//! What a line shows of a channel.

ghost use Rattle.std.specs.Prelude.{IsTrue};
ghost use Rattle.bsc_line_model.specs.Line.{IsChannel};

use crate::records::EMPTY;
use bsc_bid::Speaker;
use bsc_block::Records;
use bsc_control::Way;
use bsc_frame::Address;
use bsc_line::Line;
use std::alloc::Allocator;

/// The numbers of records that were offered, that are known to have arrived, and that arrived; and
/// whether the sending end is in doubt.
#[derive(Clone, Copy, Default, PartialEq, Eq)]
pub struct View {
    pub offered: usize,
    pub known: usize,
    pub spooled: usize,
    pub in_doubt: bool,
}

/// What was last seen of a channel, and the digests of the records that were offered and of those
/// that arrived.
#[derive(Clone, Copy)]
pub(crate) struct Seen {
    pub(crate) view: View,
    pub(crate) offered: u64,
    pub(crate) spooled: u64,
}

/// A channel and its address.
#[derive(Drop)]
pub(crate) struct Channel {
    pub(crate) terminal: usize,
    pub(crate) way: Way,
    pub(crate) address: Address,
    pub(crate) seen: Seen,
}

impl Channel {
    /// A channel on which nothing has happened yet.
    pub(crate) fn new(terminal: usize, way: Way, address: Address) -> Channel {
        let seen = Seen {
            view: View::default(),
            offered: EMPTY,
            spooled: EMPTY,
        };
        Channel {
            terminal,
            way,
            address,
            seen,
        }
    }
}

/// What a line shows of a channel: the records that were offered, and those that arrived.
#[derive(Drop)]
pub struct Shown<'a, A: Allocator> {
    pub view: View,
    pub offered: &'a Records<A>,
    pub spooled: &'a Records<A>,
}

/// The station at the sending end of a channel.
pub(crate) fn sender_of(terminal: usize, way: Way) -> Speaker {
    match way {
        Way::FromTerminal => Speaker::Terminal { number: terminal },
        Way::ToTerminal(_) => Speaker::Control,
    }
}

/// Whether the line has this channel.
pub(crate) fn is_channel<A: Allocator>(line: &Line<A>, terminal: usize, way: Way) -> bool
    ensures { IsTrue result → IsChannel line.now terminal way }
{
    terminal < line.terminals()
        && match way {
            Way::FromTerminal => true,
            Way::ToTerminal(select) => select < line.addresses(terminal),
        }
}

/// What the line shows of a channel, or None if it has no such channel.
pub fn look<A: Allocator>(line: &Line<A>, terminal: usize, way: Way) -> Option<Shown<'_, A>> {
    if !is_channel(line, terminal, way) {
        return None;
    }
    let (offered, spooled) = (line.offered(terminal, way), line.spooled(terminal, way));
    let view = View {
        offered: offered.len(),
        known: line.known(terminal, way),
        spooled: spooled.len(),
        in_doubt: line.in_doubt(terminal, way),
    };
    Some(Shown {
        view,
        offered,
        spooled,
    })
}
