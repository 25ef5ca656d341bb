//! The calls of the control station, in their order.

ghost use Rattle.std.specs.Prelude.{◌≡◌, ◌≤◌, ◌<◌, length, position, slice_index, slice_index_or};
ghost use Rattle.bsc_control.specs.CallOrder.{Start, Selection, Interruption, Poll, way_from};
ghost use Rattle.bsc_control.specs.CallOrder.{IsWithin, passed_over, place_further};
ghost use Rattle.bsc_control.specs.Control.{HasEntries, peer, peer_at};
ghost use Rattle.bsc_control.specs.Peer.{no_peer};
ghost use Rattle.bsc_control.specs.Table.{poll_call_step, selection_call_step, way_call_step};
ghost use Rattle.bsc_control.specs.Table.{next_call_step, call_past_step, rest_step};

use crate::peer::Peer;
use crate::procedure::Procedure;
use crate::task::{Replied, Task};
use bsc_bid::Way;
use bsc_frame::MessageBuffer;
use std::alloc::Allocator;

impl<A: Allocator> Procedure<A> {
    /// Calls the polling address of an entry, with this count of failures. As in each function of
    /// this module, the call is left in `sent`.
    pub(crate) fn poll(&mut self, place: usize, failures: u8, sent: &mut MessageBuffer)
        requires { place < length self.old.poll_list }
        ensures row { record { control = self.new; sent = sent.new }
            ≡ poll_call_step self.old place failures }
        ensures entries { HasEntries self.new }
    {
        let terminal = self.terminal_of(place);
        self.place = place;
        self.task = Task::Polling {
            replied: Replied::Nothing,
        };
        self.failures = failures;
        self.wacks = 0;
        let peer = &mut self.peers[terminal];
        peer.receiver.begin(true);
        sent.set_call(peer.terminal.poll());
    }

    /// Calls a selection address of an entry, with the counters at 0. This clears the urgent flag
    /// of the terminal.
    fn select(&mut self, place: usize, select: usize, sent: &mut MessageBuffer)
        requires place { place < length self.old.poll_list }
        requires select { select
            < length (peer_at self.old (slice_index self.old.poll_list place)).outbounds }
        ensures row { record { control = self.new; sent = sent.new }
            ≡ selection_call_step self.old place select }
        ensures entries { HasEntries self.new }
    {
        let terminal = self.terminal_of(place);
        self.place = place;
        self.task = Task::Selecting {
            select,
            enquired: false,
        };
        self.failures = 0;
        self.wacks = 0;
        let peer = &mut self.peers[terminal];
        peer.urgent = false;
        sent.set_call(peer.terminal.select(select));
    }

    /// Calls the address of this way of an entry, with the counters at 0.
    fn call(&mut self, place: usize, way: Way, sent: &mut MessageBuffer)
        requires place { place < length self.old.poll_list }
        requires way { IsWithin way
            (length (peer_at self.old (slice_index self.old.poll_list place)).outbounds) }
        ensures row { record { control = self.new; sent = sent.new }
            ≡ way_call_step self.old place way }
        ensures entries { HasEntries self.new }
    {
        match way {
            Way::FromTerminal => self.poll(place, 0, sent),
            Way::ToTerminal(select) => self.select(place, select, sent),
        }
    }

    /// Returns the way of the first call of an entry, starting from this selection address.
    fn way_from(&self, place: usize, from: usize) -> Way
        requires place { place < length self.now.poll_list }
        requires from { from
            ≤ length (peer_at self.now (slice_index self.now.poll_list place)).outbounds }
        ensures value { result
            ≡ way_from (peer_at self.now (slice_index self.now.poll_list place)) from }
        ensures within { IsWithin result
            (length (peer_at self.now (slice_index self.now.poll_list place)).outbounds) }
    {
        let terminal = self.terminal_of(place);
        let peer = &self.peers[terminal];
        peer.way_from(from)
    }

    /// Returns how many entries are passed over from this one on, up to the first whose terminal is
    /// polled, or `None` if no terminal in the poll list is polled.
    fn passed_over(&self, place: usize) -> Option<usize>
        requires { place < length self.now.poll_list }
        ensures { result ≡ passed_over self.now place }
    {
        let (before, after) = self.poll_list.as_slice().split_at(place);
        match first_polled(&self.peers, after) {
            Some(more) => Some(more),
            None => Some(after.len() + first_polled(&self.peers, before)?),
        }
    }

    /// Returns the place this many entries further on in the poll list, read cyclically.
    fn place_further(&self, place: usize, more: usize) -> usize
        requires place { place < length self.now.poll_list }
        requires more { more < length self.now.poll_list }
        ensures value { result ≡ place_further (length self.now.poll_list) place more }
        ensures within { result < length self.now.poll_list }
    {
        let count = self.poll_list.len();
        if place + more < count {
            place + more
        } else {
            place + more - count
        }
    }

    /// Makes the call that is due, by this way of an entry. If the terminal of the entry is not
    /// polled, it makes the first call of the next entry whose terminal is; if there is none, the
    /// station is at rest.
    fn call_due(&mut self, place: usize, way: Way, sent: &mut MessageBuffer)
        requires place { place < length self.old.poll_list }
        requires way { IsWithin way
            (length (peer_at self.old (slice_index self.old.poll_list place)).outbounds) }
        ensures row { record { control = self.new; sent = sent.new }
            ≡ call_past_step self.old (record { place = place; way = way })
            (passed_over self.old place) }
        ensures entries { HasEntries self.new }
    {
        match self.passed_over(place) {
            Some(0) => self.call(place, way, sent),
            Some(more) => {
                let place = self.place_further(place, more);
                self.call(place, self.way_from(place, 0), sent);
            }
            None => self.rest(sent),
        }
    }

    /// Comes to rest, with the counters at 0; nothing is sent.
    fn rest(&mut self, sent: &mut MessageBuffer)
        ensures row { record { control = self.new; sent = sent.new } ≡ rest_step self.old }
        ensures entries { HasEntries self.new }
    {
        self.task = Task::AtRest;
        self.failures = 0;
        self.wacks = 0;
        sent.clear();
    }

    /// Makes the first call of the present entry.
    pub(crate) fn call_first(&mut self, sent: &mut MessageBuffer)
        ensures row { record { control = self.new; sent = sent.new }
            ≡ next_call_step self.old Start }
        ensures entries { HasEntries self.new }
    {
        let way = self.way_from(self.place, 0);
        self.call_due(self.place, way, sent);
    }

    /// Makes the call after a selection, or after the bid that it led to.
    pub(crate) fn call_after_selection(&mut self, select: usize, sent: &mut MessageBuffer)
        requires { select < length (peer self.old).outbounds }
        ensures row { record { control = self.new; sent = sent.new }
            ≡ next_call_step self.old (Selection select) }
        ensures entries { HasEntries self.new }
    {
        let way = self.way_from(self.place, select + 1);
        self.call_due(self.place, way, sent);
    }

    /// Makes the call after a bid that was interrupted: the poll of the same entry.
    pub(crate) fn call_after_interruption(&mut self, sent: &mut MessageBuffer)
        ensures row { record { control = self.new; sent = sent.new }
            ≡ next_call_step self.old Interruption }
        ensures entries { HasEntries self.new }
    {
        self.call_due(self.place, Way::FromTerminal, sent);
    }

    /// Makes the call after a poll: that of the same entry if the poll was interrupted, else that
    /// of the next entry.
    pub(crate) fn call_after_poll(&mut self, interrupted: bool, sent: &mut MessageBuffer)
        ensures row { record { control = self.new; sent = sent.new }
            ≡ next_call_step self.old (Poll interrupted) }
        ensures entries { HasEntries self.new }
    {
        let place = if interrupted {
            self.place
        } else if self.place + 1 == self.poll_list.len() {
            0
        } else {
            self.place + 1
        };
        let way = self.way_from(place, 0);
        self.call_due(place, way, sent);
    }
}

/// Returns the index of the first of these terminals that is polled.
fn first_polled<A: Allocator>(peers: &[Peer<A>], terminals: &[u8]) -> Option<usize>
    ensures { result ≡ position (λ t. (slice_index_or peers.now t no_peer).polled) terminals.now }
{
    terminals.iter().position(
        |terminal| -> bool
            ensures { result ≡ (slice_index_or peers.entry.now terminal.now no_peer).polled }
        {
            match peers.get(usize::from(*terminal)) {
                Some(peer) => peer.polled,
                None => true,
            }
        },
    )
}
