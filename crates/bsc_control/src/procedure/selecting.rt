//! What the station does on a transmission and on a silence while it selects.

ghost use Rattle.std.specs.Prelude.{◌≡◌, ◌<◌, length, Some};
ghost use Rattle.bsc_frame.specs.Replies.{reply_in};
ghost use Rattle.bsc_control.specs.Control.{HasEntries, peer};
ghost use Rattle.bsc_control.specs.Kept.{IsSelected};
ghost use Rattle.bsc_control.specs.Table.{selecting_step, silence_in};

use crate::procedure::Procedure;
use crate::task::Task;
use bsc_frame::{Heard, MessageBuffer, Reply};
use std::alloc::Allocator;

impl<A: Allocator> Procedure<A> {
    /// Hears a transmission after a selection: ACK0 begins the bid, NAK leads to the next call,
    /// WACK is followed by ENQ, and anything else changes nothing.
    pub(crate) fn hear_selecting(
        &mut self,
        select: usize,
        heard: &Heard<'_>,
        sent: &mut MessageBuffer,
    )
        requires { IsSelected (peer self.old) select }
        ensures row { record { control = self.new; sent = sent.new }
            ≡ selecting_step self.old select (reply_in heard.now) }
        ensures entries { HasEntries self.new }
    {
        // Reading a field makes the invariant known here.
        let _ = &self.task;
        match heard.reply() {
            Some(Reply::Ack0) => self.begin_bid(select, sent),
            Some(Reply::Nak) => self.call_after_selection(select, sent),
            Some(Reply::Wack) => self.enquire(select, sent),
            _ => sent.clear(),
        }
    }

    /// Hears WACK: the selected terminal has no room yet. ENQ is sent, or the next call is made
    /// once the limit of WACKs is reached.
    fn enquire(&mut self, select: usize, sent: &mut MessageBuffer)
        requires { select < length (peer self.old).outbounds }
        ensures row { record { control = self.new; sent = sent.new }
            ≡ selecting_step self.old select (Some Reply.Wack) }
        ensures entries { HasEntries self.new }
    {
        if self.wacks >= self.setup.waits() {
            return self.call_after_selection(select, sent);
        }
        self.task = Task::Selecting {
            select,
            enquired: true,
        };
        self.failures = 0;
        self.wacks += 1;
        sent.set_enq();
    }

    /// Acts on a silence after a selection: the call, or ENQ if ENQ was sent last, is sent again
    /// while a try is left, else the next call is made.
    pub(crate) fn fail_selection(&mut self, select: usize, enquired: bool, sent: &mut MessageBuffer)
        requires { select < length (peer self.old).outbounds }
        ensures row { record { control = self.new; sent = sent.new }
            ≡ silence_in self.old (Task.Selecting select enquired) }
        ensures entries { HasEntries self.new }
    {
        if self.failures >= self.setup.tries() {
            return self.call_after_selection(select, sent);
        }
        self.failures += 1;
        if enquired {
            sent.set_enq();
            return;
        }
        let terminal = self.current();
        let peer = &self.peers[terminal];
        sent.set_call(peer.terminal.select(select));
    }
}
