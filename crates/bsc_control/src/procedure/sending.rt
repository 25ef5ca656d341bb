//! What the station does on a transmission and on a silence during a bid to a selection address.

ghost use Rattle.std.specs.Prelude.{if◌then◌else◌, ◌≡◌, ◌<◌, length, Some};
ghost use Rattle.bsc_frame.specs.Replies.{reply_in};
ghost use Rattle.bsc_bid.specs.Sender.{reply_step};
ghost use Rattle.bsc_control.specs.CallOrder.{Selection, Interruption};
ghost use Rattle.bsc_control.specs.Control.{HasEntries, peer};
ghost use Rattle.bsc_control.specs.Kept.{IsSelected};
ghost use Rattle.bsc_control.specs.Peer.{outbound_at};
ghost use Rattle.bsc_control.specs.Table.{performed, bid_step, after_bid, selecting_step};
ghost use Rattle.bsc_control.specs.Table.{silence_in};

use crate::procedure::Procedure;
use crate::task::Task;
use bsc_bid::Outcome;
use bsc_frame::{Heard, MessageBuffer, Reply};
use std::alloc::Allocator;

impl<A: Allocator> Procedure<A> {
    /// Begins the bid: the selected terminal is ready.
    pub(crate) fn begin_bid(&mut self, select: usize, sent: &mut MessageBuffer)
        requires { IsSelected (peer self.old) select }
        ensures row { record { control = self.new; sent = sent.new }
            ≡ selecting_step self.old select (Some Reply.Ack0) }
        ensures entries { HasEntries self.new }
    {
        let terminal = self.current();
        let peer = &mut self.peers[terminal];
        let outbound = &mut peer.outbounds[select];
        let outcome = outbound.begin(sent);
        self.perform(outcome, select, false, sent);
    }

    /// Hears a transmission during a bid.
    pub(crate) fn hear_sending(
        &mut self,
        select: usize,
        heard: &Heard<'_>,
        sent: &mut MessageBuffer,
    )
        requires { select < length (peer self.old).outbounds }
        ensures row { record { control = self.new; sent = sent.new }
            ≡ bid_step self.old select
            (reply_step (outbound_at (peer self.old) select).sender
            (outbound_at (peer self.old) select).queue (reply_in heard.now))
            (after_bid select (reply_in heard.now)) }
        ensures entries { HasEntries self.new }
    {
        let interrupted = heard.reply() == Some(Reply::Rvi);
        let terminal = self.current();
        let peer = &mut self.peers[terminal];
        let outbound = &mut peer.outbounds[select];
        let outcome = outbound.reply(heard, sent);
        self.perform(outcome, select, interrupted, sent);
    }

    /// Acts on a silence during a bid.
    pub(crate) fn send_on(&mut self, select: usize, sent: &mut MessageBuffer)
        requires { select < length (peer self.old).outbounds }
        ensures row { record { control = self.new; sent = sent.new }
            ≡ silence_in self.old (Task.Sending select) }
        ensures entries { HasEntries self.new }
    {
        let terminal = self.current();
        let peer = &mut self.peers[terminal];
        let outbound = &mut peer.outbounds[select];
        let outcome = outbound.silence(sent);
        self.perform(outcome, select, false, sent);
    }

    /// Acts on the outcome of a step of the sender. The message that the sender left in `sent`
    /// stays, unless the bid is over: then the next call replaces it. `interrupted` says that RVI
    /// was heard.
    fn perform(
        &mut self,
        outcome: Outcome,
        select: usize,
        interrupted: bool,
        sent: &mut MessageBuffer,
    )
        requires { select < length (peer self.old).outbounds }
        ensures row { record { control = self.new; sent = sent.new }
            ≡ performed self.old select outcome sent.old
            (if interrupted then Interruption else Selection select) }
        ensures entries { HasEntries self.new }
    {
        // Reading a field makes the invariant known here.
        let _ = &self.task;
        match outcome {
            Outcome::Sends => self.task = Task::Sending { select },
            Outcome::Over if interrupted => self.call_after_interruption(sent),
            Outcome::Over => self.call_after_selection(select, sent),
            Outcome::Quiet => {}
        }
    }
}
