//! The sending side of one selection address: its records, and the sender of their bids.

ghost use Rattle.std.specs.Prelude.{◌≡◌, ◌≤◌, ◌++◌, [], ◌∷◌, length, OnOk, OnErr, IfErr};
ghost use Rattle.bsc_spool.specs.Queue.{waiting};
ghost use Rattle.bsc_bid.specs.declared.phase.Phase.TheVariants.{Idle};
ghost use Rattle.bsc_bid.specs.Act.{message_for, outcome_of};
ghost use Rattle.bsc_frame.specs.Replies.{reply_in};
ghost use Rattle.bsc_bid.specs.Sender.{begin_step, reply_step, silence_step, release_step};
ghost use Rattle.bsc_control.specs.Peer.{OutboundValue, IsOutbound, outbound_after, new_outbound};
ghost use Rattle.bsc_control.specs.Peer.{outbound_released, restarted_outbound, is_selectable};
ghost use Rattle.bsc_control.specs.Peer.{sent_forgotten};
ghost use Rattle.bsc_bid.specs.Ready.{IsAtRest};
ghost use Rattle.bsc_bid.specs.Stored.{FitsOffered};
ghost use Rattle.bsc_control.specs.Stored.{kept_of_side, outbound_recalled, outbound_answer};

use bsc_bid::{KeptSender, Outcome, RecallError, ReleaseError, Sender, Setup};
use bsc_block::Record;
use bsc_frame::{Heard, MessageBuffer};
use bsc_spool::Queue;
use bsc_spool::laws::next_blocks;
use std::alloc::Allocator;
use std::marker::Model;

/// The records for one selection address, and the sender of their bids.
#[derive(Drop)]
pub(crate) struct Outbound<A: Allocator> {
    /// The sender of the bids to the address.
    pub(crate) sender: Sender,

    /// The records that were offered for the address.
    pub(crate) queue: Queue<A>,
}

impl<A: Allocator> Model for Outbound<A> {
    ghost use Rattle.bsc_bid.specs.Ready.{IsReady};
    ghost use Rattle.bsc_control.specs.Peer.{OutboundValue};

    ghost Value = { OutboundValue };

    ghost view = { λ o. record { sender = o.sender; queue = o.queue } };

    ghost invariant = { λ o. IsReady o.sender o.queue };
}

impl<A: Allocator> Outbound<A> {
    /// Returns a sending side without records and without a bid. It allocates nothing.
    pub(crate) fn new(alloc: A, setup: Setup) -> Self
    where
        A: Copy,
        ensures value { result ≡ new_outbound setup }
        ensures outbound { IsOutbound result }
    {
        Outbound {
            sender: Sender::new(setup),
            queue: Queue::new(alloc, setup.format()),
        }
    }

    /// Whether records wait and the sender is not in doubt.
    pub(crate) fn is_selectable(&self) -> bool
        ensures { result ≡ is_selectable self.now }
    {
        !self.sender.in_doubt() && self.queue.has_waiting()
    }

    /// Begins a bid: the sender takes the first block, and its text is left in `sent`.
    pub(crate) fn begin(&mut self, sent: &mut MessageBuffer) -> Outcome
        requires idle { self.old.sender.phase ≡ Idle }
        requires some { 1 ≤ length (waiting self.old.queue) }
        ensures state { self.new ≡ outbound_after (begin_step self.old.sender self.old.queue) }
        ensures outcome { result
            ≡ outcome_of (begin_step self.old.sender self.old.queue).act }
        ensures sent { sent.new
            ≡ message_for (begin_step self.old.sender self.old.queue).act }
        ensures outbound { IsOutbound self.new }
    {
        self.sender.begin(&self.queue, sent)
    }

    /// Hears a transmission during a bid, and leaves the message to send, or `None`, in `sent`.
    pub(crate) fn reply(&mut self, heard: &Heard<'_>, sent: &mut MessageBuffer) -> Outcome
        ensures state { self.new
            ≡ outbound_after (reply_step self.old.sender self.old.queue (reply_in heard.now)) }
        ensures outcome { result ≡ outcome_of
            (reply_step self.old.sender self.old.queue (reply_in heard.now)).act }
        ensures sent { sent.new ≡ message_for
            (reply_step self.old.sender self.old.queue (reply_in heard.now)).act }
        ensures outbound { IsOutbound self.new }
    {
        self.sender.reply(heard, &mut self.queue, sent)
    }

    /// Acts on a silence during a bid, and leaves the message to send, or `None`, in `sent`.
    pub(crate) fn silence(&mut self, sent: &mut MessageBuffer) -> Outcome
        ensures state { self.new ≡ outbound_after (silence_step self.old.sender self.old.queue) }
        ensures outcome { result
            ≡ outcome_of (silence_step self.old.sender self.old.queue).act }
        ensures sent { sent.new
            ≡ message_for (silence_step self.old.sender self.old.queue).act }
        ensures outbound { IsOutbound self.new }
    {
        self.sender.silence(sent)
    }

    /// Adds a record that is not longer than the full length. If there is no memory for the record,
    /// it is given back and nothing changes.
    pub(crate) fn offer(&mut self, record: Record) -> Result<(), Record>
        requires { length «record» ≤ self.old.queue.format.full }
        ensures ok { OnOk result (self.new
            ≡ record self.old {
              queue =
                  record self.old.queue { offered = self.old.queue.offered ++ «record» ∷ [] };
            }) }
        ensures err { OnErr result (self.new ≡ self.old) }
        ensures given_back { IfErr result (λ r. r ≡ «record») }
        ensures outbound { IsOutbound self.new }
    {
        self.queue.offer(record)
    }

    /// Forgets the first records, this many, at most as many as are known to have arrived.
    pub(crate) fn forget(&mut self, count: usize)
        requires { count ≤ self.old.queue.known }
        ensures state { self.new ≡ sent_forgotten self.old count }
        ensures waits { waiting self.new.queue ≡ waiting self.old.queue }
        ensures outbound { IsOutbound self.new }
    {
        // That the same records wait as before is a law of queues.
        next_blocks();
        self.queue.forget(count);
    }

    /// Ends the doubt: the other end has `count` records.
    pub(crate) fn release(&mut self, count: usize) -> Result<(), ReleaseError>
        ensures state { self.new ≡ outbound_released self.old count }
        ensures answer { result ≡ (release_step self.old.sender self.old.queue count).answer }
        ensures outbound { IsOutbound self.new }
    {
        self.sender.release(count, &mut self.queue)
    }

    /// Returns what is to be kept, beside the records.
    pub(crate) fn kept(&self) -> KeptSender
        ensures value { result ≡ kept_of_side self.now }
        ensures fits { FitsOffered result (length self.now.queue.offered) }
    {
        self.sender.kept(&self.queue)
    }

    /// Recalls what was kept, or refuses it.
    pub(crate) fn recall(&mut self, kept: KeptSender) -> Result<(), RecallError>
        ensures state { self.new ≡ outbound_recalled self.old kept }
        ensures answer { result ≡ outbound_answer self.old kept }
        ensures rests { IsAtRest self.old.sender.phase → IsAtRest self.new.sender.phase }
        ensures setup { self.new.sender.setup ≡ self.old.sender.setup }
        ensures format { self.new.queue.format ≡ self.old.queue.format }
        ensures outbound { IsOutbound self.new }
    {
        self.sender.recall(kept, &mut self.queue)
    }

    /// Begins again: no bid is in progress, and an unanswered block is in doubt.
    pub(crate) fn restart(&mut self)
        ensures { self.new ≡ restarted_outbound self.old }
    {
        self.sender.restart();
    }
}
