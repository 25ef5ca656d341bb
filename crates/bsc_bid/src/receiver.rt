//! The receiver of one bid.

ghost use Rattle.std.specs.Prelude.{◌≡◌, Some, true};
ghost use Rattle.bsc_bid.specs.Receiver.{ReceiverValue, Receives, new_receiver, first_reply};

use crate::alternation::Alternation;
use bsc_block::unpack;
use bsc_frame::{Heard, Message, Reply, Text};
use bsc_spool::Spool;
use std::alloc::Allocator;
use std::marker::Model;

/// The receiver of one bid: it stores the records of the texts that it takes, and replies
/// (GA27-3004, replies to text and to ENQ).
#[derive(Drop)]
pub struct Receiver {
    /// Whether the number of blocks taken in this bid is even or odd.
    alternation: Alternation,

    /// The last reply, which is sent again on ENQ.
    last: Reply,
}

impl Model for Receiver {
    ghost use Rattle.bsc_bid.specs.Receiver.{ReceiverValue};

    ghost Value = { ReceiverValue };

    ghost view = { λ r. record { alternation = r.alternation; last = r.last } };
}

impl Default for Receiver {
    ghost is_default = { λ r. r ≡ new_receiver true };

    fn default() -> Self {
        Receiver::new()
    }
}

impl Receiver {
    /// Returns a receiver in the state that [`Receiver::begin`] leaves if there is room.
    pub fn new() -> Self
        ensures { result ≡ new_receiver true }
    {
        Receiver {
            alternation: Alternation::Even,
            last: Reply::Ack0,
        }
    }

    /// Begins a bid and returns the first reply: ACK0, or WACK if there is no room for a block
    /// (GA27-3004, replies to a selection).
    pub fn begin(&mut self, room: bool) -> Reply
        ensures reply { result ≡ first_reply room }
        ensures state { self.new ≡ new_receiver room }
    {
        self.alternation = Alternation::Even;
        self.last = if room { Reply::Ack0 } else { Reply::Wack };
        self.last
    }

    /// Hears a transmission and returns the reply to it, or `None` if it is neither ENQ nor a text,
    /// whole or failed. A failed text is answered with NAK.
    ///
    /// With `urgent` a text that is taken is answered with RVI, but not twice in a row. RVI is the
    /// standard's; that a flag decides it is this project's own.
    ///
    /// The call may try to reserve memory. If that fails, only the reply changes: NAK if there is
    /// no room for this text, WACK if there would be none for the next one. (GA27-3004, replies to
    /// text and to ENQ.)
    pub fn heard<A: Allocator>(
        &mut self,
        heard: &Heard<'_>,
        urgent: bool,
        spool: &mut Spool<A>,
    ) -> Option<Reply>
        ensures { Receives self.old spool.old heard.now urgent
            (record { receiver = self.new; spool = spool.new; reply = result }) }
    {
        match heard {
            Heard::Whole(Message::Text(text)) => Some(self.take_text(text, urgent, spool)),
            Heard::Whole(Message::Enq) => Some(self.repeat(urgent, spool)),
            Heard::Failed => {
                self.last = Reply::Nak;
                Some(Reply::Nak)
            }
            _ => None,
        }
    }

    /// Takes a text if there is room for it, and returns the reply.
    fn take_text<A: Allocator>(
        &mut self,
        text: &Text<'_>,
        urgent: bool,
        spool: &mut Spool<A>,
    ) -> Reply
        ensures { Receives self.old spool.old (Heard.Whole (Message.Text text.now)) urgent
            (record { receiver = self.new; spool = spool.new; reply = Some result }) }
    {
        if !spool.make_room() {
            self.last = Reply::Nak;
            return Reply::Nak;
        }
        spool.store(&unpack(text));
        self.alternation = self.alternation.other();
        if urgent && self.last != Reply::Rvi {
            self.last = Reply::Rvi;
            return Reply::Rvi;
        }
        let reply = if spool.make_room() {
            self.alternation.ack()
        } else {
            Reply::Wack
        };
        self.last = reply;
        reply
    }

    /// Returns the last reply again; after WACK, the acknowledgement that it put off, if there is
    /// room now.
    fn repeat<A: Allocator>(&mut self, urgent: bool, spool: &mut Spool<A>) -> Reply
        ensures { Receives self.old spool.old (Heard.Whole Message.Enq) urgent
            (record { receiver = self.new; spool = spool.new; reply = Some result }) }
    {
        if self.last == Reply::Wack && spool.make_room() {
            self.last = self.alternation.ack();
        }
        self.last
    }
}
