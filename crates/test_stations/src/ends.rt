//! The two ends of a channel, as stations keep them, and the functions of a bid in the order of a
//! turn, so that the theorem about the turns of a bid applies to the tests. The preconditions of
//! the sender's functions are tested before each call.

ghost use Rattle.std.specs.Prelude.{◌≡◌, length, unwrap_or};
ghost use Rattle.bsc_frame.specs.declared.message.Heard.TheVariants.{Noise};
ghost use Rattle.bsc_spool.specs.Queue.{waiting};
ghost use Rattle.bsc_bid.specs.Act.{Quiet};
ghost use Rattle.bsc_bid.specs.Bid.{Bid, Turn, after_turn};
ghost use Rattle.bsc_bid.specs.Sender.{Tells};
ghost use Rattle.bsc_bid.specs.Ready.{CountsOn, IsGoing, IsReady};
ghost use Rattle.bsc_bid.specs.Receiver.{Rooms, rooms_left};

use bsc_bid::{Outcome, Receiver, ReleaseError, Sender, Setup};
use bsc_block::Record;
use bsc_frame::{Heard, Message, MessageBuffer, Reply};
use bsc_spool::{Queue, Spool};
use std::alloc::Allocator;
use std::marker::Model;

/// What the two ends hear in one exchange.
#[derive(Drop)]
struct Hearings<'a> {
    /// What the receiver hears of the sender's transmission; None if it is lost.
    there: Option<Heard<'a>>,

    /// Whether the receiver asks for the line.
    urgent: bool,

    /// What the sender hears of the reply; None if it is lost.
    back: Option<Heard<'a>>,
}

/// A turn in which the ends hear this.
fn turn<A: Allocator>(
    sender: &mut Sender,
    queue: &mut Queue<A>,
    receiver: &mut Receiver,
    spool: &mut Spool<A>,
    hearings: &Hearings<'_>,
    sent: &mut MessageBuffer,
) -> Outcome
    requires { IsGoing sender.old.phase → CountsOn sender.old.phase (length (waiting queue.old)) }
    ensures law { let heard = unwrap_or hearings.now.there Noise in
        let rooms : Rooms = rooms_left heard receiver.new.last spool.new in
        let t : Turn = record {
          heard = hearings.now.there;
          urgent = hearings.now.urgent;
          rooms = rooms;
          answer = hearings.now.back;
        } in
        let old : Bid = record {
          sender = sender.old;
          queue = queue.old;
          receiver = receiver.old;
          spool = spool.old;
          act = Quiet;
        } in
        let new : Bid = after_turn old t in
        Tells sender.new queue.new result sent.new
        (record { sender = new.sender; queue = new.queue; act = new.act })
        × (receiver.new ≡ new.receiver) × (spool.new ≡ new.spool) }
    ensures ready { IsReady sender.old queue.old → IsReady sender.new queue.new }
{
    let reply = match &hearings.there {
        Some(heard) => receiver.heard(heard, hearings.urgent, spool),
        None => None,
    };
    let outcome = match (reply, &hearings.back) {
        (Some(_), Some(answer)) => sender.reply(answer, queue, sent),
        _ => Outcome::Quiet,
    };
    match outcome {
        Outcome::Quiet => sender.silence(sent),
        Outcome::Sends | Outcome::Over => outcome,
    }
}

/// What both ends hear if the sender's transmission arrives, fails its check (`fails`) or is lost
/// (`lost`), and the sender hears this reply.
fn heard_at_both<'a>(sent: Option<Message<'a>>, fate: &str, reply: Option<Reply>) -> Hearings<'a> {
    Hearings {
        there: match fate {
            "lost" => None,
            "fails" => Some(Heard::Failed),
            _ => sent.map(Heard::Whole),
        },
        urgent: false,
        back: match reply {
            Some(reply) => Some(Heard::Whole(Message::Reply(reply))),
            None => None,
        },
    }
}

/// A sender with its queue, and a receiver with its spool.
#[derive(Drop)]
pub(crate) struct Ends<A: Allocator> {
    /// The sender of the bids.
    sender: Sender,

    /// The records that it sends.
    queue: Queue<A>,

    /// Whether a bid is in progress.
    going: bool,

    /// What the sender sent last.
    pub(crate) sent: MessageBuffer,

    /// The receiver of the bids.
    receiver: Receiver,

    /// The records that arrived.
    spool: Spool<A>,
}

impl<A: Allocator> Model for Ends<A> {
    ghost use Rattle.std.specs.Prelude.{◌≡◌, false};
    ghost use Rattle.bsc_spool.specs.Queue.{QueueValue};
    ghost use Rattle.bsc_bid.specs.Sender.{SenderValue};
    ghost use Rattle.bsc_bid.specs.Ready.{IsReady, IsAtRest};

    ghost Value = { SenderValue × QueueValue };

    ghost view = { λ b. (b.sender, b.queue) };

    ghost invariant = { λ b. IsReady b.sender b.queue × (b.going ≡ false
        → IsAtRest b.sender.phase) };
}

impl<A: Allocator + Copy> Ends<A> {
    /// The ends of a channel without records, whose receiver has room.
    pub(crate) fn new(alloc: A, setup: Setup) -> Self {
        let mut receiver = Receiver::default();
        receiver.begin(true);
        Ends {
            sender: Sender::new(setup),
            queue: Queue::new(alloc, setup.format()),
            going: false,
            sent: MessageBuffer::new(),
            receiver,
            spool: Spool::new(alloc),
        }
    }
}

impl<A: Allocator> Ends<A> {
    /// Offers an empty record, and returns whether it was accepted.
    #[tactic(auto, using(bsc_bid::proofs::Offers::counts_offered))]
    pub(crate) fn offer(&mut self) -> bool {
        let Ok(record) = Record::read(&[], 1) else {
            return false;
        };
        let taken = self.queue.offer(record).is_ok();
        self.queue.known();
        taken
    }

    /// Begins a bid; None unless records wait and there is neither a bid nor a doubt.
    pub(crate) fn begin(&mut self) -> Option<Outcome> {
        if self.going || self.sender.in_doubt() || !self.queue.has_waiting() {
            return None;
        }
        self.going = true;
        Some(self.sender.begin(&self.queue, &mut self.sent))
    }

    /// The sender hears this reply, or nothing until a time-out if it is None.
    pub(crate) fn hear(&mut self, reply: Option<Reply>) -> Outcome {
        let outcome = match reply {
            Some(reply) => {
                let heard = Heard::Whole(Message::Reply(reply));
                self.sender.reply(&heard, &mut self.queue, &mut self.sent)
            }
            None => self.sender.silence(&mut self.sent),
        };
        match outcome {
            Outcome::Over => self.going = false,
            Outcome::Sends => self.going = true,
            Outcome::Quiet => {}
        }
        outcome
    }

    /// The reply of the receiver to what the sender sent last.
    pub(crate) fn arrive(&mut self) -> Option<Reply> {
        let heard = Heard::Whole(self.sent.message()?);
        let reply = self.receiver.heard(&heard, false, &mut self.spool);
        self.sent.clear();
        reply
    }

    /// A turn in which what the sender sent last meets this fate, and the sender hears this reply.
    pub(crate) fn turn(&mut self, fate: &str, reply: Option<Reply>) -> Outcome {
        self.going = true;
        let mut sent = MessageBuffer::new();
        let outcome = turn(
            &mut self.sender,
            &mut self.queue,
            &mut self.receiver,
            &mut self.spool,
            &heard_at_both(self.sent.message(), fate, reply),
            &mut sent,
        );
        self.sent = sent;
        outcome
    }

    /// The line is taken from the sender.
    pub(crate) fn cut_off(&mut self) {
        self.sender.cut_off();
        self.going = false;
    }

    /// Ends the doubt of the sender, with this count of records at the other end.
    pub(crate) fn release(&mut self, count: usize) -> Result<(), ReleaseError> {
        self.sender.release(count, &mut self.queue)
    }

    /// The number of records known to have arrived, the number that arrived, and whether the sender
    /// is in doubt.
    pub(crate) fn standing(&self) -> (usize, usize, bool) {
        (
            self.queue.known(),
            self.spool.records().len(),
            self.sender.in_doubt(),
        )
    }
}
