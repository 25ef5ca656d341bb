//! The sender of one bid.

ghost use Rattle.std.specs.Prelude.{◌≡◌, ◌+◌, ◌<◌, ◌≤◌, true, false, nat_lt, length, OnOk, OnErr};
ghost use Rattle.std.specs.Prelude.{None};
ghost use Rattle.std.specs.Prelude.{IsTrue};
ghost use Rattle.bsc_spool.specs.Queue.{QueueValue, IsQueue, waiting, next_block};
ghost use Rattle.bsc_bid.specs.Ready.{AreWaiting, CountsOn, IsReady, IsGoing, IsAtRest};
ghost use Rattle.bsc_bid.specs.Ready.{FitsOutcome};
ghost use Rattle.bsc_frame.specs.Replies.{reply_in};
ghost use Rattle.bsc_bid.specs.Act.{Enq};
ghost use Rattle.bsc_bid.specs.Sender.{with_phase, with_counts, begin_step, sent_next, accepted};
ghost use Rattle.bsc_bid.specs.Sender.{Tells};
ghost use Rattle.bsc_bid.specs.Sender.{failed, delayed, unanswered_step, held_step, reply_step};
ghost use Rattle.bsc_bid.specs.Sender.{silence_step, cut_phase, restarted_sender, is_in_doubt};
ghost use Rattle.bsc_bid.specs.Sender.{release_step};
ghost use Rattle.bsc_bid.specs.Stored.{HasDoubt, FitsOffered, kept_of, recall_step, fits_doubt};

use crate::alternation::Alternation;
use crate::answer::Answer;
use crate::kept::{KeptSender, RecallError};
use crate::outcome::Outcome;
use crate::phase::{Phase, SentBlock};
use crate::setup::Setup;
use bsc_frame::limits::MAX_UNITS;
use bsc_frame::{End, Heard, MessageBuffer};
use bsc_spool::Queue;
use std::alloc::Allocator;
use std::marker::Model;
use thiserror::Error;

/// The sender of one bid: it sends the waiting records of a queue, block by block, and marks in the
/// queue which records are known to have arrived (GA27-3004, acknowledgements and time-outs). Its
/// limits and the doubt about a block are this project's own.
#[derive(Drop)]
pub struct Sender {
    /// The limits of the counters, and how records become blocks.
    setup: Setup,

    /// How far the sender is with its bid. An unanswered or doubtful block has 1 to 7 records.
    phase: Phase,

    /// The failures in a row.
    failures: u8,

    /// The WACKs since the last acknowledgement. With a limit of 255 the bid is over at 256.
    wacks: u16,
}

impl Model for Sender {
    ghost use Rattle.bsc_bid.specs.Sender.{SenderValue};
    ghost use Rattle.bsc_bid.specs.Ready.{AreWithinLimits, HasBlock};
    ghost use Rattle.bsc_bid.specs.Stored.{HasDoubt};

    ghost Value = { SenderValue };

    ghost view = { λ s. record {
      setup = s.setup;
      phase = s.phase;
      failures = s.failures;
      wacks = s.wacks;
    } };

    ghost invariant = { λ s. AreWithinLimits s.setup s.failures s.wacks s.phase
        × HasBlock s.phase × HasDoubt s.phase };
}

/// Why a doubt is not released.
#[derive(Clone, Copy, Debug, PartialEq, Eq, Error)]
pub enum ReleaseError {
    /// There is no doubt.
    #[error("not in doubt")]
    NotInDoubt,

    /// The count is neither the number of known records nor that number plus the doubtful block.
    #[error("count mismatch")]
    CountMismatch,
}

impl Sender {
    /// Returns a sender without a bid and without a doubt.
    pub fn new(setup: Setup) -> Self
        ensures { result ≡ record { setup = setup; phase = Phase.Idle; failures = 0; wacks = 0 } }
    {
        Sender {
            setup,
            phase: Phase::Idle,
            failures: 0,
            wacks: 0,
        }
    }

    /// Begins a bid: leaves the text of the first block of the waiting records in `sent`.
    /// Condition: the sender is idle, so there is no doubt, and records wait. (GA27-3004,
    /// transmission of blocks.)
    #[tactic(auto, using(crate::proofs::Readiness::going_begin))]
    pub fn begin<A: Allocator>(&mut self, queue: &Queue<A>, sent: &mut MessageBuffer) -> Outcome
        requires idle { self.old.phase ≡ Phase.Idle }
        requires some { 1 ≤ length (waiting queue.now) }
        ensures row { Tells self.new queue.now result sent.new
            (begin_step self.old queue.now) }
        ensures going { IsGoing self.new.phase }
        ensures ready { IsReady self.old queue.now → IsReady self.new queue.now }
    {
        self.send_next(queue, Alternation::Odd, sent)
    }

    /// Hears a transmission. A reply is acted on while a bid continues; anything else changes
    /// nothing. The message to send, if any, is left in `sent`. Condition: while a block is
    /// unanswered, its records wait in the queue, and one more if the block ends with ETB; while
    /// the sender is held after ETB, at least one record waits. (GA27-3004: the replies to a block.
    /// The limits are this project's own.)
    pub fn reply<A: Allocator>(
        &mut self,
        heard: &Heard<'_>,
        queue: &mut Queue<A>,
        sent: &mut MessageBuffer,
    ) -> Outcome
        requires { IsGoing self.old.phase
            → CountsOn self.old.phase (length (waiting queue.old)) }
        ensures row { Tells self.new queue.new result sent.new
            (reply_step self.old queue.old (reply_in heard.now)) }
        ensures ready { IsReady self.old queue.old → IsReady self.new queue.new }
        ensures fits { FitsOutcome result self.old.phase self.new.phase }
    {
        let Some(reply) = heard.reply() else {
            return keep_quiet(sent);
        };
        match self.phase {
            Phase::Idle | Phase::InDoubt { .. } => keep_quiet(sent),
            Phase::Unanswered { block } => {
                let answer = Answer::of(reply, block.alternation);
                self.answer_unanswered(queue, block, answer, sent)
            }
            Phase::Held { end, alternation } => {
                let answer = Answer::of(reply, alternation);
                self.answer_held(queue, end, alternation, answer, sent)
            }
        }
    }

    /// Reports that nothing was heard for the time of a time-out. The message to send, if any, is
    /// left in `sent`. While a bid continues, a silence is one more failure: the sender asks for
    /// the last reply again with ENQ, or the bid is over, and then an unanswered block is in doubt.
    /// (GA27-3004, time-outs. The limit and the doubt are this project's own.)
    #[tactic(auto, using(crate::proofs::Readiness::all_waiting))]
    pub fn silence(&mut self, sent: &mut MessageBuffer) -> Outcome
        ensures row { (q : QueueValue)
            → Tells self.new q result sent.new
            (silence_step self.old q) }
        ensures ready { (q : QueueValue) → IsReady self.old q → IsReady self.new q }
        ensures fits { FitsOutcome result self.old.phase self.new.phase }
    {
        match self.phase {
            Phase::Idle | Phase::InDoubt { .. } => keep_quiet(sent),
            Phase::Unanswered { block } => {
                self.ask_again(Phase::InDoubt { count: block.count }, sent)
            }
            Phase::Held { .. } => self.ask_again(Phase::Idle, sent),
        }
    }

    /// Reports that the line was taken from the sender: an unanswered block is in doubt from now
    /// on, and a held sender is idle.
    pub fn cut_off(&mut self)
        ensures state { self.new ≡ with_phase self.old (cut_phase self.old.phase) }
        ensures rests { IsAtRest self.new.phase }
        ensures ready { (q : QueueValue) → IsReady self.old q → IsReady self.new q }
    {
        match self.phase {
            Phase::Idle | Phase::InDoubt { .. } => {}
            Phase::Unanswered { block } => self.phase = Phase::InDoubt { count: block.count },
            Phase::Held { .. } => self.phase = Phase::Idle,
        }
    }

    /// Begins again, as after the end of the process: no bid is in progress and both counters are
    /// at 0. An unanswered block is in doubt, a held sender is idle, and a doubt remains.
    pub fn restart(&mut self)
        ensures state { self.new ≡ restarted_sender self.old }
        ensures rests { IsAtRest self.new.phase }
        ensures ready { (q : QueueValue) → IsReady self.old q → IsReady self.new q }
    {
        self.cut_off();
        self.failures = 0;
        self.wacks = 0;
    }

    /// Returns what is to be kept of the sender now, for the case that its process ends, beside the
    /// records of its queue: a restart leaves the same. (GA27-3004 has no restart; this is the
    /// project's own.)
    pub fn kept<A: Allocator>(&self, queue: &Queue<A>) -> KeptSender
        ensures value { result ≡ kept_of self.now queue.now }
        ensures fits { IsReady self.now queue.now
            → FitsOffered result (length queue.now.offered) }
    {
        let doubt = match self.phase {
            Phase::Idle | Phase::Held { .. } => None,
            Phase::Unanswered { block } => Some(block.count),
            Phase::InDoubt { count } => Some(count),
        };
        KeptSender {
            known: queue.known(),
            doubt,
        }
    }

    /// Recalls what was kept of a sender that this one is made again from, once all records that
    /// were offered to that one were offered again. The errors are `NotNew` if a bid is in
    /// progress, a block is in doubt, or a record is known to have arrived; then `Known` if more
    /// records are known than were offered; then `Doubt` if the doubtful block does not have 1 to 7
    /// records, or more than are not known. All leave everything unchanged.
    pub fn recall<A: Allocator>(
        &mut self,
        kept: KeptSender,
        queue: &mut Queue<A>,
    ) -> Result<(), RecallError>
        ensures row { record { sender = self.new; queue = queue.new; answer = result }
            ≡ recall_step self.old queue.old kept }
        ensures err { OnErr result ((self.new ≡ self.old) × (queue.new ≡ queue.old)) }
        ensures ready { IsReady self.old queue.old → IsReady self.new queue.new }
    {
        let Phase::Idle = self.phase else {
            return Err(RecallError::NotNew);
        };
        if queue.known() > 0 {
            return Err(RecallError::NotNew);
        }
        let offered = queue.offered().len();
        if kept.known > offered {
            return Err(RecallError::Known);
        }
        if !fits(kept.doubt, offered - kept.known) {
            return Err(RecallError::Doubt);
        }
        queue.mark(kept.known);
        if let Some(count) = kept.doubt {
            self.phase = Phase::InDoubt { count };
        }
        Ok(())
    }

    /// Returns whether there is a block of which it is not known whether it arrived.
    pub fn in_doubt(&self) -> bool
        ensures { result ≡ is_in_doubt self.now.phase }
    {
        matches!(self.phase, Phase::InDoubt { .. })
    }

    /// Ends the doubt: the other end has `count` records. The errors are `NotInDoubt` if there is
    /// no doubt, and then `CountMismatch` if the count is neither the number of known records nor
    /// that number plus the doubtful block; both leave everything unchanged. Condition: while in
    /// doubt, the records of the doubtful block wait in the queue.
    pub fn release<A: Allocator>(
        &mut self,
        count: usize,
        queue: &mut Queue<A>,
    ) -> Result<(), ReleaseError>
        requires { IsTrue (is_in_doubt self.old.phase)
            → CountsOn self.old.phase (length (waiting queue.old)) }
        ensures row { record { sender = self.new; queue = queue.new; answer = result }
            ≡ release_step self.old queue.old count }
        ensures ok { OnOk result (self.new ≡ with_phase self.old Phase.Idle) }
        ensures err { OnErr result ((self.new ≡ self.old) × (queue.new ≡ queue.old)) }
        ensures ready { IsReady self.old queue.old → IsReady self.new queue.new }
    {
        let Phase::InDoubt { count: doubtful } = self.phase else {
            return Err(ReleaseError::NotInDoubt);
        };
        let known = queue.known();
        if count != known && (count < known || count - known != doubtful) {
            return Err(ReleaseError::CountMismatch);
        }
        queue.mark(count - known);
        self.phase = Phase::Idle;
        Ok(())
    }

    /// Ends the bid without a doubt.
    fn end(&mut self, sent: &mut MessageBuffer) -> Outcome
        ensures state { self.new ≡ with_phase self.old Phase.Idle }
        ensures over { result ≡ Outcome.Over }
        ensures nothing { sent.new ≡ None }
    {
        self.phase = Phase::Idle;
        sent.clear();
        Outcome::Over
    }

    /// Sends the next block, with both counters at 0, or ends the bid if no record waits.
    #[tactic(auto, using(crate::proofs::Readiness::counts_next))]
    fn send_next<A: Allocator>(
        &mut self,
        queue: &Queue<A>,
        alternation: Alternation,
        sent: &mut MessageBuffer,
    ) -> Outcome
        ensures row { Tells self.new queue.now result sent.new
            (sent_next self.old queue.now alternation (next_block queue.now)) }
        ensures ready { IsQueue queue.now → IsReady self.new queue.now }
    {
        self.failures = 0;
        self.wacks = 0;
        let Some(next) = queue.next() else {
            return self.end(sent);
        };
        self.phase = Phase::Unanswered {
            block: SentBlock {
                count: next.count,
                end: next.end,
                alternation,
            },
        };
        queue.text(next.count, next.end, sent);
        Outcome::Sends
    }

    /// Acts on the expected acknowledgement of a block with this end: after ETX the bid is over,
    /// after ETB the next block is sent.
    fn accept<A: Allocator>(
        &mut self,
        queue: &Queue<A>,
        end: End,
        alternation: Alternation,
        sent: &mut MessageBuffer,
    ) -> Outcome
        ensures row { Tells self.new queue.now result sent.new
            (accepted self.old queue.now end alternation) }
        ensures ready { IsQueue queue.now → IsReady self.new queue.now }
    {
        match end {
            End::Etx => {
                self.failures = 0;
                self.wacks = 0;
                self.end(sent)
            }
            End::Etb => self.send_next(queue, alternation.other(), sent),
        }
    }

    /// Counts one more failure in a row. Returns true if the limit is exceeded; then the bid is
    /// over, and `left` is the phase.
    fn fail(&mut self, left: Phase) -> bool
        requires going { IsGoing self.old.phase }
        requires left { IsAtRest left }
        requires doubt { HasDoubt left }
        ensures over { result ≡ nat_lt self.old.setup.tries (self.old.failures + 1) }
        ensures ends { result ≡ true
            → self.new
            ≡ with_phase (with_counts self.old (self.old.failures + 1) self.old.wacks) left }
        ensures goes_on { result ≡ false
            → self.new ≡ with_counts self.old (self.old.failures + 1) self.old.wacks }
    {
        let limit = self.setup.tries();
        self.failures += 1;
        if self.failures > limit {
            self.phase = left;
            return true;
        }
        false
    }

    /// Counts one more failure in a row and asks for the last reply again, unless the bid is over.
    fn ask_again(&mut self, left: Phase, sent: &mut MessageBuffer) -> Outcome
        requires going { IsGoing self.old.phase }
        requires left { IsAtRest left }
        requires doubt { HasDoubt left }
        ensures row { (q : QueueValue)
            → Tells self.new q result sent.new
            (failed self.old q left Enq) }
        ensures ready { (q : QueueValue) → IsReady self.old q
            → CountsOn left (length (waiting q)) → IsReady self.new q }
        ensures fits { FitsOutcome result self.old.phase self.new.phase }
    {
        if self.fail(left) {
            sent.clear();
            return Outcome::Over;
        }
        sent.set_enq();
        Outcome::Sends
    }

    /// Counts one more WACK, to a block with this end, and asks again with ENQ, unless the bid is
    /// over.
    fn delay(&mut self, end: End, alternation: Alternation, sent: &mut MessageBuffer) -> Outcome
        requires { IsGoing self.old.phase }
        ensures row { (q : QueueValue)
            → Tells self.new q result sent.new
            (delayed self.old q end alternation) }
        ensures ready { (q : QueueValue) → IsQueue q → AreWaiting 0 end (length (waiting q))
            → IsReady self.new q }
    {
        self.failures = 0;
        self.wacks += 1;
        if self.wacks > u16::from(self.setup.waits()) {
            self.phase = Phase::Idle;
            sent.clear();
            return Outcome::Over;
        }
        self.phase = Phase::Held { end, alternation };
        sent.set_enq();
        Outcome::Sends
    }

    /// Acts on a reply while a block is unanswered.
    #[tactic(auto, using(crate::proofs::Readiness::reply_steps))]
    fn answer_unanswered<A: Allocator>(
        &mut self,
        queue: &mut Queue<A>,
        block: SentBlock,
        answer: Answer,
        sent: &mut MessageBuffer,
    ) -> Outcome
        requires phase { self.old.phase ≡ Phase.Unanswered block }
        requires counts { CountsOn self.old.phase (length (waiting queue.old)) }
        ensures row { Tells self.new queue.new result sent.new
            (unanswered_step self.old queue.old block answer) }
        ensures ready { IsReady self.old queue.old → IsReady self.new queue.new }
    {
        match answer {
            Answer::Accepted => {
                queue.mark(block.count);
                self.accept(queue, block.end, block.alternation, sent)
            }
            Answer::Refused => {
                // A field is read, so that the range of the block's records is known here.
                let _ = &self.phase;
                if self.fail(Phase::Idle) {
                    sent.clear();
                    return Outcome::Over;
                }
                queue.text(block.count, block.end, sent);
                Outcome::Sends
            }
            Answer::Delayed => {
                queue.mark(block.count);
                self.delay(block.end, block.alternation, sent)
            }
            Answer::Interrupted => {
                queue.mark(block.count);
                self.end(sent)
            }
        }
    }

    /// Acts on a reply while the sender is held.
    fn answer_held<A: Allocator>(
        &mut self,
        queue: &Queue<A>,
        end: End,
        alternation: Alternation,
        answer: Answer,
        sent: &mut MessageBuffer,
    ) -> Outcome
        requires { self.old.phase ≡ Phase.Held end alternation }
        ensures row { Tells self.new queue.now result sent.new
            (held_step self.old queue.now end alternation answer) }
        ensures ready { IsReady self.old queue.now → IsReady self.new queue.now }
    {
        match answer {
            Answer::Accepted => self.accept(queue, end, alternation, sent),
            Answer::Refused => self.ask_again(Phase::Idle, sent),
            Answer::Delayed => self.delay(end, alternation, sent),
            Answer::Interrupted => self.end(sent),
        }
    }
}

/// Whether a doubtful block, if there is one, has 1 to 7 records, and no more than are not known.
fn fits(doubt: Option<usize>, unknown: usize) -> bool
    ensures { result ≡ fits_doubt doubt unknown }
{
    match doubt {
        None => true,
        Some(count) => 1 <= count && count <= MAX_UNITS && count <= unknown,
    }
}

/// Leaves no message.
fn keep_quiet(sent: &mut MessageBuffer) -> Outcome
    ensures quiet { result ≡ Outcome.Quiet }
    ensures nothing { sent.new ≡ None }
{
    sent.clear();
    Outcome::Quiet
}
