//! Laws about the definitions: what holds of every bid, whatever is lost or damaged.

ghost use Rattle.std.specs.Prelude.{◌≡◌, ◌↔◌, length, Ok};
ghost use Rattle.bsc_spool.specs.Queue.{QueueValue};
ghost use Rattle.bsc_bid.specs.declared.kept.KeptSender.{KeptSender};
ghost use Rattle.bsc_bid.specs.Setup.{SetupValue};
ghost use Rattle.bsc_bid.specs.Stored.{FitsOffered, RecallsKept, new_sender, recall_step};
ghost use Rattle.bsc_bid.specs.OneBid.{SendsTextsAndEnq, SendsItsBlocks, HearsItsBlocks};
ghost use Rattle.bsc_bid.specs.OneBid.{OnlyMoves, OffersMove, StaysReady, StaysSound};
ghost use Rattle.bsc_bid.specs.OneBid.{SoundWithinTurns, EndsKnowing, DoubtsAtSilence};
ghost use Rattle.bsc_bid.specs.OneBid.{ReleaseEndsDoubt, EndsSoon};
ghost use Rattle.bsc_bid.specs.EachStep.{HearingAgrees, AnsweringAgrees, SilenceAgrees};
ghost use Rattle.bsc_bid.specs.EachStep.{BeginAgrees, OfferAgrees, OfferKeepsRest};
ghost use Rattle.bsc_bid.specs.EachStep.{ReleaseKeepsRest, SilenceKeepsRest, RestartKeepsRest};
ghost use Rattle.bsc_bid.specs.EachStep.{AgreementRests, AgreementIsSound, LossAgrees};
ghost use Rattle.bsc_bid.specs.EachStep.{BidContinues, SendingGoesOn, OutwardIsTextOrEnq};
ghost use Rattle.bsc_bid.specs.EachStep.{ReplyIsLast, ActsFit, StepsKeep};

use bsc_block::laws::records_back;
use bsc_spool::laws::next_blocks;

/// One bid, end to end. For every bid that begins while all spooled records are known, and every
/// list of turns in which each damaged transmission fails its check, with offers between the turns:
///
/// - the sender sends only texts and ENQ, and each text, sent or heard, has exactly the records of
///   its block;
/// - the records of a block are spooled at most once, and the sender learns of it only afterwards;
///   an offer adds only its record;
/// - at each moment the conditions of the sender's calls are met;
/// - at each moment the channel is sound, and at the end of a bid without doubt all records that
///   were spooled are known;
/// - doubt begins exactly if the sender gives up on a silence with a block unanswered, and a
///   release with the spooled count ends it;
/// - with b blocks begun there are at most b · (tries + 1) · (waits + 1) turns.
pub fn one_bid()
    ensures sends { SendsTextsAndEnq }
    ensures sends_blocks { SendsItsBlocks }
    ensures hears_blocks { HearsItsBlocks }
    ensures moves { OnlyMoves }
    ensures offers { OffersMove }
    ensures ready { StaysReady }
    ensures sound { StaysSound }
    ensures sound_within { SoundWithinTurns }
    ensures known { EndsKnowing }
    ensures doubt { DoubtsAtSilence }
    ensures release { ReleaseEndsDoubt }
    ensures soon { EndsSoon }
{
    records_back();
    next_blocks();
}

/// One step of a bid, for users that interleave bids with other traffic. If the ends agree before
/// the step, they agree after it, whatever is lost or fails its check because it was damaged. The
/// steps are:
///
/// - the receiver hears what the sender sent, or nothing; the sender hears the reply, or nothing;
/// - the sender is told of a silence, a bid begins, a record is offered, or a doubt is released;
/// - what was on its way is lost.
///
/// Once the other end takes no part in the bid any more, because it began again, the channel is
/// sound, and a silence, an offer, and a restart of the sender's own station keep it so.
///
/// In addition, a sender whose bid is over is at rest, a sender that stays quiet stays in its
/// phase, and the channel is sound while the ends agree. No step of a sender changes its settings,
/// or the format and the offered records of its queue.
pub fn each_step()
    ensures hearing { HearingAgrees }
    ensures answering { AnsweringAgrees }
    ensures silence { SilenceAgrees }
    ensures begin { BeginAgrees }
    ensures offer { OfferAgrees }
    ensures offer_at_rest { OfferKeepsRest }
    ensures release { ReleaseKeepsRest }
    ensures silence_at_rest { SilenceKeepsRest }
    ensures restart { RestartKeepsRest }
    ensures rests { AgreementRests }
    ensures sound { AgreementIsSound }
    ensures loss { LossAgrees }
    ensures continues { BidContinues }
    ensures goes_on { SendingGoesOn }
    ensures outward { OutwardIsTextOrEnq }
    ensures last_reply { ReplyIsLast }
    ensures fits { ActsFit }
    ensures keeps { StepsKeep }
{
    records_back();
    next_blocks();
}

/// What is kept of a sender makes it again. For every sender and queue of which what is kept fits:
/// a new sender with the same settings that recalls it, for a queue of the same records of which
/// none is known, is the sender after a restart, with its queue as it was. And a new sender recalls
/// exactly what fits the records that were offered, whatever a file has.
pub fn recalls()
    ensures restart { RecallsKept }
    ensures accepted { (setup : SetupValue) (q : QueueValue) (kept : KeptSender) → q.known ≡ 0
        → ((recall_step (new_sender setup) q kept).answer ≡ Ok tt)
        ↔ FitsOffered kept (length q.offered) }
{}
