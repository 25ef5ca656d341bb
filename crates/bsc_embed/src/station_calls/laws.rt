//! The law of refusals. It is about the definitions only.

ghost use Rattle.std.specs.Prelude.{◌≡◌, ℕ, Err};
ghost use Rattle.bsc_spool.specs.Queue.{QueueValue};
ghost use Rattle.bsc_bid.specs.declared.kept.KeptSender.{KeptSender};
ghost use Rattle.bsc_bid.specs.declared.kept.RecallError.{RecallError};
ghost use Rattle.bsc_bid.specs.declared.sender.ReleaseError.{ReleaseError};
ghost use Rattle.bsc_bid.specs.Sender.{SenderValue, release_step};
ghost use Rattle.bsc_bid.specs.Stored.{recall_step};

/// A release or a recall that is refused leaves the sender and its queue as they were.
pub fn refusals_change_nothing()
    ensures release_sender { (s : SenderValue) (q : QueueValue) (count : ℕ) (e : ReleaseError)
        → (release_step s q count).answer ≡ Err e → (release_step s q count).sender ≡ s }
    ensures release_queue { (s : SenderValue) (q : QueueValue) (count : ℕ) (e : ReleaseError)
        → (release_step s q count).answer ≡ Err e → (release_step s q count).queue ≡ q }
    ensures recall_sender { (s : SenderValue) (q : QueueValue) (kept : KeptSender) (e : RecallError)
        → (recall_step s q kept).answer ≡ Err e → (recall_step s q kept).sender ≡ s }
    ensures recall_queue { (s : SenderValue) (q : QueueValue) (kept : KeptSender) (e : RecallError)
        → (recall_step s q kept).answer ≡ Err e → (recall_step s q kept).queue ≡ q }
{}
