//! Laws over the definitions, each the contract of a function that does nothing, for the layers
//! above: what the next block of a queue is, and what preserves a queue.
ghost use Rattle.std.specs.Prelude.{◌≡◌, ◌≤◌, ◌↔◌, ℕ, List, [], Some, None, length};
ghost use Rattle.bsc_spool.specs.Queue.{QueueValue, waiting, next_block, with_offered, with_known};
ghost use Rattle.bsc_spool.specs.Queue.{with_forgotten};
ghost use Rattle.bsc_spool.specs.Queue.{IsQueue, IsNext};
ghost use Rattle.bsc_spool.specs.declared.queue.Next.{Next};

use bsc_block::laws::{cut_into_blocks, forgotten_records};

/// A queue has no next block exactly if no record waits. Otherwise the next block takes 1 to 7
/// waiting records, and ends with `Etx` exactly if these are all that wait. A queue stays a queue
/// when a record no longer than the full length is offered, when waiting records become known, and
/// when known records are forgotten, which leaves the waiting ones as they are.
pub fn next_blocks()
    ensures none { (q : QueueValue) → (next_block q ≡ None) ↔ (waiting q ≡ []) }
    ensures some { (q : QueueValue) (n : Next) → IsQueue q → next_block q ≡ Some n → IsNext q n }
    ensures offered { (q : QueueValue) (r : List ℕ) → IsQueue q → length r ≤ q.format.full
        → IsQueue (with_offered q r) }
    ensures known { (q : QueueValue) (k : ℕ) → IsQueue q → k ≤ length (waiting q)
        → IsQueue (with_known q k) }
    ensures forgets { (q : QueueValue) (n : ℕ) → IsQueue q → n ≤ q.known
        → IsQueue (with_forgotten q n) }
    ensures waits { (q : QueueValue) (n : ℕ) → IsQueue q → n ≤ q.known
        → waiting (with_forgotten q n) ≡ waiting q }
{
    cut_into_blocks();
    forgotten_records();
}
