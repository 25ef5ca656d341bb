//! What the sending end of a channel has.

ghost use Rattle.std.specs.Prelude.{◌≡◌};
ghost use Rattle.bsc_embed.specs.Sending.{sending_in};

use crate::interface::Sending;
use bsc_spool::Queue;
use std::alloc::Global;

/// Returns how many records are in the queue, how many of them are known to have arrived, and
/// whether the last block is in doubt: 1 if it is, else 0.
pub fn sending_of(queue: &Queue<Global>, in_doubt: bool) -> Sending
    ensures { result ≡ sending_in queue.now in_doubt }
{
    Sending {
        offered: queue.offered().len(),
        known: queue.known(),
        in_doubt: if in_doubt { 1 } else { 0 },
    }
}
