//! Records that a station does not need any more are forgotten, so that one that runs for long does
//! not take more and more memory.

ghost use Rattle.std.specs.Prelude.{◌≡◌, length};
ghost use Rattle.bsc_station.specs.Forgetting.{ForgetsSent, ForgetsSentTo};
ghost use Rattle.bsc_station.specs.Forgetting.{is_worth};

use bsc_block::Records;
use bsc_control::Control;
use std::alloc::Allocator;

/// The fewest records that are forgotten at once. The others are copied then.
const FEWEST: usize = 1_024;

/// Returns whether the first records, this many, are worth forgetting: if by that at least
/// 1,024 more are, and no more are left to be copied. So a record is copied once on average.
pub(crate) fn is_worth<A: Allocator>(records: &Records<A>, count: usize) -> bool
    ensures { result ≡ is_worth records.now.forgotten (length records.now.items) count }
{
    let more = count.saturating_sub(records.forgotten());
    let left = records.len().saturating_sub(count);
    more >= FEWEST && more >= left
}

/// Forgets the records that are known to have arrived for a selection address, if there is such an
/// address and they are worth it.
fn forget_sent_to<A: Allocator>(control: &mut Control<A>, terminal: usize, select: usize)
    ensures { ForgetsSentTo control.old terminal select control.new }
{
    if terminal >= control.terminals() || select >= control.addresses(terminal) {
        return;
    }
    let queue = control.queue(terminal, select);
    let known = queue.known();
    if is_worth(queue.offered(), known) {
        control.forget_sent(terminal, select, known);
    }
}

/// Does so for each selection address of a terminal, if there is such a terminal.
pub(crate) fn forget_sent_to_all<A: Allocator>(control: &mut Control<A>, terminal: usize)
    ensures { ForgetsSent control.old control.new }
{
    if terminal >= control.terminals() {
        return;
    }
    'selects: for select in 0..control.addresses(terminal) {
        forget_sent_to(control, terminal, select);
    }
}
