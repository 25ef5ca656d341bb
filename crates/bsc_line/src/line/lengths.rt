//! The number of transmissions that a visit of a terminal and a round of the poll list take.

ghost use Rattle.std.specs.Prelude.{◌≡◌, ◌<◌, ◌+◌};
ghost use Rattle.bsc_line_model.specs.Kept.{IsLine};
ghost use Rattle.bsc_line_model.specs.Line.{terminal_count};
ghost use Rattle.bsc_line_model.specs.Rounds.{visit_length, round_length};
ghost use Rattle.bsc_line_model.specs.Rounds.{selection_length as selection, poll_length as poll};
ghost use Rattle.bsc_line.specs.Counts.{entry_length, in_u64};

use crate::line::Line;
use bsc_bid::limits::MAX_TERMINALS;
use bsc_line_model::laws::seen_terminals;
use std::alloc::Allocator;

impl<A: Allocator> Line<A> {
    /// Returns the number of transmissions that a visit of a terminal takes if all are heard: a
    /// poll, and a selection of each of its selection addresses for which records wait. The number
    /// saturates at `u64::MAX`. Condition: the terminal exists.
    pub fn visit(&self, terminal: usize) -> u64
        requires { terminal < terminal_count self.now }
        ensures value { result ≡ in_u64 (visit_length self.now terminal) }
        ensures line { IsLine self.now }
    {
        let station = &self.terminals[terminal];
        let mut total = poll_length(station.queue().blocks());
        for select in 0..self.control.addresses(terminal) {
            let blocks = self.control.queue(terminal, select).blocks();
            total = total.saturating_add(selection_length(blocks));
        }
        total
    }

    /// Returns the number of transmissions that a round of the poll list takes if all are heard: a
    /// visit at the first entry of each terminal that is polled, and 2 at each later entry of it.
    /// The number saturates at `u64::MAX`.
    pub fn round(&self) -> u64
        ensures value { result ≡ in_u64 (round_length self.now) }
        ensures line { IsLine self.now }
    {
        seen_terminals();
        let mut seen = [false; MAX_TERMINALS];
        let mut total = 0;
        for entry in self.control.poll_list() {
            let terminal = usize::from(*entry);
            total = self.with_entry(total, terminal, seen[terminal]);
            seen[terminal] = true;
        }
        total
    }

    /// Adds the transmissions of one more entry to this total: a visit of its terminal, or 2 if the
    /// terminal was visited before, or none if it is not polled.
    fn with_entry(&self, total: u64, terminal: usize, seen: bool) -> u64
        requires { terminal < terminal_count self.now }
        ensures { result ≡ in_u64 (total + entry_length self.now seen terminal) }
    {
        if !self.control.is_polled(terminal) {
            return total;
        }
        if seen {
            return total.saturating_add(2);
        }
        total.saturating_add(self.visit(terminal))
    }
}

/// Returns the number of transmissions of a selection with this many blocks: 0 if there are none.
fn selection_length(blocks: usize) -> u64
    ensures { result ≡ in_u64 (selection blocks) }
{
    if blocks == 0 {
        return 0;
    }
    poll_length(blocks)
}

/// Returns the number of transmissions of a poll with this many blocks: 2, and 2 for each block.
fn poll_length(blocks: usize) -> u64
    ensures { result ≡ in_u64 (poll blocks) }
{
    (blocks as u64).saturating_mul(2).saturating_add(2)
}
