//! How far a run has come.

ghost use Rattle.std.specs.Prelude.{◌≡◌, ◌<◌};
ghost use Rattle.bsc_line_model.specs.Line.{terminal_count, IsChannel};
ghost use Rattle.bsc_run.specs.Counting.{channel_counts, line_counts, terminal_counts};

use bsc_control::Way;
use bsc_line::Line;
use bsc_text::progress::{Counts, Meter};
use std::alloc::Allocator;

/// Shows how far a run has come that has performed this many events, if it is time.
pub(crate) fn show_progress<B: Allocator, M: Meter>(line: &Line<B>, events: u64, meter: &mut M) {
    if meter.is_due() {
        meter.show(line_counts(line, events));
    }
}

/// Returns how far a run has come that has performed this many events.
pub fn line_counts<B: Allocator>(line: &Line<B>, events: u64) -> Counts
    ensures { result ≡ line_counts events line.now }
{
    let mut counts = Counts::of(events);
    'terminals: for terminal in 0..line.terminals() {
        counts = counts.and(terminal_counts(line, terminal));
    }
    counts
}

/// Returns the counts of the channels of a terminal.
fn terminal_counts<B: Allocator>(line: &Line<B>, terminal: usize) -> Counts
    requires { terminal < terminal_count line.now }
    ensures { result ≡ terminal_counts line.now terminal }
{
    let mut counts = channel_counts(line, terminal, Way::FromTerminal);
    'selects: for select in 0..line.addresses(terminal) {
        counts = counts.and(channel_counts(line, terminal, Way::ToTerminal(select)));
    }
    counts
}

/// Returns the counts of a channel.
fn channel_counts<B: Allocator>(line: &Line<B>, terminal: usize, way: Way) -> Counts
    requires { IsChannel line.now terminal way }
    ensures { result ≡ channel_counts line.now terminal way }
{
    let sending = Counts::sending(line.known(terminal, way), line.in_doubt(terminal, way));
    sending.and(Counts::receiving(line.spooled(terminal, way).len()))
}
