//! What a run tells of its progress, and when the line that shows it is written.

use crate::watched::{NO_TROUBLE, Plan};
use crate::worked::{COUNTED_TWICE, POLLED, Worked};
use crate::written::run_in_memory;
use bsc_text::progress::{Counts, Meter, ProgressLine, Timer, Work};
use std::alloc::Global;
use std::test::Fail;
use test_fixtures::configurations::TWO_TERMINALS;

/// Keeps what it was last shown.
#[derive(Drop)]
pub(crate) struct Kept {
    /// Whether it is time.
    due: bool,

    /// How often it was shown something.
    pub(crate) times: u64,

    /// Whether it was told one more event each time.
    pub(crate) in_order: bool,

    pub(crate) last: Option<Counts>,
}

impl Kept {
    /// It was shown nothing.
    pub(crate) fn new(due: bool) -> Kept {
        Kept {
            due,
            times: 0,
            in_order: true,
            last: None,
        }
    }
}

impl Meter for Kept {
    fn is_due(&mut self) -> bool {
        self.due
    }

    fn show(&mut self, counts: Counts) {
        self.times = self.times.wrapping_add(1);
        self.in_order = self.in_order && counts.done == self.times;
        self.last = Some(counts);
    }
}

/// How far a run has come that performed this many events.
pub(crate) fn counts_of(done: u64, known: u64, arrived: u64, doubts: u64) -> Counts {
    Counts {
        done,
        known,
        arrived,
        doubts,
    }
}

/// Whether a run tells each of its events, the last one with these counts, or none.
fn is_told(alloc: Global, worked: &Worked, told: Option<Counts>) -> Result<bool, Fail> {
    let plan = Plan {
        due: told.is_some(),
        ..NO_TROUBLE
    };
    let ended = run_in_memory(alloc, TWO_TERMINALS, worked.script, plan)?;
    let is_last = match told {
        Some(counts) => ended.kept.times == counts.done,
        None => true,
    };
    let is_ended = ended.answer == worked.answer && ended.kept.in_order;
    Ok(is_ended && is_last && ended.kept.last == told)
}

/// The last event of the second script is refused, and is not told.
#[test]
fn each_event_is_told_while_it_is_time(rt: HostRuntime) -> Result<(), Fail> {
    for (worked, counts) in [
        (&POLLED, counts_of(8, 1, 1, 0)),
        (&COUNTED_TWICE, counts_of(13, 0, 2, 1)),
    ] {
        for told in [Some(counts), None] {
            assert!(rt; is_told(rt.alloc(), worked, told)?, "{}", worked.script);
        }
    }
    Ok(())
}

/// A clock that goes on by a quarter of a second each time.
#[derive(Drop)]
struct Quarters {
    time: u64,
}

impl Timer for Quarters {
    fn milliseconds(&mut self) -> u64 {
        self.time = self.time.saturating_add(250);
        self.time
    }
}

/// Shows the progress, with counts of 1 to 20 digits, from this time on as often as this. Returns
/// how many lines were written.
fn count_shown(alloc: Global, work: Work, time: u64, times: u32) -> usize {
    let mut text = Vec::<u8>::new(alloc);
    let mut line = ProgressLine::new(true, work, Quarters { time }, &mut text);
    for number in 0..times {
        let count = 10u64.saturating_pow(number % 22);
        if line.is_due() {
            line.show(counts_of(count, count, count, count));
        }
    }
    drop(line);
    text.iter().filter(|octet| **octet == b'\r').count()
}

/// The line is written each time that it is due, whatever the counts and the time are. It is first
/// due after a second, and always at the greatest time.
#[test]
fn progress_is_written_as_often_as_it_is_due(rt: HostRuntime) -> Result<(), Fail> {
    for work in [Work::Events, Work::Rounds] {
        assert_eq!(rt; count_shown(rt.alloc(), work, 0, 20_003), 20_000);
        assert_eq!(rt; count_shown(rt.alloc(), work, u64::MAX - 5_000, 100), 100);
    }
    Ok(())
}
