//! How the time of a trace is divided.
ghost use Rattle.std.specs.Prelude.{◌≡◌, ◌+◌, ◌*◌, ◌-◌, ◌<◌, ◌≤◌, length};
ghost use Rattle.bsc_trace.specs.Rows.{row_in};
ghost use Rattle.bsc_chart.specs.PictureRows.{rows_in};
ghost use Rattle.bsc_chart.specs.Clocks.{capped as capped_at, clock_after, clock_in, clock_of};
ghost use Rattle.bsc_chart.specs.Clocks.{milliseconds_of, silent_at, silent_tenths, since};
ghost use Rattle.bsc_chart.specs.Clocks.{spoken_at, with_digit as number_with};

use crate::picture::PictureRow;
use bsc_trace::ladder::Row;
use std::alloc::Allocator;

/// The greatest number of milliseconds of a time, over three years. A longer time counts as this.
const MOST: usize = 100_000_000_000;

/// The milliseconds before transmissions and before silences.
#[derive(Clone, Copy)]
pub(crate) struct Clock {
    /// When the last transmission or silence was.
    pub(crate) last: Option<usize>,

    /// What passed before transmissions, since the first row that is no mark.
    pub(crate) spoken: usize,

    /// What passed before silences.
    pub(crate) silent: usize,
}

/// Returns a number of milliseconds, or the greatest.
fn capped(number: usize) -> usize
    ensures value { result ≡ capped_at number }
    ensures most { result ≤ 100000000000 }
{
    if number < MOST { number } else { MOST }
}

/// Returns the milliseconds of decimal digits with this value and one more digit.
fn with_digit(number: usize, digit: u8) -> usize
    requires { number ≤ 100000000000 }
    ensures value { result ≡ number_with number digit }
    ensures most { result ≤ 100000000000 }
{
    capped(10 * number + usize::from(digit.saturating_sub(b'0')))
}

/// Returns the milliseconds of a time in decimal digits.
fn milliseconds(time: &[u8]) -> usize
    ensures value { result ≡ milliseconds_of time.now }
    ensures most { result ≤ 100000000000 }
{
    let mut number = 0;
    'digits: for &digit in time {
        number = with_digit(number, digit);
    }
    number
}

impl Clock {
    /// Returns the milliseconds since the last transmission or silence.
    fn since(&self, now: usize) -> usize
        ensures value { result ≡ since self.now.last now }
        ensures most { result ≤ now }
    {
        match self.last {
            None => 0,
            Some(last) => now.saturating_sub(last),
        }
    }

    /// Returns the clock after a transmission at this time.
    fn spoken(self, now: usize) -> Clock
        requires time { now ≤ 100000000000 }
        requires most { self.spoken ≤ 100000000000 * 100000 }
        ensures value { clock_in result ≡ spoken_at now (clock_in self) }
    {
        Clock {
            last: Some(now),
            spoken: self.spoken + self.since(now),
            silent: self.silent,
        }
    }

    /// Returns the clock after a silence that ended at this time.
    fn silent(self, now: usize) -> Clock
        requires time { now ≤ 100000000000 }
        requires most { self.silent ≤ 100000000000 * 100000 }
        ensures value { clock_in result ≡ silent_at now (clock_in self) }
    {
        Clock {
            last: Some(now),
            spoken: self.spoken,
            silent: self.silent + self.since(now),
        }
    }

    /// Returns the clock after a row.
    fn after(self, row: &Row<'_>) -> Clock
        requires spoken { self.spoken ≤ 100000000000 * 100000 }
        requires silent { self.silent ≤ 100000000000 * 100000 }
        ensures value { clock_in result ≡ clock_after (clock_in self) (row_in row.now) }
        ensures spoken { result.spoken ≤ self.spoken + 100000000000 }
        ensures silent { result.silent ≤ self.silent + 100000000000 }
    {
        match row {
            Row::Arrow { time, .. } => self.spoken(milliseconds(time)),
            Row::Silence { time } => self.silent(milliseconds(time)),
            Row::Mark { .. } => self,
        }
    }

    /// Returns the clock after all rows.
    pub(crate) fn of<A: Allocator>(rows: &[PictureRow<A>]) -> Clock
        requires { length rows.now ≤ 20000 }
        ensures value { clock_in result ≡ clock_of (rows_in rows.now) }
        ensures spoken { result.spoken ≤ 100000000000 * 20000 }
        ensures silent { result.silent ≤ 100000000000 * 20000 }
    {
        let mut clock = Clock {
            last: None,
            spoken: 0,
            silent: 0,
        };
        'rows: for row in rows {
            clock = clock.after(&row.row());
        }
        clock
    }

    /// Returns the share of silences in tenths of a percent, rounded down.
    pub(crate) fn silent_tenths(&self) -> usize
        requires some { 0 < self.now.spoken + self.now.silent }
        requires spoken { self.now.spoken ≤ 100000000000 * 20000 }
        requires silent { self.now.silent ≤ 100000000000 * 20000 }
        ensures value { result ≡ silent_tenths (clock_in self.now) }
        ensures most { result ≤ 1000 }
    {
        self.silent * 1000 / (self.spoken + self.silent)
    }
}
