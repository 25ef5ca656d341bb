//! Which run comes next, and whether enough runs met a refusal. Every decision about the runs is
//! made here, on plain values.
ghost use Rattle.std.specs.Prelude.{◌<◌, OnSome};

/// Why the refusals in turn do not make a test.
#[derive(Clone, Copy, Debug)]
pub enum TurnError {
    /// No run met a refusal, or fewer runs did than required.
    TooFew,

    /// Every run met a refusal, and no number is left.
    NoEnd,
}

/// The runs of a test, by their numbers.
#[derive(Clone, Copy)]
pub(crate) struct Turns {
    /// The least number of runs that have to meet a refusal.
    least: usize,

    /// The number of the current run; 0 before the first.
    number: usize,

    /// The greatest number of numbers and errors that may follow; 0 after the last.
    pub(crate) left: usize,
}

impl Turns {
    /// No run has begun. At least `least` runs, and at least 1, have to meet a refusal, and fewer
    /// than `end`.
    pub(crate) fn new(least: usize, end: usize) -> Turns {
        Turns {
            least: least.max(1),
            number: 0,
            left: end.saturating_add(1),
        }
    }

    /// The number of the next run, or an error; None if the current run met no refusal and the runs
    /// are over.
    pub(crate) fn next(&mut self, is_refused: bool) -> Option<Result<usize, TurnError>>
        ensures { OnSome result (self.new.left < self.old.left) }
    {
        if self.left == 0 {
            return None;
        }
        if self.number > 0 && !is_refused {
            self.left = 0;
            return if self.number > self.least {
                None
            } else {
                Some(Err(TurnError::TooFew))
            };
        }
        self.left -= 1;
        if self.left == 0 {
            return Some(Err(TurnError::NoEnd));
        }
        self.number = self.number.saturating_add(1);
        Some(Ok(self.number))
    }
}
