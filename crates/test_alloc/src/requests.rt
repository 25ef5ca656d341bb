//! The rule of refusals and the counts of requests. Every decision of the allocator is made here,
//! on plain values.

/// Which requests are refused. Requests are counted from 1, and sizes are in octets.
#[derive(Clone, Copy)]
pub(crate) enum Rule {
    Nothing,
    Nth { request: usize },
    From { request: usize },
    LargerThan { size: usize },
}

/// A rule, the number of requests since it was set, how many of them were refused, and how many
/// requests were ever refused.
#[derive(Clone, Copy)]
pub(crate) struct Requests {
    pub(crate) rule: Rule,
    pub(crate) requests: usize,
    pub(crate) refused: usize,
    pub(crate) ever_refused: usize,
}

impl Requests {
    /// No rule, and no requests.
    pub(crate) fn new() -> Requests {
        Requests {
            rule: Rule::Nothing,
            requests: 0,
            refused: 0,
            ever_refused: 0,
        }
    }

    /// Sets the rule. Counting starts again, except for the requests ever refused.
    pub(crate) fn set(&mut self, rule: Rule) {
        self.rule = rule;
        self.requests = 0;
        self.refused = 0;
    }

    /// Counts one more request, of `size` octets, and returns whether it is refused. A count stays
    /// at `usize::MAX` once it is there.
    pub(crate) fn ask(&mut self, size: usize) -> bool {
        self.requests = self.requests.saturating_add(1);
        let refuses = match self.rule {
            Rule::Nothing => false,
            Rule::Nth { request } => self.requests == request,
            Rule::From { request } => self.requests >= request,
            Rule::LargerThan { size: most } => size > most,
        };
        if refuses {
            self.refused = self.refused.saturating_add(1);
            self.ever_refused = self.ever_refused.saturating_add(1);
        }
        refuses
    }
}
