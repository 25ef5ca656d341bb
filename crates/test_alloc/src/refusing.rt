//! The allocator. It is the only place where the tests of this repository own raw memory.

use crate::in_turn::InTurn;
use crate::requests::{Requests, Rule};
use crate::turns::Turns;
use std::alloc::{AllocError, Allocator, Global};
use std::cell::Cell;
use std::ops::Range;

/// Which requests are refused, given a number that a test counts up.
#[derive(Clone, Copy, Debug, PartialEq, Eq)]
pub enum Refusal {
    /// Only the request with this number; 1 is the next request.
    Nth,

    /// The request with this number and each later one.
    From,

    /// Each request of more octets than the number times this many.
    Above { octets: usize },
}

/// An allocator over `B` that refuses the requests that a test selects. A test makes one over
/// `rt.alloc()`, and passes `&refusing`, which is a `Copy` allocator, to what it tests.
///
/// A request is a call for a new block: an allocation, or a growth or shrinking of a collection,
/// since each of these moves to a new block. A refused request changes nothing, as if `B` were out
/// of memory. Returning a block is never refused.
///
/// If `extend` and `from_iter` of std are refused once, they ask again for less: `refuse_nth` does
/// not stop them, but `refuse_from` does.
#[derive(Drop)]
pub struct Refusing<B: Allocator = Global> {
    inner: B,
    tally: Cell<Requests>,
}

impl<B: Allocator> Refusing<B> {
    /// Makes an allocator that refuses nothing yet.
    pub fn new(inner: B) -> Refusing<B> {
        Refusing {
            inner,
            tally: Cell::new(Requests::new()),
        }
    }

    fn set(&self, rule: Rule) {
        let mut tally = self.tally.get();
        tally.set(rule);
        self.tally.set(tally);
    }

    /// Refuses nothing from now on. Counting starts again.
    pub fn refuse_none(&self) {
        self.set(Rule::Nothing);
    }

    /// Refuses only the request of this number from now on; 1 is the next request. Counting starts
    /// again.
    pub fn refuse_nth(&self, request: usize) {
        self.set(Rule::Nth { request });
    }

    /// Refuses the request of this number and each later one from now on; 1 is the next request.
    /// Counting starts again.
    pub fn refuse_from(&self, request: usize) {
        self.set(Rule::From { request });
    }

    /// Refuses each request of more than `size` octets from now on. Counting starts again.
    pub fn refuse_larger(&self, size: usize) {
        self.set(Rule::LargerThan { size });
    }

    /// Refuses the requests that the number stands for from now on. Counting starts again.
    pub fn refuse(&self, refusal: Refusal, number: usize) {
        match refusal {
            Refusal::Nth => self.refuse_nth(number),
            Refusal::From => self.refuse_from(number),
            Refusal::Above { octets } => self.refuse_larger(number.saturating_mul(octets)),
        }
    }

    /// Refuses by each number in turn, from 1 on, until a run meets no refusal. A test does one run
    /// for each number that it is given:
    ///
    /// ```text
    /// for number in alloc.in_turn(Refusal::Nth, 4..50) {
    ///     let number = number?;
    ///     let answer = make(&alloc);
    ///     ..
    /// }
    /// ```
    ///
    /// `refused` tells whether a run met a refusal, and `refuse` may restart its counting during a
    /// run. The number of runs that meet a refusal has to be in this range, and at least 1;
    /// otherwise the last item is an error. After the last item nothing is refused.
    pub fn in_turn(&self, refusal: Refusal, runs: Range<usize>) -> InTurn<'_, B> {
        InTurn {
            alloc: self,
            refusal,
            turns: Turns::new(runs.start, runs.end),
            refused_before: self.ever_refused(),
        }
    }

    /// The number of requests since counting started, refused or not.
    pub fn requests(&self) -> usize {
        self.tally.get().requests
    }

    /// The number of requests that this allocator refused since counting started. It does not
    /// include requests that `B` could not satisfy.
    pub fn refused(&self) -> usize {
        self.tally.get().refused
    }

    /// The number of requests that this allocator ever refused.
    pub(crate) fn ever_refused(&self) -> usize {
        self.tally.get().ever_refused
    }
}

// Takes only the cell, so that it is the same function for every allocator.
fn refuses(tally: &Cell<Requests>, size: usize) -> bool {
    let mut now = tally.get();
    let refused = now.ask(size);
    tally.set(now);
    refused
}

unsafe impl<B: Allocator> Allocator for Refusing<B> {
    ghost dealloc_token = { λ refusing. B.dealloc_token refusing.inner };

    fn allocate(&self, size: usize, align: usize) -> Result<*mut u8, AllocError> {
        if refuses(&self.tally, size) {
            return Err(AllocError);
        }
        self.inner.allocate(size, align)
    }

    unsafe fn deallocate(&self, ptr: *mut u8, size: usize, align: usize) {
        self.inner.deallocate(ptr, size, align);
    }
}
