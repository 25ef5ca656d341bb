//! Two buffers in turn: what is complete stays in its buffer while the next one begins in the
//! other, so that octets are copied once.

ghost use Rattle.std.specs.Prelude.{◌≡◌, ◌+◌, ◌≤◌, [], ◌++◌, length};
ghost use Rattle.bsc_carrier.specs.TwoBuffers.{holds};

use arrayvec::ArrayVec;
use std::marker::Model;

/// Octets that have begun, and the octets that were complete last, at most `N` of each.
#[derive(Drop)]
pub struct TwoBuffers<const N: usize> {
    first: ArrayVec<u8, N>,
    second: ArrayVec<u8, N>,
    // Whether what has begun is in the first buffer.
    begins_in_first: bool,
}

impl<const N: usize> Model for TwoBuffers<N> {
    ghost use Rattle.bsc_carrier.specs.TwoBuffers.{TwoBuffersValue, holds};

    ghost Value = { TwoBuffersValue };

    ghost view = { λ b. holds b.begins_in_first b.first.items b.second.items };
}

impl<const N: usize> TwoBuffers<N> {
    /// Creates two empty buffers.
    pub fn new() -> Self
        ensures begun { result.begun ≡ [] }
        ensures complete { result.complete ≡ [] }
    {
        TwoBuffers {
            first: ArrayVec::new(),
            second: ArrayVec::new(),
            begins_in_first: true,
        }
    }

    /// Returns the octets that have begun, at most `N`.
    pub fn begun(&self) -> &[u8]
        ensures value { result.now ≡ self.now.begun }
        ensures bound { length self.now.begun ≤ N }
    {
        if self.begins_in_first {
            return self.first.as_slice();
        }
        self.second.as_slice()
    }

    /// Returns the octets that were complete last, none at first, at most `N`.
    pub fn complete(&self) -> &[u8]
        ensures value { result.now ≡ self.now.complete }
        ensures bound { length self.now.complete ≤ N }
    {
        if self.begins_in_first {
            return self.second.as_slice();
        }
        self.first.as_slice()
    }

    /// Appends octets to those that have begun. Together they are at most `N`.
    pub fn append(&mut self, octets: &[u8])
        requires { length self.old.begun + length octets.now ≤ N }
        ensures begun { self.new.begun ≡ self.old.begun ++ octets.now }
        ensures complete { self.new.complete ≡ self.old.complete }
    {
        if self.begins_in_first {
            self.first.try_extend_from_slice(octets).unwrap();
        } else {
            self.second.try_extend_from_slice(octets).unwrap();
        }
    }

    /// Makes what has begun complete, in the place of what was complete. Nothing has begun after
    /// it.
    pub fn turn(&mut self)
        ensures begun { self.new.begun ≡ [] }
        ensures complete { self.new.complete ≡ self.old.begun }
    {
        self.begins_in_first = !self.begins_in_first;
        if self.begins_in_first {
            self.first.clear();
        } else {
            self.second.clear();
        }
    }
}
