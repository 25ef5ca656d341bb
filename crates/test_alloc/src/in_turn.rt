//! The runs of a test that refuses each request in turn.

use crate::turns::{TurnError, Turns};
use crate::{Refusal, Refusing};
use std::alloc::{Allocator, Global};

/// The numbers of the runs of a test; in each run, the requests that the number stands for are
/// refused. See [`Refusing::in_turn`].
#[derive(Drop)]
pub struct InTurn<'a, B: Allocator = Global> {
    pub(crate) alloc: &'a Refusing<B>,
    pub(crate) refusal: Refusal,
    pub(crate) turns: Turns,

    /// The number of requests ever refused before the current run.
    pub(crate) refused_before: usize,
}

impl<'a, B: Allocator> Iterator for InTurn<'a, B> {
    type Item = Result<usize, TurnError>;

    ghost use Rattle.std.specs.Iterator.{at_most};

    ghost remaining = { λ runs. at_most runs.turns.left };

    fn next(&mut self) -> Option<Result<usize, TurnError>> {
        let refused = self.alloc.ever_refused();
        let is_refused = refused != self.refused_before;
        self.refused_before = refused;
        let next = self.turns.next(is_refused);
        match next {
            Some(Ok(number)) => self.alloc.refuse(self.refusal, number),
            _ => self.alloc.refuse_none(),
        }
        next
    }
}
