//! A whole script.
ghost use Rattle.std.specs.Prelude.{◌≡◌, ◌+◌, ◌<◌, ◌≤◌, ◌^◌, ℕ, IfOk, length, map};
ghost use Rattle.bsc_config.specs.Actions.{event_in, numbered};
ghost use Rattle.bsc_config.specs.Events.{event_of};
ghost use Rattle.bsc_config.specs.Script.{events_of};

use crate::script::reading::read_action;
use crate::script::{Action, Step};
use bsc_text::{is_skipped, split_line, without_return};
use std::alloc::{AllocError, AllocFailed, Allocator};
use std::marker::Model;
use thiserror::Error;

/// The reason for refusing a text as a script.
#[derive(Clone, Copy, Debug, PartialEq, Eq, Error)]
pub enum ScriptError {
    /// The line with this number, counted from 1, is the first that is neither skipped nor an
    /// event.
    #[error("script line {line}: not an event")]
    NotAnEvent { line: u64 },

    /// An allocation failed. This may come in place of `NotAnEvent`.
    #[error("out of memory")]
    Memory,
}

impl From<AllocError> for ScriptError {
    ghost use Rattle.std.specs.Prelude.{◌≡◌};
    ghost use Rattle.bsc_config.specs.declared.script.script.ScriptError.TheVariants.{Memory};

    ghost from_gives = { λ _ error. error ≡ Memory };

    fn from(_error: AllocError) -> ScriptError {
        ScriptError::Memory
    }
}

impl<T: Drop> From<AllocFailed<T>> for ScriptError {
    ghost use Rattle.std.specs.Prelude.{◌≡◌};
    ghost use Rattle.bsc_config.specs.declared.script.script.ScriptError.TheVariants.{Memory};

    ghost from_gives = { λ _ error. error ≡ Memory };

    fn from(_error: AllocFailed<T>) -> ScriptError {
        ScriptError::Memory
    }
}

/// The events of a script, in the order of their lines.
#[derive(Drop)]
pub struct Script<'a, A: Allocator> {
    steps: Vec<Step<'a, A>, A>,
}

impl<'a, A: Allocator> Model for Script<'a, A> {
    ghost use Rattle.std.specs.Prelude.{List, map};
    ghost use Rattle.bsc_config.specs.Actions.{NumberedEvent, numbered};

    ghost Value = { List NumberedEvent };

    ghost view = { λ s. map numbered s.steps.items };
}

impl<'a, A: Allocator> Script<'a, A> {
    /// Returns the events, each with the number of its line.
    pub fn steps(&self) -> &[Step<'a, A>]
        ensures { map numbered result.now ≡ self.now }
    {
        self.steps.as_slice()
    }
}

/// Reads the events of a text. Returns `NotAnEvent` with the number of the first wrong line, if
/// there is one; `Memory` may come in place of it.
pub fn read_script<'a, A: Allocator + Copy>(
    alloc: A,
    text: &'a [u8],
) -> Result<Script<'a, A>, ScriptError>
    ensures ok { IfOk result (λ script. events_of text.now ≡ Ok script) }
    ensures wrong { (n : ℕ) → result ≡ Err (ScriptError.NotAnEvent n) → events_of text.now ≡ Err n }
{
    let mut steps = Vec::new(alloc);
    let mut before = 0;
    let mut left = text;
    'lines: loop {
        let (part, rest) = split_line(left);
        let line = without_return(part);
        if !is_skipped(line) {
            steps.push(read_step(alloc, line, before)?)?;
        }
        match rest {
            Some(rest) => left = rest,
            None => return Ok(Script { steps }),
        }
        before += 1;
    }
}

/// Reads the event of a line with `before` lines before it.
fn read_step<'a, A: Allocator + Copy>(
    alloc: A,
    line: &'a [u8],
    before: u64,
) -> Result<Step<'a, A>, ScriptError>
    requires some { 1 ≤ length line.now }
    requires counted { before + length line.now < 2 ^ 64 }
    ensures line { IfOk result (λ step. step.line ≡ before + 1) }
    ensures event { IfOk result (λ step. event_of line.now ≡ Some (event_in step.action)) }
    ensures wrong { (n : ℕ) → result ≡ Err (ScriptError.NotAnEvent n) →
        (n ≡ before + 1) × (event_of line.now ≡ None) }
{
    match read_action(alloc, line)? {
        Some(action) => Ok(Step {
            line: before + 1,
            action,
        }),
        None => Err(ScriptError::NotAnEvent { line: before + 1 }),
    }
}
