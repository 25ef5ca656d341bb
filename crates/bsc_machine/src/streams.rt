//! The standard streams of the program, and what its machine has to know of them.

ghost use Rattle.std.specs.Prelude.{◌≡◌, true};

use crate::errors::Errors;
use crate::machine::Machine;
use crate::output::Output;
use crate::screen::Screen;
use std::cell::Cell;
use std::io::writer;

/// Standard output and standard error. Each of the values that they lend has the same of both.
#[derive(Drop)]
pub struct Streams {
    /// Whether a flush of standard output also syncs it.
    syncs: Cell<bool>,

    /// Standard error.
    screen: Screen,
}

impl Streams {
    /// Returns the streams of a program that has written nothing. Nothing syncs, and no progress is
    /// shown. Standard error may be a terminal.
    pub fn new(is_terminal: bool) -> Streams
        ensures { result.screen.is_terminal ≡ is_terminal }
    {
        Streams {
            syncs: Cell::new(false),
            screen: Screen {
                is_terminal,
                shows: Cell::new(false),
            },
        }
    }

    /// Returns the machine of this runtime.
    pub fn machine<'a, R>(&'a self, runtime: &'a R) -> Machine<'a, R>
        ensures runtime { result.runtime ≡ runtime.entry }
        ensures syncs { result.syncs.now ≡ self.now.syncs }
        ensures screen { result.screen.now ≡ self.now.screen }
    {
        Machine {
            runtime,
            syncs: &self.syncs,
            screen: &self.screen,
        }
    }

    /// Returns standard output of this runtime.
    pub fn output<'a, R: Print>(&'a self, runtime: &'a R) -> Output<'a, R>
        ensures runtime { result.runtime ≡ runtime.entry }
        ensures syncs { result.syncs.now ≡ self.now.syncs }
        ensures screen { result.screen.now ≡ self.now.screen }
    {
        Output {
            runtime,
            writer: writer(runtime),
            syncs: &self.syncs,
            screen: &self.screen,
        }
    }

    /// Returns standard error of this runtime.
    pub fn errors<'a, R>(&'a self, runtime: &'a R) -> Errors<'a, R>
        ensures runtime { result.runtime ≡ runtime.entry }
        ensures screen { result.screen.now ≡ self.now.screen }
        ensures fails { result.may_fail ≡ true }
    {
        Errors::new(runtime, &self.screen, true)
    }

    /// Clears the line that shows progress, if it is there. What standard error does not take is
    /// lost.
    pub fn clear<R: Eprint>(&self, runtime: &R) {
        self.screen.clear(runtime);
    }
}
