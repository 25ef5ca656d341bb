//! The machine of a runtime: its files and its loopback address.

ghost use Rattle.std.specs.Prelude.{◌≡◌};
ghost use Rattle.bsc_machine.specs.Showing.{IsOf, is_shown, shows};

use crate::errors::Errors;
use crate::screen::{Progress, Screen, progress};
use bsc_carrier::Cable;
use bsc_carrier::loopback::{LoopbackError, connect};
use bsc_chart::{Traces, write_passed_over};
use bsc_run::Cables;
use bsc_text::progress::Work;
use bsc_text::{Files, InputError, Unreadable, read_input};
use std::cell::Cell;
use std::env;
use std::fs::File;
use std::net::Net;
use std::rt::{Env, Files as Filing};
use std::time::Clock;

/// The variable of the environment that tells the width of the terminal.
const COLUMNS: &str = "COLUMNS";

/// The machine of this runtime.
#[derive(Drop)]
pub struct Machine<'a, R> {
    pub runtime: &'a R,

    /// Whether a flush of standard output also syncs it.
    pub syncs: &'a Cell<bool>,

    /// Where progress is shown.
    pub screen: &'a Screen,
}

impl<R: AllocGlobal + Filing> Files for Machine<'_, R> {
    fn read_file(&mut self, path: &str) -> Result<Vec<u8>, InputError> {
        match File::open(self.runtime, path) {
            Ok(mut file) => read_input(self.runtime.alloc(), &mut file),
            Err(error) => {
                let why = Unreadable::of(error.kind());
                Err(InputError::Device { why })
            }
        }
    }
}

impl<R: AllocGlobal + Env + Eprint + Filing + Net> Traces for Machine<'_, R> {
    type File = R::File;

    ghost tells = { λ _. Unit {0} };

    ghost opens = { λ _ _. Unit {0} };

    ghost refuses = { λ _ _. Unit {0} };

    fn open_trace(&mut self, path: &str) -> Result<R::File, Unreadable> {
        match File::open(self.runtime, path) {
            Ok(file) => Ok(file),
            Err(error) => Err(Unreadable::of(error.kind())),
        }
    }

    fn columns(&mut self) -> Option<String> {
        match env::var(self.runtime, COLUMNS) {
            Ok(text) => Some(text),
            Err(_) => None,
        }
    }

    /// Tells it on standard error. What standard error does not take at once is lost.
    fn passed_over(&mut self, count: u64) {
        let mut errors = Errors::new(self.runtime, self.screen, false);
        let _ = write_passed_over(count, &mut errors);
    }
}

impl<'a, R: AllocGlobal + Clock + Eprint + Net> Cables for Machine<'a, R> {
    type Stream = R::Stream;

    type Meter = Progress<'a, R>;

    fn meter(&mut self, work: Option<Work>) -> Progress<'a, R>
        ensures shown { shows result ≡ is_shown self.old.screen.now.is_terminal work }
        ensures counted { IsOf work result }
    {
        progress(self.runtime, self.screen, work)
    }

    fn connect(&mut self, count: usize) -> Result<Cable<R::Stream>, LoopbackError> {
        connect(self.runtime, self.runtime.alloc(), count)
    }
}
