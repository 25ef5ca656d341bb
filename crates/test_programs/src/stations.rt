//! The stations of the tests.

ghost use Rattle.std.specs.Prelude.{◌≡◌};

use bsc_block::Record;
use bsc_config::{Config, read_config};
use bsc_connections::LiveError;
use bsc_control::{Control, Way};
use bsc_keeping::{Keeps, Prints};
use bsc_monitor::{Presence, Presences};
use bsc_spool::StoreFault;
use bsc_station::{LineTerminal, Party, new_control, new_terminal};
use std::alloc::Global;
use std::test::Fail;
use test_fixtures::configurations::THREE_ADDRESSES;
use test_fixtures::on_heap;

/// Returns the configuration of the tests: terminal 0 has two selection addresses, terminal 1 one.
pub(crate) fn line(alloc: Global) -> Result<Config, Fail> {
    Ok(read_config(alloc, THREE_ADDRESSES.as_bytes())?)
}

/// Returns the control station of the line.
pub(crate) fn control(alloc: Global) -> Result<Box<Control<Global>>, Fail> {
    on_heap(alloc, new_control(alloc, &line(alloc)?))
}

/// Returns terminal 0 of the line.
pub(crate) fn terminal(alloc: Global) -> Result<Box<LineTerminal<Global>>, Fail> {
    let config = line(alloc)?;
    if config.terminals() == 0 {
        return Err(Fail::new("no terminal"));
    }
    Ok(Box::new(alloc, new_terminal(alloc, &config, 0))?)
}

/// Prints nothing, and knows that terminal 1 was never visited.
#[derive(Drop)]
pub(crate) struct Quiet;

impl Presences for Quiet {
    ghost use Rattle.std.specs.Prelude.{◌==◌, None, Some, false, if◌then◌else◌, true};

    ghost wants = { λ _ _. true };

    ghost shows = { λ _ terminal. if terminal == 1
        then
        Some
        (record {
          polled = true;
          absent = false;
          answers = 0;
          naks = 0;
          repetitions = 0;
          silences = 0;
          heard = None;
        })
        else None };

    ghost obeys = { λ _ _ _ _. Unit {0} };

    fn wants(&self, _terminal: usize) -> bool {
        true
    }

    fn presence(&self, terminal: usize) -> Option<Presence> {
        if terminal != 1 {
            return None;
        }
        Some(Presence {
            polled: true,
            absent: false,
            answers: 0,
            naks: 0,
            repetitions: 0,
            silences: 0,
            heard: None,
        })
    }

    fn set_polled(&mut self, _terminal: usize, _polled: bool) {}
}

impl Prints for Quiet {
    ghost use Rattle.std.specs.Prelude.{Some};

    ghost printed = { λ _ _. Some 0 };

    ghost prints = { λ _ _ _ _. Unit {0} };

    fn printed(&self, _number: usize) -> Option<usize> {
        Some(0)
    }

    fn print<P: Party>(&mut self, _station: &P) {}
}

/// Keeps nothing, and gives each record back.
impl<S> Keeps<S> for Quiet {
    ghost use Rattle.std.specs.Prelude.{◌≡◌, Ok, Some};

    ghost keeps = { λ _ _ _ _. Unit {0} };

    ghost has_kept = { λ _ _ _ _. Unit {0} };

    ghost keeps_offer = { λ _ _ _ chars result _. result ≡ Ok chars };

    ghost prints = { λ _ _ _. Unit {0} };

    ghost printed = { λ _ _. Some 0 };

    fn keep(&mut self, _station: &S) -> Result<(), LiveError> {
        Ok(())
    }

    fn offered(&mut self, _terminal: usize, _way: Way, new: Record) -> Result<Record, StoreFault> {
        Ok(new)
    }

    fn print(&mut self, _station: &S) {}

    fn printed(&self, _number: usize) -> Option<usize> {
        Some(0)
    }
}
