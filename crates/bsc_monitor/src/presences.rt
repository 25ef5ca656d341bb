//! Monitors that know which terminals of a control station are there.

ghost use Rattle.std.specs.Prelude.{◌≡◌, Bool, Option, ℕ};
ghost use Rattle.bsc_monitor.specs.declared.attendance.Presence.{Presence as PresenceValue};

use crate::{Presence, TerminalWatch};
use bsc_text::progress::{Meter, Timer};
use std::alloc::Allocator;
use std::io::Write;

/// A monitor that knows which terminals of its station are there, and so which are to be polled.
/// Terminals have their numbers on the line.
pub trait Presences {
    /// Whether the terminal with this number is to be polled.
    ghost wants: { Self → ℕ → Bool };

    /// What is known of the terminal with this number.
    ghost shows: { Self → ℕ → Option PresenceValue };

    /// What it does when a program lets a terminal be called again, or has it called no more: the
    /// monitor before, the terminal, whether it is to be called, the monitor after.
    ghost obeys: { Self → ℕ → Bool → Self → Type 0 };

    /// Returns whether the terminal with this number is to be polled.
    fn wants(&self, terminal: usize) -> bool
        ensures { result ≡ wants self.now terminal };

    /// Returns what is known of the terminal with this number; `None` if the station does not call
    /// it.
    fn presence(&self, terminal: usize) -> Option<Presence>
        ensures { result ≡ shows self.now terminal };

    /// Lets a terminal be called again, or has it called no more, as a program asks.
    fn set_polled(&mut self, terminal: usize, polled: bool)
        ensures { obeys self.old terminal polled self.new };
}

impl<'a, A: Allocator + Copy, T: Timer + Meter + Drop, D: Write> Presences
    for TerminalWatch<'a, A, T, D> {
    ghost use Rattle.std.specs.Prelude.{◌≡◌, None, true};

    ghost wants = { λ _ _. true };

    ghost shows = { λ _ _. None };

    ghost obeys = { λ old _ _ new. new ≡ old };

    fn wants(&self, _terminal: usize) -> bool {
        true
    }

    fn presence(&self, _terminal: usize) -> Option<Presence> {
        None
    }

    fn set_polled(&mut self, _terminal: usize, _polled: bool) {}
}
