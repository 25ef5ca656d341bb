//! What keeps what a station changes.

ghost use Rattle.std.specs.Prelude.{◌≡◌, ℕ, IfOk, List, OnOk, Option, Result};
ghost use Rattle.bsc_bid.specs.declared.way.Way.{Way as WayValue};
ghost use Rattle.bsc_connections.specs.declared.awaited.LiveError.{LiveError as LiveErrorValue};
ghost use Rattle.bsc_spool.specs.declared.fault.StoreFault.{StoreFault as StoreFaultValue};

use bsc_bid::Way;
use bsc_block::Record;
use bsc_connections::LiveError;
use bsc_spool::StoreFault;

/// What keeps what a station of type `S` changes before its answer is sent: a store, or, where
/// there is none, standard output, to which the records are printed that arrive.
pub trait Keeps<S> {
    /// What it does to keep what the station has changed: what keeps, the station, the result, what
    /// keeps after it.
    ghost keeps: { Self → S → Result (Unit {0}) LiveErrorValue → Self → Type 0 };

    /// A record of these characters was kept as offered on the channel of this terminal in this
    /// direction, and nothing was kept after it.
    ghost has_kept: { Self → ℕ → WayValue → List ℕ → Type 0 };

    /// What it does to keep a record that is going to be offered: what keeps, the terminal, the
    /// direction, the characters, the result, what keeps after it.
    ghost keeps_offer: { Self → ℕ → WayValue → List ℕ → Result (List ℕ) StoreFaultValue → Self
        → Type 0 };

    /// What it prints of the records that are kept: what keeps, the station, what keeps after it.
    ghost prints: { Self → S → Self → Type 0 };

    /// How many records were printed of the channel with this number, if that is known.
    ghost printed: { Self → ℕ → Option ℕ };

    /// Keeps what the station has changed since what is kept. Fails with `Unkept` or `Unprinted` if
    /// it is not kept, and with `Memory`; then nothing may be sent that rests on it.
    fn keep(&mut self, station: &S) -> Result<(), LiveError>
        ensures { keeps self.old station.now result self.new };

    /// Keeps a record that is going to be offered on a channel on which the station sends, and
    /// returns it. Fails if it is not kept; then nothing is.
    fn offered(&mut self, terminal: usize, way: Way, new: Record) -> Result<Record, StoreFault>
        ensures kept { OnOk result (has_kept self.new terminal way new) }
        ensures keeps { keeps_offer self.old terminal way new result self.new }
        ensures same { IfOk result (λ r. r ≡ new) };

    /// Prints records that are kept and not printed yet, as long as standard output takes them
    /// without waiting.
    fn print(&mut self, station: &S)
        ensures { prints self.old station.now self.new };

    /// Returns how many records were printed of the channel with this number among those on which
    /// the station receives; `None` if there is no such channel, or if it is not known.
    fn printed(&self, number: usize) -> Option<usize>
        ensures { result ≡ printed self.now number };
}
