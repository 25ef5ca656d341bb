//! Keeping in a store.

ghost use Rattle.std.specs.Prelude.{◌≡◌};
ghost use Rattle.bsc_bid.specs.Ways.{select_of};
ghost use Rattle.bsc_keeping.specs.Stored.{live_kept};

use crate::{Keeper, Keeps, Prints};
use bsc_bid::Way;
use bsc_block::Record;
use bsc_connections::LiveError;
use bsc_spool::{Store, StoreFault};
use bsc_station::{LineStation, Party};

/// The store of a station, with what prints the records that arrive once they are kept.
#[derive(Drop)]
pub struct Stored<K: Drop, V: Drop> {
    /// What keeps in the store.
    pub keeper: Keeper<K>,

    /// What prints.
    pub printer: V,
}

/// Returns the number of the selection address of a channel; 0 for the channel from a terminal.
fn select_in(way: Way) -> usize
    ensures { result ≡ select_of way }
{
    match way {
        Way::FromTerminal => 0,
        Way::ToTerminal(select) => select,
    }
}

/// Returns what the result of keeping is to a station that is attended.
fn live(kept: Result<(), StoreFault>) -> Result<(), LiveError>
    ensures { result ≡ live_kept kept }
{
    match kept {
        Ok(()) => Ok(()),
        Err(_) => Err(LiveError::Unkept),
    }
}

impl<S: LineStation, K: Store + Drop, V: Prints + Drop> Keeps<S> for Stored<K, V> {
    ghost use Rattle.bsc_keeping.specs.Stored.{HasKept, KeepsOfferStored, KeepsStored};
    ghost use Rattle.bsc_keeping.specs.Stored.{PrintsStored};

    ghost keeps = { KeepsStored S.Party S.kept_at K.Store V.printed };

    ghost has_kept = { λ s terminal way chars. HasKept K.Store terminal way chars s.keeper };

    ghost keeps_offer = { KeepsOfferStored K.Store };

    ghost prints = { λ old station new. PrintsStored (V.prints S.Party station) old new };

    ghost printed = { λ s number. V.printed s.printer number };

    fn keep(&mut self, station: &S) -> Result<(), LiveError> {
        live(self.keeper.keep(station, &self.printer))
    }

    fn offered(&mut self, terminal: usize, way: Way, new: Record) -> Result<Record, StoreFault> {
        self.keeper.offer(terminal, select_in(way), new)
    }

    fn print(&mut self, station: &S) {
        self.printer.print(station);
    }

    fn printed(&self, number: usize) -> Option<usize> {
        self.printer.printed(number)
    }
}
