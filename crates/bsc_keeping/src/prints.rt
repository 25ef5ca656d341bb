//! What was printed of the records that arrive.

ghost use Rattle.std.specs.Prelude.{◌≡◌, ℕ, Option};
ghost use Rattle.bsc_station.specs.declared.party.Party as party_of;

use bsc_station::Party;

/// What prints the records that arrive at a station, once they are kept.
pub trait Prints {
    /// How many records of this channel were printed, if that is known.
    ghost printed: { Self → ℕ → Option ℕ };

    /// What it prints of a station, of which this is known: the station, what prints before and
    /// after it.
    ghost prints: { {S Z : Type 0} → party_of.Ghosts S Z → S → Self → Self → Type 0 };

    /// Returns how many records were printed of the channel with this number among those on which
    /// the station receives; `None` if there is no such channel, or if it is not known.
    fn printed(&self, number: usize) -> Option<usize>
        ensures { result ≡ printed self.now number };

    /// Prints records that have arrived and are not printed yet, as long as standard output takes
    /// them without waiting.
    fn print<P: Party>(&mut self, station: &P)
        ensures { prints P.Party station.now self.old self.new };
}
