//! A station and the channels that end at it.

ghost use Rattle.std.specs.Prelude.{◌≡◌, ◌<◌, ℕ};
ghost use Rattle.bsc_bid.specs.declared.way.Way.{Way as WayValue};
ghost use Rattle.bsc_station.specs.Ends.{End, IsWay, receiving};
ghost use Rattle.bsc_station.specs.EndValues.{end_of};

use crate::ChannelEnd;
use bsc_block::Records;
use bsc_control::Way;
use std::alloc::Allocator;

/// A channel on which a station receives, and the records that arrived on it.
#[derive(Drop)]
pub struct Received<'a, A: Allocator> {
    /// The terminal of the channel, counted from 0 among the terminals that the station knows.
    pub terminal: usize,

    /// The direction of the channel.
    pub way: Way,

    /// The records that arrived.
    pub records: &'a Records<A>,
}

/// A station that knows the channels ending at it: the control station knows those of all
/// terminals, a terminal knows its own. Terminals are counted from 0 among those that the station
/// knows.
pub trait Party {
    /// The memory of its records.
    type Memory: Allocator;

    /// The number of terminals that the station knows.
    ghost count: { Self → ℕ };

    /// Their numbers on the line.
    ghost numbers: { Self → ℕ → ℕ };

    /// The number of selection addresses of each.
    ghost selects: { Self → ℕ → ℕ };

    /// The end of each of their channels at this station.
    ghost ends: { Self → ℕ → WayValue → End };

    /// The number of channels on which the station receives.
    ghost receives: { Self → ℕ };

    /// The terminal and the direction of each of those channels.
    ghost terminal_of: { ℕ → ℕ };

    ghost way_of: { ℕ → WayValue };

    /// Returns the number of terminals that the station knows.
    fn terminals(&self) -> usize
        ensures { result ≡ count self.now };

    /// Returns the number of a terminal on the line, counted from 0. The station must know the
    /// terminal.
    fn number(&self, terminal: usize) -> usize
        requires { terminal < count self.now }
        ensures { result ≡ numbers self.now terminal };

    /// Returns the number of selection addresses of a terminal, 1 to 4. The station must know the
    /// terminal.
    fn addresses(&self, terminal: usize) -> usize
        requires { terminal < count self.now }
        ensures { result ≡ selects self.now terminal };

    /// Returns the end of a channel at this station. The station must know the terminal, and the
    /// terminal must have the address.
    fn end(&self, terminal: usize, way: Way) -> ChannelEnd<'_, Self::Memory>
        requires known { terminal < count self.now }
        requires its_way { IsWay way (selects self.now terminal) }
        ensures { end_of result ≡ ends self.now terminal way };

    /// Returns the number of channels on which the station receives.
    fn spools(&self) -> usize
        ensures { result ≡ receives self.now };

    /// Returns the channel with this number among those on which the station receives. The channel
    /// must exist.
    fn received(&self, number: usize) -> Received<'_, Self::Memory>
        requires { number < receives self.now }
        ensures terminal { result.terminal ≡ terminal_of number }
        ensures way { result.way ≡ way_of number }
        ensures known { result.terminal < count self.now }
        ensures records { ends self.now (terminal_of number) (way_of number)
            ≡ receiving result.records.now.items };
}
