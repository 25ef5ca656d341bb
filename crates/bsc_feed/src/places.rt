//! The places of channels in the report of a station.

ghost use Rattle.std.specs.Prelude.{◌≡◌, ◌<◌, option_map, true};
ghost use Rattle.bsc_bid.specs.declared.limits.TheConstants.{MAX_SELECTS};
ghost use Rattle.bsc_bid.specs.declared.limits.TheConstants.{MAX_TERMINALS};
ghost use Rattle.bsc_feed.specs.Places.{end_at as at_place, has_way as way_there, IsFound};
ghost use Rattle.bsc_feed.specs.Places.{is_there, IsNamed, terminal_at as terminal, way_at as way};
ghost use Rattle.bsc_feed.specs.Places.{place_of as place};
ghost use Rattle.bsc_station.specs.EndValues.{end_of};

use crate::limits::PLACES;
use bsc_bid::limits::{MAX_SELECTS, MAX_TERMINALS};
use bsc_bid::{ChannelName, Way};
use bsc_station::{ChannelEnd, Party};

/// Returns the terminal of the channel at a place, counted from 0 among those of the station.
pub(crate) fn terminal_at(place: usize) -> usize
    ensures { result ≡ terminal place }
{
    place / PLACES
}

/// Returns the direction of the channel at a place.
pub(crate) fn way_at(place: usize) -> Way
    ensures { result ≡ way place }
{
    let order = place % PLACES;
    if order == 0 {
        Way::FromTerminal
    } else {
        Way::ToTerminal(order - 1)
    }
}

/// Returns the place of a channel. The terminal must be one of 64, and the address one of 4.
fn place_of(terminal: usize, way: Way) -> usize
    requires terminal { terminal < MAX_TERMINALS }
    requires address { way_there way MAX_SELECTS ≡ true }
    ensures { result ≡ place terminal way }
{
    match way {
        Way::FromTerminal => terminal * PLACES,
        Way::ToTerminal(select) => terminal * PLACES + (select + 1),
    }
}

/// Whether a terminal with this number of addresses has a channel in this direction.
fn has_way(way: Way, addresses: usize) -> bool
    ensures { result ≡ way_there way addresses }
{
    match way {
        Way::FromTerminal => true,
        Way::ToTerminal(select) => select < addresses,
    }
}

/// Whether the station has a channel at this place.
pub(crate) fn has_place<P: Party>(station: &P, place: usize) -> bool
    ensures { result ≡ is_there P.Party station.now place }
{
    let terminal = terminal_at(place);
    if terminal >= station.terminals() {
        return false;
    }
    has_way(way_at(place), station.addresses(terminal))
}

/// Returns the end of the channel at a place, if the station has one there.
pub(crate) fn end_at<P: Party>(station: &P, place: usize) -> Option<ChannelEnd<'_, P::Memory>>
    ensures { option_map end_of result ≡ at_place P.Party station.now place }
{
    if !has_place(station, place) {
        return None;
    }
    Some(station.end(terminal_at(place), way_at(place)))
}

/// Returns the place of the channel with this name, or `None` if the station has no such channel.
pub(crate) fn find<P: Party>(station: &P, channel: ChannelName) -> Option<usize>
    ensures { IsFound P.Party station.now channel result }
{
    let way = channel.way;
    if !has_way(way, MAX_SELECTS) {
        return None;
    }
    'terminals: for terminal in 0..station.terminals().min(MAX_TERMINALS) {
        if station.number(terminal) == channel.terminal
            && has_way(way, station.addresses(terminal))
        {
            return Some(place_of(terminal, way));
        }
    }
    None
}
