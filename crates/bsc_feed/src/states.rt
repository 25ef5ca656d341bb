//! The state of each channel, told one after another.

ghost use Rattle.std.specs.Prelude.{◌≡◌};
ghost use Rattle.bsc_feed.specs.States.{IsNextPlace};

use crate::limits::MAX_PLACES;
use crate::places::has_place;
use bsc_station::Party;

/// Returns the first place from this one on at which the station has a channel.
pub(crate) fn next_place<P: Party>(station: &P, from: usize) -> Option<usize>
    ensures { IsNextPlace P.Party station.now from result }
{
    'places: for place in from..MAX_PLACES {
        if has_place(station, place) {
            return Some(place);
        }
    }
    None
}
