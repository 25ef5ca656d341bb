//! What has happened on a channel that is followed.

ghost use Rattle.std.specs.Prelude.{◌≡◌, ◌<◌, ◌≤◌, None, length};
ghost use Rattle.bsc_feed.specs.News.{IsFirstNews, news_at as at_place, news_of as of_end};
ghost use Rattle.bsc_station.specs.EndValues.{end_of};

use crate::places::end_at;
use crate::told::Told;
use bsc_station::{ChannelEnd, Party};
use std::alloc::Allocator;

/// What is to be told of a channel, and from which number on it is followed after that.
#[derive(Clone, Copy)]
pub(crate) struct News {
    pub told: Told,
    pub next: usize,
}

/// Returns what is to be told of the end of the channel at a place, which is followed from a number
/// on: the next record that arrived, or how many are known to have arrived.
fn news_of<A: Allocator>(end: &ChannelEnd<'_, A>, place: usize, next: usize) -> Option<News>
    ensures { result ≡ of_end (end_of end.now) place next }
{
    match end {
        ChannelEnd::Sending { known, .. } => {
            let known = *known;
            if next < known {
                return Some(News {
                    told: Told::Delivered { place, known },
                    next: known,
                });
            }
            None
        }
        ChannelEnd::Receiving { records } => {
            if next < records.len() {
                return Some(News {
                    told: Told::Arrived {
                        place,
                        number: next,
                    },
                    next: next + 1,
                });
            }
            None
        }
    }
}

/// Returns what is to be told of the channel at a place, which is followed from a number on, if it
/// is followed.
fn news_at<P: Party>(station: &P, place: usize, next: Option<usize>) -> Option<News>
    ensures { result ≡ at_place P.Party station.now place next }
{
    let next = next?;
    match end_at(station, place) {
        Some(end) => news_of(&end, place, next),
        None => None,
    }
}

/// A place with news.
#[derive(Clone, Copy)]
pub(crate) struct PlaceNews {
    pub place: usize,
    pub news: News,
}

/// Returns the first of these places of which there is something to tell.
pub(crate) fn first_news<P: Party>(
    station: &P,
    next: &[Option<usize>],
    from: usize,
    to: usize,
) -> Option<PlaceNews>
    requires { to ≤ length next.now }
    ensures { IsFirstNews P.Party station.now next.now from to result }
{
    'places: for place in from..to {
        if let Some(news) = news_at(station, place, next[place]) {
            return Some(PlaceNews { place, news });
        }
    }
    None
}
