//! What a line of a client does, and how it is answered.

ghost use Rattle.std.specs.Prelude.{◌≡◌, ℕ, Option, option_map, true, unwrap_or};
ghost use Rattle.bsc_feed.specs.Answering.{Answers, Does, FollowsIf, Offers, OffersAt, Releases};
ghost use Rattle.bsc_feed.specs.Answering.{ReleasesAt, counted, done_or, kept_or, serving_of};
ghost use Rattle.bsc_feed.specs.Commands.{asked_by};
ghost use Rattle.bsc_station.specs.Offering.{OffersBy, is_sending};
ghost use Rattle.bsc_feed.specs.Places.{IsFound, end_at as at_place, is_there};

use crate::follows::Follows;
use crate::places::{end_at, find, terminal_at, way_at};
use crate::told::Told;
use crate::{Command, Fault, Served, read_command};
use bsc_bid::ChannelName;
use bsc_block::Record;
use bsc_station::{ChannelEnd, Party};
use std::alloc::Allocator;

/// Does what a line asks for, and returns the answer; `None` if the state of each channel is to be
/// told. A line that is too long is not given.
pub(crate) fn answer<A: Allocator + Copy, S: Served>(
    alloc: A,
    line: Option<&[u8]>,
    follows: &mut Follows,
    station: &mut S,
) -> Option<Told>
    ensures { Answers S.Party
        (serving_of S.Served.own)
        (option_map (λ l. l.now) line.entry)
        follows.old station.old result follows.new station.new }
{
    match line {
        Some(line) => answer_line(alloc, line, follows, station),
        None => Some(Told::Refused {
            fault: Fault::LineTooLong,
        }),
    }
}

/// Does what a line asks for that is not too long.
fn answer_line<A: Allocator + Copy, S: Served>(
    alloc: A,
    line: &[u8],
    follows: &mut Follows,
    station: &mut S,
) -> Option<Told>
    ensures { Answers S.Party
        (serving_of S.Served.own)
        (Some line.now)
        follows.old station.old result follows.new station.new }
{
    match read_command(alloc, line) {
        Ok(command) => obey(command, follows, station),
        Err(fault) => Some(Told::Refused { fault }),
    }
}

/// Does what a command asks for, and returns the answer; `None` if the state of each channel is to
/// be told.
fn obey<A: Allocator, S: Served>(
    command: Command<'_, A>,
    follows: &mut Follows,
    station: &mut S,
) -> Option<Told>
    ensures { Does S.Party (serving_of S.Served.own)
        (asked_by command.entry)
        follows.old station.old result follows.new station.new }
{
    match command {
        Command::Offer { channel, codes } => Some(offer(channel, codes, station)),
        Command::OfferHex { channel, codes } => Some(offer(channel, codes.as_slice(), station)),
        Command::Status => None,
        Command::Release { channel, count } => Some(release(channel, count, station)),
        Command::Ready { ready } => Some(done(station.set_ready(ready))),
        Command::Urgent => Some(done(station.set_urgent())),
        Command::Poll { terminal, polled } => {
            Some(done(station.set_polled(terminal as usize, polled)))
        }
        Command::Follow { channel, from } => Some(follow(channel, from, follows, station)),
        Command::Stop => {
            station.stop();
            Some(Told::Done)
        }
    }
}

/// Returns the answer to a command that had this result.
fn done(outcome: Result<(), Fault>) -> Told
    ensures { result ≡ done_or outcome }
{
    match outcome {
        Ok(()) => Told::Done,
        Err(fault) => Told::Refused { fault },
    }
}

/// Offers a record of these codes on the channel with this name.
fn offer<S: Served>(channel: ChannelName, codes: &[u8], station: &mut S) -> Told
    ensures { (found : Option ℕ) × IsFound S.Party station.old channel found
        × Offers S.Party (OffersBy S.offered S.is_kept S.offers) S.full found codes.now station.old
        result station.new }
{
    match find(station, channel) {
        Some(place) => offer_at(place, codes, station),
        None => Told::Refused {
            fault: Fault::NoSuchChannel,
        },
    }
}

/// Whether the station sends on the channel at a place.
fn sends<P: Party>(station: &P, place: usize) -> bool
    ensures { result ≡ is_sending (at_place P.Party station.now place) }
{
    match end_at(station, place) {
        Some(ChannelEnd::Sending { .. }) => true,
        _ => false,
    }
}

/// Offers a record of these codes on the channel at a place.
fn offer_at<S: Served>(place: usize, codes: &[u8], station: &mut S) -> Told
    requires { is_there S.Party station.old place ≡ true }
    ensures { OffersAt (OffersBy S.offered S.is_kept S.offers) S.full place codes.now
        (at_place S.Party station.old place) station.old result station.new }
{
    if !sends(station, place) {
        return Told::Refused {
            fault: Fault::NotSending,
        };
    }
    match Record::read(codes, station.format().full()) {
        Ok(new) => kept(station.offer(terminal_at(place), way_at(place), new)),
        Err(error) => Told::Refused {
            fault: Fault::of_record(error),
        },
    }
}

/// Returns the answer to an offer that had this result.
fn kept(outcome: Result<usize, Fault>) -> Told
    ensures { result ≡ kept_or outcome }
{
    match outcome {
        Ok(number) => Told::Kept { number },
        Err(fault) => Told::Refused { fault },
    }
}

/// Ends the doubt of the channel with this name, of which the other end has this many records.
fn release<S: Served>(channel: ChannelName, count: u32, station: &mut S) -> Told
    ensures { (found : Option ℕ) × IsFound S.Party station.old channel found
        × Releases S.Party S.releases found count station.old result station.new }
{
    match find(station, channel) {
        Some(place) => release_at(place, count as usize, station),
        None => Told::Refused {
            fault: Fault::NoSuchChannel,
        },
    }
}

/// Ends the doubt of the channel at a place.
fn release_at<S: Served>(place: usize, count: usize, station: &mut S) -> Told
    requires { is_there S.Party station.old place ≡ true }
    ensures { ReleasesAt S.releases place count (at_place S.Party station.old place)
        station.old result station.new }
{
    if !sends(station, place) {
        return Told::Refused {
            fault: Fault::NotSending,
        };
    }
    done(station.release(terminal_at(place), way_at(place), count))
}

/// Follows the channel with this name, from a number on or from now on.
fn follow<P: Party>(
    channel: ChannelName,
    from: Option<u32>,
    follows: &mut Follows,
    station: &P,
) -> Told
    ensures { (found : Option ℕ) × IsFound P.Party station.now channel found
        × FollowsIf P.Party found from station.now follows.old result follows.new }
{
    match find(station, channel) {
        Some(place) => {
            follows.follow(place, first_number(place, from, station));
            Told::Done
        }
        None => Told::Refused {
            fault: Fault::NoSuchChannel,
        },
    }
}

/// Returns the number from which the channel at a place is followed: the one that is asked for, or
/// else how many records it has now.
fn first_number<P: Party>(place: usize, from: Option<u32>, station: &P) -> usize
    ensures { result ≡ unwrap_or from (counted (at_place P.Party station.now place)) }
{
    if let Some(from) = from {
        return from as usize;
    }
    match end_at(station, place) {
        Some(ChannelEnd::Sending { known, .. }) => known,
        Some(ChannelEnd::Receiving { records }) => records.len(),
        None => 0,
    }
}
