//! A client of a station.

ghost use Rattle.std.specs.Prelude.{◌≡◌, Option, option_map};
ghost use Rattle.bsc_feed.specs.Answering.{serving_of};
ghost use Rattle.bsc_feed.specs.Clients.{IsNew, Nexts, TakesOctets, TellsState};
ghost use Rattle.bsc_feed.specs.Clients.{is_answered as answered};
ghost use Rattle.bsc_feed.specs.Texts.{IsWritten};
ghost use Rattle.bsc_feed.specs.declared.told.Told.{Told as ToldValue};

use crate::answering::answer;
use crate::follows::Follows;
use crate::states::next_place;
use crate::text::write_told;
use crate::told::Told;
use crate::{ClientLines, Served};
use bsc_station::Party;
use bsc_text::{PrintError, is_skipped};
use std::alloc::Allocator;
use std::io::Write;

/// A program that feeds a station, as the station sees it. It has the line that the client has
/// begun, the last line if it waits for its answer, how far the state of each channel is told, and
/// which channels are followed from which number on; nothing that is to be told is held.
#[derive(Drop)]
pub struct Client {
    lines: ClientLines,

    /// Whether the last line waits for its answer.
    waits: bool,

    /// The place from which the state of each channel is still to be told.
    telling: Option<usize>,

    follows: Follows,
}

/// Whether a line is answered: one that is skipped is not, and one that is too long is.
fn is_answered(line: Option<&[u8]>) -> bool
    ensures { result ≡ answered (option_map (λ l. l.now) line.entry) }
{
    match line {
        Some(line) => !is_skipped(line),
        None => true,
    }
}

impl Client {
    /// Creates a client from which nothing has arrived.
    pub fn new() -> Client
        ensures { IsNew result }
    {
        Client {
            lines: ClientLines::new(),
            waits: false,
            telling: None,
            follows: Follows::new(),
        }
    }

    /// Takes octets of the client up to the end of its next line, or all of them, and returns how
    /// many it took. While a line waits for its answer it takes none.
    pub fn take(&mut self, octets: &[u8]) -> usize
        ensures { TakesOctets self.old octets.now result self.new }
    {
        if self.waits {
            return 0;
        }
        let (taken, ended) = self.lines.feed(octets);
        if ended {
            self.waits = is_answered(self.lines.line());
        }
        taken
    }

    /// Writes the next line that the client is told, with its line feed, and returns whether there
    /// was one: the answer to its line, or else what happened on a channel that it follows. Before
    /// the state of the channel from a terminal that the station calls it writes the line for the
    /// terminal. A line of the client is obeyed here. After an error the step is done, and a part
    /// of the line may have been written.
    pub fn next_line<A: Allocator + Copy, S: Served, W: Write>(
        &mut self,
        alloc: A,
        station: &mut S,
        out: &mut W,
    ) -> Result<bool, PrintError>
        ensures { (told : Option ToldValue)
            × Nexts S.Party (serving_of S.Served.own) self.old station.old told self.new
            station.new
            × IsWritten S.Party S.shows station.new told result (W.contents out.old)
            (W.contents out.new) }
    {
        match self.next(alloc, station) {
            Some(told) => {
                write_told(alloc, station, told, out)?;
                Ok(true)
            }
            None => Ok(false),
        }
    }

    /// Takes the next step that has something to tell, and returns it: an answer, or what happened
    /// on a channel that is followed.
    fn next<A: Allocator + Copy, S: Served>(&mut self, alloc: A, station: &mut S) -> Option<Told>
        ensures { Nexts S.Party (serving_of S.Served.own) self.old station.old result self.new
            station.new }
    {
        if let Some(place) = self.telling {
            return Some(self.tell_state(place, station));
        }
        if !self.waits {
            return self.follows.tell(station);
        }
        self.waits = false;
        match answer(alloc, self.lines.line(), &mut self.follows, station) {
            Some(told) => Some(told),
            None => Some(self.tell_state(0, station)),
        }
    }

    /// Returns the state of the next channel from a place on, or that there is none.
    fn tell_state<P: Party>(&mut self, from: usize, station: &P) -> Told
        ensures { TellsState P.Party station.now self.old from result self.new }
    {
        match next_place(station, from) {
            Some(place) => {
                self.telling = Some(place + 1);
                Told::State { place }
            }
            None => {
                self.telling = None;
                Told::Done
            }
        }
    }
}
