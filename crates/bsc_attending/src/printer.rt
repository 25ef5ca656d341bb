//! The records that arrive at a station whose records are kept are printed as standard output takes
//! them. A station that runs never waits for its reader: what is not printed yet is kept. Once it
//! has ended, the rest is printed.

ghost use Rattle.std.specs.Prelude.{◌≡◌, None, IfOk, slice_index};
ghost use Rattle.bsc_attending.specs.Printer.{Follows, Turn, WritesSome, followed_of};
ghost use Rattle.bsc_attending.specs.Printer.{has_unprinted, outcome_after};

use crate::Readiness;
use crate::cut_short::CutShort;
use bsc_keeping::Prints;
use bsc_report::{RecordLines, print_some};
use bsc_station::Party;
use bsc_text::{PrintError, put};
use std::alloc::Global;
use std::io::Write;

/// The most octets that a line of a record has: the name of a channel, a number of 20 digits, and
/// 144 characters of which each is printed as four.
const MAX_LINE: usize = 640;

/// How often in a row the output is asked, at most, before the station is attended further.
const TURNS: u32 = 16;

/// What is told on standard error once records cannot be printed. It begins as the faults of the
/// program do, which `chart` skips in a trace, since it has no time.
const NOTICE: &[u8] = b"bscline: records cannot be printed, and are only kept\n";

/// Prints the records of a station whose records are kept.
#[derive(Drop)]
pub(crate) struct Printer<'a, W, D: Drop, R: Drop> {
    alloc: Global,

    /// How records are printed.
    lines: RecordLines,

    /// The number of records printed for each channel on which the station receives.
    printed: Vec<usize>,

    /// Standard output.
    out: &'a mut W,

    /// Whether standard output takes more.
    readiness: R,

    /// Where it is told that records cannot be printed.
    notices: D,

    /// Why records cannot be printed any more.
    fault: Option<PrintError>,
}

impl<'a, W: Write, D: Write + Drop, R: Readiness + Drop> Printer<'a, W, D, R> {
    /// Returns a printer of a station of which this many records were printed before, for each
    /// channel on which it receives.
    pub(crate) fn new(
        alloc: Global,
        lines: RecordLines,
        printed: Vec<usize>,
        out: &'a mut W,
        readiness: R,
        notices: D,
    ) -> Printer<'a, W, D, R>
        ensures lines { result.lines ≡ lines }
        ensures printed { result.printed ≡ printed }
        ensures fault { result.fault ≡ None }
    {
        Printer {
            alloc,
            lines,
            printed,
            out,
            readiness,
            notices,
            fault: None,
        }
    }

    /// Prints records that have arrived at the station and are not printed yet, in turns, as long
    /// as standard output takes them without waiting, and not for long. Returns whether there may
    /// be more to print.
    fn print_turns<P: Party>(&mut self, station: &P) -> bool
        ensures { Follows P.Party station.now (followed_of W.contents self.old)
            (followed_of W.contents self.new) }
    {
        'turns: for _ in 0..TURNS {
            let most = self.readiness.room() / MAX_LINE;
            if most == 0 {
                return true;
            }
            if !self.print_turn(station, most) {
                return false;
            }
        }
        true
    }

    /// Prints records that have arrived at the station and are not printed yet, at most this many,
    /// even if standard output has to be waited for. Returns whether there may be more to print.
    pub(crate) fn print_turn<P: Party>(&mut self, station: &P, most: usize) -> bool
        ensures { Turn P.Party station.now most result (followed_of W.contents self.old)
            (followed_of W.contents self.new) }
    {
        if self.fault.is_some() {
            return false;
        }
        match self.write_some(station, most) {
            Ok(left) => left == 0,
            Err(fault) => {
                self.fault = Some(fault);
                // If nobody reads this either, the result of the station tells it.
                let _ = put(NOTICE, &mut self.notices);
                false
            }
        }
    }

    /// Writes the lines of records that are not printed yet, at most this many, and flushes the
    /// output. Returns how many more could have been printed.
    fn write_some<P: Party>(&mut self, station: &P, most: usize) -> Result<usize, PrintError>
        ensures writes { IfOk result (λ left.
            WritesSome P.Party station.now most left (followed_of W.contents self.old)
            (followed_of W.contents self.new)) }
        ensures fault { self.new.fault ≡ self.old.fault }
    {
        // There is a count for each channel on which the station of this printer receives.
        if self.printed.len() != station.spools() {
            return Err(PrintError::Output);
        }
        let left = print_some(
            self.alloc,
            self.lines,
            station,
            &mut self.printed,
            most,
            self.out,
        )?;
        self.out.flush()?;
        Ok(left)
    }

    /// Returns whether records have arrived that are not printed and still can be.
    fn has_unprinted<P: Party>(&self, station: &P) -> bool
        ensures { result ≡ has_unprinted P.Party station.now (followed_of W.contents self.now) }
    {
        if self.fault.is_some() {
            return false;
        }
        let mut found = false;
        'channels: for number in 0..station.spools() {
            found |= self.printed_on(number) < station.received(number).records.len();
        }
        found
    }

    /// Returns how many records of this channel are printed; 0 if there is no such channel.
    fn printed_on(&self, number: usize) -> usize
        ensures { result ≡ slice_index self.now.printed.items number }
    {
        match self.printed.get(number) {
            Some(count) => *count,
            None => 0,
        }
    }

    /// Returns what became of the records: the fault, if they cannot be printed any more.
    pub(crate) fn outcome(&self) -> Result<(), CutShort>
        ensures { result ≡ outcome_after self.now.fault }
    {
        match self.fault {
            None => Ok(()),
            Some(PrintError::Output) => Err(CutShort::Unprinted),
            Some(PrintError::Memory) => Err(CutShort::Memory),
        }
    }
}

impl<'a, W: Write, D: Write + Drop, R: Readiness + Drop> Prints for Printer<'a, W, D, R> {
    ghost use Rattle.bsc_attending.specs.Printer.{Follows, followed_of, printed_by};

    ghost printed = { λ p. printed_by (followed_of W.contents p) };

    ghost prints = { λ party station old new.
        Follows party station (followed_of W.contents old) (followed_of W.contents new) };

    /// Once records cannot be printed any more, it is not known which of the last ones were, and
    /// nothing more is counted.
    fn printed(&self, number: usize) -> Option<usize> {
        match self.fault {
            None => self.printed.get(number).copied(),
            Some(_) => None,
        }
    }

    /// If some are left, the station is called once standard output takes more.
    fn print<P: Party>(&mut self, station: &P) {
        if self.has_unprinted(station) && self.print_turns(station) {
            self.readiness.call_when_ready();
        }
    }
}
