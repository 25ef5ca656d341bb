//! Keeping by printing: a station without a store.

ghost use Rattle.std.specs.Prelude.{◌≡◌, IfErr, IfOk, OnOk, replicate, slice_get};
ghost use Rattle.bsc_keeping.specs.Printed.{IsFlushed, IsUnprinted, PrintsArrivals, output_of};

use crate::Keeps;
use bsc_bid::Way;
use bsc_block::Record;
use bsc_connections::LiveError;
use bsc_report::{RecordLines, RecordWriter, print_arrivals};
use bsc_spool::StoreFault;
use bsc_station::Party;
use bsc_text::PrintError;
use std::alloc::{AllocError, Global};
use std::io::Write;

/// Prints the records that arrive at a station before they are acknowledged. So whatever a peer
/// counts as delivered was printed and flushed; nothing else is kept.
#[derive(Drop)]
pub struct Printed<'a, W> {
    alloc: Global,

    /// How records are printed.
    lines: RecordLines,

    /// The number of records printed for each channel on which the station receives.
    printed: Vec<usize>,

    /// Where they are printed.
    out: RecordWriter<'a, W>,
}

impl<'a, W: Write> Printed<'a, W> {
    /// Returns what prints the records of a station at which nothing has arrived. Fails if an
    /// allocation does.
    pub fn new<P: Party>(
        alloc: Global,
        station: &P,
        lines: RecordLines,
        out: &'a mut W,
    ) -> Result<Printed<'a, W>, AllocError>
        ensures lines { IfOk result (λ p. p.lines ≡ lines) }
        ensures printed { IfOk result (λ p.
            p.printed.items ≡ replicate (P.receives station.now) 0) }
    {
        let mut printed = Vec::new(alloc);
        'channels: for _ in 0..station.spools() {
            printed.push(0usize)?;
        }
        Ok(Printed {
            alloc,
            lines,
            printed,
            out: RecordWriter::new(out),
        })
    }

    /// Prints the records that have arrived and are not printed yet, and flushes the output.
    fn print_arrived<P: Party>(&mut self, station: &P) -> Result<(), LiveError>
        ensures prints { OnOk result (PrintsArrivals P.Party station.now
            (output_of W.contents self.old) (output_of W.contents self.new)) }
        ensures fault { IfErr result IsUnprinted }
    {
        // There is a count for each channel on which the station receives.
        if self.printed.len() != station.spools() {
            return Err(LiveError::Unprinted);
        }
        let printed = print_arrivals(
            self.alloc,
            self.lines,
            station,
            &mut self.printed,
            &mut self.out,
        );
        match printed {
            Ok(true) => self.flush(),
            Ok(false) => Ok(()),
            Err(PrintError::Output) => Err(LiveError::Unprinted),
            Err(PrintError::Memory) => Err(LiveError::Memory),
        }
    }

    /// Flushes the output after a record was printed.
    fn flush(&mut self) -> Result<(), LiveError>
        ensures flushed { OnOk result (IsFlushed (output_of W.contents self.old)
            (output_of W.contents self.new)) }
        ensures fault { IfErr result IsUnprinted }
    {
        match self.out.flush() {
            Ok(()) => Ok(()),
            Err(_) => Err(LiveError::Unprinted),
        }
    }
}

impl<'a, S: Party, W: Write> Keeps<S> for Printed<'a, W> {
    ghost use Rattle.std.specs.Prelude.{slice_get};
    ghost use Rattle.bsc_keeping.specs.Printed.{KeepsPrinted, OffersUnkept, PrintsNoMore};

    ghost keeps = { KeepsPrinted S.Party W.contents };

    ghost has_kept = { λ _ _ _ _. Unit {0} };

    ghost keeps_offer = { OffersUnkept };

    ghost prints = { PrintsNoMore };

    ghost printed = { λ p number. slice_get p.printed.items number };

    fn keep(&mut self, station: &S) -> Result<(), LiveError> {
        self.print_arrived(station)
    }

    fn offered(&mut self, _terminal: usize, _way: Way, new: Record) -> Result<Record, StoreFault> {
        Ok(new)
    }

    fn print(&mut self, _station: &S) {}

    fn printed(&self, number: usize) -> Option<usize> {
        self.printed.get(number).copied()
    }
}
