//! A terminal of a configured line.

ghost use Rattle.std.specs.Prelude.{◌≡◌, ◌≤◌, ◌<◌, length, true, IfErr, OnErr, OnOk};
ghost use Rattle.bsc_station.specs.Ends.{IsWay};
ghost use Rattle.bsc_station.specs.LineTerminal.{line_terminal_of, with_own_queue, with_spool};
ghost use Rattle.bsc_spool.specs.Queue.{with_forgotten, with_offered};
ghost use Rattle.bsc_spool.specs.Spool.{ForgetsRecords, GainsRecord};
ghost use Rattle.bsc_bid.specs.Sender.{release_step};
ghost use Rattle.bsc_bid.specs.Stored.{kept_of, recall_step};
ghost use Rattle.bsc_bid.specs.Terminal.{HasDistinctAddresses};
ghost use Rattle.bsc_tributary.specs.Kept.{IsNewTerminal, IsTributary};
ghost use Rattle.bsc_tributary.specs.Stored.{after_recall};
ghost use Rattle.bsc_tributary.specs.Tributary.{after_release, is_control_mode, spool_at};

use crate::channel_end::queue_end;
use crate::{ChannelEnd, Party, Received};
use bsc_bid::{KeptSender, RecallError, ReleaseError, Setup, Station, Terminal};
use bsc_block::{Format, Record};
use bsc_control::Way;
use bsc_frame::{Heard, MessageBuffer};
use bsc_spool::Queue;
use bsc_tributary::Tributary;
use std::alloc::Allocator;
use std::marker::Model;

/// A terminal with its number and its addresses on the line.
#[derive(Drop)]
pub struct LineTerminal<A: Allocator> {
    /// Its number on the line, counted from 0.
    number: usize,

    /// Its settings.
    setup: Setup,

    /// Its addresses.
    terminal: Terminal,

    /// The station itself.
    tributary: Tributary<A>,
}

impl<A: Allocator> Model for LineTerminal<A> {
    ghost use Rattle.std.specs.Prelude.{◌≡◌};
    ghost use Rattle.bsc_station.specs.LineTerminal.{LineTerminalValue, line_terminal_of};

    ghost Value = { LineTerminalValue };

    ghost view = { λ l. line_terminal_of l.number l.tributary };

    ghost invariant = { λ l.
        (l.tributary.terminal ≡ l.terminal) × (l.tributary.sender.setup ≡ l.setup) };
}

impl<A: Allocator> LineTerminal<A> {
    /// Returns the terminal with this number and these distinct addresses, with nothing to send.
    pub(crate) fn new(alloc: A, setup: Setup, number: usize, terminal: Terminal) -> LineTerminal<A>
    where
        A: Copy,
        requires { HasDistinctAddresses terminal }
        ensures number { result.number ≡ number }
        ensures terminal { IsNewTerminal setup terminal result.tributary }
    {
        LineTerminal {
            number,
            setup,
            terminal,
            tributary: Tributary::new(alloc, setup, terminal),
        }
    }

    /// Returns its number on the line, counted from 0.
    pub fn line_number(&self) -> usize
        ensures { result ≡ self.now.number }
    {
        // Reading a field makes the invariant known here.
        let _ = &self.terminal;
        self.number
    }

    /// Whether it is in control mode, and so has neither a block to send nor one to receive.
    pub fn in_control_mode(&self) -> bool
        ensures { result ≡ is_control_mode self.now.tributary.mode }
    {
        // Reading a field makes the invariant known here.
        let _ = &self.terminal;
        self.tributary.in_control_mode()
    }

    /// Adds a record to those that the terminal has to send. The record must not be longer than the
    /// full length. If memory runs out, nothing changes and the record is returned.
    pub fn offer(&mut self, record: Record) -> Result<(), Record>
        requires { length «record» ≤ self.old.tributary.queue.format.full }
        ensures ok { OnOk result (self.new
            ≡ with_own_queue self.old (with_offered self.old.tributary.queue «record»)) }
        ensures err { OnErr result (self.new ≡ self.old) }
        ensures given_back { IfErr result (λ r. r ≡ «record») }
        ensures tributary { IsTributary self.old.tributary }
    {
        // Reading the queue makes known here what is known of every tributary.
        let _ = self.tributary.queue();
        self.tributary.offer(record)
    }

    /// Returns the format of its blocks, which has the full length of a record.
    pub fn format(&self) -> Format
        ensures { result ≡ self.now.tributary.queue.format }
    {
        // Reading the queue makes known here that its format is that of the settings.
        let _ = self.tributary.queue();
        self.setup.format()
    }

    /// Sets whether it accepts selections, as [`Tributary::set_ready`] does.
    pub fn set_ready(&mut self, ready: bool)
        ensures { self.new
            ≡ line_terminal_of self.old.number (record self.old.tributary { ready = ready }) }
    {
        self.tributary.set_ready(ready);
    }

    /// Asks for the line, as [`Tributary::set_urgent`] does.
    pub fn set_urgent(&mut self)
        ensures { self.new
            ≡ line_terminal_of self.old.number (record self.old.tributary { urgent = true }) }
    {
        self.tributary.set_urgent();
    }

    /// Ends the doubt, of which the other end has `count` records. The errors are those of
    /// [`Tributary::release`]; both change nothing.
    pub fn release(&mut self, count: usize) -> Result<(), ReleaseError>
        ensures state { self.new
            ≡ line_terminal_of self.old.number (after_release self.old.tributary count) }
        ensures answer { result
            ≡ (release_step self.old.tributary.sender self.old.tributary.queue count).answer }
        ensures tributary { IsTributary self.new.tributary }
    {
        self.tributary.release(count)
    }

    /// Returns what is to be kept now of the sending side of the terminal, beside its records.
    pub fn kept(&self) -> KeptSender
        ensures { result ≡ kept_of self.now.tributary.sender self.now.tributary.queue }
    {
        // Reading a field makes the invariant known here.
        let _ = &self.terminal;
        self.tributary.kept()
    }

    /// Adds a record that had arrived for the selection address of this number, counted from 0,
    /// before the process of the terminal ended. The terminal must have the address. If memory runs
    /// out, nothing changes and the record is returned.
    pub fn keep_arrived(&mut self, select: usize, record: Record) -> Result<(), Record>
        requires { select < length self.old.tributary.terminal.selects }
        ensures ok { OnOk result (GainsRecord (spool_at self.old.tributary.spools select) «record»
            (spool_at self.new.tributary.spools select)) }
        ensures err { OnErr result (self.new ≡ self.old) }
        ensures given_back { IfErr result (λ r. r ≡ «record») }
        ensures others { self.new ≡ with_spool self.old select
            (spool_at self.new.tributary.spools select) }
    {
        self.tributary.keep_arrived(select, record)
    }

    /// Forgets the first records that the terminal has sent, this many, at most as many as are
    /// known to have arrived, as [`Tributary::forget_sent`] does.
    pub(crate) fn forget_sent(&mut self, count: usize)
        requires { count ≤ self.old.tributary.queue.known }
        ensures { self.new
            ≡ with_own_queue self.old (with_forgotten self.old.tributary.queue count) }
    {
        self.tributary.forget_sent(count);
    }

    /// Forgets the first records that arrived for the selection address of this number, counted
    /// from 0, this many, at most as many as have arrived. The terminal must have the address.
    pub(crate) fn forget_arrived(&mut self, select: usize, count: usize)
        requires address { select < length self.old.tributary.terminal.selects }
        requires count { count ≤ length (spool_at self.old.tributary.spools select).records }
        ensures forgets { ForgetsRecords (spool_at self.old.tributary.spools select) count
            (spool_at self.new.tributary.spools select) }
        ensures others { self.new ≡ with_spool self.old select
            (spool_at self.new.tributary.spools select) }
    {
        self.tributary.forget_arrived(select, count);
    }

    /// Returns the records that it has to send, and how many of them are known to have arrived.
    pub(crate) fn queue(&self) -> &Queue<A>
        ensures { result.now ≡ self.now.tributary.queue }
    {
        // Reading a field makes the invariant known here.
        let _ = &self.terminal;
        self.tributary.queue()
    }

    /// Recalls what was kept, once the records that had been offered are offered again. The errors
    /// are those of [`Tributary::recall`]; all change nothing.
    pub fn recall(&mut self, kept: KeptSender) -> Result<(), RecallError>
        ensures state { self.new
            ≡ line_terminal_of self.old.number (after_recall self.old.tributary kept) }
        ensures answer { result
            ≡ (recall_step self.old.tributary.sender self.old.tributary.queue kept).answer }
    {
        self.tributary.recall(kept)
    }
}

impl<A: Allocator> Station for LineTerminal<A> {
    ghost use Rattle.std.specs.Prelude.{refl};
    ghost use Rattle.std.proofs.Common.{ap₂};
    ghost use Rattle.bsc_tributary.specs.Tributary.{holds};
    ghost use Rattle.bsc_station.specs.LineTerminal.{Hears, Acts, line_terminal_of};

    ghost hears = { Hears };

    ghost acts = { Acts };

    ghost holds = { λ l. holds l.tributary.mode };

    fn answer(&mut self, heard: &Heard<'_>, sent: &mut MessageBuffer) {
        self.tributary.answer(heard, sent);
    }

    fn act(&mut self, sent: &mut MessageBuffer) {
        self.tributary.act(sent);
    }

    fn holds_line(&self) -> bool {
        // Reading a field makes the invariant known here.
        let _ = &self.terminal;
        self.tributary.holds_line()
    }

    ghost ignores_noise = { λ old new sent h. (
      ap₂ line_terminal_of h.number (h.hearing.after.noise refl).0,
      (h.hearing.after.noise refl).1,
    ) };
}

impl<A: Allocator> Party for LineTerminal<A> {
    ghost use Rattle.std.specs.Prelude.{length};
    ghost use Rattle.bsc_bid.specs.declared.way.Way.TheVariants.{ToTerminal};
    ghost use Rattle.bsc_station.specs.Ends.{terminal_end};

    type Memory = A;

    ghost count = { λ _. 1 };

    ghost numbers = { λ l _. l.number };

    ghost selects = { λ l _. length l.tributary.terminal.selects };

    ghost ends = { λ l _ way. terminal_end l.tributary way };

    ghost receives = { λ l. length l.tributary.terminal.selects };

    ghost terminal_of = { λ _. 0 };

    ghost way_of = { λ number. ToTerminal number };

    fn terminals(&self) -> usize {
        1
    }

    fn number(&self, _terminal: usize) -> usize {
        LineTerminal::line_number(self)
    }

    fn addresses(&self, _terminal: usize) -> usize {
        self.terminal.selects()
    }

    fn end(&self, _terminal: usize, way: Way) -> ChannelEnd<'_, A> {
        let tributary = &self.tributary;
        if let Way::ToTerminal(select) = way {
            return ChannelEnd::Receiving {
                records: tributary.spool(select).records(),
            };
        }
        queue_end(tributary.queue(), tributary.in_doubt())
    }

    fn spools(&self) -> usize {
        self.terminal.selects()
    }

    fn received(&self, number: usize) -> Received<'_, A> {
        Received {
            terminal: 0,
            way: Way::ToTerminal(number),
            records: self.tributary.spool(number).records(),
        }
    }
}
