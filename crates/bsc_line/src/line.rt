//! The line.

mod carries;
mod lengths;
mod offers;
mod releases;
mod restarts;
mod runs;
mod silences;
mod steps;

ghost use Rattle.std.specs.Prelude.{◌≡◌, ◌<◌, IfSome, IfOk, IfErr, OnOk};
ghost use Rattle.bsc_frame.specs.Message.{IsMessage};
ghost use Rattle.bsc_bid.specs.Sender.{is_in_doubt};
ghost use Rattle.bsc_bid.specs.Refusals.{IsAccepted, IsRefused};
ghost use Rattle.bsc_line_model.specs.declared.transmission.Transmission.{Transmission as TransmissionValue};
ghost use Rattle.bsc_line_model.specs.Line.{terminal_count, IsChannel, channel_of, phase_of};
ghost use Rattle.bsc_line_model.specs.Offers.{select_count};
ghost use Rattle.bsc_line_model.specs.Kept.{IsLine, IsNewLine};

use crate::pending::Pending;
use crate::terminals::new_terminals;
use crate::within_limits::within_limits;
use bsc_bid::directory_laws::distinct_addresses;
use bsc_bid::{Setup, Terminal};
use bsc_block::Records;
use bsc_control::{Control, SetupError, Way};
use bsc_line_model::Transmission;
use bsc_line_model::laws::each_event;
use bsc_tributary::Tributary;
use std::alloc::Allocator;
use std::marker::Model;

/// A line: a control station, its terminals, and the transmission between them (GA27-3004,
/// centralised multipoint operation). The terminals hear only the control station, and it hears
/// each of them.
#[derive(Drop)]
pub struct Line<A: Allocator> {
    /// The control station.
    control: Control<A>,

    /// The terminals, in the order of their numbers.
    terminals: Vec<Tributary<A>, A>,

    /// The transmission that nobody has heard yet.
    sent: Pending,

    /// Whether each transmission so far was heard fairly.
    trusted: bool,

    /// The channel that the last call or EOT heard whole by all terminals named; `None` for an EOT
    /// or an address of no terminal.
    addressed: Option<(usize, Way)>,
}

impl<A: Allocator> Model for Line<A> {
    ghost use Rattle.bsc_line_model.specs.Line.{LineValue, line_of};
    ghost use Rattle.bsc_line_model.specs.Kept.{IsLine};

    ghost Value = { LineValue };

    ghost view = { λ l. line_of l.control l.terminals.items l.sent l.trusted l.addressed };

    ghost invariant = { λ l.
        IsLine (line_of l.control l.terminals.items l.sent l.trusted l.addressed) };
}

impl<A: Allocator> Line<A> {
    /// Returns a line of new stations with these settings, addresses and poll list. Nothing is
    /// pending; the first silence makes the first call. Errors are those of `Control::new`;
    /// `Memory` may come in place of any error after `TooMany`.
    pub fn new(
        alloc: A,
        setup: Setup,
        terminals: &[Terminal],
        poll_list: &[u8],
    ) -> Result<Self, SetupError>
    where
        A: Copy,
        ensures accepted { OnOk result (IsAccepted terminals.now poll_list.now) }
        ensures refused { IfErr result (IsRefused terminals.now poll_list.now) }
        ensures value { IfOk result (λ l. IsNewLine setup terminals.now poll_list.now l) }
        ensures line { IfOk result IsLine }
    {
        each_event();
        distinct_addresses();
        let control = Control::new(alloc, setup, terminals, poll_list)?;
        let terminals = new_terminals(alloc, setup, terminals)?;
        Ok(Line {
            control,
            terminals,
            sent: Pending::new(),
            trusted: true,
            addressed: None,
        })
    }

    /// Whether every transmission so far was heard fairly: each spoiled one failed its check, and
    /// each call of the control station reached either all terminals whole or none.
    pub fn trusted(&self) -> bool
        ensures value { result ≡ self.now.trusted }
        ensures line { IsLine self.now }
    {
        self.trusted
    }

    /// Returns the number of terminals on the line: 1 to 64.
    pub fn terminals(&self) -> usize
        ensures value { result ≡ terminal_count self.now }
        ensures line { IsLine self.now }
    {
        self.terminals.len()
    }

    /// Lends the pending transmission, or returns `None` if nothing is pending. Its octets are
    /// those that `bsc_frame::encode` leaves for its message.
    pub fn pending(&self) -> Option<Transmission<'_>>
        ensures value { result ≡ self.entry.now.pending }
        ensures limits { IfSome self.now.pending (λ (s : TransmissionValue). IsMessage s.message) }
        ensures line { IsLine self.now }
    {
        let sent = self.sent.transmission();
        within_limits(&sent);
        sent
    }

    /// Returns the number of selection addresses of a terminal: 1 to 4. Condition: the terminal
    /// exists.
    pub fn addresses(&self, terminal: usize) -> usize
        requires { terminal < terminal_count self.now }
        ensures value { result ≡ select_count self.now terminal }
        ensures line { IsLine self.now }
    {
        self.control.addresses(terminal)
    }

    /// Returns the records that were offered on a channel, in order. Condition: the channel exists.
    pub fn offered(&self, terminal: usize, way: Way) -> &Records<A>
        requires { IsChannel self.now terminal way }
        ensures value { result.now.items ≡ (channel_of self.now terminal way).offered }
        ensures line { IsLine self.now }
    {
        match way {
            Way::FromTerminal => {
                let station = &self.terminals[terminal];
                station.queue().offered()
            }
            Way::ToTerminal(select) => self.control.queue(terminal, select).offered(),
        }
    }

    /// Returns the records that arrived on a channel, in order. Condition: the channel exists.
    pub fn spooled(&self, terminal: usize, way: Way) -> &Records<A>
        requires { IsChannel self.now terminal way }
        ensures value { result.now.items ≡ (channel_of self.now terminal way).spooled }
        ensures line { IsLine self.now }
    {
        match way {
            Way::FromTerminal => self.control.spool(terminal).records(),
            Way::ToTerminal(select) => {
                let station = &self.terminals[terminal];
                station.spool(select).records()
            }
        }
    }

    /// Returns how many of the offered records the sending end knows to have arrived. Condition:
    /// the channel exists.
    pub fn known(&self, terminal: usize, way: Way) -> usize
        requires { IsChannel self.now terminal way }
        ensures value { result ≡ (channel_of self.now terminal way).known }
        ensures line { IsLine self.now }
    {
        match way {
            Way::FromTerminal => {
                let station = &self.terminals[terminal];
                station.queue().known()
            }
            Way::ToTerminal(select) => self.control.queue(terminal, select).known(),
        }
    }

    /// Whether the sending end is in doubt about its last block. Condition: the channel exists.
    pub fn in_doubt(&self, terminal: usize, way: Way) -> bool
        requires { IsChannel self.now terminal way }
        ensures value { result ≡ is_in_doubt (phase_of self.now terminal way) }
        ensures line { IsLine self.now }
    {
        match way {
            Way::FromTerminal => {
                let station = &self.terminals[terminal];
                station.in_doubt()
            }
            Way::ToTerminal(_) => self.control.in_doubt(terminal, way),
        }
    }
}
