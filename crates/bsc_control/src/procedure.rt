//! The line procedure of the control station: which address it calls next, and what it does with
//! what it hears.

mod calling;
mod polling;
mod restarting;
mod selecting;
mod sending;

ghost use Rattle.std.specs.Prelude.{◌≡◌, ◌<◌, length, IfOk, All};
ghost use Rattle.bsc_control.specs.Control.{HasEntries, terminal_of_entry, current, peer};
ghost use Rattle.bsc_control.specs.Kept.{SuitsTask, IsNewControl};
ghost use Rattle.bsc_control.specs.Table.{Hears, ActsOnSilence};

use crate::peer::Peer;
use crate::task::Task;
use bsc_bid::{Setup, Terminal};
use bsc_frame::{Heard, MessageBuffer};
use std::alloc::{AllocError, Allocator};
use std::marker::Model;

/// The procedure of a control station: its settings, its poll list and the present entry of it, and
/// what it keeps for each terminal.
#[derive(Drop)]
pub(crate) struct Procedure<A: Allocator> {
    /// The settings that the station was made with.
    pub(crate) setup: Setup,

    /// The number of a terminal for each entry.
    pub(crate) poll_list: Vec<u8, A>,

    /// The index of the present entry in the poll list.
    pub(crate) place: usize,

    /// What the station does at the present entry.
    pub(crate) task: Task,

    /// The failures in a row of the present call.
    pub(crate) failures: u8,

    /// The WACKs that answered the present selection.
    wacks: u8,

    /// What is kept for each terminal, in the order of their numbers.
    pub(crate) peers: Vec<Peer<A>, A>,
}

impl<A: Allocator> Model for Procedure<A> {
    ghost use Rattle.bsc_control.specs.Control.{ControlValue, HasEntries};

    ghost Value = { ControlValue };

    ghost view = { λ c. record {
      setup = c.setup;
      poll_list = c.poll_list.items;
      place = c.place;
      task = c.task;
      failures = c.failures;
      wacks = c.wacks;
      peers = c.peers.items;
    } };

    ghost invariant = { λ c. HasEntries (record {
      setup = c.setup;
      poll_list = c.poll_list.items;
      place = c.place;
      task = c.task;
      failures = c.failures;
      wacks = c.wacks;
      peers = c.peers.items;
    }) };
}

impl<A: Allocator> Procedure<A> {
    /// Returns a procedure at rest at the first entry, with nothing to send and nothing received.
    /// The error means out of memory.
    pub(crate) fn new(
        alloc: A,
        setup: Setup,
        terminals: &[Terminal],
        poll_list: &[u8],
    ) -> Result<Self, AllocError>
    where
        A: Copy,
        requires some { 0 < length poll_list.now }
        requires entries { All (λ t. t < length terminals.now) poll_list.now }
        ensures value { IfOk result (λ c. IsNewControl setup terminals.now poll_list.now c) }
        ensures entries { IfOk result HasEntries }
    {
        let mut peers = Vec::with_capacity(alloc, terminals.len())?;
        for terminal in terminals {
            let peer = Peer::new(alloc, setup, *terminal)?;
            peers.push(peer)?;
        }
        Ok(Procedure {
            setup,
            poll_list: Vec::from_slice(alloc, poll_list)?,
            place: 0,
            task: Task::AtRest,
            failures: 0,
            wacks: 0,
            peers,
        })
    }

    /// Returns the terminal of an entry.
    fn terminal_of(&self, place: usize) -> usize
        requires { place < length self.now.poll_list }
        ensures value { result ≡ terminal_of_entry self.now place }
        ensures there { result < length self.now.peers }
    {
        self.poll_list[place] as usize
    }

    /// Returns the terminal of the present entry.
    fn current(&self) -> usize
        ensures value { result ≡ current self.now }
        ensures there { result < length self.now.peers }
    {
        self.terminal_of(self.place)
    }

    /// Hears a decoded transmission, and leaves the message to send, or `None`, in `sent`.
    pub(crate) fn hear(&mut self, heard: &Heard<'_>, sent: &mut MessageBuffer)
        requires { SuitsTask self.old.task (peer self.old) }
        ensures row { Hears self.old heard.now self.new sent.new }
        ensures entries { HasEntries self.new }
    {
        match self.task {
            Task::AtRest => sent.clear(),
            Task::Selecting { select, .. } => self.hear_selecting(select, heard, sent),
            Task::Sending { select } => self.hear_sending(select, heard, sent),
            Task::Polling { replied } => self.hear_polling(replied, heard, sent),
        }
    }

    /// Acts on a silence, and leaves the message to send, or `None`, in `sent`.
    pub(crate) fn act_on_silence(&mut self, sent: &mut MessageBuffer)
        requires { SuitsTask self.old.task (peer self.old) }
        ensures row { ActsOnSilence self.old self.new sent.new }
        ensures entries { HasEntries self.new }
    {
        match self.task {
            Task::AtRest => self.call_first(sent),
            Task::Selecting { select, enquired } => self.fail_selection(select, enquired, sent),
            Task::Sending { select } => self.send_on(select, sent),
            Task::Polling { replied } => self.fail_poll(replied, sent),
        }
    }
}
