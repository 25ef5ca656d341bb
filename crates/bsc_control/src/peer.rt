//! What the control station keeps for one terminal.

ghost use Rattle.std.specs.Prelude.{◌≡◌, ◌≤◌, false, Some, length, map, IfOk, position};
ghost use Rattle.bsc_control.specs.CallOrder.{way_from};
ghost use Rattle.bsc_control.specs.Peer.{PeerValue, IsPeer, PeerReceives, IsNewPeer, is_selectable};
ghost use Rattle.bsc_control.specs.Peer.{restarted_outbound, restarted_peer};

use crate::outbound::Outbound;
use bsc_bid::{Receiver, Setup, Terminal, Way};
use bsc_frame::{Heard, Reply};
use bsc_spool::Spool;
use std::alloc::{AllocError, Allocator};
use std::marker::Model;

/// What the control station keeps for one terminal: its addresses, whether it is polled, the urgent
/// flag, the receiver and the spool of what the terminal sends, and the sending side of each of its
/// selection addresses.
#[derive(Drop)]
pub(crate) struct Peer<A: Allocator> {
    /// The polling address and the selection addresses of the terminal.
    pub(crate) terminal: Terminal,

    /// Whether the terminal is called. One that is not is passed over in the call order.
    pub(crate) polled: bool,

    /// Whether the next text that is taken from the terminal is answered by a reverse interrupt.
    pub(crate) urgent: bool,

    /// The receiver of the terminal's bids.
    pub(crate) receiver: Receiver,

    /// The records that arrived from the terminal.
    pub(crate) spool: Spool<A>,

    /// The sending side of each selection address, in the order of their numbers.
    pub(crate) outbounds: Vec<Outbound<A>, A>,
}

impl<A: Allocator> Model for Peer<A> {
    ghost use Rattle.bsc_control.specs.Peer.{PeerValue, IsPeer};

    ghost Value = { PeerValue };

    ghost view = { λ p. record {
      terminal = p.terminal;
      polled = p.polled;
      urgent = p.urgent;
      receiver = p.receiver;
      spool = p.spool;
      outbounds = p.outbounds.items;
    } };

    ghost invariant = { λ p. IsPeer (record {
      terminal = p.terminal;
      polled = p.polled;
      urgent = p.urgent;
      receiver = p.receiver;
      spool = p.spool;
      outbounds = p.outbounds.items;
    }) };
}

impl<A: Allocator> Peer<A> {
    /// Returns the state of a new terminal: polled, with nothing to send, nothing received, and the
    /// urgent flag down. The error means out of memory.
    pub(crate) fn new(alloc: A, setup: Setup, terminal: Terminal) -> Result<Self, AllocError>
    where
        A: Copy,
        ensures value { IfOk result (λ p. IsNewPeer setup terminal p) }
        ensures peer { IfOk result (λ p. IsPeer p) }
    {
        let mut outbounds = Vec::new(alloc);
        for _ in 0..terminal.selects() {
            outbounds.push(Outbound::new(alloc, setup))?;
        }
        Ok(Peer {
            terminal,
            polled: true,
            urgent: false,
            receiver: Receiver::new(),
            spool: Spool::new(alloc),
            outbounds,
        })
    }

    /// Returns the first selection address, from this number on, for which records wait without
    /// doubt; else the polling address.
    pub(crate) fn way_from(&self, from: usize) -> Way
        requires { from ≤ length self.now.outbounds }
        ensures { result ≡ way_from self.now from }
    {
        match first_selectable(&self.outbounds[from..]) {
            Some(more) => Way::ToTerminal(from + more),
            None => Way::FromTerminal,
        }
    }

    /// Lets the receiver hear a transmission, and returns its reply. A reverse interrupt clears the
    /// urgent flag.
    pub(crate) fn receive(&mut self, heard: &Heard<'_>) -> Option<Reply>
        ensures receives { PeerReceives self.old heard.now self.new result }
        ensures peer { IsPeer self.new }
    {
        let reply = self.receiver.heard(heard, self.urgent, &mut self.spool);
        if reply == Some(Reply::Rvi) {
            self.urgent = false;
        }
        reply
    }

    /// Begins again with the records and the doubts: the terminal is polled, the urgent flag is
    /// down, the receiver is as new, and no bid is in progress.
    pub(crate) fn restart(&mut self)
        ensures { self.new ≡ restarted_peer self.old }
    {
        self.polled = true;
        self.urgent = false;
        self.receiver = Receiver::new();
        restart_outbounds(&mut self.outbounds);
    }
}

/// Lets the sending side of each selection address begin again.
fn restart_outbounds<A: Allocator>(outbounds: &mut Vec<Outbound<A>, A>)
    ensures { outbounds.new.items ≡ map restarted_outbound outbounds.old.items }
{
    for outbound in outbounds.iter_mut() {
        outbound.restart();
    }
}

/// Returns the index of the first address for which records wait without doubt.
fn first_selectable<A: Allocator>(outbounds: &[Outbound<A>]) -> Option<usize>
    ensures { result ≡ position is_selectable outbounds.now }
{
    outbounds
        .iter()
        .position(|outbound| outbound.is_selectable())
}
