//! The control station.

ghost use Rattle.std.specs.Prelude.{◌≡◌, ◌≤◌, ◌<◌, ◌↔◌, ℕ, length, true, false, Some, OnOk, OnErr};
ghost use Rattle.std.specs.Prelude.{IfOk, IfErr};
ghost use Rattle.bsc_bid.specs.Sender.{is_in_doubt, release_step};
ghost use Rattle.bsc_bid.specs.declared.way.Way.{Way as WayValue};
ghost use Rattle.bsc_bid.specs.Addresses.{IsAddressOf};
ghost use Rattle.bsc_control.specs.CallOrder.{is_polled};
ghost use Rattle.bsc_control.specs.Control.{ControlValue, terminals, peer_at, with_peer};
ghost use Rattle.bsc_control.specs.Control.{restarted};
ghost use Rattle.bsc_control.specs.Kept.{IsControl, IsNewControl, outbound_of};
ghost use Rattle.bsc_bid.specs.Refusals.{IsAccepted, IsRefused};
ghost use Rattle.bsc_control.specs.Peer.{with_outbound, outbound_released, offered_to};
ghost use Rattle.bsc_control.specs.Peer.{forgotten_to};
ghost use Rattle.bsc_bid.specs.Ways.{IsSelection, select_of};
ghost use Rattle.bsc_spool.specs.Spool.{GainsRecord, ForgetsRecords};
ghost use Rattle.bsc_bid.specs.Stored.{FitsOffered};
ghost use Rattle.bsc_control.specs.Stored.{kept_of_side, recalled_during, answer_during};

use crate::procedure::Procedure;
use crate::task::Task;
use bsc_bid::{
    Directory, KeptSender, RecallError, ReleaseError, Setup, SetupError, Station, Terminal, Way,
};
use bsc_block::Record;
use bsc_frame::{Address, Heard, MessageBuffer};
use bsc_spool::{Queue, Spool};
use std::alloc::Allocator;
use std::marker::Model;

/// The control station of a line (GA27-3004, centralised multipoint operation).
#[derive(Drop)]
pub struct Control<A: Allocator> {
    /// The terminal and the way of each address on the line.
    directory: Directory<A>,

    /// The settings, the poll list and what is kept for each terminal.
    procedure: Procedure<A>,
}

impl<A: Allocator> Model for Control<A> {
    ghost use Rattle.std.specs.Prelude.{◌≡◌};
    ghost use Rattle.bsc_bid.specs.Addresses.{numbered};
    ghost use Rattle.bsc_control.specs.Control.{ControlValue, terminals};
    ghost use Rattle.bsc_control.specs.Kept.{IsControl};

    ghost Value = { ControlValue };

    ghost view = { λ c. c.procedure };

    ghost invariant = { λ c. IsControl c.procedure
        × (c.directory ≡ numbered 0 (terminals c.procedure)) };
}

impl<A: Allocator> Control<A> {
    /// Returns a control station at rest; its first silence makes the first call. `setup` gives the
    /// settings, `terminals` the terminals of the line (1 to 64, whose addresses all differ), and
    /// `poll_list` the entries of the poll list (1 to 255, each the number of a terminal).
    /// (GA27-3004, poll list.)
    ///
    /// Errors, in this order: `NoTerminal`, `TooMany`, `SameAddress`, `EmptyPollList`, `PollList`.
    /// `Memory` may come in place of any error after `TooMany`.
    pub fn new(
        alloc: A,
        setup: Setup,
        terminals: &[Terminal],
        poll_list: &[u8],
    ) -> Result<Self, SetupError>
    where
        A: Copy,
        ensures accepted { OnOk result (IsAccepted terminals.now poll_list.now) }
        ensures refused { IfErr result (IsRefused terminals.now poll_list.now) }
        ensures value { IfOk result (λ c. IsNewControl setup terminals.now poll_list.now c) }
        ensures control { IfOk result IsControl }
    {
        let directory = Directory::new(alloc, terminals, poll_list)?;
        let procedure = Procedure::new(alloc, setup, terminals, poll_list)?;
        Ok(Control {
            directory,
            procedure,
        })
    }

    /// Returns the settings that the station was made with.
    pub fn setup(&self) -> Setup
        ensures value { result ≡ self.now.setup }
        ensures control { IsControl self.now }
    {
        self.procedure.setup
    }

    /// Returns the poll list: the number of a terminal for each entry.
    pub fn poll_list(&self) -> &[u8]
        ensures value { result.now ≡ self.now.poll_list }
        ensures control { IsControl self.now }
    {
        self.procedure.poll_list.as_slice()
    }

    /// Returns the index of the present entry in the poll list: the entry of the last call, and the
    /// first one before any call.
    pub fn place(&self) -> usize
        ensures value { result ≡ self.now.place }
        ensures there { result < length self.now.poll_list }
        ensures control { IsControl self.now }
    {
        self.procedure.place
    }

    /// Returns what the station does at the present entry. (GA27-3004, polling and selection.)
    pub fn task(&self) -> Task
        ensures value { result ≡ self.now.task }
        ensures control { IsControl self.now }
    {
        self.procedure.task
    }

    /// Returns the failures in a row of the present call: 0 after a call that repeats none, and one
    /// more after each repetition.
    pub fn failures(&self) -> u8
        ensures value { result ≡ self.now.failures }
        ensures control { IsControl self.now }
    {
        self.procedure.failures
    }

    /// Returns the number of terminals on the line: 1 to 64.
    pub fn terminals(&self) -> usize
        ensures value { result ≡ length self.now.peers }
        ensures control { IsControl self.now }
    {
        self.procedure.peers.len()
    }

    /// Returns the number of selection addresses of a terminal: 1 to 4. Condition: the terminal
    /// exists.
    pub fn addresses(&self, terminal: usize) -> usize
        requires { terminal < length self.now.peers }
        ensures value { result ≡ length (peer_at self.now terminal).outbounds }
        ensures control { IsControl self.now }
    {
        let peer = &self.procedure.peers[terminal];
        peer.outbounds.len()
    }

    /// Finds the terminal and the way that an address belongs to, or `None` if it belongs to no
    /// terminal. A polling address is the way from its terminal, a selection address a way to it.
    /// (GA27-3004, polling and selection addresses.)
    pub fn find(&self, address: &Address) -> Option<(usize, Way)>
        ensures exact { (t : ℕ) (way : WayValue)
            → (result ≡ Some (t, way)) ↔ IsAddressOf (terminals self.now) t way address.now }
        ensures control { IsControl self.now }
    {
        self.directory.find(address)
    }

    /// Adds a record to the queue for a selection address of a terminal. If there is no memory for
    /// the record, it is given back and nothing changes. Condition: the address exists, and the
    /// record is not longer than the full length.
    pub fn offer(&mut self, terminal: usize, select: usize, record: Record) -> Result<(), Record>
        requires terminal { terminal < length self.old.peers }
        requires select { select < length (peer_at self.old terminal).outbounds }
        requires short { length «record» ≤ self.old.setup.format.full }
        ensures ok { OnOk result (self.new
            ≡ with_peer self.old terminal
            (offered_to (peer_at self.old terminal) select «record»)) }
        ensures err { OnErr result (self.new ≡ self.old) }
        ensures given_back { IfErr result (λ r. r ≡ «record») }
        ensures control { IsControl self.new }
    {
        let procedure = &mut self.procedure;
        let peer = &mut procedure.peers[terminal];
        let outbound = &mut peer.outbounds[select];
        outbound.offer(record)
    }

    /// Forgets the first records that the station has sent to a selection address of a terminal,
    /// this many. Their places stay, and what the station does on the line is the same as if they
    /// were not forgotten. No memory is allocated. Condition: the address exists, and at most as
    /// many as are known to have arrived.
    pub fn forget_sent(&mut self, terminal: usize, select: usize, count: usize)
        requires terminal { terminal < length self.old.peers }
        requires select { select < length (peer_at self.old terminal).outbounds }
        requires count { count ≤ (outbound_of self.old terminal select).queue.known }
        ensures state { self.new
            ≡ with_peer self.old terminal
            (forgotten_to (peer_at self.old terminal) select count) }
        ensures control { IsControl self.new }
    {
        let procedure = &mut self.procedure;
        let peer = &mut procedure.peers[terminal];
        let outbound = &mut peer.outbounds[select];
        outbound.forget(count);
    }

    /// Asks a terminal for the line: the next text taken from it is answered by a reverse
    /// interrupt, unless the last reply was one too. A new selection of the terminal clears the
    /// request. Condition: the terminal exists. (GA27-3004: reverse interrupt.)
    pub fn set_urgent(&mut self, terminal: usize)
        requires { terminal < length self.old.peers }
        ensures state { self.new
            ≡ with_peer self.old terminal (record (peer_at self.old terminal) { urgent = true }) }
        ensures control { IsControl self.new }
    {
        let procedure = &mut self.procedure;
        let peer = &mut procedure.peers[terminal];
        peer.urgent = true;
    }

    /// Says whether a terminal is polled. One that is not is passed over in the call order, and
    /// keeps its records and doubts; what is under way with it goes on to its end. Once no terminal
    /// in the poll list is polled and the last poll has ended, the station is at rest, and each of
    /// its silences looks for one that is polled. Condition: the terminal exists.
    pub fn set_polled(&mut self, terminal: usize, polled: bool)
        requires { terminal < length self.old.peers }
        ensures state { self.new
            ≡ with_peer self.old terminal
            (record (peer_at self.old terminal) { polled = polled }) }
        ensures control { IsControl self.new }
    {
        let procedure = &mut self.procedure;
        let peer = &mut procedure.peers[terminal];
        peer.polled = polled;
    }

    /// Whether a terminal is polled. A new station polls each terminal. Condition: the terminal
    /// exists.
    pub fn is_polled(&self, terminal: usize) -> bool
        requires { terminal < length self.now.peers }
        ensures value { result ≡ is_polled self.now terminal }
        ensures control { IsControl self.now }
    {
        let peer = &self.procedure.peers[terminal];
        peer.polled
    }

    /// Whether the last block for this address is in doubt, that is, not known to have arrived or
    /// to have been lost. Condition: the way is to a terminal, and the address exists.
    pub fn in_doubt(&self, terminal: usize, way: Way) -> bool
        requires terminal { terminal < length self.now.peers }
        requires way { IsSelection way (length (peer_at self.now terminal).outbounds) }
        ensures value { result
            ≡ is_in_doubt (outbound_of self.now terminal (select_of way)).sender.phase }
        ensures control { IsControl self.now }
    {
        let peer = &self.procedure.peers[terminal];
        let outbound = &peer.outbounds[way.select()];
        outbound.sender.in_doubt()
    }

    /// Ends the doubt about an address whose receiving end has `count` records. Errors:
    /// `NotInDoubt` if there is no doubt, else `CountMismatch` if `count` is neither the number of
    /// the known records nor that number with the doubtful block. Both change nothing. Condition:
    /// the way is to a terminal, and the address exists.
    pub fn release(&mut self, terminal: usize, way: Way, count: usize) -> Result<(), ReleaseError>
        requires terminal { terminal < length self.old.peers }
        requires way { IsSelection way (length (peer_at self.old terminal).outbounds) }
        ensures state { self.new
            ≡ with_peer self.old terminal (with_outbound (peer_at self.old terminal) (select_of way)
            (outbound_released (outbound_of self.old terminal (select_of way)) count)) }
        ensures answer { result
            ≡ (release_step (outbound_of self.old terminal (select_of way)).sender
            (outbound_of self.old terminal (select_of way)).queue count).answer }
        ensures control { IsControl self.new }
    {
        let procedure = &mut self.procedure;
        let peer = &mut procedure.peers[terminal];
        let outbound = &mut peer.outbounds[way.select()];
        outbound.release(count)
    }

    /// Begins again, as after the end of the process: the station is at rest at the first entry of
    /// the poll list, with its counters at 0 and no urgent flag up, every terminal is polled, and
    /// its next silence makes the first call. It keeps its settings, poll list and terminals, the
    /// records that it has to send, its doubts, and the records that arrived; an unanswered block
    /// is in doubt.
    pub fn restart(&mut self)
        ensures state { self.new ≡ restarted self.old }
        ensures control { IsControl self.new }
    {
        self.procedure.restart();
    }

    /// Returns what is to be kept now of the sending side of a selection address, for the case that
    /// the process ends, beside the records of its queue and of the spools. With these a new
    /// station becomes the restarted one: they are offered again, those of the spools are given to
    /// `keep_arrived`, and then this to `recall`. Condition: the address exists.
    pub fn kept(&self, terminal: usize, select: usize) -> KeptSender
        requires terminal { terminal < length self.now.peers }
        requires select { select < length (peer_at self.now terminal).outbounds }
        ensures value { result ≡ kept_of_side (outbound_of self.now terminal select) }
        ensures fits { FitsOffered result
            (length (outbound_of self.now terminal select).queue.offered) }
        ensures control { IsControl self.now }
    {
        let peer = &self.procedure.peers[terminal];
        let side = &peer.outbounds[select];
        side.kept()
    }

    /// Adds a record that had arrived from a terminal before the process of the control station
    /// ended. If there is no memory for the record, it is given back and nothing changes.
    /// Condition: the terminal exists.
    pub fn keep_arrived(&mut self, terminal: usize, record: Record) -> Result<(), Record>
        requires { terminal < length self.old.peers }
        ensures ok { OnOk result (GainsRecord (peer_at self.old terminal).spool «record»
            (peer_at self.new terminal).spool) }
        ensures err { OnErr result (self.new ≡ self.old) }
        ensures given_back { IfErr result (λ r. r ≡ «record») }
        ensures others { self.new ≡ with_peer self.old terminal
            (record (peer_at self.old terminal) { spool = (peer_at self.new terminal).spool }) }
        ensures control { IsControl self.new }
    {
        let procedure = &mut self.procedure;
        let peer = &mut procedure.peers[terminal];
        peer.spool.keep(record)
    }

    /// Forgets the first records that arrived from a terminal, this many. Their places stay. No
    /// memory is allocated. Condition: the terminal exists, and at most as many as arrived from it.
    pub fn forget_arrived(&mut self, terminal: usize, count: usize)
        requires terminal { terminal < length self.old.peers }
        requires count { count ≤ length (peer_at self.old terminal).spool.records }
        ensures forgets { ForgetsRecords (peer_at self.old terminal).spool count
            (peer_at self.new terminal).spool }
        ensures others { self.new ≡ with_peer self.old terminal
            (record (peer_at self.old terminal) { spool = (peer_at self.new terminal).spool }) }
        ensures control { IsControl self.new }
    {
        let procedure = &mut self.procedure;
        let peer = &mut procedure.peers[terminal];
        peer.spool.forget(count);
    }

    /// Recalls what was kept of the sending side of a selection address, once the records that had
    /// been offered for it are offered again. The errors are `NotNew` if the station is not at
    /// rest, a block is in doubt, or a record is known to have arrived; then `Known` if more
    /// records are known than were offered; then `Doubt` if the doubtful block does not have 1 to 7
    /// records, or more than are not known. All change nothing. Condition: the address exists.
    pub fn recall(
        &mut self,
        terminal: usize,
        select: usize,
        kept: KeptSender,
    ) -> Result<(), RecallError>
        requires terminal { terminal < length self.old.peers }
        requires select { select < length (peer_at self.old terminal).outbounds }
        ensures state { self.new
            ≡ recalled_during self.old self.old.task terminal select kept }
        ensures answer { result ≡ answer_during self.old self.old.task terminal select kept }
        ensures control { IsControl self.new }
    {
        let procedure = &mut self.procedure;
        let Task::AtRest = procedure.task else {
            return Err(RecallError::NotNew);
        };
        let peer = &mut procedure.peers[terminal];
        let side = &mut peer.outbounds[select];
        side.recall(kept)
    }

    /// Returns the queue of a selection address: the records offered for it, and how many of them
    /// are known to have arrived. Condition: the address exists.
    pub fn queue(&self, terminal: usize, select: usize) -> &Queue<A>
        requires terminal { terminal < length self.now.peers }
        requires select { select < length (peer_at self.now terminal).outbounds }
        ensures value { result.now ≡ (outbound_of self.now terminal select).queue }
        ensures control { IsControl self.now }
    {
        let peer = &self.procedure.peers[terminal];
        let outbound = &peer.outbounds[select];
        &outbound.queue
    }

    /// Returns the spool of the records that arrived from a terminal. Condition: the terminal
    /// exists.
    pub fn spool(&self, terminal: usize) -> &Spool<A>
        requires { terminal < length self.now.peers }
        ensures value { result.now ≡ (peer_at self.now terminal).spool }
        ensures control { IsControl self.now }
    {
        let peer = &self.procedure.peers[terminal];
        &peer.spool
    }
}

impl<A: Allocator> Station for Control<A> {
    ghost use Rattle.std.specs.Prelude.{false, refl};
    ghost use Rattle.bsc_control.specs.Kept.{IsHearing, IsSilence};

    ghost hears = { IsHearing };

    ghost acts = { IsSilence };

    ghost holds = { λ _. false };

    fn answer(&mut self, heard: &Heard<'_>, sent: &mut MessageBuffer) {
        self.procedure.hear(heard, sent);
    }

    fn act(&mut self, sent: &mut MessageBuffer) {
        self.procedure.act_on_silence(sent);
    }

    /// Whether the station acts on a silence before the terminals do. A control station never does.
    fn holds_line(&self) -> bool
        ensures holds { result ≡ false }
        ensures control { IsControl self.now }
    {
        // Reading a field makes the invariant known here.
        let _ = &self.procedure;
        false
    }

    ghost ignores_noise = { λ old new sent hearing. hearing.after.noise refl };
}
