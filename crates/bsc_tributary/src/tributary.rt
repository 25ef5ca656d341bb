//! The terminal.

ghost use Rattle.std.specs.Prelude.{IsTrue, ◌≡◌, ◌≤◌, ◌<◌, true, false, if◌then◌else◌, None};
ghost use Rattle.std.specs.Prelude.{length, OnOk, OnErr, IfErr, option_map, slice_set};
ghost use Rattle.bsc_spool.specs.Queue.{with_offered, with_forgotten};
ghost use Rattle.bsc_spool.specs.Spool.{GainsRecord, ForgetsRecords};
ghost use Rattle.bsc_frame.specs.declared.message.Message.TheVariants as m;
ghost use Rattle.bsc_bid.specs.Receiver.{sends_interrupt};
ghost use Rattle.bsc_bid.specs.Terminal.{HasDistinctAddresses};
ghost use Rattle.bsc_bid.specs.Sender.{release_step, is_in_doubt};
ghost use Rattle.bsc_bid.specs.Stored.{FitsOffered, kept_of, recall_step};
ghost use Rattle.bsc_tributary.specs.Tributary.{without_line, poll_step, selection_step};
ghost use Rattle.bsc_tributary.specs.Tributary.{mode_left, message_left, after_release, holds};
ghost use Rattle.bsc_tributary.specs.Tributary.{is_control_mode, restarted, spool_at};
ghost use Rattle.bsc_tributary.specs.Kept.{IsTributary, IsNewTerminal, KeepsSetupAndMode};
ghost use Rattle.bsc_tributary.specs.Kept.{IsHearing, IsNoCall};
ghost use Rattle.bsc_tributary.specs.Stored.{after_recall};

use crate::called::{Called, called_address};
use crate::mode::Mode;
use crate::spools::Spools;
use bsc_bid::{
    KeptSender, Outcome, RecallError, Receiver, ReleaseError, Sender, Setup, Station, Terminal,
};
use bsc_block::Record;
use bsc_frame::{Address, Heard, Message, MessageBuffer, Reply};
use bsc_spool::laws::next_blocks;
use bsc_spool::{Queue, Spool};
use std::alloc::Allocator;
use std::marker::Model;

/// A terminal of the line (GA27-3004, a tributary station of a centralised multipoint line).
#[derive(Drop)]
pub struct Tributary<A: Allocator> {
    /// The polling address and the selection addresses.
    terminal: Terminal,

    /// What the terminal does on the line at present.
    mode: Mode,

    /// Whether the terminal accepts selections.
    ready: bool,

    /// Whether the next text that the terminal takes is answered by a reverse interrupt.
    urgent: bool,

    /// The sender of the bids when the terminal is polled.
    sender: Sender,

    /// The receiver of the bids when the terminal is selected.
    receiver: Receiver,

    /// The records that the terminal has to send.
    queue: Queue<A>,

    /// The records that arrived, for each selection address.
    spools: Spools<A>,
}

impl<A: Allocator> Model for Tributary<A> {
    ghost use Rattle.bsc_tributary.specs.Tributary.{TributaryValue, tributary_of};
    ghost use Rattle.bsc_tributary.specs.Kept.{IsTributary};

    ghost Value = { TributaryValue };

    ghost view = { λ t. tributary_of t.terminal t.mode t.ready t.urgent t.sender t.receiver
        t.queue t.spools };

    ghost invariant = { λ t. IsTributary (tributary_of t.terminal t.mode t.ready t.urgent t.sender
        t.receiver t.queue t.spools) };
}

impl<A: Allocator> Tributary<A> {
    /// Returns a terminal in control mode, ready, not urgent, with nothing to send, nothing
    /// received and no doubt. It allocates nothing. Condition: all its addresses differ
    /// (`addresses_differ`).
    pub fn new(alloc: A, setup: Setup, terminal: Terminal) -> Self
    where
        A: Copy,
        requires { HasDistinctAddresses terminal }
        ensures { IsNewTerminal setup terminal result }
    {
        Tributary {
            terminal,
            mode: Mode::Control,
            ready: true,
            urgent: false,
            sender: Sender::new(setup),
            receiver: Receiver::new(),
            queue: Queue::new(alloc, setup.format()),
            spools: Spools::new(alloc, terminal.selects()),
        }
    }

    /// Adds a record to those that the terminal has to send. If there is no memory for the record,
    /// it is given back and nothing changes. Condition: the record is not longer than the full
    /// length.
    pub fn offer(&mut self, record: Record) -> Result<(), Record>
        requires { length «record» ≤ self.old.queue.format.full }
        ensures ok { OnOk result (self.new
            ≡ record self.old { queue = with_offered self.old.queue «record» }) }
        ensures err { OnErr result (self.new ≡ self.old) }
        ensures given_back { IfErr result (λ r. r ≡ «record») }
        ensures same { KeepsSetupAndMode self.old self.new }
    {
        self.queue.offer(record)
    }

    /// Forgets the first records that the terminal has sent, this many. Their places stay, and what
    /// the terminal does on the line is the same as if they were not forgotten. No memory is
    /// allocated. Condition: at most as many as are known to have arrived.
    pub fn forget_sent(&mut self, count: usize)
        requires { count ≤ self.old.queue.known }
        ensures state { self.new
            ≡ record self.old { queue = with_forgotten self.old.queue count } }
        ensures same { KeepsSetupAndMode self.old self.new }
    {
        // That the same records wait as before is a law of queues.
        next_blocks();
        self.queue.forget(count);
    }

    /// Sets whether the terminal accepts selections; if it is not ready, it answers them by NAK. A
    /// bid that it is receiving continues. (GA27-3004, NAK to a selection.)
    pub fn set_ready(&mut self, ready: bool)
        ensures state { self.new ≡ record self.old { ready = ready } }
        ensures same { KeepsSetupAndMode self.old self.new }
    {
        self.ready = ready;
    }

    /// Asks for the line: the next text that the terminal takes is answered by a reverse interrupt,
    /// unless its last reply was one. A poll of the terminal clears the request. (GA27-3004:
    /// reverse interrupt.)
    pub fn set_urgent(&mut self)
        ensures state { self.new ≡ record self.old { urgent = true } }
        ensures same { KeepsSetupAndMode self.old self.new }
    {
        self.urgent = true;
    }

    /// Whether the terminal is in control mode: it neither sends records nor takes texts.
    /// (GA27-3004, control mode.)
    pub fn in_control_mode(&self) -> bool
        ensures mode { result ≡ is_control_mode self.now.mode }
        ensures tributary { IsTributary self.now }
    {
        match self.mode {
            Mode::Control => true,
            Mode::Receiving { .. } | Mode::Sending => false,
        }
    }

    /// Whether the last block that the terminal sent is in doubt, that is, not known to have
    /// arrived or to have been lost.
    pub fn in_doubt(&self) -> bool
        ensures doubt { result ≡ is_in_doubt self.now.sender.phase }
        ensures tributary { IsTributary self.now }
    {
        self.sender.in_doubt()
    }

    /// Ends the doubt: the other end has `count` records of this terminal. Errors: `NotInDoubt` if
    /// there is no doubt, else `CountMismatch` if `count` is neither the number of the known
    /// records nor that number with the doubtful block. Both change nothing.
    pub fn release(&mut self, count: usize) -> Result<(), ReleaseError>
        ensures state { self.new ≡ after_release self.old count }
        ensures answer { result ≡ (release_step self.old.sender self.old.queue count).answer }
        ensures same { KeepsSetupAndMode self.old self.new }
    {
        self.sender.release(count, &mut self.queue)
    }

    /// Begins again, as after the end of the process: the terminal is in control mode, ready and
    /// not urgent, and an unanswered block is in doubt. It keeps its addresses and settings, the
    /// records that it has to send, a doubt, and the records that arrived.
    pub fn restart(&mut self)
        ensures state { self.new ≡ restarted self.old }
        ensures tributary { IsTributary self.new }
    {
        self.sender.restart();
        self.mode = Mode::Control;
        self.ready = true;
        self.urgent = false;
        self.receiver = Receiver::new();
    }

    /// Returns what is to be kept of the terminal now, for the case that its process ends, beside
    /// the records of its queue and of its spools. With these a new terminal becomes the restarted
    /// one: they are offered again, those of the spools are given to `keep_arrived`, and then this
    /// to `recall`.
    pub fn kept(&self) -> KeptSender
        ensures value { result ≡ kept_of self.now.sender self.now.queue }
        ensures fits { FitsOffered result (length self.now.queue.offered) }
        ensures tributary { IsTributary self.now }
    {
        self.sender.kept(&self.queue)
    }

    /// Adds a record that had arrived for the selection address of this number, counted from 0,
    /// before the process of the terminal ended. If there is no memory for the record, it is given
    /// back and nothing changes. Condition: the terminal has such an address.
    pub fn keep_arrived(&mut self, select: usize, record: Record) -> Result<(), Record>
        requires { select < length self.old.terminal.selects }
        ensures ok { OnOk result (GainsRecord (spool_at self.old.spools select) «record»
            (spool_at self.new.spools select)) }
        ensures err { OnErr result (self.new ≡ self.old) }
        ensures given_back { IfErr result (λ r. r ≡ «record») }
        ensures others { self.new ≡ record self.old {
          spools = slice_set self.old.spools select (spool_at self.new.spools select);
        } }
        ensures same { KeepsSetupAndMode self.old self.new }
    {
        self.spools.keep(select, record)
    }

    /// Forgets the first records that arrived for the selection address of this number, counted
    /// from 0, this many. Their places stay. No memory is allocated. Condition: the terminal has
    /// such an address, and at most as many as arrived for it.
    pub fn forget_arrived(&mut self, select: usize, count: usize)
        requires address { select < length self.old.terminal.selects }
        requires count { count ≤ length (spool_at self.old.spools select).records }
        ensures forgets { ForgetsRecords (spool_at self.old.spools select) count
            (spool_at self.new.spools select) }
        ensures others { self.new ≡ record self.old {
          spools = slice_set self.old.spools select (spool_at self.new.spools select);
        } }
        ensures same { KeepsSetupAndMode self.old self.new }
    {
        self.spools.forget(select, count);
    }

    /// Recalls what was kept, once the records that had been offered are offered again: how many of
    /// them are known to have arrived, and the doubt. The errors are `NotNew` if a bid is in
    /// progress, a block is in doubt, or a record is known to have arrived; then `Known` if more
    /// records are known than were offered; then `Doubt` if the doubtful block does not have 1 to 7
    /// records, or more than are not known. All change nothing.
    pub fn recall(&mut self, kept: KeptSender) -> Result<(), RecallError>
        ensures state { self.new ≡ after_recall self.old kept }
        ensures answer { result ≡ (recall_step self.old.sender self.old.queue kept).answer }
        ensures same { KeepsSetupAndMode self.old self.new }
    {
        self.sender.recall(kept, &mut self.queue)
    }

    /// Returns the queue: the records that were offered, and how many of them are known to have
    /// arrived.
    pub fn queue(&self) -> &Queue<A>
        ensures value { result.now ≡ self.now.queue }
        ensures tributary { IsTributary self.now }
    {
        &self.queue
    }

    /// Returns the spool of the selection address of this number, counted from 0: the records that
    /// arrived for it. Condition: the terminal has such an address.
    pub fn spool(&self, select: usize) -> &Spool<A>
        requires { select < length self.now.terminal.selects }
        ensures value { result.now ≡ spool_at self.now.spools select }
        ensures tributary { IsTributary self.now }
    {
        self.spools.spool(select)
    }

    /// Takes the line from the terminal: an unanswered block is in doubt, a held sender is idle,
    /// and the mode is control mode.
    fn drop_line(&mut self)
        ensures state { self.new ≡ without_line self.old }
        ensures hearing { IsHearing self.old (Heard.Whole Message.Eot) self.new None }
    {
        self.sender.cut_off();
        self.mode = Mode::Control;
    }

    /// Answers a call of the polling address.
    fn answer_poll(&mut self, sent: &mut MessageBuffer)
        ensures row { record { tributary = self.new; sent = sent.new } ≡ poll_step self.old }
        ensures tributary { IsTributary self.new }
    {
        self.drop_line();
        self.urgent = false;
        if self.sender.in_doubt() || !self.queue.has_waiting() {
            sent.set_eot();
            return;
        }
        let outcome = self.sender.begin(&self.queue, sent);
        perform(outcome, &mut self.mode, sent);
    }

    /// Answers a call of the selection address of this number.
    fn answer_selection(&mut self, select: usize, sent: &mut MessageBuffer)
        requires { select < length self.old.terminal.selects }
        ensures row { let room = (spool_at self.new.spools select).room in
            record { tributary = self.new; sent = sent.new }
            ≡ selection_step self.old select room }
        ensures room { (spool_at self.old.spools select).room ≡ true
            → (spool_at self.new.spools select).room ≡ true }
        ensures tributary { IsTributary self.new }
    {
        self.drop_line();
        if !self.ready {
            sent.set_reply(Reply::Nak);
            return;
        }
        self.mode = Mode::Receiving { select };
        let room = self.spools.make_room(select);
        let reply = self.receiver.begin(room);
        sent.set_reply(reply);
    }

    /// Hears a call.
    fn hear_call(&mut self, address: &Address, sent: &mut MessageBuffer)
        ensures { IsHearing self.old (Heard.Whole (Message.Call address.now)) self.new sent.new }
    {
        match called_address(&self.terminal, address) {
            Called::Polling => self.answer_poll(sent),
            Called::Selection { select } => self.answer_selection(select, sent),
            Called::Other => {
                self.drop_line();
                sent.clear();
            }
        }
    }

    /// Hears a transmission that is neither a call nor EOT.
    fn hear_in_mode(&mut self, heard: &Heard<'_>, sent: &mut MessageBuffer)
        requires { IsNoCall heard.now }
        ensures { IsHearing self.old heard.now self.new sent.new }
    {
        match self.mode {
            Mode::Control => sent.clear(),
            Mode::Receiving { select } => {
                let reply = self
                    .spools
                    .receive(select, &mut self.receiver, heard, self.urgent);
                self.urgent = still_urgent(self.urgent, reply);
                leave_reply(reply, sent);
            }
            Mode::Sending => {
                let outcome = self.sender.reply(heard, &mut self.queue, sent);
                perform(outcome, &mut self.mode, sent);
            }
        }
    }

    /// Hears a call of an address that is not the terminal's own, and returns true. A call of one
    /// of its own addresses changes nothing and returns false.
    fn overhear_call(&mut self, address: &Address) -> bool
        ensures silent { IsTrue result →
            IsHearing self.old (Heard.Whole (Message.Call address.now)) self.new None }
        ensures left { result ≡ false → self.new ≡ self.old }
    {
        let called = called_address(&self.terminal, address);
        match called {
            Called::Other => {
                self.drop_line();
                true
            }
            Called::Polling => false,
            Called::Selection { .. } => false,
        }
    }

    /// Whether it is certain that a transmission that is neither a call nor EOT changes nothing.
    fn is_deaf(&self, heard: &Heard<'_>) -> bool
        requires { IsNoCall heard.now }
        ensures { IsTrue result → IsHearing self.now heard.now self.now None }
    {
        match self.mode {
            Mode::Control => true,
            Mode::Receiving { .. } => false,
            Mode::Sending => false,
        }
    }

    /// Hears a transmission that the terminal certainly does not answer, and returns true: EOT, a
    /// call of an address that is not its own, and, in control mode, anything but a call. If the
    /// terminal may answer, it returns false and nothing changes. This is `answer` without the
    /// space for a message, for a line of many terminals of which one answers.
    pub fn overhear(&mut self, heard: &Heard<'_>) -> bool
        ensures silent { IsTrue result → IsHearing self.old heard.now self.new None }
        ensures left { result ≡ false → self.new ≡ self.old }
    {
        match heard {
            Heard::Whole(Message::Eot) => {
                self.drop_line();
                true
            }
            Heard::Whole(Message::Call(address)) => self.overhear_call(address),
            _ => self.is_deaf(heard),
        }
    }
}

impl<A: Allocator> Station for Tributary<A> {
    ghost use Rattle.std.specs.Prelude.{refl};
    ghost use Rattle.bsc_tributary.specs.Tributary.{holds};
    ghost use Rattle.bsc_tributary.specs.Kept.{IsHearing, IsSilence};

    ghost hears = { IsHearing };

    ghost acts = { IsSilence };

    ghost holds = { λ t. holds t.mode };

    fn answer(&mut self, heard: &Heard<'_>, sent: &mut MessageBuffer) {
        match heard {
            Heard::Whole(Message::Eot) => {
                self.drop_line();
                sent.clear();
            }
            Heard::Whole(Message::Call(address)) => self.hear_call(address, sent),
            _ => self.hear_in_mode(heard, sent),
        }
    }

    fn act(&mut self, sent: &mut MessageBuffer) {
        match self.mode {
            Mode::Control | Mode::Receiving { .. } => sent.clear(),
            Mode::Sending => {
                let outcome = self.sender.silence(sent);
                perform(outcome, &mut self.mode, sent);
            }
        }
    }

    /// Whether the terminal acts on a silence: exactly while it sends.
    fn holds_line(&self) -> bool
        ensures holds { result ≡ holds self.now.mode }
        ensures tributary { IsTributary self.now }
    {
        self.mode == Mode::Sending
    }

    ghost ignores_noise = { λ old new sent hearing. hearing.after.noise refl };
}

/// Whether the urgent flag is still up after this reply: a reverse interrupt clears it.
fn still_urgent(urgent: bool, reply: Option<Reply>) -> bool
    ensures { result ≡ (if sends_interrupt reply then false else urgent) }
{
    match reply {
        Some(Reply::Rvi) => false,
        _ => urgent,
    }
}

/// Leaves the message of the reply in `sent`, or `None` if there is no reply.
fn leave_reply(reply: Option<Reply>, sent: &mut MessageBuffer)
    ensures { sent.new ≡ option_map m.Reply reply }
{
    match reply {
        Some(reply) => sent.set_reply(reply),
        None => sent.clear(),
    }
}

/// Changes the mode by the outcome of a step of the sender. The message that the sender left in
/// `sent` stays, unless the bid is over: then EOT replaces it.
fn perform(outcome: Outcome, mode: &mut Mode, sent: &mut MessageBuffer)
    ensures mode { mode.new ≡ mode_left outcome mode.old }
    ensures sent { sent.new ≡ message_left outcome sent.old }
{
    match outcome {
        Outcome::Sends => *mode = Mode::Sending,
        Outcome::Over => {
            *mode = Mode::Control;
            sent.set_eot();
        }
        Outcome::Quiet => {}
    }
}
