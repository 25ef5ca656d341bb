//! The terminals that do not answer their polls.

ghost use Rattle.std.specs.Prelude.{◌≡◌, Some};
ghost use Rattle.bsc_connections.specs.Notes.{told_by};
ghost use Rattle.bsc_monitor.specs.Answering.{answering_acted, answering_after, answering_sent};
ghost use Rattle.bsc_monitor.specs.Answering.{new_answering};
ghost use Rattle.bsc_monitor.specs.Answering.{poll_over, told_after, unanswered, unreplied};
ghost use Rattle.bsc_monitor.specs.Answering.{untold};

use bsc_bid::limits::MAX_TERMINALS;
use bsc_connections::Note;
use bsc_control::{Control, Replied, Task};
use std::alloc::Allocator;

/// Which terminals have not answered, as far as it was told.
#[derive(Clone, Copy)]
pub(crate) struct Answering {
    /// The terminal whose poll was sent last, if it has not replied to it.
    polled: Option<usize>,

    /// Whether the last thing that was heard, or not, is a silence.
    silence: bool,

    /// The terminals of which it was told that they have not answered.
    told: [bool; MAX_TERMINALS],
}

impl Answering {
    /// Returns that nothing was told, before anything has been sent.
    pub fn new() -> Answering
        ensures { result ≡ new_answering }
    {
        Answering {
            polled: None,
            silence: false,
            told: [false; MAX_TERMINALS],
        }
    }

    /// Takes note of an event. Returns the terminal of which it is to be told that it has answered
    /// neither its poll nor a repetition of it; once, until it answers one.
    pub fn note<B: Allocator>(&mut self, control: &Control<B>, note: &Note<'_>) -> Option<usize>
        ensures state { self.new ≡ answering_after self.old control.now (told_by note.now) }
        ensures answer { result ≡ unanswered self.old control.now (told_by note.now) }
    {
        match note {
            Note::Heard { .. } => self.acted(control, false),
            Note::Silence => self.acted(control, true),
            Note::Sent { .. } => return self.sent(control),
            Note::Joined { .. } | Note::Refused { .. } | Note::Closed { .. } => {}
            Note::Ignored { .. } | Note::Withheld { .. } | Note::Stopped => {}
        }
        None
    }

    /// Takes note of what the control station has heard, or of a silence. Once it is at rest its
    /// last poll is over, and nothing is told of it.
    fn acted<B: Allocator>(&mut self, control: &Control<B>, silence: bool)
        ensures { self.new ≡ answering_acted self.old control.now.task silence }
    {
        self.silence = silence;
        if let Task::AtRest = control.task() {
            self.polled = None;
        }
    }

    /// Takes note of a transmission of the control station.
    fn sent<B: Allocator>(&mut self, control: &Control<B>) -> Option<usize>
        ensures state { self.new ≡ answering_sent self.old control.now }
        ensures answer { result ≡ untold self.old (poll_over self.old control.now) }
    {
        let over = self.poll_over(control);
        self.polled = polled_by(control);
        match over {
            Some(terminal) => self.end_poll(terminal),
            None => None,
        }
    }

    /// Returns the terminal whose poll is over with what the control station has just sent: its
    /// poll was sent before, and is not repeated now.
    fn poll_over<B: Allocator>(&self, control: &Control<B>) -> Option<usize>
        ensures { result ≡ poll_over self.now control.now }
    {
        if self.silence && control.failures() > 0 {
            return None;
        }
        self.polled
    }

    /// Takes note that the poll of this terminal is over.
    fn end_poll(&mut self, terminal: usize) -> Option<usize>
        ensures state { self.new
            ≡ record self.old { told = told_after self.old (Some terminal) } }
        ensures answer { result ≡ untold self.old (Some terminal) }
    {
        if terminal >= MAX_TERMINALS {
            return None;
        }
        let was_told = self.told[terminal];
        self.told[terminal] = self.silence;
        if self.silence && !was_told {
            Some(terminal)
        } else {
            None
        }
    }
}

/// Returns the terminal that the control station polls, if it has not replied.
fn polled_by<B: Allocator>(control: &Control<B>) -> Option<usize>
    ensures { result ≡ unreplied control.now }
{
    match control.task() {
        Task::Polling {
            replied: Replied::Nothing,
        } => control
            .poll_list()
            .get(control.place())
            .map(|terminal| usize::from(*terminal)),
        _ => None,
    }
}
