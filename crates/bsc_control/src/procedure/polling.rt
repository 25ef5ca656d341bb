//! What the station does on a transmission and on a silence while it polls.

ghost use Rattle.std.specs.Prelude.{◌≡◌, true};
ghost use Rattle.bsc_control.specs.Control.{HasEntries, peer};
ghost use Rattle.bsc_control.specs.Table.{polling_step, silence_in, rooms_after, Hears, IsReceived};

use crate::procedure::Procedure;
use crate::task::{Replied, Task};
use bsc_frame::{Heard, Message, MessageBuffer};
use std::alloc::Allocator;

impl<A: Allocator> Procedure<A> {
    /// Hears a transmission after a poll. EOT ends the poll.
    pub(crate) fn hear_polling(
        &mut self,
        replied: Replied,
        heard: &Heard<'_>,
        sent: &mut MessageBuffer,
    )
        requires { self.old.task ≡ Task.Polling replied }
        ensures row { Hears self.old heard.now self.new sent.new }
        ensures entries { HasEntries self.new }
    {
        match heard {
            Heard::Whole(Message::Eot) => self.call_after_poll(replied.is_interrupted(), sent),
            _ => self.receive(replied, heard, sent),
        }
    }

    /// Hears a transmission other than EOT after a poll, and replies as the receiver does.
    fn receive(&mut self, replied: Replied, heard: &Heard<'_>, sent: &mut MessageBuffer)
        requires { IsReceived (Task.Polling replied) heard.now }
        ensures row { record { control = self.new; sent = sent.new }
            ≡ polling_step self.old replied heard.now (rooms_after self.old heard.now self.new) }
        ensures entries { HasEntries self.new }
        ensures room { (peer self.old).spool.room ≡ true
            → (rooms_after self.old heard.now self.new).first ≡ true }
    {
        let terminal = self.current();
        let peer = &mut self.peers[terminal];
        let reply = peer.receive(heard);
        self.task = Task::Polling {
            replied: replied.after(reply),
        };
        match reply {
            Some(reply) => sent.set_reply(reply),
            None => sent.clear(),
        }
    }

    /// Acts on a silence after a poll: the call is made again if nothing was replied yet and a try
    /// is left, else the next call is made.
    pub(crate) fn fail_poll(&mut self, replied: Replied, sent: &mut MessageBuffer)
        ensures row { record { control = self.new; sent = sent.new }
            ≡ silence_in self.old (Task.Polling replied) }
        ensures entries { HasEntries self.new }
    {
        match replied {
            Replied::Nothing if self.failures < self.setup.tries() => {
                self.poll(self.place, self.failures + 1, sent)
            }
            _ => self.call_after_poll(replied.is_interrupted(), sent),
        }
    }
}
