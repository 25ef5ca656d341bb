//! A station that begins again.

ghost use Rattle.std.specs.Prelude.{◌≡◌, map};
ghost use Rattle.bsc_control.specs.Control.{restarted};
ghost use Rattle.bsc_control.specs.Peer.{restarted_peer};

use crate::peer::Peer;
use crate::procedure::Procedure;
use crate::task::Task;
use std::alloc::Allocator;

impl<A: Allocator> Procedure<A> {
    /// Begins again with the records and the doubts: the procedure is at rest at the first entry,
    /// and the counters are at 0.
    pub(crate) fn restart(&mut self)
        ensures { self.new ≡ restarted self.old }
    {
        self.place = 0;
        self.task = Task::AtRest;
        self.failures = 0;
        self.wacks = 0;
        restart_peers(&mut self.peers);
    }
}

/// Lets what is kept for each terminal begin again.
fn restart_peers<A: Allocator>(peers: &mut Vec<Peer<A>, A>)
    ensures { peers.new.items ≡ map restarted_peer peers.old.items }
{
    for peer in peers.iter_mut() {
        peer.restart();
    }
}
