//! What is told on standard error while a station waits for its peers.

use crate::errors::Errors;
use bsc_report::Beginning;
use bsc_sockets::Reception;
use std::net::{Net, SocketAddr};
use std::rt::Files as Filing;

/// Tells on standard error how a station waits for its peers. What standard error does not take is
/// lost.
#[derive(Drop)]
pub(crate) struct Receiving<'a, R> {
    pub(crate) errors: Errors<'a, R>,
    pub(crate) lines: Beginning,

    /// Whether the peers are terminals; else there is one, the control station.
    pub(crate) of_terminals: bool,
}

impl<R: AllocGlobal + Eprint + Filing + Net> Reception for Receiving<'_, R> {
    fn listens(&mut self, address: SocketAddr) {
        let _ = self.lines.write_listening(address, &mut self.errors);
    }

    fn waits(&mut self, connected: usize, wanted: usize) {
        let _ = if self.of_terminals {
            self.lines
                .write_waiting(connected, wanted, &mut self.errors)
        } else {
            self.lines.write_waiting_for_control(&mut self.errors)
        };
    }

    fn joined(&mut self, place: usize, peer: SocketAddr) {
        let _ = self.lines.write_joined(place, peer, &mut self.errors);
    }

    fn left(&mut self, place: usize, peer: Option<SocketAddr>) {
        let _ = self.lines.write_left(place, peer, &mut self.errors);
    }

    fn refused(&mut self, peer: SocketAddr) {
        let _ = self.lines.write_refused(peer, &mut self.errors);
    }
}
