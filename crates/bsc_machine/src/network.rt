//! The connections of a machine to other processes, its clock, and the writer for a trace.

ghost use Rattle.std.specs.Prelude.{◌≡◌, length, IfOk};
ghost use Rattle.bsc_machine.specs.Connections.{AreSettings, ListensOn, count_at, first_at};
ghost use Rattle.bsc_machine.specs.Showing.{IsOf, is_shown, shows};

use crate::connecting::{PeerAt, connect_within};
use crate::errors::Errors;
use crate::machine::Machine;
use crate::readiness::OutputReadiness;
use crate::receiving::Receiving;
use crate::screen::{Progress, Screen, progress};
use bsc_attending::{Network, Opened, Reachable, Wanted};
use bsc_clients::{Clients, ClientsError, ServedAt};
use bsc_options::Place;
use bsc_report::Beginning;
use bsc_sockets::{
    Begun, ConnectionSettings, Listening, Reading, Sockets, SocketsError, Writing, listen,
};
use bsc_text::progress::Work;
use std::alloc::Global;
use std::fs::File;
use std::io::Write;
use std::net::Net;
use std::rt::Files as Filing;
use std::time::{Clock, Duration};

/// Returns the settings of the connections that a station asks for.
fn settings_of(wanted: &Wanted<'_>) -> ConnectionSettings
    ensures { AreSettings wanted.now result }
{
    wanted.settings()
}

/// Tells at which address programs can reach the station, if it is one of the network. What is not
/// written is lost.
fn tell_address<'a, R: Filing + Net, W: Write>(
    programs: &Clients<'a, R>,
    lines: Beginning,
    out: &mut W,
) {
    if let Some(address) = programs.address() {
        let _ = lines.write_serving(address, out);
    }
}

/// Returns the number of places for the connections that a station asks for.
fn places_of(wanted: &Wanted<'_>) -> usize
    ensures { result ≡ count_at wanted.now.place wanted.now.connections }
{
    match wanted.place {
        Place::Listen { .. } => wanted.peers().count,
        Place::Connect { .. } => 1,
    }
}

/// Makes the connections that a station asks for.
fn begin<'a, R: AllocGlobal + Clock + Eprint + Filing + Net>(
    runtime: &'a R,
    screen: &'a Screen,
    wanted: &Wanted<'_>,
) -> Result<Begun<'a, R, Global>, SocketsError>
    ensures count { IfOk result (λ begun. length begun.connections.items
        ≡ first_at wanted.now.place wanted.now.begin_with wanted.now.connections) }
    ensures settings { IfOk result (λ begun. AreSettings wanted.now begun.sockets.settings) }
    ensures listens { IfOk result (λ begun. ListensOn wanted.now.place wanted.now.stays
        begun.sockets.listener) }
{
    let settings = settings_of(wanted);
    match wanted.place {
        Place::Connect { address } => {
            let patience = Duration::from_millis(wanted.patience);
            let peer = PeerAt {
                runtime,
                address,
                settings,
            };
            connect_within(runtime, patience, &peer)
        }
        Place::Listen { address } => {
            let listening = Listening::bind(runtime, address)?;
            let mut reception = Receiving {
                errors: Errors::new(runtime, screen, false),
                lines: Beginning {
                    trace: wanted.trace,
                },
                of_terminals: wanted.stays,
            };
            listen(
                runtime,
                runtime.alloc(),
                listening,
                wanted.peers(),
                settings,
                &mut reception,
            )
        }
    }
}

impl<'a, R: AllocGlobal + Clock + Eprint + Filing<File = File> + Net> Network for Machine<'a, R> {
    ghost use Rattle.std.specs.Prelude.{◌≡◌};

    type Reader = Reading;

    type Writer = Writing<'a, R, Global>;

    type Waiter = Sockets<'a, R, Global>;

    type Timer = Progress<'a, R>;

    type Programs = Clients<'a, R>;

    type Trace = Errors<'a, R>;

    type Readiness = OutputReadiness;

    ghost traces = { λ is_traced errors. errors.may_fail ≡ is_traced };

    ghost connects = { λ _ _ _ _. Unit {0} };

    ghost serves = { λ _ _ _ _ _. Unit {0} };

    ghost syncs = { λ _ _. Unit {0} };

    fn open(
        &mut self,
        wanted: &Wanted<'_>,
    ) -> Result<Opened<Self::Reader, Self::Writer, Self::Waiter>, SocketsError>
        ensures count { IfOk result (λ opened. length opened.connections.items
            ≡ first_at wanted.now.place wanted.now.begin_with wanted.now.connections) }
        ensures places { IfOk result (λ opened.
            opened.places ≡ count_at wanted.now.place wanted.now.connections) }
        ensures settings { IfOk result (λ opened. AreSettings wanted.now opened.waiter.settings) }
        ensures listens { IfOk result (λ opened. ListensOn wanted.now.place wanted.now.stays
            opened.waiter.listener) }
    {
        let begun = begin(self.runtime, self.screen, wanted)?;
        Ok(Opened {
            waiter: begun.sockets,
            connections: begun.connections,
            places: places_of(wanted),
        })
    }

    fn serve(
        &mut self,
        at: ServedAt<'_>,
        trace: bool,
    ) -> Result<Reachable<Clients<'a, R>>, ClientsError> {
        let programs = Clients::listen(self.runtime, self.runtime.alloc(), at)?;
        tell_address(&programs, Beginning { trace }, &mut self.trace(trace));
        let descriptor = programs.descriptor();
        Ok(Reachable {
            programs,
            descriptor,
        })
    }

    fn timer(&mut self, work: Option<Work>) -> Progress<'a, R>
        ensures shown { shows result ≡ is_shown self.old.screen.now.is_terminal work }
        ensures counted { IsOf work result }
    {
        progress(self.runtime, self.screen, work)
    }

    fn trace(&mut self, is_traced: bool) -> Errors<'a, R>
        ensures { result.may_fail ≡ is_traced }
    {
        Errors::new(self.runtime, self.screen, is_traced)
    }

    fn readiness(&mut self) -> OutputReadiness {
        OutputReadiness::new(self.runtime)
    }

    fn sync_output(&mut self) {
        self.syncs.set(true);
    }
}
