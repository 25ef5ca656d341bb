//! A prepared station is attended over its connections until it ends, and leaves what its report
//! and its answer need.

ghost use Rattle.std.specs.Prelude.{IsErr, is_some};
ghost use Rattle.bsc_attending.specs.Live.{RanLive};
ghost use Rattle.bsc_keeping.specs.FedRuns.{RunsFed};
ghost use Rattle.bsc_serving.specs.Stations.{control_line, terminal_line};

use crate::live::Live;
use bsc_bid::Station;
use bsc_carrier::CarrierError;
use bsc_connections::{Framing, LiveError, Waiter};
use bsc_control::Control;
use bsc_keeping::Keeps;
use bsc_monitor::{AbsenceLimits, ControlWatch, Ended, Limits, TerminalWatch, Watch};
use bsc_report::Tracing;
use bsc_serving::Programs;
use bsc_station::{LineStation, LineTerminal};
use bsc_text::progress::{Meter, Timer};
use bsc_trust::Trust;
use std::alloc::Global;
use std::io::{Read, Write};

/// When the control station ends, when it takes a terminal for absent, and what it can tell of its
/// line.
#[derive(Clone, Copy)]
pub(crate) struct Ending {
    /// Its limits.
    pub(crate) limits: Limits,

    /// When a terminal is absent, and when it is called again.
    pub(crate) absence: AbsenceLimits,

    /// Whether other peers may connect later.
    pub(crate) listens: bool,

    /// What it can tell before there are connections.
    pub(crate) trust: Trust,
}

/// What a station leaves when it ends.
#[derive(Clone, Copy)]
pub(crate) enum Left {
    /// What the control station can tell of its line.
    Control { trust: Trust },

    /// The fault that closed the connection of a terminal, if any.
    Terminal { closed: Option<CarrierError> },
}

/// What a station is watched with: what is traced, the time, and what takes the trace.
#[derive(Drop)]
pub(crate) struct Watching<'a, C: Drop, D> {
    pub(crate) tracing: Tracing,
    pub(crate) timer: C,
    pub(crate) trace: &'a mut D,
}

/// Attends the control station until it ends, and then its connections until its last call is
/// answered. Returns what the station can tell of its line. No fault of a connection ends it.
pub(crate) fn attend_control<
    R: Read + Drop,
    W: Write + Drop,
    F: Framing + Drop,
    T: Waiter<R, W> + Drop,
    P: Programs + Drop,
    Q: Keeps<Control<Global>>,
    C: Timer + Meter + Drop,
    D: Write,
>(
    alloc: Global,
    ending: Ending,
    control: &mut Control<Global>,
    live: &mut Live<R, W, F, T, P>,
    kept: &mut Q,
    watching: Watching<'_, C, D>,
) -> Result<Trust, LiveError>
    ensures ran { RanLive (RunsFed ⟦<Control<Global> as Station>⟧ (control_line {Z = Unit {0}})
        Q.Keeps (is_some live.old.programs)) control.old control.new kept.old kept.new
        (IsErr result) }
{
    let Watching {
        tracing,
        timer,
        trace,
    } = watching;
    let watch = Watch::new(alloc, tracing, timer, trace);
    let Ending {
        limits,
        absence,
        listens,
        trust,
    } = ending;
    let trust = live.joined_by(trust);
    let mut watch = ControlWatch::new(control, watch, limits, absence, listens, trust);
    live.attend(control, &mut watch, kept)?;
    if watch.is_closed() {
        return Ok(watch.trust());
    }
    let mut last = watch.into_last();
    live.attend_last(&mut Ended::new(), &mut last)?;
    Ok(last.trust())
}

/// Attends a terminal until its connection is closed, and returns the fault that closed it, if any.
pub(crate) fn attend_terminal<
    R: Read + Drop,
    W: Write + Drop,
    F: Framing + Drop,
    T: Waiter<R, W> + Drop,
    P: Programs + Drop,
    Q: Keeps<LineTerminal<Global>>,
    C: Timer + Meter + Drop,
    D: Write,
>(
    alloc: Global,
    terminal: &mut LineTerminal<Global>,
    live: &mut Live<R, W, F, T, P>,
    kept: &mut Q,
    watching: Watching<'_, C, D>,
) -> Result<Option<CarrierError>, LiveError>
    ensures ran { RanLive (RunsFed ⟦<LineTerminal<Global> as Station>⟧
        (terminal_line {Z = Unit {0}}) Q.Keeps (is_some live.old.programs)) terminal.old
        terminal.new kept.old kept.new (IsErr result) }
{
    let Watching {
        tracing,
        timer,
        trace,
    } = watching;
    let mut watch = TerminalWatch::new(Watch::new(alloc, tracing, timer, trace));
    live.attend(terminal, &mut watch, kept)?;
    Ok(watch.closed())
}
