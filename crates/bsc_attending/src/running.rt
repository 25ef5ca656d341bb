//! What it means that a prepared station runs.

ghost use Rattle.std.specs.Prelude.{Bool, List, Option, ℕ};
ghost use Rattle.bsc_attending.specs.Printer.{Followed};
ghost use Rattle.bsc_control.specs.Control.{ControlValue};
ghost use Rattle.bsc_keeping.specs.declared.keeper.Keeper.{Keeper as KeeperValue};
ghost use Rattle.bsc_keeping.specs.declared.keeps.Keeps as keeps_of;
ghost use Rattle.bsc_spool.specs.declared.store.Store as store_of;
ghost use Rattle.bsc_station.specs.LineTerminal.{LineTerminalValue};

use crate::preparing::Prepared;
use bsc_bid::Station;
use bsc_control::Control;
use bsc_station::{LineStation, LineTerminal, Party};
use std::alloc::Global;

/// A station that can run.
pub(crate) trait Running {
    /// It runs with what keeps what it changes: what that does at a control station, and at a
    /// terminal, whether programs can feed the station, the station before and after, what keeps
    /// before and after, and what is so if something fails.
    ghost ran_live: { (Q : Type 0) → keeps_of.Ghosts Q ControlValue
        → keeps_of.Ghosts Q LineTerminalValue → Bool → Self → Self → Q → Q → Type 0 → Type 0 };

    /// Its records are kept in a store: what is known of the store, whether programs can feed the
    /// station, the station and its keeper before, what is so if something fails, and the station
    /// after.
    ghost runs_kept: { (K : Type 0) → store_of.Ghosts K → Bool → Self → KeeperValue K → Type 0
        → Self → Type 0 };

    /// Its records are only printed: what the output holds, whether programs can feed the station,
    /// the station before, what is so if something fails, and the station after.
    ghost runs_printed: { (W : Type 0) → (W → Option (List ℕ)) → Bool → Self → Type 0 → Self
        → Type 0 };

    /// Every record that arrived at it is printed, if this much is.
    ghost are_all_printed: { Self → Followed → Type 0 };
}

impl Running for Prepared {
    ghost use Rattle.bsc_attending.specs.Live.{PreparedRanLive};
    ghost use Rattle.bsc_attending.specs.Printer.{PreparedAllPrinted};
    ghost use Rattle.bsc_attending.specs.Runs.{PreparedRunsKept, PreparedRunsPrinted};
    ghost use Rattle.bsc_keeping.specs.FedRuns.{RunsFed, RunsKeptFed, RunsPrintedFed};
    ghost use Rattle.bsc_serving.specs.Stations.{control_line, terminal_line};

    ghost ran_live = { λ Q control terminal is_fed. PreparedRanLive
        (RunsFed ⟦<Control<Global> as Station>⟧ (control_line {Z = Unit {0}}) control is_fed)
        (RunsFed ⟦<LineTerminal<Global> as Station>⟧ (terminal_line {Z = Unit {0}}) terminal
        is_fed) };

    ghost runs_kept = { λ K store is_fed. PreparedRunsKept
        (RunsKeptFed ⟦<Control<Global> as Station>⟧ ⟦<Control<Global> as Party>⟧ control_line store
        is_fed)
        (RunsKeptFed ⟦<LineTerminal<Global> as Station>⟧ ⟦<LineTerminal<Global> as Party>⟧
        terminal_line store is_fed) };

    ghost runs_printed = { λ W contents is_fed. PreparedRunsPrinted
        (RunsPrintedFed ⟦<Control<Global> as Station>⟧ ⟦<Control<Global> as Party>⟧ control_line
        contents is_fed)
        (RunsPrintedFed ⟦<LineTerminal<Global> as Station>⟧ ⟦<LineTerminal<Global> as Party>⟧
        terminal_line contents is_fed) };

    ghost are_all_printed = { PreparedAllPrinted ⟦<Control<Global> as Party>⟧
        ⟦<LineTerminal<Global> as Party>⟧ };
}
