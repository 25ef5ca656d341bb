//! The laws of a station whose changes are kept, stated over the definitions that the contracts
//! cite.

ghost use Rattle.bsc_connections.specs.Parts.{session_parts};
ghost use Rattle.bsc_keeping.specs.AllKept.{HasAllThroughout, KeepsEachChange};
ghost use Rattle.bsc_keeping.specs.ForgottenKept.{HasAllOnceForgotten};
ghost use Rattle.bsc_keeping.specs.OffersKept.{HasAllOnceOffered};
ghost use Rattle.bsc_station.specs.Feeding.{control_with, terminal_with};
ghost use Rattle.bsc_keeping.specs.Printed.{output_of};
ghost use Rattle.bsc_keeping.specs.Runs.{EachStepIsKept};
ghost use Rattle.bsc_keeping.specs.Sessions.{KeepsBeforeSending, PrintsBeforeSending};

use crate::{Keeping, Printed, Prints, Stored};
use bsc_bid::Station;
use bsc_connections::{Framing, Monitor, Waiter};
use bsc_control::Control;
use bsc_spool::Store;
use bsc_station::{LineStation, LineTerminal, Party};
use std::alloc::Allocator;
use std::io::{Read, Write};

/// What a station sends that has a store, it sends after all that it has changed is kept: in every
/// step of a session in which something is sent, exactly the changes that were not kept before are
/// kept at once. A crash at any moment of any step leaves what was kept before the step, or all of
/// the step. So whatever a peer was sent rests on what a store has. And a step that is not refused
/// keeps all that the station has changed in it; so before each wait of a session the store has all
/// that is to be kept of the station, if it had it at the beginning. In each step the station stays
/// as it is, hears a transmission or acts on a silence, and no more.
pub fn kept_before_sent<
    S: LineStation,
    R: Read + Drop,
    W: Write + Drop,
    F: Framing + Drop,
    T: Waiter<R, W>,
    M: Monitor<S> + 'static,
    K: Store + Drop + 'static,
    V: Prints + Drop + 'static,
>()
    ensures sent { KeepsBeforeSending S.Party S.kept_at K.Store V.printed
        (session_parts S.Station R.Read W.Write F.Framing
        ⟦<Keeping<'static, M, Stored<K, V>> as Monitor<S>>⟧.is_told
        ⟦<Keeping<'static, M, Stored<K, V>> as Monitor<S>>⟧.admits
        ⟦<Keeping<'static, M, Stored<K, V>> as Monitor<S>>⟧.may_answer
        ⟦<Keeping<'static, M, Stored<K, V>> as Monitor<S>>⟧.paces
        T.Waiter) }
    ensures changed { KeepsEachChange S.Party S.kept_at K.Store V.printed
        (session_parts S.Station R.Read W.Write F.Framing
        ⟦<Keeping<'static, M, Stored<K, V>> as Monitor<S>>⟧.is_told
        ⟦<Keeping<'static, M, Stored<K, V>> as Monitor<S>>⟧.admits
        ⟦<Keeping<'static, M, Stored<K, V>> as Monitor<S>>⟧.may_answer
        ⟦<Keeping<'static, M, Stored<K, V>> as Monitor<S>>⟧.paces
        T.Waiter) }
    ensures throughout { HasAllThroughout S.Party S.kept_at K.Store V.printed
        (session_parts S.Station R.Read W.Write F.Framing
        ⟦<Keeping<'static, M, Stored<K, V>> as Monitor<S>>⟧.is_told
        ⟦<Keeping<'static, M, Stored<K, V>> as Monitor<S>>⟧.admits
        ⟦<Keeping<'static, M, Stored<K, V>> as Monitor<S>>⟧.may_answer
        ⟦<Keeping<'static, M, Stored<K, V>> as Monitor<S>>⟧.paces
        T.Waiter) }
    ensures steps { EachStepIsKept S.Station S.Party S.kept_at K.Store
        (session_parts S.Station R.Read W.Write F.Framing
        ⟦<Keeping<'static, M, Stored<K, V>> as Monitor<S>>⟧.is_told
        ⟦<Keeping<'static, M, Stored<K, V>> as Monitor<S>>⟧.admits
        ⟦<Keeping<'static, M, Stored<K, V>> as Monitor<S>>⟧.may_answer
        ⟦<Keeping<'static, M, Stored<K, V>> as Monitor<S>>⟧.paces
        T.Waiter) }
{}

/// What a station sends that has no store, it sends after the records that had arrived at it were
/// printed: in every step of a session in which something is sent, exactly the records that were
/// not printed before are. So whatever the peer counts as delivered was printed.
pub fn printed_before_sent<
    S: Station + Party,
    R: Read + Drop,
    W: Write + Drop,
    F: Framing + Drop,
    T: Waiter<R, W>,
    M: Monitor<S> + 'static,
    O: Write + 'static,
>()
    ensures { PrintsBeforeSending S.Party O.contents
        (session_parts S.Station R.Read W.Write F.Framing
        ⟦<Keeping<'static, M, Printed<'static, O>> as Monitor<S>>⟧.is_told
        ⟦<Keeping<'static, M, Printed<'static, O>> as Monitor<S>>⟧.admits
        ⟦<Keeping<'static, M, Printed<'static, O>> as Monitor<S>>⟧.may_answer
        ⟦<Keeping<'static, M, Printed<'static, O>> as Monitor<S>>⟧.paces
        T.Waiter) }
{}

/// If a store has all that is to be kept of a station, it still has it once a record that was
/// offered is kept and then offered to the station: the record is then among those that are kept as
/// offered, and an offer changes nothing else that is to be kept. So a station may be offered
/// records between two sessions, and the law of its sessions holds of the next one.
pub fn kept_before_offered<A: Allocator, M: Prints, K: Store + Drop>()
    ensures terminal { HasAllOnceOffered ⟦<LineTerminal<A> as Party>⟧
        ⟦<LineTerminal<A> as LineStation>⟧.kept_at K.Store M.printed terminal_with }
    ensures control { HasAllOnceOffered ⟦<Control<A> as Party>⟧
        ⟦<Control<A> as LineStation>⟧.kept_at K.Store M.printed control_with }
{}

/// If a store has all that is to be kept of a station, it still has it once the station has
/// forgotten records that are known to have arrived, or records that arrived. So a station may
/// forget records between two sessions, too.
pub fn kept_though_forgotten<A: Allocator, M: Prints, K: Store + Drop>()
    ensures terminal { HasAllOnceForgotten ⟦<LineTerminal<A> as Party>⟧
        ⟦<LineTerminal<A> as LineStation>⟧.kept_at K.Store M.printed
        ⟦<LineTerminal<A> as LineStation>⟧.forgets_sent
        ⟦<LineTerminal<A> as LineStation>⟧.forgets_arrived }
    ensures control { HasAllOnceForgotten ⟦<Control<A> as Party>⟧
        ⟦<Control<A> as LineStation>⟧.kept_at K.Store M.printed
        ⟦<Control<A> as LineStation>⟧.forgets_sent
        ⟦<Control<A> as LineStation>⟧.forgets_arrived }
{}
