//! The laws of stations that begin again from their stores, stated over the definitions that the
//! contracts cite.

ghost use Rattle.std.specs.Prelude.{Bool, List, Some};
ghost use Rattle.bsc_bid.specs.Terminal.{HasDistinctAddresses, TerminalValue};
ghost use Rattle.bsc_tributary.specs.Kept.{IsTributary};
ghost use Rattle.bsc_bid.specs.Addresses.{AreDistinct};
ghost use Rattle.bsc_control.specs.Control.{restarted};
ghost use Rattle.bsc_spool.specs.Contents.{Contents, GivesBack};
ghost use Rattle.bsc_spool.specs.declared.channel.Channel.{Channel as ChannelValue};
ghost use Rattle.bsc_station.specs.LineTerminal.{LineTerminalValue};
ghost use Rattle.bsc_station.specs.Feeding.{kept_at_control};
ghost use Rattle.bsc_station.specs.Feeding.{control_with, terminal_with};
ghost use Rattle.bsc_keeping.specs.Own.{receiving_of, sending_of, sends_from, spools_of};
ghost use Rattle.bsc_bid.specs.declared.speaker.Speaker.TheVariants.{Control as ControlSpeaker};
ghost use Rattle.bsc_serving.specs.Stations.{control_line, terminal_line};
ghost use Rattle.bsc_restarts.specs.AfterCrash.{ControlBeginsAfterCrash, TerminalBeginsAfterCrash};
ghost use Rattle.bsc_restarts.specs.AfterCrash.{arrived_at_control, arrived_at_terminal};
ghost use Rattle.bsc_restarts.specs.AfterCrash.{kept_at_terminal, waiting_at_control};
ghost use Rattle.bsc_restarts.specs.AfterCrash.{waiting_at_terminal};
ghost use Rattle.bsc_restarts.specs.Begun.{ControlKeptOnceBegun, KnownOnceBegun};
ghost use Rattle.bsc_restarts.specs.Begun.{TerminalKeptOnceBegun};
ghost use Rattle.bsc_restarts.specs.BegunAgain.{ControlBeginsAgain, TerminalBeginsAgain};
ghost use Rattle.bsc_restarts.specs.Between.{IsControlOf, OutlivesForgetting, OutlivesKeeping};
ghost use Rattle.bsc_restarts.specs.Between.{OutlivesOffers};
ghost use Rattle.bsc_restarts.specs.Crashes.{CrashLeaves, KeepsGiven};
ghost use Rattle.bsc_restarts.specs.Ideal.{ideal_store, what_it_has};
ghost use Rattle.bsc_restarts.specs.Sessions.{OutlivesFed};
ghost use Rattle.bsc_restarts.specs.StoreWorks.{ControlReleases, FollowsWorks, TerminalReleases};
ghost use Rattle.bsc_restarts.specs.StoreWorks.{control_released, terminal_released};
ghost use Rattle.bsc_restarts.specs.StoreWorks.{terminal_restarted};

use bsc_bid::Station;
use bsc_bid::laws::recalls;
use bsc_control::Control;
use bsc_control::laws::made_again;
use bsc_spool::Store;
use bsc_station::{LineStation, LineTerminal, Party};
use std::alloc::Allocator;

/// A new station that is filled from a store that has all that is to be kept of a station is that
/// station after a restart, apart from the room in its spools. Of its records only the places are
/// filled of those that are known to have arrived, and of those that are forgotten from the
/// beginning. What is asked of the station holds of each: what is kept of it fits its records, as
/// [`Tributary::kept`](bsc_tributary::Tributary::kept) and
/// [`Control::kept`](bsc_control::Control::kept) say.
pub fn begun_again()
    ensures terminal { TerminalBeginsAgain }
    ensures control { ControlBeginsAgain }
{
    recalls();
    made_again();
}

/// The process of a terminal may end at any moment of its run. Whatever that leaves in its store is
/// all that is to be kept of the terminal as it is before the step of that moment or after it. Once
/// something is sent, and at each moment between the steps, all is kept that is to be kept. So it
/// is also if programs feed the terminal: they offer records, release doubts, start or stop
/// accepting selections, and ask for the line. The store is any that keeps what it is given, and it
/// had all at the beginning. [`step_kept`](bsc_keeping::step_kept) is part of such a run, and
/// the program runs so each station whose records are kept.
pub fn terminal_outlives_crashes<A: Allocator, K: Store + Drop>()
    ensures { (terminal : TerminalValue) → HasDistinctAddresses terminal → (is_fed : Bool)
        → OutlivesFed kept_at_terminal waiting_at_terminal arrived_at_terminal K.Store
        (sends_from (Some terminal)) (spools_of terminal)
        ⟦<LineTerminal<A> as Station>⟧ ⟦<LineTerminal<A> as Party>⟧ terminal_line is_fed }
{}

/// The same of a control station.
pub fn control_outlives_crashes<A: Allocator, K: Store + Drop>()
    ensures { (terminals : List TerminalValue) → AreDistinct terminals → (is_fed : Bool)
        → OutlivesFed kept_at_control waiting_at_control arrived_at_control K.Store
        (sending_of terminals ControlSpeaker) (receiving_of terminals ControlSpeaker)
        ⟦<Control<A> as Station>⟧ ⟦<Control<A> as Party>⟧ control_line is_fed }
{}

/// A station that begins again from what a crash left is the one of which it was left, after a
/// restart. Of the records that arrived it has all that are not printed, also those that the other
/// had forgotten.
pub fn begins_after_crash()
    ensures terminal { TerminalBeginsAfterCrash }
    ensures control { ControlBeginsAfterCrash }
{
    begun_again();
}

/// What a crash left is all that is to be kept of the station that begins again from it, and what
/// keeps its records knows how much of each channel that is. So all that is said of a session holds
/// of the sessions of that station, too.
pub fn kept_once_begun<K: Store + Drop>()
    ensures terminal { TerminalKeptOnceBegun }
    ensures control { ControlKeptOnceBegun }
    ensures known { KnownOnceBegun K }
{
    begins_after_crash();
}

/// Between two sessions, too, the store of a station has all that is to be kept of it: when the
/// station forgets records, when a terminal is polled or is not, and when it is offered a record.
/// At the end, while all that the station has changed is kept once more, a crash leaves no less.
pub fn kept_between_sessions<A: Allocator, K: Store + Drop>()
    ensures terminal_forgets { OutlivesForgetting kept_at_terminal waiting_at_terminal
        arrived_at_terminal ⟦<LineTerminal<A> as LineStation>⟧.forgets_sent
        ⟦<LineTerminal<A> as LineStation>⟧.forgets_arrived
        ⟦<LineTerminal<A> as LineStation>⟧.polls }
    ensures terminal_keeps { OutlivesKeeping kept_at_terminal waiting_at_terminal
        arrived_at_terminal ⟦<LineTerminal<A> as Party>⟧ K.Store }
    ensures terminal_offers { (terminal : TerminalValue) → HasDistinctAddresses terminal
        → OutlivesOffers kept_at_terminal waiting_at_terminal arrived_at_terminal K.Store
        (sends_from (Some terminal)) (spools_of terminal)
        (λ (l : LineTerminalValue). IsTributary l.tributary) terminal_with }
    ensures control_forgets { OutlivesForgetting kept_at_control waiting_at_control
        arrived_at_control ⟦<Control<A> as LineStation>⟧.forgets_sent
        ⟦<Control<A> as LineStation>⟧.forgets_arrived ⟦<Control<A> as LineStation>⟧.polls }
    ensures control_keeps { OutlivesKeeping kept_at_control waiting_at_control arrived_at_control
        ⟦<Control<A> as Party>⟧ K.Store }
    ensures control_offers { (terminals : List TerminalValue) → AreDistinct terminals
        → OutlivesOffers kept_at_control waiting_at_control arrived_at_control K.Store
        (sending_of terminals ControlSpeaker) (receiving_of terminals ControlSpeaker)
        (IsControlOf terminals) control_with }
{}

/// The works of an operator on a store, between two runs of its station, are followed, too. What is
/// left is all that is to be kept of the station after a restart, whose unanswered block is in
/// doubt. Once the release of a doubt is kept, it is that of the station that released it, and once
/// a record is kept as offered, that of the station with one more record to send.
pub fn works_followed()
    ensures terminal { (terminal : TerminalValue) → HasDistinctAddresses terminal
        → FollowsWorks kept_at_terminal waiting_at_terminal arrived_at_terminal
        (sends_from (Some terminal)) (spools_of terminal)
        (λ (l : LineTerminalValue). IsTributary l.tributary) terminal_restarted TerminalReleases
        terminal_released terminal_with }
    ensures control { (terminals : List TerminalValue) → AreDistinct terminals
        → FollowsWorks kept_at_control waiting_at_control arrived_at_control
        (sending_of terminals ControlSpeaker) (receiving_of terminals ControlSpeaker)
        (IsControlOf terminals) restarted ControlReleases control_released control_with }
{}

/// What these laws ask of a store can be met: one that is nothing but what it has keeps what it is
/// given and gives it back, and a crash may leave what it had before a step or has after it.
pub fn ideal_store_is_one()
    ensures keeps { KeepsGiven ideal_store what_it_has }
    ensures gives_back { GivesBack ideal_store what_it_has }
    ensures before { (old new : ChannelValue → Contents)
        → CrashLeaves ideal_store what_it_has old new old }
    ensures after { (old new : ChannelValue → Contents)
        → CrashLeaves ideal_store what_it_has old new new }
{}
