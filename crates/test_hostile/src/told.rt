//! What a watch reports of what happened on the line without it, of a line that it takes for
//! another, and of a line of the most terminals on which much has happened; and the messages of the
//! rules.

use crate::exchanges::{HI_AT, POLLED};
use crate::fixtures::Watched;
use bsc_bid::{Speaker, Terminal};
use bsc_control::Way;
use bsc_frame::Address;
use bsc_line::Event::{CarrySent, Silence};
use bsc_line::{Event, Line, LineError};
use std::alloc::Global;
use std::test::Fail;
use test_fixtures::lines::{two_terminals, two_terminals_by_three};
use test_fixtures::octets::{EOT, TEXT_HI};
use test_watch::Broken;

/// Offers HI at terminal 1, at the last terminal of the most, and for the second selection address
/// of terminal 0.
const HI_AT_SECOND: Event<'static> = Event::OfferAt {
    terminal: 1,
    codes: b"HI",
};

const HI_AT_LAST: Event<'static> = Event::OfferAt {
    terminal: 63,
    codes: b"HI",
};

const HI_FOR: Event<'static> = Event::OfferFor {
    terminal: 0,
    select: 1,
    codes: b"HI",
};

/// Terminal 1 asks for the line.
const URGENT: Event<'static> = Event::UrgentAt { terminal: 1 };

/// What is pending is lost, or heard as EOT or as a text.
const LOST: Event<'static> = Event::Carry { heard: None };

const AS_EOT: Event<'static> = Event::Carry { heard: Some(EOT) };

const AS_TEXT: Event<'static> = Event::Carry {
    heard: Some(TEXT_HI),
};

/// Terminal 0 begins again, or the control station does.
const RESTART_FIRST: Event<'static> = Event::Restart {
    party: Speaker::Terminal { number: 0 },
};

const RESTART_CONTROL: Event<'static> = Event::Restart {
    party: Speaker::Control,
};

/// The number of the pending transmission of a poll, an event that is played without the watch, the
/// event after it, and what the watch reports at the latter.
const UNSEEN: &[(usize, Event<'static>, Event<'static>, Broken)] = &[
    (0, HI_AT_SECOND, URGENT, Broken::Offered),
    (0, CarrySent, URGENT, Broken::Pending),
    (0, LOST, CarrySent, Broken::Answer),
    (1, CarrySent, URGENT, Broken::Spooled),
    (2, CarrySent, URGENT, Broken::Known),
    (2, AS_EOT, URGENT, Broken::Trust),
    (4, CarrySent, CarrySent, Broken::Pending),
    (1, RESTART_FIRST, URGENT, Broken::Doubt),
    (2, RESTART_FIRST, RESTART_CONTROL, Broken::Doubt),
    (3, RESTART_FIRST, URGENT, Broken::Pending),
    (0, RESTART_CONTROL, URGENT, Broken::Pending),
];

#[test]
fn what_happens_unseen_is_told(rt: HostRuntime) -> Result<(), Fail> {
    for (place, unseen, event, broken) in UNSEEN {
        let mut watched = Watched::new(rt.alloc())?;
        watched.begin(&POLLED, *place)?;
        watched.line.run(&[*unseen])?;
        assert_eq!(rt; watched.play(event).err(), Some(*broken), "{place}");
    }
    Ok(())
}

/// Terminal 1 is polled.
const POLL_SECOND: Event<'static> = Event::Polled {
    terminal: 1,
    polled: true,
};

/// Terminal 1 is passed over.
const PASS_SECOND: Event<'static> = Event::Polled {
    terminal: 1,
    polled: false,
};

/// The poll of terminal 0 ends, and terminal 1 is called, which is not polled to the watch.
#[test]
fn a_call_of_a_terminal_that_is_not_polled_is_told(rt: HostRuntime) -> Result<(), Fail> {
    let mut watched = Watched::new(rt.alloc())?;
    watched.begin(&POLLED, 3)?;
    watched.play_each(&[PASS_SECOND])?;
    watched.line.run(&[POLL_SECOND])?;
    assert_eq!(rt; watched.play(&CarrySent).err(), Some(Broken::Order));
    Ok(())
}

/// What the watch reports of these events on a line of these terminals if it takes it for one of
/// others: the first rule that is broken.
fn told_of(
    alloc: Global,
    terminals: &[Terminal],
    others: &[Terminal],
    events: &[Event<'_>],
) -> Result<Option<Broken>, Fail> {
    let mut watched = Watched::of(alloc, terminals, others)?;
    Ok(watched.play_each(events).err())
}

#[test]
fn other_addresses_are_told(rt: HostRuntime) -> Result<(), Fail> {
    let (two, three) = (two_terminals(), two_terminals_by_three());
    let called = told_of(rt.alloc(), &three, &two, &[HI_FOR, Silence])?;
    assert_eq!(rt; called, Some(Broken::Call));
    let missing = told_of(rt.alloc(), &two, &three, &[URGENT])?;
    assert_eq!(rt; missing, Some(Broken::Channel));
    Ok(())
}

/// HI is offered at both terminals, the first is called, and its text is lost; the same on a line
/// that is not trusted, since the first call was heard as a text.
const TRUSTED: &[Event<'static>] = &[HI_AT, HI_AT_SECOND, Silence, CarrySent, LOST];

const DISTRUSTED: &[Event<'static>] = &[
    HI_AT,
    HI_AT_SECOND,
    Silence,
    AS_TEXT,
    Silence,
    CarrySent,
    LOST,
];

/// One event more: what the control station sent is heard, what a terminal sent is lost, and a
/// silence passes if nothing is pending.
fn go_on(line: &mut Line<Global>) -> Result<(), LineError> {
    let speaker = match line.pending() {
        Some(sent) => Some(sent.speaker),
        None => None,
    };
    match speaker {
        Some(Speaker::Control) => line.carry_sent(),
        Some(Speaker::Terminal { .. }) => line.carry(None),
        None => line.silence(),
    }
}

/// Whether both terminals are in doubt, and nothing is pending.
fn are_both_in_doubt(line: &Line<Global>) -> bool {
    if line.terminals() != 2 || line.pending().is_some() {
        return false;
    }
    line.in_doubt(0, Way::FromTerminal) && line.in_doubt(1, Way::FromTerminal)
}

/// Lets both terminals give up without the watch.
fn give_up(line: &mut Line<Global>) -> Result<(), Fail> {
    for _ in 0..200u8 {
        if are_both_in_doubt(line) {
            return Ok(());
        }
        go_on(line)?;
    }
    Err("a terminal does not give up".into())
}

/// On a trusted line the second terminal moved although it is not addressed; on another line two
/// channels moved.
#[test]
fn two_doubts_that_began_unseen_are_told(rt: HostRuntime) -> Result<(), Fail> {
    for (events, broken) in [
        (TRUSTED, Broken::NotAddressed),
        (DISTRUSTED, Broken::TwoMoved),
    ] {
        let mut watched = Watched::new(rt.alloc())?;
        watched.play_each(events)?;
        give_up(&mut watched.line)?;
        assert_eq!(rt; watched.play(&Silence).err(), Some(broken));
    }
    Ok(())
}

/// The terminal whose addresses end with this code.
fn coded_terminal(code: u8) -> Result<Terminal, Fail> {
    let (poll, select) = (Address::read(&[b'P', code])?, Address::read(&[b'S', code])?);
    Ok(Terminal::new(poll, &[select])?)
}

/// What the watch reports of a line of the most terminals after 2,000 idle polls and an event that
/// it has not seen.
fn told_after_polls(alloc: Global, unseen: &Event<'_>) -> Result<Option<Broken>, Fail> {
    let mut terminals = [coded_terminal(0x21)?; 64];
    for (terminal, code) in terminals.iter_mut().zip(0x21..=0x7eu8) {
        *terminal = coded_terminal(code)?;
    }
    let mut watched = Watched::of(alloc, &terminals, &terminals)?;
    watched.repeat(1, &Silence)?;
    watched.repeat(4_000, &CarrySent)?;
    watched.line.run(&[*unseen])?;
    Ok(watched.play(&Event::UrgentAt { terminal: 63 }).err())
}

#[test]
fn the_last_of_64_terminals_is_watched_after_many_events(rt: HostRuntime) -> Result<(), Fail> {
    let offered = told_after_polls(rt.alloc(), &HI_AT_LAST)?;
    assert_eq!(rt; offered, Some(Broken::Offered));
    let sent = told_after_polls(rt.alloc(), &CarrySent)?;
    assert_eq!(rt; sent, Some(Broken::Pending));
    Ok(())
}

/// The message of each rule.
const TEXTS: [(Broken, &str); 17] = [
    (Broken::Answer, "another answer to the event"),
    (Broken::Trust, "another trust"),
    (Broken::Channel, "a channel is missing"),
    (Broken::Offered, "other records are offered"),
    (Broken::Spooled, "records arrived that were not heard"),
    (Broken::Known, "records are known without a reply"),
    (Broken::Doubt, "another doubt"),
    (Broken::TwoMoved, "two channels moved"),
    (
        Broken::NotAddressed,
        "a channel moved that was not addressed",
    ),
    (Broken::NotSound, "a channel is not sound"),
    (
        Broken::OtherRecords,
        "other records arrived than were offered",
    ),
    (Broken::PutOff, "a station puts off without a cause"),
    (Broken::Pending, "something else is pending"),
    (Broken::Message, "no message of its sender is pending"),
    (Broken::Text, "a text carries other records"),
    (Broken::Call, "a call that is not due"),
    (Broken::Order, "a call out of order"),
];

#[test]
fn what_is_broken_is_printed(rt: HostRuntime) -> Result<(), Fail> {
    for (broken, text) in TEXTS {
        assert_eq!(rt; broken.to_string(rt.alloc())?.as_str(), text);
    }
    Ok(())
}
