//! What an event may do to a channel.

use crate::aside::Aside;
use crate::broken::Broken;
use crate::channel::{View, sender_of};
use crate::heard::{Hearing, Kind, kind_at};
use bsc_bid::Speaker;
use bsc_control::Way;
use bsc_line::Event;

/// The effect of an event on channels.
#[derive(Clone, Copy, PartialEq, Eq)]
pub(crate) enum Effect {
    /// The event was refused, or only set a ready or an urgent flag.
    Nothing,

    /// It was set whether this terminal is polled.
    Polled { terminal: usize, polled: bool },

    /// A record was offered on this channel.
    Offered(usize, Way),

    /// The doubt of this channel was ended.
    Released(usize, Way),

    /// This station began again.
    Restarted(Speaker),

    /// A silence passed.
    Silence,

    /// A transmission of the control station was heard or lost.
    Down,

    /// A transmission of a terminal was heard or lost.
    Up,
}

/// The effect of an accepted event, given the station that had sent what was pending.
pub(crate) fn effect_of(event: &Event<'_>, speaker: Option<Speaker>) -> Effect {
    match *event {
        Event::OfferAt { terminal, .. } => Effect::Offered(terminal, Way::FromTerminal),
        Event::OfferFor {
            terminal,
            select,
            ..
        } => Effect::Offered(terminal, Way::ToTerminal(select)),
        Event::Release { terminal, way } => Effect::Released(terminal, way),
        Event::Restart { party } => Effect::Restarted(party),
        Event::Polled { terminal, polled } => Effect::Polled { terminal, polled },
        Event::Silence => Effect::Silence,
        Event::Carry { .. } | Event::CarryEach { .. } | Event::CarrySent => match speaker {
            Some(Speaker::Control) => Effect::Down,
            Some(Speaker::Terminal { .. }) => Effect::Up,
            None => Effect::Nothing,
        },
        Event::Ready { .. } | Event::UrgentAt { .. } | Event::UrgentFor { .. } => Effect::Nothing,
    }
}

/// What an event may do to a channel; nothing by default.
#[derive(Clone, Copy, Default)]
pub(crate) struct May {
    /// One more record is offered.
    offer: bool,

    /// The records of a text arrive.
    land: bool,

    /// The sending end learns that records arrived.
    learn: bool,

    /// A doubt begins.
    doubt: bool,

    /// A doubt ends, and the number of arrived records becomes known.
    release: bool,
}

/// What an event with this effect may do to the channel, given what the stations heard and which
/// of them took no part before it.
pub(crate) fn allowed(
    effect: Effect,
    hearings: &[Hearing],
    aside: &Aside,
    terminal: usize,
    way: Way,
) -> May {
    let sender = sender_of(terminal, way);
    let stays = May::default();
    match effect {
        Effect::Offered(at, on) => May {
            offer: (at, on) == (terminal, way),
            ..stays
        },
        Effect::Released(at, on) => May {
            release: (at, on) == (terminal, way),
            ..stays
        },
        Effect::Restarted(party) => May {
            doubt: party == sender && !aside.has(party),
            ..stays
        },
        Effect::Silence => May {
            doubt: !aside.has(sender),
            ..stays
        },
        Effect::Down if !aside.has(Speaker::Terminal { number: terminal }) => {
            let (heard, sends) = (kind_at(hearings, terminal), way == Way::FromTerminal);
            let doubt = sends && heard.takes_line();
            May {
                doubt,
                ..may_hear(heard, sends)
            }
        }
        Effect::Up if !aside.has(Speaker::Control) => {
            may_hear(kind_at(hearings, 0), way != Way::FromTerminal)
        }
        Effect::Nothing | Effect::Polled { .. } | Effect::Down | Effect::Up => stays,
    }
}

/// What a transmission may do to a channel if the station that it is for heard this, and sends or
/// receives on the channel.
fn may_hear(heard: Kind, sends: bool) -> May {
    May {
        land: !sends && heard == Kind::Text,
        learn: sends && heard.is_positive(),
        ..May::default()
    }
}

/// Whether the number stayed the same, or grew by at most the 7 records of a block if it may grow.
fn grows(before: usize, after: usize, may: bool) -> bool {
    match after.checked_sub(before) {
        None => false,
        Some(more) => more == 0 || (may && more <= 7),
    }
}

/// Whether a doubt began or ended only if it may, and ended if it has to.
fn doubts(before: View, after: View, may: May) -> bool {
    if may.release {
        return before.in_doubt && !after.in_doubt && after.known == after.spooled;
    }
    if before.in_doubt {
        after.in_doubt
    } else {
        !after.in_doubt || may.doubt
    }
}

/// Checks that a channel did only what it may do between the two views.
pub(crate) fn check(before: View, after: View, may: May) -> Result<(), Broken> {
    if after.offered.checked_sub(before.offered) != Some(usize::from(may.offer)) {
        return Err(Broken::Offered);
    }
    if !grows(before.spooled, after.spooled, may.land) {
        return Err(Broken::Spooled);
    }
    let learns = may.learn || may.release;
    if !grows(before.known, after.known, learns) || after.known > after.offered {
        return Err(Broken::Known);
    }
    if doubts(before, after, may) {
        Ok(())
    } else {
        Err(Broken::Doubt)
    }
}

/// Whether the number of arrived records, the number of known records or the doubt changed.
pub(crate) fn moved(before: View, after: View) -> bool {
    before.spooled != after.spooled
        || before.known != after.known
        || before.in_doubt != after.in_doubt
}

/// Whether a channel of a trusted line changed as it may: a block arrives only if the block before
/// it is known to have arrived, and the sender learns of all arrived records at once.
pub(crate) fn steps(before: View, after: View) -> bool {
    let landed = before.spooled != after.spooled;
    let learnt = before.known != after.known;
    (!landed || (before.spooled == before.known && after.spooled <= after.offered))
        && (!learnt || after.known == after.spooled)
}

/// Whether the counts of a channel of a trusted line are sound: no more records arrived than were
/// offered, and all of them are known to have arrived, except for up to a block of 7 records while
/// the channel is in use or in doubt.
pub(crate) fn is_sound(view: View, in_use: bool) -> bool {
    grows(view.known, view.spooled, in_use || view.in_doubt) && view.spooled <= view.offered
}
