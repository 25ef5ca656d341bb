//! Whether a transmission was heard in a way that keeps the line trusted.

ghost use Rattle.std.specs.Prelude.{◌≡◌, ◌<◌, ◌↔◌, IsTrue, IfSome, ◌&&◌};
ghost use Rattle.bsc_frame.specs.declared.message.Heard.TheVariants as h;
ghost use Rattle.bsc_bid.specs.Fair.{IsFairlyHeard, IsTextMessage};
ghost use Rattle.bsc_line_model.specs.declared.transmission.Transmission.{Transmission as TransmissionValue};
ghost use Rattle.bsc_line_model.specs.Hearing.{heard_at};
ghost use Rattle.bsc_line_model.specs.Trust.{IsMissed, AllHear, EachOf, IsHeardFairly, is_call};
ghost use Rattle.bsc_line.specs.Hearings.{hearing_of};

use crate::hearing::{Hearings, hearing, item_at};
use bsc_frame::laws::same_messages;
use bsc_frame::{Heard, Message, TextBuffer};
use bsc_line_model::Transmission;

/// Whether the messages are the same.
fn is_same(a: &Message<'_>, b: &Message<'_>) -> bool
    ensures { IsTrue result ↔ (a.now ≡ b.now) }
{
    same_messages();
    a == b
}

/// Whether the message is a text.
fn is_text(message: &Message<'_>) -> bool
    ensures { IsTrue result ↔ IsTextMessage message.now }
{
    match message {
        Message::Text(_) => true,
        _ => false,
    }
}

/// Whether the message is a call.
fn is_call(message: &Message<'_>) -> bool
    ensures { result ≡ is_call message.now }
{
    match message {
        Message::Call(_) => true,
        _ => false,
    }
}

/// Whether the message is EOT.
fn is_eot(message: &Message<'_>) -> bool
    ensures { IsTrue result ↔ (message.now ≡ Message.Eot) }
{
    match message {
        Message::Eot => true,
        _ => false,
    }
}

/// Whether the message is heard fairly: whole, as a failed text if it is a text, as EOT if it is a
/// call, or as noise.
fn is_fairly_heard(message: &Message<'_>, heard: &Heard<'_>) -> bool
    ensures { IsTrue result ↔ IsFairlyHeard message.now heard.now }
{
    match heard {
        Heard::Whole(whole) => is_same(whole, message) || (is_call(message) && is_eot(whole)),
        Heard::Failed => is_text(message),
        Heard::Noise => true,
    }
}

/// Whether this message is heard whole.
fn is_whole(message: &Message<'_>, heard: &Heard<'_>) -> bool
    ensures { IsTrue result ↔ (heard.now ≡ h.Whole message.now) }
{
    match heard {
        Heard::Whole(whole) => is_same(whole, message),
        Heard::Failed => false,
        Heard::Noise => false,
    }
}

/// Whether a call is missed: heard as EOT or as noise.
fn is_missed(heard: &Heard<'_>) -> bool
    ensures { IsTrue result ↔ IsMissed heard.now }
{
    match heard {
        Heard::Whole(whole) => is_eot(whole),
        Heard::Failed => false,
        Heard::Noise => true,
    }
}

/// Whether each of the first `count` items is heard as this message.
pub(crate) fn each_hears(message: &Message<'_>, count: usize, items: &[Option<&[u8]>]) -> bool
    ensures { IsTrue result ↔ AllHear count (heard_at items.now) message.now }
{
    let mut buffer = TextBuffer::new();
    for place in 0..count {
        if !is_whole(message, &hearing(item_at(items, place), &mut buffer)) {
            return false;
        }
    }
    true
}

/// Whether a call is missed in each of the first `count` items.
fn each_misses(count: usize, items: &[Option<&[u8]>]) -> bool
    ensures { IsTrue result ↔ EachOf count (λ t. IsMissed (heard_at items.now t)) }
{
    let mut buffer = TextBuffer::new();
    for place in 0..count {
        if !is_missed(&hearing(item_at(items, place), &mut buffer)) {
            return false;
        }
    }
    true
}

/// Whether the message is heard fairly in each of the first `count` items.
fn each_is_fair(message: &Message<'_>, count: usize, items: &[Option<&[u8]>]) -> bool
    ensures { IsTrue result ↔ EachOf count (λ t. IsFairlyHeard message.now (heard_at items.now t)) }
{
    let mut buffer = TextBuffer::new();
    for place in 0..count {
        if !is_fairly_heard(message, &hearing(item_at(items, place), &mut buffer)) {
            return false;
        }
    }
    true
}

/// Whether all of the `count` terminals hear this message. Condition: there is at least one
/// terminal.
fn all_hear(message: &Message<'_>, count: usize, hearings: &Hearings<'_>) -> bool
    requires { 0 < count }
    ensures { IsTrue result ↔ AllHear count (hearing_of hearings.now) message.now }
{
    match hearings {
        Hearings::Alike(heard) => is_whole(message, heard),
        Hearings::Each(items) => each_hears(message, count, items),
    }
}

/// Whether all of the `count` terminals miss a call. Condition: there is at least one terminal.
fn all_miss(count: usize, hearings: &Hearings<'_>) -> bool
    requires { 0 < count }
    ensures { IsTrue result ↔ EachOf count (λ t. IsMissed (hearing_of hearings.now t)) }
{
    match hearings {
        Hearings::Alike(heard) => is_missed(heard),
        Hearings::Each(items) => each_misses(count, items),
    }
}

/// Whether each of the `count` terminals hears the message fairly. Condition: there is at least one
/// terminal.
fn all_fair(message: &Message<'_>, count: usize, hearings: &Hearings<'_>) -> bool
    requires { 0 < count }
    ensures { IsTrue result ↔
        EachOf count (λ t. IsFairlyHeard message.now (hearing_of hearings.now t)) }
{
    match hearings {
        Hearings::Alike(heard) => is_fairly_heard(message, heard),
        Hearings::Each(items) => each_is_fair(message, count, items),
    }
}

/// Whether the control station's message is heard in a way that keeps the line trusted: a call by
/// all terminals or by none, any other message fairly by each. Condition: there is at least one
/// terminal.
fn is_heard_fairly(message: &Message<'_>, count: usize, hearings: &Hearings<'_>) -> bool
    requires { 0 < count }
    ensures { IsTrue result ↔ IsHeardFairly message.now count (hearing_of hearings.now) }
{
    if is_call(message) {
        all_hear(message, count, hearings) || all_miss(count, hearings)
    } else {
        all_fair(message, count, hearings)
    }
}

/// Whether the control station's pending transmission is heard in a way that keeps the line
/// trusted. Condition: there is at least one terminal.
pub(crate) fn is_down_fair(
    sent: &Option<Transmission<'_>>,
    count: usize,
    hearings: &Hearings<'_>,
) -> bool
    requires { 0 < count }
    ensures { IfSome sent.now (λ (s : TransmissionValue).
        IsTrue result ↔ IsHeardFairly s.message count (hearing_of hearings.now)) }
{
    match sent {
        Some(sent) => is_heard_fairly(&sent.message, count, hearings),
        None => true,
    }
}

/// Whether the terminal's pending transmission is heard fairly.
pub(crate) fn is_up_fair(sent: &Option<Transmission<'_>>, heard: &Heard<'_>) -> bool
    ensures { IfSome sent.now (λ (s : TransmissionValue).
        IsTrue result ↔ IsFairlyHeard s.message heard.now) }
{
    match sent {
        Some(sent) => is_fairly_heard(&sent.message, heard),
        None => true,
    }
}

/// Whether both are true.
pub(crate) fn both(a: bool, b: bool) -> bool
    ensures { result ≡ (a && b) }
{
    a && b
}
