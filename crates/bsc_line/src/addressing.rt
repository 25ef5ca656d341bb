//! The channel that the control station's transmission addresses.

ghost use Rattle.std.specs.Prelude.{◌≡◌, ◌<◌};
ghost use Rattle.bsc_control.specs.Control.{terminals};
ghost use Rattle.bsc_line_model.specs.Hearing.{heard_at, all_hear};
ghost use Rattle.bsc_line_model.specs.Trust.{IsAddressedAfter};
ghost use Rattle.bsc_line.specs.Hearings.{hearing_of};
ghost use Rattle.bsc_line.specs.Naming.{named_in};

use crate::hearing::{Hearings, hearing, item_at};
use crate::trust::each_hears;
use bsc_control::{Control, Way};
use bsc_frame::{Address, Heard, Message, TextBuffer};
use std::alloc::Allocator;

/// What a transmission names.
#[derive(Clone, Copy)]
pub(crate) enum Named {
    /// The terminal and way with this address.
    Address(Address),

    /// No channel.
    Nobody,

    /// Nothing: the channel that was addressed stays addressed.
    Nothing,
}

fn named_in(heard: &Heard<'_>) -> Named
    ensures { result ≡ named_in heard.now }
{
    match heard {
        Heard::Whole(Message::Call(address)) => Named::Address(*address),
        Heard::Whole(Message::Eot) => Named::Nobody,
        _ => Named::Nothing,
    }
}

/// Returns the channel that is addressed after all terminals heard this alike. Condition: there is
/// at least one terminal.
fn addressed_alike<A: Allocator>(
    control: &Control<A>,
    addressed: Option<(usize, Way)>,
    count: usize,
    heard: &Heard<'_>,
) -> Option<(usize, Way)>
    requires { 0 < count }
    ensures { IsAddressedAfter (terminals control.now) count (all_hear heard.now) addressed
        result }
{
    match named_in(heard) {
        Named::Address(address) => control.find(&address),
        Named::Nobody => None,
        Named::Nothing => addressed,
    }
}

/// Returns the channel that is addressed after each of the `count` terminals heard its item.
/// Condition: there is at least one terminal.
fn addressed_apart<A: Allocator>(
    control: &Control<A>,
    addressed: Option<(usize, Way)>,
    count: usize,
    items: &[Option<&[u8]>],
) -> Option<(usize, Way)>
    requires { 0 < count }
    ensures { IsAddressedAfter (terminals control.now) count (heard_at items.now) addressed result }
{
    let mut buffer = TextBuffer::new();
    match named_in(&hearing(item_at(items, 0), &mut buffer)) {
        Named::Address(address) => {
            if each_hears(&Message::Call(address), count, items) {
                control.find(&address)
            } else {
                addressed
            }
        }
        Named::Nobody => {
            if each_hears(&Message::Eot, count, items) {
                None
            } else {
                addressed
            }
        }
        Named::Nothing => addressed,
    }
}

/// Returns the channel that is addressed after the `count` terminals heard the control station in
/// this way. Condition: there is at least one terminal.
pub(crate) fn addressed_after<A: Allocator>(
    control: &Control<A>,
    addressed: Option<(usize, Way)>,
    count: usize,
    hearings: &Hearings<'_>,
) -> Option<(usize, Way)>
    requires { 0 < count }
    ensures { IsAddressedAfter (terminals control.now) count (hearing_of hearings.now) addressed
        result }
{
    match hearings {
        Hearings::Alike(heard) => addressed_alike(control, addressed, count, heard),
        Hearings::Each(items) => addressed_apart(control, addressed, count, items),
    }
}
