//! All terminals of a line together.

ghost use Rattle.std.specs.Prelude.{◌≡◌, ◌<◌, ◌≤◌, length, IfSome, IfOk, IfErr, OnOk, OnErr, []};
ghost use Rattle.std.specs.Prelude.{◌∷◌, ◌++◌};
ghost use Rattle.bsc_spool.specs.Queue.{with_offered};
ghost use Rattle.bsc_tributary.specs.Tributary.{holds};
ghost use Rattle.bsc_tributary.specs.Kept.{IsHearing, KeepsSetupAndMode};
ghost use Rattle.bsc_line_model.specs.Hearing.{heard_at};
ghost use Rattle.bsc_line_model.specs.Transmission.{sent_by};
ghost use Rattle.bsc_line_model.specs.Terminals.{EachHears, EachKeeps, answer, first_answer};
ghost use Rattle.bsc_line_model.specs.Terminals.{or_first, line_owner};
ghost use Rattle.bsc_line_model.specs.Kept.{AreNewTerminals, AreEachDistinct};
ghost use Rattle.bsc_line.specs.Hearings.{hearing_of};

use crate::hearing::{Hearings, hearing, item_at};
use crate::transmission_buffer::TransmissionBuffer;
use bsc_bid::{Setup, Speaker, Station, Terminal};
use bsc_block::Record;
use bsc_control::SetupError;
use bsc_frame::{Heard, MessageBuffer, TextBuffer};
use bsc_line_model::LineError;
use bsc_tributary::Tributary;
use std::alloc::Allocator;

/// Lets a terminal hear, and drops its answer. This is a function of its own because only it needs
/// another buffer: usually no more than one terminal answers.
#[inline(never)]
fn hear_unkept<A: Allocator>(terminal: &mut Tributary<A>, heard: &Heard<'_>)
    ensures { IsHearing terminal.old heard.now terminal.new
        (answer terminal.old heard.now terminal.new) }
{
    let mut answer = MessageBuffer::new();
    terminal.answer(heard, &mut answer);
}

/// Lets a terminal that may answer hear, and keeps its answer unless one was kept before.
fn hear_apart<A: Allocator>(
    terminal: &mut Tributary<A>,
    heard: &Heard<'_>,
    place: usize,
    first: &mut TransmissionBuffer,
)
    ensures hearing { IsHearing terminal.old heard.now terminal.new
        (answer terminal.old heard.now terminal.new) }
    ensures first { first.new ≡ or_first first.old
        (sent_by (Speaker.Terminal place) (answer terminal.old heard.now terminal.new)) }
{
    match first.speaker() {
        None => first.answer(Speaker::Terminal { number: place }, terminal, heard),
        Some(_) => hear_unkept(terminal, heard),
    }
}

/// Lets a terminal hear this, and keeps its answer unless one was kept before.
fn hear_one<A: Allocator>(
    terminal: &mut Tributary<A>,
    heard: &Heard<'_>,
    place: usize,
    first: &mut TransmissionBuffer,
)
    ensures hearing { IsHearing terminal.old heard.now terminal.new
        (answer terminal.old heard.now terminal.new) }
    ensures first { first.new ≡ or_first first.old
        (sent_by (Speaker.Terminal place) (answer terminal.old heard.now terminal.new)) }
{
    if terminal.overhear(heard) {
        return;
    }
    hear_apart(terminal, heard, place, first);
}

/// Lets a terminal hear its item, and keeps its answer unless one was kept before. This is a
/// function of its own so that a line whose terminals hear alike needs no buffer for an item.
#[inline(never)]
fn hear_item<A: Allocator>(
    terminal: &mut Tributary<A>,
    items: &[Option<&[u8]>],
    place: usize,
    first: &mut TransmissionBuffer,
)
    ensures hearing { let heard = heard_at items.now place in
        IsHearing terminal.old heard terminal.new (answer terminal.old heard terminal.new) }
    ensures first { let heard = heard_at items.now place in
        first.new ≡ or_first first.old
        (sent_by (Speaker.Terminal place) (answer terminal.old heard terminal.new)) }
{
    let mut buffer = TextBuffer::new();
    let heard = hearing(item_at(items, place), &mut buffer);
    hear_one(terminal, &heard, place, first);
}

/// Lets a terminal hear what arrives at its place, and keeps its answer unless one was kept before.
fn hear_at<A: Allocator>(
    terminal: &mut Tributary<A>,
    hearings: &Hearings<'_>,
    place: usize,
    first: &mut TransmissionBuffer,
)
    ensures hearing { let heard = hearing_of hearings.now place in
        IsHearing terminal.old heard terminal.new (answer terminal.old heard terminal.new) }
    ensures first { let heard = hearing_of hearings.now place in
        first.new ≡ or_first first.old
        (sent_by (Speaker.Terminal place) (answer terminal.old heard terminal.new)) }
{
    match hearings {
        Hearings::Alike(heard) => hear_one(terminal, heard, place, first),
        Hearings::Each(items) => hear_item(terminal, items, place, first),
    }
}

/// Lets each terminal hear what arrives at its place, and leaves the answer of the terminal with
/// the least number among those that answer.
fn hear_all<A: Allocator>(
    terminals: &mut [Tributary<A>],
    hearings: &Hearings<'_>,
    first: &mut TransmissionBuffer,
)
    ensures each { EachHears terminals.old (hearing_of hearings.now) terminals.new }
    ensures keeps { EachKeeps terminals.old (hearing_of hearings.now) terminals.new }
    ensures first { first.new ≡ first_answer terminals.old (hearing_of hearings.now) terminals.new
        (length terminals.old) }
{
    first.clear();
    for (i, terminal) in terminals.iter_mut().enumerate() {
        hear_at(terminal, hearings, i, first);
    }
}

/// Lets all terminals of a vector hear, as `hear_all` does for a slice.
pub(crate) fn hear_in<A: Allocator>(
    terminals: &mut Vec<Tributary<A>, A>,
    hearings: &Hearings<'_>,
    first: &mut TransmissionBuffer,
)
    ensures each { EachHears terminals.old.items (hearing_of hearings.now) terminals.new.items }
    ensures keeps { EachKeeps terminals.old.items (hearing_of hearings.now) terminals.new.items }
    ensures first { first.new ≡ first_answer terminals.old.items (hearing_of hearings.now)
        terminals.new.items (length terminals.old.items) }
{
    hear_all(terminals.as_mut_slice(), hearings, first)
}

/// Returns the terminal with the least number among those that hold the line.
pub(crate) fn line_owner<A: Allocator>(terminals: &[Tributary<A>]) -> Option<usize>
    ensures value { result ≡ line_owner terminals.now }
    ensures within { IfSome result (λ t. t < length terminals.now) }
{
    terminals.iter().position(
        |terminal| -> bool
            ensures { result ≡ holds terminal.now.mode }
        { terminal.holds_line() },
    )
}

/// Appends a terminal.
fn push<A: Allocator>(
    terminals: &mut Vec<Tributary<A>, A>,
    terminal: Tributary<A>,
) -> Result<(), SetupError>
    ensures ok { OnOk result (terminals.new.items ≡ terminals.old.items ++ terminal ∷ []) }
    ensures memory { IfErr result (λ e. e ≡ SetupError.Memory) }
{
    match terminals.push(terminal) {
        Ok(()) => Ok(()),
        Err(_) => Err(SetupError::Memory),
    }
}

/// Offers a record at a terminal. Error: `Memory`; then nothing changes.
pub(crate) fn offer_here<A: Allocator>(
    terminal: &mut Tributary<A>,
    record: Record,
) -> Result<(), LineError>
    requires { length «record» ≤ terminal.old.queue.format.full }
    ensures ok { OnOk result
        (terminal.new ≡ record terminal.old { queue = with_offered terminal.old.queue «record» }) }
    ensures err { OnErr result (terminal.new ≡ terminal.old) }
    ensures memory { IfErr result (λ e. e ≡ LineError.Memory) }
    ensures same { KeepsSetupAndMode terminal.old terminal.new }
{
    match terminal.offer(record) {
        Ok(()) => Ok(()),
        Err(_) => Err(LineError::Memory),
    }
}

/// Returns new terminals with these settings and addresses. Error: `Memory`. Condition: the
/// addresses of each terminal differ.
pub(crate) fn new_terminals<A: Allocator>(
    alloc: A,
    setup: Setup,
    terminals: &[Terminal],
) -> Result<Vec<Tributary<A>, A>, SetupError>
where
    A: Copy,
    requires { AreEachDistinct terminals.now }
    ensures value { IfOk result (λ v. AreNewTerminals setup terminals.now v.items) }
    ensures memory { IfErr result (λ e. e ≡ SetupError.Memory) }
{
    let mut made = Vec::new(alloc);
    for terminal in terminals {
        push(&mut made, Tributary::new(alloc, setup, *terminal))?;
    }
    Ok(made)
}
