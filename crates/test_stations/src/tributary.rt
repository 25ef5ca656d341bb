//! Tests of a terminal by itself, which is polled by A and selected by a and c.

ghost use Rattle.std.specs.Prelude.{◌≡◌, length};

use crate::hearing::{are_spelled, card, chars_of, has_sent, number_in, octets_of};
use bsc_bid::Station;
use bsc_frame::Wire;
use bsc_tributary::Tributary;
use std::alloc::Allocator;
use std::test::Fail;
use test_alloc::{Refusal, Refusing};
use test_fixtures::lines::{setup, two_terminals_by_three};

/// Exchanges. In `heard>sent` the terminal hears the first transmission, or a silence, and sends
/// the second one. A word with a colon is an act and its object. One failure is borne.
const EXCHANGES: &[&str] = &[
    // A terminal is polled and then selected.
    "failed>- offer:H A>HI holds:1 ACK1>EOT holds:0 known:1 A>EOT a>ACK0 failed>NAK HI>ACK1 b>- \
    ENQ>- HI>- arrived-a:H",
    // A terminal that is not ready refuses a selection.
    "ready:0 a>NAK HI>- A>EOT ready:1 a>ACK0",
    // An urgent terminal asks for the line once, and a poll clears the flag.
    "urgent:1 a>ACK0 HI>RVI ENQ>RVI HI>ACK0 urgent:1 A>EOT a>ACK0 HI>ACK1",
    // A doubtful block waits for its release.
    "offer:H A>HI ->ENQ ->EOT doubt:0 A>EOT ->- mismatch:2 release:1 mismatch:1 known:1",
    // A block that a selection cuts off is in doubt.
    "offer:H A>HI a>ACK0 doubt:0 holds:0 release:0 A>HI",
    // Records are offered, and kept as arrived, in each mode, urgent or not, ready or not, and in
    // doubt.
    "urgent:1 ready:0 keep-a:HI a>NAK ready:1 a>ACK0 keep-a:HI HI>RVI keep-c:HI offer:H A>HI \
    keep-c:HI offer:H ->ENQ keep-a:HI offer:H EOT>- doubt:0 keep-a:HI offer:H urgent:1 ready:0 \
    keep-a:HI offer:H arrived-a:HHHHHH arrived-c:HH",
    // What is sent and known stays the same when records are forgotten.
    "offer:H A>HI ACK1>EOT forget-sent:1 known:1 A>EOT offer:H A>HI forget-sent:1 ->ENQ ACK1>EOT \
    known:2 forget-sent:2 known:2",
    // Records are forgotten during a bid, and before a doubt.
    "offer:-------- forget-sent:0 A>7+ forget-sent:0 ACK1>1. forget-sent:7 NAK>1. forget-sent:3 \
    ACK0>EOT known:8",
    "offer:H A>HI ACK1>EOT offer:H A>HI EOT>- forget-sent:1 doubt:1 release:1 A>HI EOT>- release:2 \
    known:2",
    // Records that arrived are forgotten at their address, and more arrive.
    "a>ACK0 HI>ACK1 forget-a:1 arrived-a:- HI>ACK0 arrived-a:-H c>ACK0 HI>ACK1 forget-a:2 \
    arrived-a:-- arrived-c:H forget-c:1 keep-a:HI arrived-a:--H arrived-c:-",
];

/// The first growth delays a selection if it is refused.
const REFUSED: &str = "a>WACK ENQ>ACK0 7.>ACK1 arrived-a:-------";

/// Records of both kinds, and at both addresses, take memory.
const TAKING: &str = "offer:HHHHHHHH keep-a:HI keep-a:HI keep-c:HI";

/// Lets a terminal hear these octets, or a silence if there are none, and returns whether it
/// reports that it sends.
fn hears<A: Allocator>(tributary: &mut Tributary<A>, heard: &[u8], wire: &mut Wire) -> bool
    requires { tributary.old.queue.format.full ≡ 80 }
    ensures terminal { tributary.new.terminal ≡ tributary.old.terminal }
    ensures full { tributary.new.queue.format.full ≡ 80 }
{
    if heard.is_empty() {
        tributary.silence(wire)
    } else {
        tributary.hear(heard, wire)
    }
}

/// Whether a terminal that hears the first transmission, or a silence, sends exactly the second one
/// and reports correctly whether it sends any.
fn sends<A: Allocator>(tributary: &mut Tributary<A>, heard: &str, sent: &str) -> bool
    requires { tributary.old.queue.format.full ≡ 80 }
    ensures terminal { tributary.new.terminal ≡ tributary.old.terminal }
    ensures full { tributary.new.queue.format.full ≡ 80 }
{
    let (Some(heard), Some(sent)) = (octets_of(heard), octets_of(sent)) else {
        return false;
    };
    let mut wire = Wire::new();
    let sends = hears(tributary, heard, &mut wire);
    has_sent(&wire, sends, sent)
}

/// Offers a record of at most 80 characters, and returns whether it is accepted.
fn offers<A: Allocator>(tributary: &mut Tributary<A>, chars: &[u8]) -> bool
    requires { tributary.old.queue.format.full ≡ 80 }
    ensures terminal { tributary.new.terminal ≡ tributary.old.terminal }
    ensures full { tributary.new.queue.format.full ≡ 80 }
{
    match card(chars) {
        Some(record) => tributary.offer(record).is_ok(),
        None => false,
    }
}

/// Adds a record to those that arrived at the selection address of this number, 0 or 1, and returns
/// whether it is accepted.
fn keeps<A: Allocator>(tributary: &mut Tributary<A>, select: usize, chars: &[u8]) -> bool
    requires { length tributary.old.terminal.selects ≡ 2 }
    ensures terminal { tributary.new.terminal ≡ tributary.old.terminal }
    ensures queue { tributary.new.queue ≡ tributary.old.queue }
{
    let Some(record) = card(chars) else {
        return false;
    };
    if select > 1 {
        return false;
    }
    tributary.keep_arrived(select, record).is_ok()
}

/// Offers these records, and returns whether each is accepted.
fn takes<A: Allocator>(tributary: &mut Tributary<A>, letters: &[u8]) -> bool
    requires selects { length tributary.old.terminal.selects ≡ 2 }
    requires full { tributary.old.queue.format.full ≡ 80 }
    ensures selects { length tributary.new.terminal.selects ≡ 2 }
    ensures full { tributary.new.queue.format.full ≡ 80 }
{
    for letter in letters {
        if !offers(tributary, chars_of(*letter)) {
            return false;
        }
    }
    true
}

/// Forgets the first records that the terminal sent, this many. Returns whether as many are known
/// to have arrived; else nothing is forgotten.
fn forgets_sent<A: Allocator>(tributary: &mut Tributary<A>, count: usize) -> bool
    requires { tributary.old.queue.format.full ≡ 80 }
    ensures terminal { tributary.new.terminal ≡ tributary.old.terminal }
    ensures full { tributary.new.queue.format.full ≡ 80 }
{
    if count > tributary.queue().known() {
        return false;
    }
    tributary.forget_sent(count);
    true
}

/// Forgets the first records that arrived at the selection address of this number: `count` of them.
/// Returns whether there is such an address and as many arrived; else nothing is forgotten.
fn forgets_arrived<A: Allocator>(tributary: &mut Tributary<A>, select: usize, count: usize) -> bool
    requires { length tributary.old.terminal.selects ≡ 2 }
    ensures terminal { tributary.new.terminal ≡ tributary.old.terminal }
    ensures queue { tributary.new.queue ≡ tributary.old.queue }
{
    if select > 1 || count > tributary.spool(select).records().len() {
        return false;
    }
    tributary.forget_arrived(select, count);
    true
}

/// Whether exactly these records arrived at the selection address of this number, 0 or 1.
fn has_spooled<A: Allocator>(tributary: &Tributary<A>, select: usize, letters: &[u8]) -> bool
    requires { length tributary.now.terminal.selects ≡ 2 }
{
    select < 2 && are_spelled(tributary.spool(select).records(), letters)
}

/// Whether this many of its records are known to have arrived, and its last block is in doubt or
/// not.
fn knows<A: Allocator>(tributary: &Tributary<A>, known: usize, in_doubt: bool) -> bool {
    tributary.queue().known() == known && tributary.in_doubt() == in_doubt
}

/// Whether the terminal holds the line, and is then out of control mode, or does not hold it.
fn holds<A: Allocator>(tributary: &Tributary<A>, holds: bool) -> bool {
    tributary.holds_line() == holds && !(holds && tributary.in_control_mode())
}

/// Sets a flag of the terminal, and returns whether there is a flag of this name.
fn sets<A: Allocator>(tributary: &mut Tributary<A>, flag: &str, is_set: bool) -> bool
    requires selects { length tributary.old.terminal.selects ≡ 2 }
    requires full { tributary.old.queue.format.full ≡ 80 }
    ensures selects { length tributary.new.terminal.selects ≡ 2 }
    ensures full { tributary.new.queue.format.full ≡ 80 }
{
    match flag {
        "ready" => {
            tributary.set_ready(is_set);
            true
        }
        "urgent" => {
            tributary.set_urgent();
            is_set
        }
        _ => false,
    }
}

/// Plays an act with a number, and returns whether its result is the expected one.
fn counts<A: Allocator>(tributary: &mut Tributary<A>, act: &str, count: usize) -> bool
    requires selects { length tributary.old.terminal.selects ≡ 2 }
    requires full { tributary.old.queue.format.full ≡ 80 }
    ensures selects { length tributary.new.terminal.selects ≡ 2 }
    ensures full { tributary.new.queue.format.full ≡ 80 }
{
    match act {
        "holds" => holds(tributary, count == 1),
        "release" => tributary.release(count).is_ok(),
        "mismatch" => tributary.release(count).is_err(),
        "known" => knows(tributary, count, false),
        "doubt" => knows(tributary, count, true),
        "forget-sent" => forgets_sent(tributary, count),
        "forget-a" => forgets_arrived(tributary, 0, count),
        "forget-c" => forgets_arrived(tributary, 1, count),
        _ => sets(tributary, act, count == 1),
    }
}

/// Plays an act, and returns whether its result is the expected one.
fn acts<A: Allocator>(tributary: &mut Tributary<A>, act: &str, object: &str) -> bool
    requires selects { length tributary.old.terminal.selects ≡ 2 }
    requires full { tributary.old.queue.format.full ≡ 80 }
    ensures selects { length tributary.new.terminal.selects ≡ 2 }
    ensures full { tributary.new.queue.format.full ≡ 80 }
{
    match act {
        "offer" => takes(tributary, object.as_bytes()),
        "keep-a" => keeps(tributary, 0, object.as_bytes()),
        "keep-c" => keeps(tributary, 1, object.as_bytes()),
        "arrived-a" => has_spooled(tributary, 0, object.as_bytes()),
        "arrived-c" => has_spooled(tributary, 1, object.as_bytes()),
        _ => match number_in(object) {
            Some(count) => counts(tributary, act, count),
            None => false,
        },
    }
}

/// Plays a word, and returns whether its result is the expected one.
fn goes<A: Allocator>(tributary: &mut Tributary<A>, word: &str) -> bool
    requires selects { length tributary.old.terminal.selects ≡ 2 }
    requires full { tributary.old.queue.format.full ≡ 80 }
    ensures selects { length tributary.new.terminal.selects ≡ 2 }
    ensures full { tributary.new.queue.format.full ≡ 80 }
{
    if let Some((heard, sent)) = word.split_once('>') {
        return sends(tributary, heard, sent);
    }
    match word.split_once(':') {
        Some((act, object)) => acts(tributary, act, object),
        None => false,
    }
}

/// Plays these words, and returns whether the result of each is the expected one.
fn go<A: Allocator>(tributary: &mut Tributary<A>, words: &str) -> bool
    requires selects { length tributary.old.terminal.selects ≡ 2 }
    requires full { tributary.old.queue.format.full ≡ 80 }
{
    for word in words.split(' ') {
        if !goes(tributary, word) {
            return false;
        }
    }
    true
}

/// Plays these words on a new terminal, and returns whether the result of each is the expected one.
fn play<A: Allocator + Copy>(alloc: A, words: &str) -> bool {
    let Ok(setup) = setup(1) else {
        return false;
    };
    let [terminal, _] = two_terminals_by_three();
    let mut tributary = Tributary::new(alloc, setup, terminal);
    go(&mut tributary, words)
}

#[test]
fn a_terminal_is_polled_and_selected(rt: HostRuntime) {
    for words in EXCHANGES {
        assert!(rt; play(rt.alloc(), words), "{words}");
    }
}

#[test]
fn a_refused_growth_changes_only_a_reply(rt: HostRuntime) {
    let alloc = Refusing::new(rt.alloc());
    alloc.refuse_nth(1);
    assert!(rt; play(&alloc, REFUSED) && alloc.refused() == 1);
}

#[test]
fn each_growth_of_the_records_of_a_terminal_is_refused_in_turn(
    rt: HostRuntime,
) -> Result<(), Fail> {
    let alloc = Refusing::new(rt.alloc());
    for request in alloc.in_turn(Refusal::Nth, 1..99) {
        request?;
        assert!(rt; play(&alloc, TAKING) == (alloc.refused() == 0));
    }
    Ok(())
}
