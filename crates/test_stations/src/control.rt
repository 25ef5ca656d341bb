//! Tests of a control station by itself. Its terminal 0 has two selection addresses, a and c, and
//! terminal 1 has one, b.

ghost use Rattle.std.specs.Prelude.{◌<◌, IsTrue, length};
ghost use Rattle.bsc_control.specs.Control.{peer_at};

use crate::hearing::{are_spelled, chars_of, has_sent, number_in, octets_of};
use bsc_bid::Station;
use bsc_block::Record;
use bsc_control::{Control, SetupError, Way};
use bsc_frame::{Address, Wire};
use std::alloc::Allocator;
use std::test::Fail;
use test_alloc::{Refusal, Refusing};
use test_fixtures::lines::{setup, two_terminals_by_three};

/// Exchanges. In `heard>sent` the station hears the first transmission, or a silence, and sends the
/// second one. A word with a colon is an act and its object. Releases, and the records known and
/// forgotten are those of address a. The poll list is 0, 1, and up to three failures in a row are
/// borne.
const EXCHANGES: &[&str] = &[
    // The poll list is gone through.
    "->A EOT>B ->B ->B ->B ->A",
    // An address is found at the terminal and the way that it has.
    "finds:A finds:a finds:c finds:B finds:b misses:C",
    // An urgent station polls the same entry again.
    "urgent:0 ->A HI>RVI EOT>A HI>ACK1 EOT>B arrived:HH",
    // A bid that is interrupted goes on in the next round.
    "offer-a:-------- ->a ACK0>7+ RVI>A HI>ACK1 EOT>B EOT>a ACK0>1. known:7 arrived:H",
    // Each selection address is called in turn.
    "offer-a:H offer-c:- ->a ACK0>HI ACK1>c ACK0>1. ACK1>A EOT>B EOT>A",
    // A refused selection leaves no doubt.
    "offer-a:H ->a NAK>A EOT>B known:0",
    // A selection waits for room.
    "offer-a:H ->a WACK>ENQ ->ENQ ACK0>HI",
    // Records are offered, and kept as arrived, during each task, urgent or not, and in doubt.
    "urgent:0 keep:HI offer-a:H ->a keep:HI offer-b:H ACK0>HI keep:HI offer-a:H ->ENQ urgent:0 \
    keep:HI offer-a:H ->ENQ ->ENQ ->A doubt:0 keep:HI offer-a:H EOT>b keep:HI offer-a:H \
    arrived:HHHHHH",
    // What is sent and known stays the same when records are forgotten.
    "offer-a:H forget-sent:0 ->a ACK0>HI ACK1>A forget-sent:1 known:1 HI>ACK1 forget-arrived:1 \
    arrived:- HI>ACK0 arrived:-H EOT>B offer-a:H EOT>a forget-sent:1 ACK0>HI forget-arrived:2 \
    ACK1>A known:2 keep:HI arrived:--H",
    // Records are forgotten during a bid.
    "offer-a:-------- ->a ACK0>7+ ACK1>1. forget-sent:7 WACK>ENQ forget-sent:8 ACK0>A known:8",
];

/// Exchanges in which one failure is borne, and the poll list is 1, 0.
const HASTY: &[&str] = &[
    // A terminal that does not answer is left.
    "offer-b:H offer-a:H ->b ACK0>HI ACK1>B ->B ->a ->a ACK0>HI ACK1>A",
    // A doubtful block waits for its release.
    "offer-a:H ->B EOT>a ACK0>HI ->ENQ ->A EOT>B EOT>A doubt:0 mismatch:2 release:1 mismatch:1 \
    known:1",
    // Records are forgotten before a doubt.
    "offer-a:H ->B EOT>a ACK0>HI ACK1>A offer-a:H EOT>B EOT>a ACK0>HI ->ENQ ->A forget-sent:1 \
    doubt:1 release:2 known:2",
];

/// The first growth after those of a new station delays a text if it is refused.
const REFUSED: &str = "->A HI>NAK HI>ACK1 EOT>B arrived:H";

/// A new station takes no more memory.
const NEW: &str = "urgent:0";

/// Records of both kinds take memory.
const TAKING: &str = "offer-a:HHHHHHHH offer-c:H offer-b:H keep:HI keep:HI";

/// Whether the control station has this selection address.
fn has_address<A: Allocator>(control: &Control<A>, terminal: usize, select: usize) -> bool
    ensures terminal { IsTrue result → terminal < length control.now.peers }
    ensures select { IsTrue result → select < length (peer_at control.now terminal).outbounds }
{
    terminal < control.terminals() && select < control.addresses(terminal)
}

/// Whether a control station that hears the first transmission, or a silence, sends exactly the
/// second one and reports correctly whether it sends any.
fn sends<A: Allocator>(control: &mut Control<A>, heard: &str, sent: &str) -> bool {
    let (Some(heard), Some(sent)) = (octets_of(heard), octets_of(sent)) else {
        return false;
    };
    let mut wire = Wire::new();
    let sends = if heard.is_empty() {
        control.silence(&mut wire)
    } else {
        control.hear(heard, &mut wire)
    };
    has_sent(&wire, sends, sent)
}

/// Offers a record for a selection address, and returns whether it is accepted.
fn offers<A: Allocator>(
    control: &mut Control<A>,
    terminal: usize,
    select: usize,
    chars: &[u8],
) -> bool {
    let Ok(record) = Record::read(chars, control.setup().format().full()) else {
        return false;
    };
    if !has_address(control, terminal, select) {
        return false;
    }
    control.offer(terminal, select, record).is_ok()
}

/// Offers these records for a selection address, and returns whether each is accepted.
fn takes<A: Allocator>(
    control: &mut Control<A>,
    terminal: usize,
    select: usize,
    letters: &[u8],
) -> bool {
    for letter in letters {
        if !offers(control, terminal, select, chars_of(*letter)) {
            return false;
        }
    }
    true
}

/// Adds a record to those that arrived from terminal 0, and returns whether it is accepted.
fn keeps<A: Allocator>(control: &mut Control<A>, chars: &[u8]) -> bool {
    let Ok(record) = Record::read(chars, 80) else {
        return false;
    };
    if control.terminals() == 0 {
        return false;
    }
    control.keep_arrived(0, record).is_ok()
}

/// Asks a terminal for the line, and returns whether there is such a terminal.
fn asks_for_line<A: Allocator>(control: &mut Control<A>, terminal: usize) -> bool {
    let is_there = terminal < control.terminals();
    if is_there {
        control.set_urgent(terminal);
    }
    is_there
}

/// Ends the doubt of address a, and returns whether that is accepted.
fn releases<A: Allocator>(control: &mut Control<A>, count: usize) -> bool {
    has_address(control, 0, 0) && control.release(0, Way::ToTerminal(0), count).is_ok()
}

/// Whether this many records for address a are known to have arrived, and the last block is in
/// doubt or not.
fn knows<A: Allocator>(control: &Control<A>, known: usize, in_doubt: bool) -> bool {
    has_address(control, 0, 0)
        && control.queue(0, 0).known() == known
        && control.in_doubt(0, Way::ToTerminal(0)) == in_doubt
}

/// Forgets the first records that were sent to address a, this many. Returns whether as many are
/// known to have arrived; else nothing is forgotten.
fn forgets_sent<A: Allocator>(control: &mut Control<A>, count: usize) -> bool {
    if !has_address(control, 0, 0) || count > control.queue(0, 0).known() {
        return false;
    }
    control.forget_sent(0, 0, count);
    true
}

/// Forgets the first records that arrived from terminal 0, this many. Returns whether as many
/// arrived; else nothing is forgotten.
fn forgets_arrived<A: Allocator>(control: &mut Control<A>, count: usize) -> bool {
    if control.terminals() == 0 || count > control.spool(0).records().len() {
        return false;
    }
    control.forget_arrived(0, count);
    true
}

/// Whether exactly these records arrived from terminal 0.
fn has_spooled<A: Allocator>(control: &Control<A>, letters: &[u8]) -> bool {
    control.terminals() > 0 && are_spelled(control.spool(0).records(), letters)
}

/// The letter of the address of this terminal and way; `-` if there is none.
fn letter_of(found: Option<(usize, Way)>) -> &'static str {
    match found {
        Some((0, Way::FromTerminal)) => "A",
        Some((0, Way::ToTerminal(0))) => "a",
        Some((0, Way::ToTerminal(1))) => "c",
        Some((1, Way::FromTerminal)) => "B",
        Some((1, Way::ToTerminal(0))) => "b",
        _ => "-",
    }
}

/// Whether the station finds the address of this letter as that of the terminal and way with the
/// expected letter.
fn finds<A: Allocator>(control: &Control<A>, letter: &str, expected: &str) -> bool {
    match Address::read(letter.as_bytes()) {
        Ok(address) => letter_of(control.find(&address)) == expected,
        Err(_) => false,
    }
}

/// Plays an act with a number, and returns whether its result is the expected one.
fn counts<A: Allocator>(control: &mut Control<A>, act: &str, count: usize) -> bool {
    match act {
        "urgent" => asks_for_line(control, count),
        "release" => releases(control, count),
        "mismatch" => !releases(control, count),
        "known" => knows(control, count, false),
        "doubt" => knows(control, count, true),
        "forget-sent" => forgets_sent(control, count),
        "forget-arrived" => forgets_arrived(control, count),
        _ => false,
    }
}

/// Plays an act, and returns whether its result is the expected one.
fn acts<A: Allocator>(control: &mut Control<A>, act: &str, object: &str) -> bool {
    match act {
        "offer-a" => takes(control, 0, 0, object.as_bytes()),
        "offer-b" => takes(control, 1, 0, object.as_bytes()),
        "offer-c" => takes(control, 0, 1, object.as_bytes()),
        "keep" => keeps(control, object.as_bytes()),
        "arrived" => has_spooled(control, object.as_bytes()),
        "finds" => finds(control, object, object),
        "misses" => finds(control, object, "-"),
        _ => match number_in(object) {
            Some(count) => counts(control, act, count),
            None => false,
        },
    }
}

/// Plays a word, and returns whether its result is the expected one.
fn goes<A: Allocator>(control: &mut Control<A>, word: &str) -> bool {
    if let Some((heard, sent)) = word.split_once('>') {
        return sends(control, heard, sent);
    }
    match word.split_once(':') {
        Some((act, object)) => acts(control, act, object),
        None => false,
    }
}

/// Plays these words, and returns whether the result of each is the expected one.
fn go<A: Allocator>(control: &mut Control<A>, words: &str) -> bool {
    for word in words.split(' ') {
        if !goes(control, word) {
            return false;
        }
    }
    true
}

/// Plays these words on a new station, and returns whether the result of each is the expected one;
/// None if there is no memory for the station.
fn play<A: Allocator + Copy>(alloc: A, tries: u8, poll_list: &[u8], words: &str) -> Option<bool> {
    let Ok(setup) = setup(tries) else {
        return Some(false);
    };
    let terminals = two_terminals_by_three();
    match Control::new(alloc, setup, &terminals, poll_list) {
        Ok(mut control) => Some(go(&mut control, words)),
        Err(SetupError::Memory) => None,
        Err(_) => Some(false),
    }
}

#[test]
fn a_control_station_polls_selects_and_sends(rt: HostRuntime) {
    for words in EXCHANGES {
        assert_eq!(rt; play(rt.alloc(), 3, &[0, 1], words), Some(true));
    }
    for words in HASTY {
        assert_eq!(rt; play(rt.alloc(), 1, &[1, 0], words), Some(true));
    }
}

#[test]
fn a_refused_growth_changes_only_a_reply(rt: HostRuntime) {
    let alloc = Refusing::new(rt.alloc());
    assert_eq!(rt; play(&alloc, 3, &[0, 1], NEW), Some(true));
    let growth = alloc.requests().saturating_add(1);
    alloc.refuse_nth(growth);
    assert_eq!(rt; play(&alloc, 3, &[0, 1], REFUSED), Some(true));
    assert_eq!(rt; alloc.refused(), 1);
}

/// Whether a new station is made and takes its records exactly if no growth is refused.
fn is_made_of_memory(alloc: &Refusing) -> bool {
    match play(alloc, 3, &[1, 0], TAKING) {
        Some(takes) => takes == (alloc.refused() == 0),
        None => alloc.refused() > 0,
    }
}

#[test]
fn each_growth_of_a_new_station_and_its_records_is_refused_in_turn(
    rt: HostRuntime,
) -> Result<(), Fail> {
    let alloc = Refusing::new(rt.alloc());
    for request in alloc.in_turn(Refusal::Nth, 1..99) {
        request?;
        assert!(rt; is_made_of_memory(&alloc));
    }
    Ok(())
}
