//! Bids as lists of words: events at the two ends of a channel, and their results.

use crate::ends::Ends;
use crate::hearing::number_in;
use bsc_bid::{Outcome, ReleaseError, Setup};
use bsc_frame::{End, Message, Reply};
use std::alloc::{Allocator, Global};
use std::test::Fail;

/// Exchanges. In `event>result` the sender begins, the receiver hears what was sent last
/// (`arrive`), the sender hears a reply or a silence, or both of these in one turn (`fate/reply`).
/// The result is a reply, ENQ, `over`, or a text of one or seven records with ETX (`.`) or ETB
/// (`+`). A word with a colon is an act or a count: of records offered, released, known to have
/// arrived without or with a doubt, or arrived. Three failures in a row and ten WACKs are borne.
const PATIENT: &[&str] = &[
    // A lost acknowledgement is asked for again.
    "offer:8 begin>7+ known:0 arrive>ACK1 arrived:7 ACK1>1. known:7 arrive>ACK0 ->ENQ arrive>ACK0 \
    known:7 ACK0>over known:8 arrived:8",
    // A lost first text is sent again.
    "offer:8 begin>7+ ->ENQ arrive>ACK0 ACK0>7+ known:0 arrived:0 arrive>ACK1 arrived:7",
    // So is a lost last text, whatever was offered since.
    "offer:7 begin>7. offer:1 ->ENQ arrive>ACK0 ACK0>7. arrive>ACK1 known:0 arrived:7",
    // NAK asks for the block again. The second bid begins with the same block.
    "offer:8 begin>7+ NAK>7+ NAK>7+ NAK>7+ NAK>over known:0 begin>7+ NAK>7+ ACK1>1. known:7",
    // A block that is cut off is in doubt.
    "offer:1 begin>1. cut>off doubt:0",
    // An interrupt ends the bid.
    "offer:8 begin>7+ RVI>over known:7 begin>1.",
    // A bid goes on over what is lost and spoiled. No block came at the first turn, so the ENQ is
    // answered with ACK0, and the text is sent again.
    "offer:1 begin>1. lost/->ENQ arrives/ACK0>1. fails/NAK>1. arrived:0 arrives/ACK1>over known:1 \
    arrived:1",
];

/// Exchanges in which one failure and one WACK are borne.
const HASTY: &[&str] = &[
    // NAK to a held sender asks for nothing.
    "offer:1 begin>1. WACK>ENQ known:1 NAK>ENQ NAK>over known:1",
    // A doubt is released by the count of the other end.
    "offer:1 begin>1. ->ENQ ->over doubt:0 mismatch:2 release:1 known:1 undoubted:1",
    // One WACK is borne.
    "offer:1 begin>1. WACK>ENQ known:1 WACK>over known:1",
    // A held sender gives up without doubt.
    "offer:1 begin>1. ->ENQ WACK>ENQ ->ENQ ->over known:1",
];

/// The reply of this name.
fn reply_of(name: &str) -> Option<Reply> {
    match name {
        "ACK0" => Some(Reply::Ack0),
        "ACK1" => Some(Reply::Ack1),
        "NAK" => Some(Reply::Nak),
        "WACK" => Some(Reply::Wack),
        "RVI" => Some(Reply::Rvi),
        _ => None,
    }
}

/// The result of a call of the sender with this outcome and this message.
fn result_of(outcome: Outcome, sent: &Option<Message<'_>>) -> &'static str {
    match (outcome, sent) {
        (Outcome::Sends, Some(Message::Text(text))) => match (text.count(), text.end()) {
            (7, End::Etb) => "7+",
            (7, End::Etx) => "7.",
            (1, End::Etx) => "1.",
            _ => "another text",
        },
        (Outcome::Sends, Some(Message::Enq)) => "ENQ",
        (Outcome::Over, None) => "over",
        _ => "nothing",
    }
}

/// The result of the event; None if it is not possible.
fn take<A: Allocator>(ends: &mut Ends<A>, event: &str) -> Option<&'static str> {
    let outcome = match event {
        "begin" => ends.begin()?,
        "arrive" => return Some(ends.arrive()?.name()),
        "cut" => {
            ends.cut_off();
            return Some("off");
        }
        _ => match event.split_once('/') {
            Some((fate, reply)) => ends.turn(fate, reply_of(reply)),
            None => ends.hear(reply_of(event)),
        },
    };
    Some(result_of(outcome, &ends.sent.message()))
}

/// Whether this many records are offered and accepted.
fn offers<A: Allocator>(ends: &mut Ends<A>, count: usize) -> bool {
    for _ in 0..count {
        if !ends.offer() {
            return false;
        }
    }
    true
}

/// Whether an act or a count is as expected.
fn counts<A: Allocator>(ends: &mut Ends<A>, act: &str, count: usize) -> bool {
    let (known, arrived, in_doubt) = ends.standing();
    match act {
        "offer" => offers(ends, count),
        "release" => ends.release(count) == Ok(()),
        "mismatch" => ends.release(count) == Err(ReleaseError::CountMismatch),
        "undoubted" => ends.release(count) == Err(ReleaseError::NotInDoubt),
        "known" => known == count && !in_doubt,
        "doubt" => known == count && in_doubt,
        "arrived" => arrived == count,
        _ => false,
    }
}

/// Whether a word has the expected result.
fn goes<A: Allocator>(ends: &mut Ends<A>, word: &str) -> bool {
    if let Some((event, result)) = word.split_once('>') {
        return take(ends, event) == Some(result);
    }
    match word.split_once(':') {
        Some((act, count)) => match number_in(count) {
            Some(count) => counts(ends, act, count),
            None => false,
        },
        None => false,
    }
}

/// The first word with another result, on a new channel; all words if no channel can have these
/// limits.
fn wrong_word<'a>(alloc: Global, tries: u8, waits: u8, words: &'a str) -> Option<&'a str> {
    let Ok(setup) = Setup::new(80, 400, tries, waits) else {
        return Some(words);
    };
    let mut ends = Ends::new(alloc, setup);
    for word in words.split(' ') {
        if !goes(&mut ends, word) {
            return Some(word);
        }
    }
    None
}

#[test]
fn each_bid_goes_as_its_words_say(rt: HostRuntime) {
    for words in PATIENT {
        assert_eq!(rt; wrong_word(rt.alloc(), 3, 10, words), None);
    }
    for words in HASTY {
        assert_eq!(rt; wrong_word(rt.alloc(), 1, 1, words), None);
    }
}

#[test]
fn as_many_as_255_wacks_are_borne(rt: HostRuntime) -> Result<(), Fail> {
    let wacks = "WACK>ENQ ".repeat(rt.alloc(), 255)?;
    let words = format!(in rt.alloc(); "offer:1 begin>1. {wacks}WACK>over known:1")?;
    assert_eq!(rt; wrong_word(rt.alloc(), 3, 255, &words), None);
    Ok(())
}
