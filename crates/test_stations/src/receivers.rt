//! The replies of receivers, with refused growths of their spools.

use crate::hearing::octets_of;
use bsc_bid::Receiver;
use bsc_block::Record;
use bsc_frame::{Reply, TextBuffer, decode};
use bsc_spool::Spool;
use std::alloc::Allocator;
use test_alloc::Refusing;

/// The number of the first growth that is refused, 0 if none is, and what a receiver hears and
/// replies that begins with ACK0 after seven records had arrived; `!` where it is urgent.
const HEARD: &[(usize, &str)] = &[
    // A failed text is answered with NAK, and noise with nothing.
    (0, "failed>NAK noise>- HI>ACK1"),
    // The line is asked for once.
    (0, "!HI>RVI !HI>ACK0"),
    // The growth before the text is stored is refused, or the one after it is stored.
    (1, "HI>NAK HI>ACK1"),
    (2, "HI>WACK ENQ>ACK1"),
];

/// Keeps seven empty records as arrived, and returns whether each is accepted.
fn keeps_seven<A: Allocator>(spool: &mut Spool<A>) -> bool {
    for _ in 0..7u8 {
        let Ok(record) = Record::read(&[], 80) else {
            return false;
        };
        if spool.keep(record).is_err() {
            return false;
        }
    }
    true
}

/// Whether a receiver replies to what it hears as the word says.
fn goes<A: Allocator>(receiver: &mut Receiver, spool: &mut Spool<A>, word: &str) -> bool {
    let Some((heard, expected)) = word.split_once('>') else {
        return false;
    };
    let (urgent, name) = match heard.strip_prefix("!") {
        Some(name) => (true, name),
        None => (false, heard),
    };
    let Some(octets) = octets_of(name) else {
        return false;
    };
    match receiver.heard(&decode(octets, &mut TextBuffer::new()), urgent, spool) {
        Some(reply) => reply.name() == expected,
        None => expected == "-",
    }
}

/// Whether a receiver that begins with ACK0 replies as the words say.
fn replies<A: Allocator>(spool: &mut Spool<A>, words: &str) -> bool {
    let mut receiver = Receiver::new();
    if receiver.begin(true) != Reply::Ack0 {
        return false;
    }
    for word in words.split(' ') {
        if !goes(&mut receiver, spool, word) {
            return false;
        }
    }
    true
}

#[test]
fn a_receiver_replies_to_texts_and_enq(rt: HostRuntime) {
    let alloc = Refusing::new(rt.alloc());
    for (growth, words) in HEARD {
        let mut spool = Spool::new(&alloc);
        assert!(rt; keeps_seven(&mut spool), "{words}");
        alloc.refuse_nth(*growth);
        assert!(rt; replies(&mut spool, words), "{words}");
        assert!(rt; alloc.refused() == usize::from(*growth > 0), "{words}");
        alloc.refuse_none();
    }
}
