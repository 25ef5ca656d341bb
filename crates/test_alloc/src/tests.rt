use crate::{Refusal, Refusing, TurnError};
use linked_list_allocator::LocalHeap;
use std::alloc::Allocator;
use std::test::Fail;

/// Which of five requests of 1 to 5 octets a refusal and a number grant, and how many are refused.
const GRANTED: &[(Refusal, usize, [bool; 5], usize)] = &[
    (Refusal::Nth, 2, [true, false, true, true, true], 1),
    (Refusal::From, 4, [true, true, true, false, false], 2),
    (
        Refusal::Above { octets: 2 },
        1,
        [true, true, false, false, false],
        3,
    ),
];

/// A refusal, the range of the number of runs that meet one while 1 to 5 octets are requested, how
/// many runs there are, and whether fewer or more met one than may.
const RUNS: &[(Refusal, usize, usize, usize, bool)] = &[
    (Refusal::Nth, 5, 6, 6, false),
    (Refusal::Above { octets: 1 }, 4, 5, 5, false),
    (Refusal::Above { octets: 1 }, 5, 6, 5, true),
    (Refusal::Above { octets: 9 }, 0, 4, 1, true),
    (Refusal::From, 0, 4, 4, true),
];

/// Whether a request of this many octets is granted. What is granted is returned at once.
fn is_granted<A: Allocator>(alloc: A, octets: usize) -> bool {
    Vec::<u8, A>::with_capacity(alloc, octets).is_ok()
}

/// Whether requests of 1 to 5 octets are granted exactly as expected, this many are refused, and
/// all are counted.
fn grants(alloc: &Refusing, granted: &[bool; 5], refused: usize) -> bool {
    for (octets, expected) in (1..6usize).zip(granted) {
        if is_granted(alloc, octets) != *expected {
            return false;
        }
    }
    alloc.requests() == 5 && alloc.refused() == refused
}

#[test]
fn refusals_by_a_number(rt: HostRuntime) {
    let alloc = Refusing::new(rt.alloc());
    for (refusal, number, granted, refused) in GRANTED {
        alloc.refuse(*refusal, *number);
        assert!(rt; grants(&alloc, granted, *refused), "{refusal:?}");
    }
}

/// How many runs there are, whether their last is an error, and whether nothing is refused then.
fn runs_of(alloc: &Refusing, refusal: Refusal, least: usize, end: usize) -> (usize, bool, bool) {
    let mut count = 0usize;
    let mut is_wrong = false;
    for number in alloc.in_turn(refusal, least..end) {
        match number {
            Ok(number) => count = number,
            Err(TurnError::TooFew | TurnError::NoEnd) => is_wrong = true,
        }
        for octets in 1..6 {
            is_granted(alloc, octets);
        }
    }
    (
        count,
        is_wrong,
        is_granted(alloc, 9) && alloc.refused() == 0,
    )
}

#[test]
fn runs_go_on_until_one_meets_no_refusal(rt: HostRuntime) {
    let alloc = Refusing::new(rt.alloc());
    for (refusal, least, end, count, is_wrong) in RUNS {
        alloc.refuse_from(1);
        let runs = runs_of(&alloc, *refusal, *least, *end);
        assert!(rt; runs == (*count, *is_wrong, true), "{refusal:?} {least}");
    }
}

/// Pushes a hundred values, each a second time if it was refused, and returns how often one was; or
/// more than a hundred if one was refused twice.
fn refused_pushes<A: Allocator>(pushed: &mut Vec<u8, A>) -> usize {
    let mut refused = 0usize;
    for value in 0..100u8 {
        if pushed.push(value).is_err() {
            refused = refused.wrapping_add(1);
            if pushed.push(value).is_err() {
                return usize::MAX;
            }
        }
    }
    refused
}

/// Whether a list grows five times and shrinks once, each by a request of which the one with this
/// number alone is refused, if there is one.
fn is_refused_once<A: Allocator + Copy>(alloc: A, request: usize) -> bool {
    let mut pushed = Vec::new(alloc);
    let refused = refused_pushes(&mut pushed);
    pushed.truncate(3);
    pushed.shrink_to_fit();
    refused == usize::from(1 <= request && request <= 5) && pushed.len() == 3
}

/// The heap is used while a list is, and is as before after each list. What it has no room for is
/// no refusal.
#[test]
fn every_block_goes_back(rt: HostRuntime) -> Result<(), Fail> {
    let heap = LocalHeap::new(rt.alloc(), 1 << 12)?;
    let alloc = Refusing::new(&heap);
    for round in 0..5000usize {
        alloc.refuse_nth(round % 8);
        let refused_once = is_refused_once(&alloc, round % 8);
        assert!(rt; refused_once && heap.used() == 0, "{round}");
    }
    alloc.refuse_none();
    assert!(rt; !is_granted(&alloc, 1 << 13) && alloc.requests() == 1 && alloc.refused() == 0);
    Ok(())
}
