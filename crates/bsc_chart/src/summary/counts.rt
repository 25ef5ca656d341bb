//! Counts of the rows of a ladder.
ghost use Rattle.std.specs.Prelude.{◌≡◌, ◌≤◌, length};
ghost use Rattle.std.specs.Str.{bytes_eq};
ghost use Rattle.bsc_trace.specs.Rows.{row_in};
ghost use Rattle.bsc_chart.specs.PictureRows.{rows_in};
ghost use Rattle.bsc_chart.specs.Counts.{count_of, is_arrived as arrived_sign};
ghost use Rattle.bsc_chart.specs.Counts.{is_kind as kind_is};
ghost use Rattle.bsc_chart.specs.Counts.{is_of as outcome_is, one_if as one_or_none};
ghost use Rattle.bsc_chart.specs.Counts.{same_place as is_same, sender_of, wanted_in, wants};
ghost use Rattle.bsc_chart.specs.Counts.{wants_arrow, wants_mark, was_sent as is_sent};

use crate::picture::PictureRow;
use bsc_text::split_at_first;
use bsc_trace::ladder::{Course, Fate, Mark, Place, Row, Sign};
use std::alloc::Allocator;

/// What became of the transmissions that are counted.
#[derive(Clone, Copy)]
pub(crate) enum Outcome {
    /// Anything.
    Any,

    /// They were sent by the station whose trace it is.
    Sent,

    /// They were lost.
    Lost,

    /// They failed.
    Failed,

    /// They were turned.
    Turned,
}

/// What is counted.
#[derive(Clone, Copy)]
pub(crate) enum Wanted<'a> {
    /// The transmissions of this kind, the first word of their names, or of all kinds if it is
    /// empty, of which this became.
    Transmissions {
        /// The kind.
        kind: &'a [u8],

        /// What became of them.
        outcome: Outcome,
    },

    /// What the station at this place sent.
    Sent {
        place: Place,
    },

    /// The records that arrived at this place.
    Arrived {
        place: Place,
    },
}

/// Whether this became of a transmission.
fn is_of(outcome: Outcome, fate: Fate) -> bool
    ensures { result ≡ outcome_is outcome fate }
{
    match (outcome, fate) {
        (Outcome::Any, _) => true,
        (Outcome::Sent, Fate::Sent) => true,
        (Outcome::Lost, Fate::Lost) => true,
        (Outcome::Failed, Fate::Failed) => true,
        (Outcome::Turned, Fate::Turned) => true,
        _ => false,
    }
}

/// Whether two texts are the same.
fn are_same(a: &[u8], b: &[u8]) -> bool
    ensures { result ≡ bytes_eq a.now b.now }
{
    a == b
}

/// Whether a name is of this kind.
fn is_kind(kind: &[u8], name: &[u8]) -> bool
    ensures { result ≡ kind_is kind.now name.now }
{
    kind.is_empty() || are_same(split_at_first(name, b' ').0, kind)
}

/// Whether two places are the same.
pub(crate) fn same_place(a: Place, b: Place) -> bool
    ensures { result ≡ is_same a b }
{
    match (a, b) {
        (Place::Control, Place::Control) => true,
        (Place::Station { column: a }, Place::Station { column: b }) => a == b,
        _ => false,
    }
}

/// Returns who sent a transmission.
fn sender(course: Course) -> Place
    ensures { result ≡ sender_of course }
{
    match course {
        Course::From { column } => Place::Station { column },
        Course::ToAll | Course::ToOne { .. } => Place::Control,
    }
}

/// Whether a transmission was sent.
fn was_sent(fate: Fate) -> bool
    ensures { result ≡ is_sent fate }
{
    match fate {
        Fate::Withheld => false,
        _ => true,
    }
}

/// Whether a mark is that of a record that arrived.
fn is_arrived(sign: Sign) -> bool
    ensures { result ≡ arrived_sign sign }
{
    match sign {
        Sign::Arrived => true,
        _ => false,
    }
}

/// Whether a transmission is counted.
fn is_wanted_arrow(wanted: Wanted<'_>, course: Course, fate: Fate, name: &[u8]) -> bool
    ensures { result ≡ wants_arrow (wanted_in wanted.entry) course fate name.now }
{
    match wanted {
        Wanted::Transmissions { kind, outcome } => is_kind(kind, name) && is_of(outcome, fate),
        Wanted::Sent { place } => was_sent(fate) && same_place(place, sender(course)),
        Wanted::Arrived { .. } => false,
    }
}

/// Whether a mark is counted.
fn is_wanted_mark(wanted: Wanted<'_>, mark: Mark) -> bool
    ensures { result ≡ wants_mark (wanted_in wanted.entry) mark }
{
    match wanted {
        Wanted::Transmissions { .. } | Wanted::Sent { .. } => false,
        Wanted::Arrived { place } => is_arrived(mark.sign) && same_place(place, mark.place),
    }
}

/// Whether a row is counted.
fn is_wanted(wanted: Wanted<'_>, row: &Row<'_>) -> bool
    ensures { result ≡ wants (wanted_in wanted.entry) (row_in row.now) }
{
    match row {
        Row::Arrow {
            course,
            fate,
            name,
            ..
        } => is_wanted_arrow(wanted, *course, *fate, name),
        Row::Silence { .. } => false,
        Row::Mark { mark, .. } => is_wanted_mark(wanted, *mark),
    }
}

/// Returns 1 or 0.
fn one_if(is_one: bool) -> usize
    ensures value { result ≡ one_or_none is_one }
    ensures most { result ≤ 1 }
{
    if is_one { 1 } else { 0 }
}

/// Returns how many of the rows are counted.
pub(crate) fn count<A: Allocator>(wanted: Wanted<'_>, rows: &[PictureRow<A>]) -> usize
    ensures value { result ≡ count_of (wanted_in wanted.entry) (rows_in rows.now) }
    ensures most { result ≤ length rows.now }
{
    let mut count = 0;
    'rows: for row in rows {
        count += one_if(is_wanted(wanted, &row.row()));
    }
    count
}
