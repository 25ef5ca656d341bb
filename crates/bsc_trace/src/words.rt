//! The words of a line.
ghost use Rattle.std.specs.Prelude.{◌≡◌};
ghost use Rattle.bsc_trace.specs.Words.{column_in, fate_in, is_time as is_time_text};

use crate::ladder::Fate;
use bsc_text::{has_digits, spells};

/// Whether the word is a time: 1 to 20 decimal digits.
pub(crate) fn is_time(word: &[u8]) -> bool
    ensures { result ≡ is_time_text word.now }
{
    has_digits(word, 20)
}

/// Returns the number of a station beside the control station: one or two decimal digits, without a
/// zero before another digit.
pub(crate) fn read_column(word: &[u8]) -> Option<u8>
    ensures { result ≡ column_in word.now }
{
    match word {
        [unit] if unit.is_ascii_digit() => Some(*unit - b'0'),
        [ten, unit] if *ten != b'0' && ten.is_ascii_digit() && unit.is_ascii_digit() => {
            Some((*ten - b'0') * 10 + (*unit - b'0'))
        }
        _ => None,
    }
}

/// Returns what became of a transmission, or `None` if the word does not say it.
pub(crate) fn read_fate(word: &[u8]) -> Option<Fate>
    ensures { result ≡ fate_in word.now }
{
    if spells(word, "sent") {
        Some(Fate::Sent)
    } else if spells(word, "heard") {
        Some(Fate::Heard)
    } else if spells(word, "turned") {
        Some(Fate::Turned)
    } else if spells(word, "ignored") {
        Some(Fate::Ignored)
    } else if spells(word, "lost") {
        Some(Fate::Lost)
    } else if spells(word, "withheld") {
        Some(Fate::Withheld)
    } else {
        None
    }
}
