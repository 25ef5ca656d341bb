//! Numbers of records, in decimal digits.

ghost use Rattle.std.specs.Prelude.{◌≡◌};
ghost use Rattle.bsc_feed.specs.Numbers.{count_of as count};

use bsc_text::read_number;

/// Returns a number of records: one to ten digits, below 2^32.
pub(crate) fn count_of(word: &[u8]) -> Option<u32>
    ensures { result ≡ count word.now }
{
    match read_number(word, 10) {
        Some(count) => match u32::try_from(count) {
            Ok(count) => Some(count),
            Err(_) => None,
        },
        None => None,
    }
}
