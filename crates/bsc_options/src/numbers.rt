//! Numbers in decimal digits.

ghost use Rattle.std.specs.Prelude.{◌≡◌, ◌<◌, ◌-◌, ◌^◌, IfSome};
ghost use Rattle.bsc_options.specs.Numbers.{number_within as number_in_text};

/// Returns the number that a text spells, if it is from `least` to `most`: decimal digits, with or
/// without one plus sign before them.
pub fn number_within(text: &str, least: u64, most: u64) -> Option<u64>
    ensures { result ≡ number_in_text least most text.now }
{
    match text.parse::<u64>() {
        Ok(number) if least <= number && number <= most => Some(number),
        _ => None,
    }
}

/// Returns the number from 0 to 255 that a text spells.
pub(crate) fn octet_in(text: &str) -> Option<usize>
    ensures number { result ≡ number_in_text 0 255 text.now }
    ensures small { IfSome result (λ n. n < 256) }
{
    match text.parse::<u8>() {
        Ok(number) => Some(usize::from(number)),
        Err(_) => None,
    }
}

/// Returns the number below 2^32 that a text spells.
pub(crate) fn count_of(text: &str) -> Option<u32>
    ensures { result ≡ number_in_text 0 (2 ^ 32 - 1) text.now }
{
    match text.parse::<u32>() {
        Ok(number) => Some(number),
        Err(_) => None,
    }
}
