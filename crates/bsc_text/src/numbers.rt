//! Numbers in decimal digits.
ghost use Rattle.std.specs.Prelude.{◌≡◌, ◌≤◌};
ghost use Rattle.std.specs.Char.{is_ascii_digit};
ghost use Rattle.std.specs.List.{list_all};
ghost use Rattle.bsc_text.specs.Numbers.{has_digits as digits, number_of, select_of, terminal_of};

/// Whether all characters are decimal digits.
fn are_digits(word: &[u8]) -> bool
    ensures { result ≡ list_all is_ascii_digit word.now }
{
    word.iter().all(|&octet| octet.is_ascii_digit())
}

/// Whether the word has at least one digit, at most `most` digits, and nothing else.
pub fn has_digits(word: &[u8], most: usize) -> bool
    ensures { result ≡ digits most word.now }
{
    if word.is_empty() || most < word.len() {
        return false;
    }
    are_digits(word)
}

/// Returns the number of at most `most` digits, of which there may be 10, or `None` if the word is
/// not such a number.
pub fn read_number(word: &[u8], most: usize) -> Option<usize>
    requires { most ≤ 10 }
    ensures { result ≡ number_of most word.now }
{
    if !has_digits(word, most) {
        return None;
    }
    let mut number = 0;
    for &digit in word {
        number = number * 10 + usize::from(digit - b'0');
    }
    Some(number)
}

/// Returns the number by which a text names a terminal: one to three digits.
pub fn terminal_number(word: &[u8]) -> Option<usize>
    ensures { result ≡ terminal_of word.now }
{
    read_number(word, 3)
}

/// Returns the number by which a text names a selection address: one digit.
pub fn select_number(word: &[u8]) -> Option<usize>
    ensures { result ≡ select_of word.now }
{
    read_number(word, 1)
}
