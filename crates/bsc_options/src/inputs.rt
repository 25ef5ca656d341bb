//! The uses of standard input.

ghost use Rattle.std.specs.Prelude.{◌≡◌};
ghost use Rattle.bsc_options.specs.Inputs.{is_input, path_in, repeats_input as is_repeated};
ghost use Rattle.bsc_options.specs.Words.{words_value};

use crate::Words;
use crate::splitting::split_at;
use bsc_bid::Speaker;
use bsc_text::STANDARD_INPUT;

/// Whether a path is standard input.
fn is_standard_input(path: &str) -> bool
    ensures { result ≡ is_input path.now }
{
    path == STANDARD_INPUT
}

/// Returns the path in a text of `--offer` of this station.
fn path_of(text: &str, speaker: Speaker) -> &str
    ensures { result.now ≡ path_in speaker text.now }
{
    match speaker {
        Speaker::Terminal { .. } => text,
        Speaker::Control => {
            let (_, path) = split_at(text, '=');
            path.unwrap_or(text)
        }
    }
}

/// Whether standard input is used more than once.
pub(crate) fn repeats_input(words: &Words, speaker: Speaker) -> bool
    ensures { result ≡ is_repeated (words_value words.now) speaker }
{
    let is_config = is_standard_input(words.required("CONFIG"));
    let ends_with_it = words.is_given("until-input-ends");
    if is_config && ends_with_it {
        return true;
    }
    let mut is_used = is_config || ends_with_it;
    'offers: for offer in words.texts("offer") {
        if is_standard_input(path_of(offer.as_str(), speaker)) {
            if is_used {
                return true;
            }
            is_used = true;
        }
    }
    false
}
