//! The octets of a transmission.
ghost use Rattle.std.specs.Prelude.{◌≡◌, IfOk, option_map};
ghost use Rattle.bsc_trace.specs.Lines.{octets_given};

use bsc_text::{is_blank, read_octets, spells};
use std::alloc::{AllocError, Allocator};

/// Reads octets: hexadecimal text, or `-` for none. `None` if the word is neither.
pub(crate) fn read_given<A: Allocator + Copy>(
    alloc: A,
    word: &[u8],
) -> Result<Option<Vec<u8, A>>, AllocError>
    ensures { IfOk result (λ octets. option_map (λ v. v.items) octets ≡ octets_given word.now) }
{
    if spells(word, "-") {
        return Ok(Some(Vec::new(alloc)));
    }
    if is_blank(word) {
        return Ok(None);
    }
    read_octets(alloc, word)
}
