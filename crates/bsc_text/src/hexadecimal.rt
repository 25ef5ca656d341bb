//! Octets from hexadecimal text.
ghost use Rattle.std.specs.Prelude.{◌≡◌, IfOk, option_map};
ghost use Rattle.bsc_text.specs.Hexadecimal.{octets_of, without_spaces as spaceless};

use hex::FromHexError;
use std::alloc::{AllocError, Allocator};

/// Returns the text without its spaces.
fn without_spaces<A: Allocator>(alloc: A, text: &[u8]) -> Result<Vec<u8, A>, AllocError>
    ensures { IfOk result (λ digits. digits.items ≡ spaceless text.now) }
{
    let mut digits = Vec::new(alloc);
    for &octet in text {
        if octet != b' ' {
            digits.push(octet)?;
        }
    }
    Ok(digits)
}

/// Returns the octets of hexadecimal text without its spaces, or `None` if the text is not
/// hexadecimal.
pub fn read_octets<A: Allocator + Copy>(
    alloc: A,
    text: &[u8],
) -> Result<Option<Vec<u8, A>>, AllocError>
    ensures { IfOk result (λ octets. option_map (λ v. v.items) octets ≡ octets_of text.now) }
{
    let digits = without_spaces(alloc, text)?;
    match hex::decode(alloc, digits.as_slice()) {
        Ok(octets) => Ok(Some(octets)),
        Err(FromHexError::OutOfMemory) => Err(AllocError),
        Err(_) => Ok(None),
    }
}
