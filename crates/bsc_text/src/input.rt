//! Reads a whole input of bounded length.
ghost use Rattle.std.specs.Prelude.{◌≡◌, ◌<◌, ◌≤◌, length, IfOk, OnOk, IfSome, IsErrOf};
ghost use Rattle.std.specs.Io.KnownBytes.{IsAtEnd};

use crate::Unreadable;
use std::alloc::Allocator;
use std::io::Read;
use thiserror::Error;

/// The maximum number of octets in an input that is read whole, and in a line of any other.
pub const MAX_INPUT: usize = 1_048_576;

/// The reason why an input could not be read.
#[derive(Clone, Copy, Debug, PartialEq, Eq, Error)]
pub enum InputError {
    /// The input, or a line that is read from it, has more than `MAX_INPUT` octets.
    #[error("input too long")]
    TooLong,

    /// A read failed or was interrupted, for this reason.
    #[error("input fault")]
    Device { why: Unreadable },

    /// An allocation failed.
    #[error("out of memory")]
    Memory,
}

/// Reads a whole input of at most `MAX_INPUT` octets, in at most `MAX_INPUT` + 1 reads. After an
/// error the reader is where its last read left it.
pub fn read_input<A: Allocator, R: Read>(alloc: A, reader: &mut R) -> Result<Vec<u8, A>, InputError>
    ensures whole { IfOk result (λ v.
        IfSome (R.remaining reader.old) (λ octets. v.items ≡ octets)) }
    ensures end { OnOk result (IsAtEnd (R.remaining reader.new)) }
    ensures fits { IfOk result (λ v. length v.items ≤ MAX_INPUT) }
    ensures too_long { IsErrOf result InputError.TooLong →
        IfSome (R.remaining reader.old) (λ octets. MAX_INPUT < length octets) }
{
    let mut input = Vec::new(alloc);
    let mut piece = [0u8; 4096];
    'reads: loop {
        match reader.read(&mut piece) {
            Ok(0) => return Ok(input),
            Ok(count) => {
                if MAX_INPUT - input.len() < count {
                    return Err(InputError::TooLong);
                }
                if input.extend_from_slice(&piece[..count]).is_err() {
                    return Err(InputError::Memory);
                }
            }
            Err(error) => {
                let why = Unreadable::of(error.kind());
                return Err(InputError::Device { why });
            }
        }
    }
}
