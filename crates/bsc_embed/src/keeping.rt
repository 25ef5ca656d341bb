//! What was made is put on the heap of the program.

ghost use Rattle.std.specs.Prelude.{◌≡◌, None};
ghost use Rattle.bsc_embed.specs.Handles.{made_in};
ghost use Rattle.bsc_embed.specs.Making.{IsKept};

use crate::handles::{Handle, Made};
use crate::interface::Fault;
use std::alloc::Global;

/// Puts what was made into a handle that has nothing. Returns 0, or the number of `Memory`.
pub(crate) fn keep(alloc: Global, handle: &mut Handle, made: Made) -> u32
    requires { made_in handle.old ≡ None }
    ensures { IsKept made (made_in handle.new) result }
{
    match Box::new(alloc, made) {
        Ok(boxed) => {
            handle.hold(boxed);
            0
        }
        Err(_) => Fault::Memory.number(),
    }
}
