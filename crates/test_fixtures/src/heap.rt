//! Stations and lines on the heap. What moves a large value, as each `?` does, takes long to check;
//! what moves a box does not.

ghost use Rattle.std.specs.Prelude.{◌≡◌, IfOk, Ok};

use std::alloc::Global;
use std::test::Fail;

/// Returns what was made, on the heap, or why it was not made. A failure to allocate is one too.
pub fn on_heap<T: Drop, E: Into<Fail>>(alloc: Global, made: Result<T, E>) -> Result<Box<T>, Fail>
    ensures { IfOk result (λ boxed. made ≡ Ok boxed.value) }
{
    match made {
        Ok(value) => Ok(Box::new(alloc, value)?),
        Err(why) => Err(why.into()),
    }
}
