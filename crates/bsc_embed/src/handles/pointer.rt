//! The pointer to what was made, without its type, since C cannot know it.

ghost use Rattle.std.specs.Prelude.{◌≡◌, Option, Some, None};
ghost use Rattle.bsc_embed.specs.Pointers.{owns_made};
ghost use Rattle.bsc_embed.specs.declared.handles.made.Made.{Made as MadeValue};
ghost use Rattle.bsc_embed.specs.contracts.handles.made.Made.{the_row};

use crate::handles::made::Made;
use crate::handles::parts::BoxParts;
use std::alloc::Global;
use std::marker::Model;

/// A pointer to what was made, on the heap of the program, or a null pointer if nothing was. To let
/// it go frees nothing.
#[repr(C)]
#[derive(Drop)]
pub struct MadePointer {
    at: *mut u8,

    /// What was made.
    pub ghost made: { Option MadeValue },
}

impl Model for MadePointer {
    ghost also_owns = { λ p. owns_made the_row p.at p.made };
}

impl MadePointer {
    /// Returns a pointer to nothing.
    pub(crate) fn nothing() -> MadePointer
        ensures { result.made ≡ None }
    {
        MadePointer {
            at: std::ptr::null_mut(),
        }
    }

    /// Returns the pointer to what is in a box.
    pub(crate) fn of(parts: BoxParts<Made, Global>) -> MadePointer
        ensures { result.made ≡ Some parts.value }
    {
        let BoxParts { at, alloc: _ } = parts;
        MadePointer { at: at as *mut u8 }
    }

    /// Returns the parts of the box again. Condition: something was made.
    pub(crate) fn into_parts(self, alloc: Global) -> BoxParts<Made, Global>
        requires { (m : MadeValue) × (self.made ≡ Some m) }
        ensures { Some result.value ≡ self.made }
    {
        let MadePointer { at } = self;
        BoxParts {
            at: at as *mut Made,
            alloc,
        }
    }
}
