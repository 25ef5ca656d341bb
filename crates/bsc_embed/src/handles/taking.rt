//! What was made is taken out of a handle, and put back.

ghost use Rattle.std.specs.Prelude.{◌≡◌, None, Some, is_some, option_map};
ghost use Rattle.bsc_embed.specs.Handles.{made_in};

use crate::handles::Handle;
use crate::handles::kind::{NOTHING, is_kind, kind_of};
use crate::handles::made::Made;
use crate::handles::parts::BoxParts;
use crate::handles::pointer::MadePointer;
use std::alloc::Global;
use std::mem;

impl Handle {
    /// Returns a handle that has nothing.
    pub fn new() -> Handle
        ensures { made_in result ≡ None }
    {
        Handle {
            kind: NOTHING,
            pointer: MadePointer::nothing(),
        }
    }

    /// Whether something was made.
    pub fn is_made(&mut self) -> bool
        ensures answer { result ≡ is_some (made_in self.old) }
        ensures same { self.new ≡ self.old }
    {
        is_kind(self.kind)
    }

    /// Takes what was made out of the handle. `None` if there is nothing. `alloc` is the heap of
    /// the program, on which it lies.
    pub fn take(&mut self, alloc: Global) -> Option<Box<Made, Global>>
        ensures taken { option_map (λ b. b.value) result ≡ made_in self.old }
        ensures left { made_in self.new ≡ None }
    {
        let Handle { kind, pointer } = mem::replace(self, Handle::new());
        if !is_kind(kind) {
            return None;
        }
        Some(pointer.into_parts(alloc).into_box())
    }

    /// Puts what was made into the handle. Condition: there is nothing in it.
    pub fn hold(&mut self, made: Box<Made, Global>)
        requires { made_in self.old ≡ None }
        ensures { made_in self.new ≡ Some made.value }
    {
        *self = Handle {
            kind: kind_of(&made),
            pointer: MadePointer::of(BoxParts::of(made)),
        };
    }
}
