//! The handle.

ghost use Rattle.std.specs.Prelude.{◌≡◌};
ghost use Rattle.bsc_embed.specs.HandlesKinds.{kind_of};

use crate::handles::pointer::MadePointer;

/// What a program in C holds: `struct bsc_terminal`, `struct bsc_control` and `struct bsc_line` of
/// `bsc.h`, which have the same layout. The fields belong to the library.
#[repr(C)]
#[derive(Drop)]
pub struct Handle {
    /// The number that says what was made.
    pub(crate) kind: u32,

    /// The pointer to it.
    pub(crate) pointer: MadePointer,

    /// The number is that of what was made.
    ghost told: { kind ≡ kind_of pointer.made },
}
