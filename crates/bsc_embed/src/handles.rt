//! What a program in C holds: a number that says what was made, and a pointer to it.
//!
//! A [`Handle`] lies in the memory of the program, which passes it to each call. It begins as all
//! zero, and is so again once what it has was freed. What was made lies on the heap of the program.
//! To work on it a call takes the box out of the handle and puts it back at its end.

mod handle;
mod kind;
mod made;
mod parts;
mod pointer;
mod taking;

pub use handle::Handle;
pub use made::Made;
pub use pointer::MadePointer;
