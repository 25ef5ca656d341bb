//! The numbers that say what was made. The letters BSC are in them, so that memory that was never
//! set is hardly taken for a handle.

ghost use Rattle.std.specs.Prelude.{◌≡◌, Some};
ghost use Rattle.bsc_embed.specs.HandlesKinds.{kind_of, is_kind};

use crate::handles::made::Made;

/// Nothing was made.
pub(crate) const NOTHING: u32 = 0;

/// A terminal was made.
pub(crate) const TERMINAL: u32 = 0x4253_4301;

/// A control station was made.
pub(crate) const CONTROL: u32 = 0x4253_4302;

/// A line was made.
pub(crate) const LINE: u32 = 0x4253_4303;

/// Returns the number of what was made.
pub(crate) fn kind_of(made: &Made) -> u32
    ensures { result ≡ kind_of (Some made.now) }
{
    match made {
        Made::Terminal(_) => TERMINAL,
        Made::Control(_) => CONTROL,
        Made::Line(_) => LINE,
    }
}

/// Whether this is the number of something that was made.
pub(crate) fn is_kind(number: u32) -> bool
    ensures { result ≡ is_kind number }
{
    number == TERMINAL || number == CONTROL || number == LINE
}
