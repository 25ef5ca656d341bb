//! The stations that can be fed.

ghost use Rattle.std.specs.Prelude.{◌≡◌, ◌⊎◌, IfErr, IsErrOf, OnOk, map, string_bytes};
ghost use Rattle.bsc_clients.specs.Answers.{EndsInFault};
ghost use Rattle.bsc_clients.specs.Errors.{IsFeedError, IsReachError};
ghost use Rattle.bsc_clients.specs.Feeding.{HasFed};

use crate::Reached;
use crate::command::{FeedError, feed};
use std::alloc::Global;
use std::io::{Read, Write};

/// Stations that serve programs.
pub trait Stations {
    /// What is heard of a station.
    type Heard: Read + Drop;

    /// What is said to it.
    type Said: Write + Drop;

    /// Connects to the station that serves programs at this address, `HOST:PORT` or `unix:PATH`.
    /// Fails with `Address` if it is not one, with `NotPermitted` if the user may not connect there,
    /// with `NobodyThere` if no station answers, and with `Sockets` or `Memory` if the system
    /// refuses what is needed.
    fn reach(&mut self, address: &str) -> Result<Reached<Self::Heard, Self::Said>, FeedError>
        ensures { IfErr result IsReachError };
}

/// Connects to the station that serves programs at this address, and then sends what these words
/// ask for, as [`feed`] does, and with its errors.
pub fn feed_at<R: Read, H: Stations, W: Write>(
    alloc: Global,
    address: &str,
    words: &[String],
    input: &mut R,
    machine: &mut H,
    out: &mut W,
) -> Result<(), FeedError>
    ensures fed { OnOk result (HasFed (map string_bytes words.now) (R.remaining input.old)
        (W.contents out.old) (W.contents out.new)) }
    ensures refused { IsErrOf result FeedError.Refused →
        EndsInFault (W.contents out.old) (W.contents out.new) }
    ensures failed { IfErr result (λ error.
        IsReachError error ⊎ IsFeedError (map string_bytes words.now) error) }
    ensures early { IsErrOf result FeedError.NotOneLine → out.new ≡ out.old }
{
    let Reached {
        mut heard,
        mut said,
    } = machine.reach(address)?;
    feed(alloc, words, input, &mut heard, &mut said, out)
}
