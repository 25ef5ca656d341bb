//! The limit on the size of files.
//!
//! A write that begins at the limit ends the program by a signal, SIGXFSZ, which it cannot ignore
//! by itself: no report would be printed. So what goes to a standard stream is compared with the
//! limit first, and such a write fails as one to a full disk does. (Own.)

ghost use Rattle.std.specs.Prelude.{◌≡◌, ◌-◌};
ghost use Rattle.bsc_machine.specs.Limits.{limit_of};

use libc::types::rlimit;
use std::fs::metadata;
use std::os::fd::RawFd;
use std::rt::Files as Filing;

/// The number of the limit on the size of files.
const FILE_SIZE: i32 = 1;

/// The size that stands for no limit.
const NO_LIMIT: u64 = u64::MAX;

/// Returns how many octets more a standard stream takes, the descriptor that is open at this path;
/// `None` if no limit ends it.
pub(crate) fn room_at<R: Filing>(runtime: &R, descriptor: RawFd, path: &str) -> Option<u64> {
    let limit = file_size_limit()?;
    // A stream without a place, such as a pipe, has no size.
    let Ok(place) = u64::try_from(libc::lseek(descriptor, 0, libc::SEEK_CUR)) else {
        return None;
    };
    match metadata(runtime, path) {
        Ok(found) if !found.is_file() => None,
        // A stream that appends writes at the end, wherever its place is.
        Ok(found) => Some(room(limit, place.max(found.len()))),
        Err(_) => Some(room(limit, place)),
    }
}

/// Returns how much is left of this limit after this many octets.
fn room(limit: u64, reached: u64) -> u64
    ensures { result ≡ limit - reached }
{
    limit.saturating_sub(reached)
}

/// Returns the limit on the size of files of this process, if there is one.
pub(crate) fn file_size_limit() -> Option<u64> {
    let mut limit = rlimit {
        rlim_cur: NO_LIMIT,
        rlim_max: NO_LIMIT,
    };
    if libc::getrlimit(FILE_SIZE, &mut limit) != 0 {
        return None;
    }
    limit_of(limit.rlim_cur)
}

/// Returns the limit that this size stands for.
fn limit_of(size: u64) -> Option<u64>
    ensures { result ≡ limit_of size }
{
    if size == NO_LIMIT {
        return None;
    }
    Some(size)
}
