//! The release of a doubt.
ghost use Rattle.std.specs.Prelude.{◌≡◌};
ghost use Rattle.bsc_storing.specs.Releases.{release_of};

use bsc_bid::ReleaseError;
use bsc_spool::{Change, Channel, Progress};

/// Returns the change that ends the doubt of a channel, of which the other end has `count` records:
/// as many are known, and none is in doubt. The errors are `NotInDoubt` if there is no doubt, and
/// then `CountMismatch` if the count is neither the number of known records nor that number plus
/// the doubtful block.
pub fn release(channel: Channel, progress: Progress, count: u32) -> Result<Change, ReleaseError>
    ensures { result ≡ release_of channel progress count }
{
    if progress.in_doubt == 0 {
        return Err(ReleaseError::NotInDoubt);
    }
    let known = progress.known;
    if count != known && (count < known || count - known != progress.in_doubt) {
        return Err(ReleaseError::CountMismatch);
    }
    Ok(Change::Known {
        channel,
        known: count,
        in_doubt: 0,
    })
}
