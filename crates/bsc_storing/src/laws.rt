//! Laws of the work on a store.
ghost use Rattle.bsc_storing.specs.Releases.{FindsApart, IsReleaseOfBid};

/// The release of a doubt in a store leaves, or refuses, what the sender's own release does, where
/// the sender is made again from the store.
pub fn release_of_bid()
    ensures { IsReleaseOfBid }
{}

/// The counts of the two ends of a channel are found not to fit exactly where as many records have
/// arrived neither as are known nor as are known and in doubt.
pub fn finds_apart()
    ensures { FindsApart }
{}
