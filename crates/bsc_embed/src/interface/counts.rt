//! Counts that C gets, and what it keeps of a sender.

ghost use Rattle.std.specs.Prelude.{◌≡◌};
ghost use Rattle.bsc_embed.specs.Counts.{kept_in, stored_kept};

use bsc_bid::KeptSender;

/// What the sending end of a channel has: `struct bsc_sending` of `bsc.h`.
#[repr(C)]
#[derive(Clone, Copy)]
pub struct Sending {
    /// The number of records that were offered.
    pub offered: usize,

    /// How many of them are known to have arrived.
    pub known: usize,

    /// 1 if the last block is in doubt, else 0.
    pub in_doubt: u32,
}

/// What is kept of a sender: `struct bsc_kept` of `bsc.h`. C may put any numbers into the fields.
#[repr(C)]
#[derive(Clone, Copy)]
pub struct StoredKept {
    /// How many of the offered records are known to have arrived.
    pub known: usize,

    /// The number of the records of a doubtful block, 1 to 7; 0 if there is none.
    pub doubt: usize,
}

impl StoredKept {
    /// Returns what is to be stored for this.
    pub fn of(kept: KeptSender) -> StoredKept
        ensures { result ≡ stored_kept kept }
    {
        StoredKept {
            known: kept.known,
            doubt: kept.doubt.unwrap_or(0),
        }
    }

    /// Returns what is stored here.
    pub fn kept(&self) -> KeptSender
        ensures { result ≡ kept_in self.now }
    {
        let doubt = match self.doubt {
            0 => None,
            count => Some(count),
        };
        KeptSender {
            known: self.known,
            doubt,
        }
    }
}
