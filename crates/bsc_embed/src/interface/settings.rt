//! Settings from C.

ghost use Rattle.std.specs.Prelude.{◌≡◌, IfOk};
ghost use Rattle.bsc_bid.specs.Setup.{IsSetup};
ghost use Rattle.bsc_embed.specs.Settings.{setup_in};

use crate::interface::Fault;
use bsc_bid::Setup;

/// The settings of a station or a line: `struct bsc_setup` of `bsc.h`. C may put any numbers into
/// the fields.
#[repr(C)]
#[derive(Clone, Copy)]
pub struct Settings {
    /// The full length of a record in characters, 1 to 144.
    pub full: u8,

    /// The greatest number of characters that a block may count, 146 to 400.
    pub block_chars: u16,

    /// The limit of failures in a row, 1 to 15.
    pub tries: u8,

    /// The limit of WACKs since the last acknowledgement, 1 to 255.
    pub waits: u8,
}

impl Settings {
    /// Returns these settings. The fault names the first number that is outside its limits: `Full`,
    /// `BlockChars`, `Tries` or `Waits`.
    pub fn setup(&self) -> Result<Setup, Fault>
        ensures value { result ≡ setup_in self.now }
        ensures limits { IfOk result IsSetup }
    {
        let setup = Setup::new(self.full, self.block_chars, self.tries, self.waits)?;
        Ok(setup)
    }
}
