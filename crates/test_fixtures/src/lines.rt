//! The settings and terminals of the line on which the tests play.
ghost use Rattle.std.specs.Prelude.{◌≡◌, ◌∷◌, [], IfOk, IsTrue};
ghost use Rattle.bsc_frame.specs.Octet.{is_address_code};
ghost use Rattle.bsc_bid.specs.Setup.{setup_of};
ghost use Rattle.test_fixtures.specs.Lines.{two, two_by_three};

use bsc_bid::{SettingError, Setup, Terminal};
use bsc_frame::Address;

/// The default settings of a line except for the number of tries: blocks of up to 400 characters
/// with records of up to 80, and up to 10 WACKs. Returns `Tries` unless `tries` is 1 to 15.
pub fn setup(tries: u8) -> Result<Setup, SettingError>
    ensures value { result ≡ setup_of 80 400 tries 10 }
    ensures full { IfOk result (λ s. s.format.full ≡ 80) }
{
    Setup::new(80, 400, tries, 10)
}

/// The address with this one code, which is 0x21 to 0x7e.
pub fn address(code: u8) -> Address
    requires { IsTrue (is_address_code code) }
    ensures { result ≡ code ∷ [] }
{
    Address::read(&[code]).unwrap()
}

/// Terminal 0, which is polled by A and selected by a, and terminal 1, polled by B and selected by
/// b.
pub fn two_terminals() -> [Terminal; 2]
    ensures { result ≡ two }
{
    [
        Terminal::new(address(b'A'), &[address(b'a')]).unwrap(),
        Terminal::new(address(b'B'), &[address(b'b')]).unwrap(),
    ]
}

/// The same two terminals, but terminal 0 is also selected by c.
pub fn two_terminals_by_three() -> [Terminal; 2]
    ensures { result ≡ two_by_three }
{
    [
        Terminal::new(address(b'A'), &[address(b'a'), address(b'c')]).unwrap(),
        Terminal::new(address(b'B'), &[address(b'b')]).unwrap(),
    ]
}
