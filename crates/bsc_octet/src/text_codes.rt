//! The codes that a record and an address may hold.
ghost use Rattle.std.specs.Prelude.{◌≡◌};
ghost use Rattle.bsc_octet.specs.Octet.{is_record_char, is_address_code};

/// Returns whether a record may hold the code: 0x00 to 0x7f except SOH, STX, ETX, EOT, ENQ, DLE,
/// NAK, SYN, ETB, EM and US (GA27-3004: data-link control characters).
#[tactic(auto, unfolding(crate::specs::Octet::is_record_char))]
pub fn is_record_char(code: u8) -> bool
    ensures { result ≡ is_record_char code }
{
    (code < 0x80)
        & !((code.wrapping_sub(1) < 5)
            | (code == 0x10)
            | (code.wrapping_sub(0x15) < 3)
            | (code == 0x19)
            | (code == 0x1f))
}

/// Returns whether the code may stand in an address: 0x21 to 0x7e. GA27-3004 leaves the addresses
/// of a line to its owner.
pub fn is_address_code(code: u8) -> bool
    ensures { result ≡ is_address_code code }
{
    (0x21..=0x7e).contains(&code)
}
