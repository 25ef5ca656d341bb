//! Conversions of single values.

ghost use Rattle.std.specs.Prelude.{◌≡◌, ◌≤◌, IfSome};
ghost use Rattle.toml.specs.View.{view};
ghost use Rattle.bsc_config.specs.Values.{address_in as address_of_value};
ghost use Rattle.bsc_config.specs.Values.{whole_number as number_of_value};

use bsc_frame::Address;
use toml::Value;

/// The version of a configuration.
#[derive(Clone, Copy)]
pub(crate) enum Version {
    /// Each terminal has one selection address, written as a string.
    One,

    /// Each terminal has one to four selection addresses, written as a list of strings.
    Two,
}

/// Returns a whole number from `least` to `most`.
pub(crate) fn whole_number(value: &Value, least: u16, most: u16) -> Option<u16>
    ensures value { result ≡ number_of_value least most (view value.now) }
    ensures least { IfSome result (λ n. least ≤ n) }
    ensures most { IfSome result (λ n. n ≤ most) }
{
    match value.as_integer() {
        Some(integer) => match u16::try_from(integer) {
            Ok(number) if least <= number && number <= most => Some(number),
            _ => None,
        },
        None => None,
    }
}

/// Returns an address: a string of 1 to 7 characters from 21 to 7E hexadecimal.
pub(crate) fn address_in(value: &Value) -> Option<Address>
    ensures { result ≡ address_of_value (view value.now) }
{
    match value.as_str() {
        Some(text) => match Address::read(text.as_bytes()) {
            Ok(address) => Some(address),
            Err(_) => None,
        },
        None => None,
    }
}
