//! The place at which programs feed a station.

ghost use Rattle.std.specs.Prelude.{◌≡◌, option_map};
ghost use Rattle.bsc_options.specs.Serves.{is_address, serves_at, serves_in, serves_value};

use crate::splitting::split_at;

/// Where programs feed a station.
#[derive(Clone, Copy)]
pub enum Serves<'a> {
    /// At this address, a host and a port; with `anyone` from other machines too.
    Address { address: &'a str, anyone: bool },

    /// At this path, a socket of the file system.
    Path { path: &'a str },
}

/// Returns the place that a text names: `unix:PATH` is a path, of an octet or more, and any other
/// text an address, whose host and port are not looked at.
pub fn read_serves(address: &str, anyone: bool) -> Serves<'_>
    ensures { serves_value result ≡ serves_at address.now anyone }
{
    let (front, path) = split_at(address, ':');
    match path {
        Some(path) if front == "unix" && !path.is_empty() => Serves::Path { path },
        _ => Serves::Address { address, anyone },
    }
}

/// Returns the place that the options give, if they give one.
pub(crate) fn serves_of(serve: Option<&str>, anyone: bool) -> Option<Serves<'_>>
    ensures { option_map serves_value result
        ≡ serves_in (option_map (λ text. text.now) serve.entry) anyone }
{
    match serve {
        Some(text) => Some(read_serves(text, anyone)),
        None => None,
    }
}

/// Whether the options give a place that is an address.
pub(crate) fn is_at_address(serve: Option<&str>) -> bool
    ensures { result ≡ is_address (option_map (λ text. text.now) serve.entry) }
{
    match serves_of(serve, false) {
        Some(Serves::Address { .. }) => true,
        _ => false,
    }
}
