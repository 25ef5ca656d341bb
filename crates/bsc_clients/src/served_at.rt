//! Where programs reach a station.

/// Where programs reach a station that serves them.
#[derive(Clone, Copy, Debug, PartialEq, Eq)]
pub enum ServedAt<'a> {
    /// A TCP address, a host and a port such as `127.0.0.1:2790`. Unless anyone may reach it, the
    /// host has loopback addresses only.
    Address { address: &'a str, anyone: bool },

    /// The path of a Unix socket, which only the user of the station can reach.
    Path { path: &'a str },
}
