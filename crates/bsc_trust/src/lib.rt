//! Which peers may connect, and what a control station can tell, of octets, connections and times,
//! of the premise that no reply outlives its time-out.
//!
//! An answer is due once after each sending. Over several connections each answers for one terminal
//! at most, and each terminal answers on one connection at most. An answer takes no longer than the
//! time-out. [`Trust`] records the first reason for which one of these did not hold. That it found
//! none does not show the premise: a reply that outlives its time-out, and is heard in place of the
//! next one, cannot be told from that.
//!
//! A [`Network`] has the addresses that agree with its own address in its leading bits. An IPv4
//! address and the IPv6 address to which it is mapped, `::ffff:a.b.c.d`, count as the same address.
//!
//! Polling, selection, ENQ, EOT and the time-outs are those of GA27-3004. The connections, what is
//! told of them, and the lists of peers are this project's own.
#![tactic(auto)]

mod answers;
mod connected;
mod distrust;
pub mod laws;
mod network;
mod networks;
mod terminal_peers;
mod trust;

pub use distrust::Distrust;
pub use network::{Network, NetworkError};
pub use networks::{MAX_NETWORKS, Networks};
pub use terminal_peers::TerminalPeers;
pub use trust::Trust;
