//! The peers of a configuration.
ghost use Rattle.std.specs.Prelude.{◌≡◌};
ghost use Rattle.std.specs.List.{list_any};
ghost use Rattle.admin_text.specs.Networks.{contains, may_come};

use crate::networks::Network;
use std::net::{IpAddr, SocketAddr};
use table_types::Name;

/// A peer of the node.
#[derive(Debug, Drop)]
pub struct Peer {
    /// The name by which the node knows it.
    pub name: Name,
    /// Where it takes connections; without an address it may only connect itself.
    pub address: Option<SocketAddr>,
    /// Where its connections come from; without a network they may come from anywhere.
    pub from: Vec<Network>,
}

impl Peer {
    /// Returns whether a connection may be the peer's that comes from `address`, or from one that the system doesn't tell: any may if no
    /// network is given, and otherwise one from an address in one of the networks.
    pub fn may_come_from(&self, address: Option<IpAddr>) -> bool
        ensures { result ≡ may_come self.now.from.items address }
    {
        if self.from.is_empty() {
            return true;
        }
        match address {
            Some(ip) => is_in_one(self.from.as_slice(), &ip),
            None => false,
        }
    }
}

/// Returns whether an address is in one of the networks.
pub(crate) fn is_in_one(networks: &[Network], address: &IpAddr) -> bool
    ensures { result ≡ list_any (λ network. contains network address.now) networks.now }
{
    for network in networks {
        if network.contains(address) {
            return true;
        }
    }
    false
}
