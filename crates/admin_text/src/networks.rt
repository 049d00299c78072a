//! Networks from which peers come.
ghost use Rattle.std.specs.Prelude.{◌≡◌, ◌/◌, ◌^◌, MatchOption};
ghost use Rattle.std.specs.Net.Grammar.{IsIpText};
ghost use Rattle.std.specs.declared.net.ip_addr.IpAddr.{IpAddr};
ghost use Rattle.admin_text.specs.Networks.{IsNetworkText, IsPart, address_bits, contains, width};
ghost use Rattle.admin_text.specs.declared.networks.Network.{Network};

use node_text::{cut, number};
use std::net::IpAddr;

/// The bits that stand before those of an IPv4 address in the IPv6 address that it is mapped to.
pub(crate) const MAPPED: u128 = 0xffff << 32;

/// The addresses that begin with the same bits. An IPv4 address counts as the IPv6 address that it is mapped to.
#[derive(Clone, Copy, Debug, PartialEq, Eq)]
pub struct Network {
    /// The bits of one of its addresses.
    address: u128,
    /// The number of last bits that may differ.
    free: u32,
}

impl Network {
    /// Returns whether `address` is in the network. `::ffff:A.B.C.D` is if A.B.C.D is.
    pub fn contains(&self, address: &IpAddr) -> bool
        ensures { result ≡ contains self.now address.now }
    {
        without_last(address_bits(address), self.free) == without_last(self.address, self.free)
    }
}

/// Returns the bits of an address, those of an IPv6 address that it is mapped to if it is an IPv4 address.
pub(crate) fn address_bits(address: &IpAddr) -> u128
    ensures { result ≡ address_bits address.now }
{
    match address {
        IpAddr::V4(ip) => MAPPED + u128::from(ip.to_bits()),
        IpAddr::V6(ip) => ip.to_bits(),
    }
}

/// Returns `bits` without the last `free` ones.
fn without_last(bits: u128, free: u32) -> u128
    ensures { result ≡ bits / 2 ^ free }
{
    bits.checked_shr(free).unwrap_or(0)
}

/// Reads a network: an address without a port, or an address, `/`, and how many of its bits count, the first ones.
pub(crate) fn network_of(word: &[u8]) -> Option<Network>
    ensures { MatchOption result ((network : Network) → IsNetworkText word.now network → ⊥) (IsNetworkText word.now) }
{
    match cut(word, b'/') {
        Some((host, count)) => part_of(host, count),
        None => {
            let ip = ip_of(word)?;
            Some(Network {
                address: address_bits(&ip),
                free: 0,
            })
        }
    }
}

/// Reads a network of the addresses that have the first `count` bits of `host`.
fn part_of(host: &[u8], count: &[u8]) -> Option<Network>
    ensures { MatchOption result ((network : Network) → IsPart host.now count.now network → ⊥) (IsPart host.now count.now) }
{
    let ip = ip_of(host)?;
    let width = width(&ip);
    let count = number(count, u64::from(width))?;
    Some(Network {
        address: address_bits(&ip),
        free: width - count as u32,
    })
}

/// Returns how many bits an address has.
fn width(ip: &IpAddr) -> u32
    ensures { result ≡ width ip.now }
{
    match ip {
        IpAddr::V4(_) => 32,
        IpAddr::V6(_) => 128,
    }
}

/// Reads an address without a port.
fn ip_of(text: &[u8]) -> Option<IpAddr>
    ensures { MatchOption result ((ip : IpAddr) → IsIpText text.now ip → ⊥) (IsIpText text.now) }
{
    match IpAddr::parse_ascii(text) {
        Ok(ip) => Some(ip),
        Err(_) => None,
    }
}
