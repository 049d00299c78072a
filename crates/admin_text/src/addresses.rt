//! Addresses with ports.
ghost use Rattle.std.specs.Prelude.{◌≡◌, ◌↔◌, ◌∷◌, ◌++◌, [], ℕ, List, Contains, IsTrue, MatchOption};
ghost use Rattle.std.specs.declared.net.ip_addr.IpAddr.{IpAddr};
ghost use Rattle.std.specs.declared.net.socket_addr.SocketAddr.{SocketAddr};
ghost use Rattle.admin_text.specs.Addresses.{IsAddressText, IsHostText, IsLinkLocal};

use node_text::number_from_one;
use std::net::{IpAddr, Ipv4Addr, Ipv6Addr, SocketAddr};

/// The last port.
const LAST_PORT: u32 = 65_535;

/// Reads an address `A.B.C.D:PORT`, or `[IPv6]:PORT` without a zone and not of fe80::/10, which needs one. The port is from 1.
pub fn address_of(word: &[u8]) -> Option<SocketAddr>
    ensures { MatchOption result ((address : SocketAddr) → IsAddressText word.now address → ⊥) (IsAddressText word.now) }
{
    let (host, port) = cut_last(word, b':')?;
    let host = host_of(host)?;
    let port = number_from_one(port, LAST_PORT)?;
    if is_link_local(&host) {
        None
    } else {
        Some(SocketAddr::new(host, port as u16))
    }
}

/// Returns whether this is an address of fe80::/10.
fn is_link_local(ip: &IpAddr) -> bool
    ensures { IsTrue result ↔ IsLinkLocal ip.now }
{
    match ip {
        IpAddr::V4(_) => false,
        IpAddr::V6(ip) => ip.is_unicast_link_local(),
    }
}

/// Reads an IPv4 address, or an IPv6 address in brackets.
fn host_of(text: &[u8]) -> Option<IpAddr>
    ensures { MatchOption result ((ip : IpAddr) → IsHostText text.now ip → ⊥) (IsHostText text.now) }
{
    match in_brackets(text) {
        Some(inner) => match Ipv6Addr::parse_ascii(inner) {
            Ok(ip) => Some(IpAddr::V6(ip)),
            Err(_) => None,
        },
        None => match Ipv4Addr::parse_ascii(text) {
            Ok(ip) => Some(IpAddr::V4(ip)),
            Err(_) => None,
        },
    }
}

/// Returns what is between `[` and `]`, if `text` is in brackets.
fn in_brackets(text: &[u8]) -> Option<&[u8]>
    ensures { MatchOption result ((inner : List ℕ) → text.now ≡ 91 ∷ (inner ++ 93 ∷ []) → ⊥) (λ inner. text.now ≡ 91 ∷ (inner.now ++ 93 ∷ [])) }
{
    let Some((first, rest)) = text.split_first() else {
        return None;
    };
    let Some((last, inner)) = rest.split_last() else {
        return None;
    };
    if *first == b'[' && *last == b']' {
        Some(inner)
    } else {
        None
    }
}

/// Returns the bytes before the last `byte` of `text`, and those after it; `None` if `text` has no such byte.
fn cut_last(text: &[u8], byte: u8) -> Option<(&[u8], &[u8])>
    ensures { MatchOption result (Contains text.now byte → ⊥) (λ parts. (text.now ≡ parts.0.now ++ (byte ∷ parts.1.now)) × (Contains parts.1.now byte → ⊥)) }
{
    let end = text.iter().rposition(|other| *other == byte)?;
    Some((&text[..end], &text[end + 1..]))
}
