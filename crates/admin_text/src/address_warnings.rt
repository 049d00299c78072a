//! Addresses that are legal, and surely meant otherwise.
ghost use Rattle.std.specs.Prelude.{◌≡◌, IfOk, map, option_map};
ghost use Rattle.std.specs.Net.Socket.{socket_ip};
ghost use Rattle.admin_text.specs.PeerLines.{networks_part, source_part};
ghost use Rattle.admin_text.specs.Warnings.{IsOutside, IsOutsideAll, IsOutsideIf, admin_in, bits_of, has_same_port, is_every, is_here, is_same, listen_in, outside_warning, overlap_warning, overlaps, own_warning, peer_at, place_warning, port_warning, reaches};
ghost use Rattle.admin_text.specs.declared.warnings.Warning.TheVariants as warnings;

use crate::line_refusals::LineRefusal;
use crate::networks::{MAPPED, Network, address_bits};
use crate::peer_lines::{networks_part, read_networks, source_part};
use crate::peers::is_in_one;
use crate::places::{Place, behind_name};
use crate::warnings::Warning;
use std::alloc::Global;
use std::net::{IpAddr, SocketAddr};
use table_types::Memory;

/// What the bits of 127.0.0.0/8 begin with, behind which 24 come.
const LOOPBACK: u128 = 0xffff7f;

/// The place of the first word for a network in the line of a peer with an address.
const FIRST_NETWORK: usize = 4;

/// Returns what is surely meant otherwise of an address among those of all lines.
pub(crate) fn place_warning(all: &[Place], place: Option<Place>) -> Option<Warning>
    ensures { result ≡ place_warning all.now place }
{
    match place? {
        Place::Listen(_, _) => None,
        Place::Admin(_, address) => port_warning(&address, listen_in(all)),
        Place::Metrics(_, address) => {
            overlap_warning(&address, listen_in(all)).or(overlap_warning(&address, admin_in(all)))
        }
        Place::Peer(number, address) => {
            own_warning(&address, listen_in(all)).or(shared_warning(peer_at(number, &address, all)))
        }
    }
}

/// Returns that a peer may not come from the address that these words give it, which is `place`, if it may not.
pub(crate) fn outside_warning_of(
    alloc: Global,
    place: Option<Place>,
    words: &[&[u8]],
) -> Result<Option<Warning>, Memory>
    ensures { IfOk result (IsOutside place (map (λ word. word.now) words.now)) }
{
    match place {
        Some(Place::Peer(_, address)) => {
            outside_warning_behind(alloc, behind_name(words), &address)
        }
        Some(Place::Listen(_, _) | Place::Admin(_, _) | Place::Metrics(_, _)) | None => Ok(None),
    }
}

/// Returns that a peer may not come from its own address, if it may not, from the words behind its name.
fn outside_warning_behind(
    alloc: Global,
    words: &[&[u8]],
    address: &SocketAddr,
) -> Result<Option<Warning>, Memory>
    ensures { IfOk result (IsOutsideIf (networks_part (source_part (map (λ word. word.now) words.now))) (socket_ip address.now)) }
{
    match networks_part(source_part(words)) {
        Some(networks) => outside_warning_at(alloc, networks, address),
        None => Ok(None),
    }
}

/// Returns that a peer may not come from its own address, which isn't in one of the networks that these words write, if it may not.
fn outside_warning_at(
    alloc: Global,
    words: &[&[u8]],
    address: &SocketAddr,
) -> Result<Option<Warning>, Memory>
    ensures { IfOk result (IsOutsideAll (map (λ word. word.now) words.now) (socket_ip address.now)) }
{
    match read_networks(alloc, FIRST_NETWORK, words) {
        Ok(networks) => Ok(outside_warning(networks.as_slice(), &address.ip())),
        Err(LineRefusal::Fault(_fault)) => Ok(None),
        Err(LineRefusal::Memory) => Err(Memory),
    }
}

/// Returns that a peer with these networks may not come from its own address, if it may not.
fn outside_warning(networks: &[Network], address: &IpAddr) -> Option<Warning>
    ensures { result ≡ outside_warning networks.now address.now }
{
    match networks {
        [] => None,
        [_, ..] => if is_in_one(networks, address) {
            None
        } else {
            Some(Warning::Outside)
        },
    }
}

/// Returns that requests come to the port at which the node listens, if they do.
fn port_warning(address: &SocketAddr, listen: Option<(usize, SocketAddr)>) -> Option<Warning>
    ensures { result ≡ port_warning address.now listen }
{
    let (line, other) = listen?;
    if has_same_port(address, &other) {
        Some(Warning::Port(line))
    } else {
        None
    }
}

/// Returns that HTTP comes to another address of the node, if it does.
fn overlap_warning(address: &SocketAddr, own: Option<(usize, SocketAddr)>) -> Option<Warning>
    ensures { result ≡ overlap_warning address.now own }
{
    let (line, other) = own?;
    if overlaps(address, &other) {
        Some(Warning::Overlap(line))
    } else {
        None
    }
}

/// Returns that a peer is where the node listens, if it is.
fn own_warning(address: &SocketAddr, listen: Option<(usize, SocketAddr)>) -> Option<Warning>
    ensures { result ≡ own_warning address.now listen }
{
    let (line, other) = listen?;
    if reaches(address, &other) {
        Some(Warning::Own(line))
    } else {
        None
    }
}

/// Returns that a line has a peer at the address, if one does.
fn shared_warning(line: Option<usize>) -> Option<Warning>
    ensures { result ≡ option_map warnings.Shared line }
{
    Some(Warning::Shared(line?))
}

/// Returns where the node listens, and the number of the line that says so.
fn listen_in(all: &[Place]) -> Option<(usize, SocketAddr)>
    ensures { result ≡ listen_in all.now }
{
    for place in all {
        if let Place::Listen(line, address) = place {
            return Some((*line, *address));
        }
    }
    None
}

/// Returns where the node takes requests, and the number of the line that says so.
fn admin_in(all: &[Place]) -> Option<(usize, SocketAddr)>
    ensures { result ≡ admin_in all.now }
{
    for place in all {
        if let Place::Admin(line, address) = place {
            return Some((*line, *address));
        }
    }
    None
}

/// Returns the number of the first line before this one that has a peer at the address.
fn peer_at(number: usize, address: &SocketAddr, all: &[Place]) -> Option<usize>
    ensures { result ≡ peer_at number address.now all.now }
{
    for place in all {
        if let Place::Peer(line, other) = place
            && *line < number
            && is_same(address, other)
        {
            return Some(*line);
        }
    }
    None
}

/// Returns whether both are one address with one port.
fn is_same(one: &SocketAddr, other: &SocketAddr) -> bool
    ensures { result ≡ is_same one.now other.now }
{
    has_same_port(one, other) && bits_of(one) == bits_of(other)
}

/// Returns whether only one of the two can be listened at.
fn overlaps(one: &SocketAddr, other: &SocketAddr) -> bool
    ensures { result ≡ overlaps one.now other.now }
{
    has_same_port(one, other)
        && (bits_of(one) == bits_of(other) || is_every(bits_of(one)) || is_every(bits_of(other)))
}

/// Returns whether a connection to `one` reaches what listens at `other`.
fn reaches(one: &SocketAddr, other: &SocketAddr) -> bool
    ensures { result ≡ reaches one.now other.now }
{
    let (bits, others) = (bits_of(one), bits_of(other));
    has_same_port(one, other)
        && (bits == others
            || (is_here(bits) && is_every(others))
            || (is_every(bits) && is_here(others)))
}

/// Returns whether both have one port.
fn has_same_port(one: &SocketAddr, other: &SocketAddr) -> bool
    ensures { result ≡ has_same_port one.now other.now }
{
    one.port() == other.port()
}

/// Returns the bits of an address.
fn bits_of(address: &SocketAddr) -> u128
    ensures { result ≡ bits_of address.now }
{
    address_bits(&address.ip())
}

/// Returns whether these are the bits of 0.0.0.0 or of `::`.
fn is_every(bits: u128) -> bool
    ensures { result ≡ is_every bits }
{
    bits == 0 || bits == MAPPED
}

/// Returns whether these are the bits of an address of the host itself: 0.0.0.0, `::`, one of 127.0.0.0/8, or `::1`.
fn is_here(bits: u128) -> bool
    ensures { result ≡ is_here bits }
{
    is_every(bits) || bits == 1 || bits >> 24 == LOOPBACK
}
