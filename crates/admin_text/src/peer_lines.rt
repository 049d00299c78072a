//! The line of a peer.
ghost use Rattle.std.specs.Prelude.{◌≡◌, ◌≤◌, map, option_copied, option_map};
ghost use Rattle.admin_text.specs.Outcomes.{Gives};
ghost use Rattle.admin_text.specs.PeerLines.{AreNetworks, IsAddressIf, IsPeerLine, IsPeerNamed, IsPeerOf, address_part, first_network, is_from, networks_part, peer_name, peers_fault, source_part, taken_name};
ghost use Rattle.admin_text.specs.Statements.{said_by};

use crate::addresses::address_of;
use crate::before::{count_of, line_with};
use crate::faults::Fault;
use crate::line_kinds::LineKind;
use crate::line_refusals::LineRefusal;
use crate::names::read_name;
use crate::networks::{Network, network_of};
use crate::peers::Peer;
use crate::settings::Setting;
use crate::statements::Statement;
use std::alloc::Global;
use std::net::SocketAddr;
use table_types::{Items, Name};

/// The most peers of a node.
const MOST_PEERS: usize = 15;

/// Reads a peer, from the words behind `peer`.
pub(crate) fn read_peer(
    alloc: Global,
    before: &[Statement<'_>],
    words: &[&[u8]],
) -> Result<Setting, LineRefusal>
    ensures { Gives (IsPeerLine (map said_by before.now) (map (λ word. word.now) words.now)) result }
{
    match words {
        [name, words @ ..] => peer_of(alloc, before, name, words),
        [] => Err(LineRefusal::Fault(Fault::Form(LineKind::Peer))),
    }
}

/// Reads a peer, from the word for its name and those behind that.
fn peer_of(
    alloc: Global,
    before: &[Statement<'_>],
    name: &[u8],
    words: &[&[u8]],
) -> Result<Setting, LineRefusal>
    ensures { let behind = map (λ word. word.now) words.now in Gives (IsPeerOf (map said_by before.now) name.now (address_part behind) (networks_part (source_part behind))) result }
{
    match networks_part(source_part(words)) {
        Some(networks) => peer_with(alloc, before, name, address_part(words), networks),
        None => Err(LineRefusal::Fault(Fault::Form(LineKind::Peer))),
    }
}

/// Reads a peer, from the word for its name, the one for its address if there is one, and those for networks.
fn peer_with(
    alloc: Global,
    before: &[Statement<'_>],
    name: &[u8],
    address: Option<&[u8]>,
    networks: &[&[u8]],
) -> Result<Setting, LineRefusal>
    ensures { Gives (IsPeerNamed (option_copied address.entry) (map (λ word. word.now) networks.now) (peer_name (map said_by before.now) name.now)) result }
{
    let name = peer_name(alloc, before, name)?;
    let place = first_network(&address);
    let address = read_address(address)?;
    let networks = read_networks(alloc, place, networks)?;
    Ok(Setting::Peer(Peer {
        name,
        address,
        from: networks.into_vec(),
    }))
}

/// Returns the word that has to be an address, from those behind the name.
pub(crate) fn address_part<'a>(words: &[&'a [u8]]) -> Option<&'a [u8]>
    ensures { option_copied result ≡ address_part (map (λ word. word.now) words.now) }
{
    match words {
        [word, ..] if !is_from(word) => Some(word),
        _ => None,
    }
}

/// Returns the words behind the address, from those behind the name.
pub(crate) fn source_part<'a, 'b>(words: &'b [&'a [u8]]) -> &'b [&'a [u8]]
    ensures { map (λ word. word.now) result.now ≡ source_part (map (λ word. word.now) words.now) }
{
    match words {
        [word, more @ ..] if !is_from(word) => more,
        _ => words,
    }
}

/// Returns the words that have to be networks, from those behind the address: none, or some behind `from`.
pub(crate) fn networks_part<'a, 'b>(words: &'b [&'a [u8]]) -> Option<&'b [&'a [u8]]>
    ensures { option_map (λ networks. map (λ word. word.now) networks.now) result ≡ networks_part (map (λ word. word.now) words.now) }
{
    match words {
        [] => Some(words),
        [_] => None,
        [word, networks @ ..] => if is_from(word) { Some(networks) } else { None },
    }
}

/// Returns whether `word` is `from`.
fn is_from(word: &[u8]) -> bool
    ensures { result ≡ is_from word.now }
{
    word == b"from".as_slice()
}

/// Returns the place of the first word for a network, behind the word for an address if there is one.
fn first_network(address: &Option<&[u8]>) -> usize
    ensures { result ≡ first_network (option_copied address.now) }
{
    match address {
        Some(_) => 4,
        None => 3,
    }
}

/// Reads the name of a peer. Neither the node nor another peer has it.
fn peer_name(alloc: Global, before: &[Statement<'_>], word: &[u8]) -> Result<Name, LineRefusal>
    ensures { Gives (λ outcome. outcome ≡ peer_name (map said_by before.now) word.now) result }
{
    let name = read_name(alloc, 1, word)?;
    match taken_name(before, word).or(peers_fault(before)) {
        Some(fault) => Err(LineRefusal::Fault(fault)),
        None => Ok(name),
    }
}

/// Returns that an earlier line gives the name to the node or to a peer, if one does.
pub(crate) fn taken_name(before: &[Statement<'_>], name: &[u8]) -> Option<Fault>
    ensures { result ≡ taken_name (map said_by before.now) name.now }
{
    let line = line_with(before, LineKind::Node, 1, name);
    let line = line.or(line_with(before, LineKind::Peer, 1, name))?;
    Some(Fault::Taken(line))
}

/// Returns that there are peers enough, if there are.
fn peers_fault(before: &[Statement<'_>]) -> Option<Fault>
    ensures { result ≡ peers_fault (map said_by before.now) }
{
    if count_of(before, LineKind::Peer) >= MOST_PEERS {
        Some(Fault::Peers)
    } else {
        None
    }
}

/// Reads an address if there is a word for one.
fn read_address(word: Option<&[u8]>) -> Result<Option<SocketAddr>, Fault>
    ensures { IsAddressIf (option_copied word.entry) result }
{
    match word {
        Some(word) => match address_of(word) {
            Some(address) => Ok(Some(address)),
            None => Err(Fault::Address(2)),
        },
        None => Ok(None),
    }
}

/// Reads networks, from words of which the first is at `place`.
pub(crate) fn read_networks(
    alloc: Global,
    place: usize,
    words: &[&[u8]],
) -> Result<Items<Network>, LineRefusal>
    requires { place ≤ 4 }
    ensures { Gives (AreNetworks place (map (λ word. word.now) words.now)) result }
{
    let mut networks = Vec::new(alloc);
    for (index, word) in words.iter().enumerate() {
        let Some(network) = network_of(word) else {
            return Err(LineRefusal::Fault(Fault::Network(place + index)));
        };
        networks.push(network)?;
    }
    Ok(Items::new(networks))
}
