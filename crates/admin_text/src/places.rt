//! The addresses of a configuration, each with the line that gives it.
ghost use Rattle.std.specs.Prelude.{◌≡◌, IfOk, drop, map, option_copied};
ghost use Rattle.admin_text.specs.Places.{ArePlaces, IsPlaceOf, address_word, place_at};
ghost use Rattle.admin_text.specs.Statements.{said_by};

use crate::addresses::address_of;
use crate::line_kinds::LineKind;
use crate::peer_lines::address_part;
use crate::statements::Statement;
use std::alloc::Global;
use std::net::SocketAddr;
use table_types::Memory;

/// An address that a line gives, behind the number of the line.
#[derive(Clone, Copy, Debug, PartialEq, Eq)]
pub(crate) enum Place {
    /// Where the node takes connections of peers.
    Listen(usize, SocketAddr),
    /// Where it takes requests.
    Admin(usize, SocketAddr),
    /// Where it answers HTTP and nothing else.
    Metrics(usize, SocketAddr),
    /// Where a peer takes connections.
    Peer(usize, SocketAddr),
}

/// Returns the addresses that the lines give, in order.
pub(crate) fn places_of(alloc: Global, lines: &[Statement<'_>]) -> Result<Vec<Place>, Memory>
    ensures { IfOk result (λ places. ArePlaces (map said_by lines.now) places.items) }
{
    let mut places = Vec::new(alloc);
    for line in lines {
        if let Some(place) = place_of(line) {
            places.push(place)?;
        }
    }
    Ok(places)
}

/// Returns the address that a line gives.
pub(crate) fn place_of(line: &Statement<'_>) -> Option<Place>
    ensures { IsPlaceOf (said_by line.now) result }
{
    let words = line.words.as_slice();
    let kind = LineKind::of(words)?;
    let address = address_of(address_word(kind, words)?)?;
    place_at(kind, line.number, address)
}

/// Returns the address that the line of `kind` with this number gives.
fn place_at(kind: LineKind, number: usize, address: SocketAddr) -> Option<Place>
    ensures { result ≡ place_at kind number address }
{
    match kind {
        LineKind::Listen => Some(Place::Listen(number, address)),
        LineKind::Admin => Some(Place::Admin(number, address)),
        LineKind::Metrics => Some(Place::Metrics(number, address)),
        LineKind::Peer => Some(Place::Peer(number, address)),
        LineKind::Node | LineKind::Socket | LineKind::Section | LineKind::Table => None,
        LineKind::Size | LineKind::Nopurge | LineKind::Log | LineKind::Journal => None,
    }
}

/// Returns the word of a line of `kind` that is an address, if the line may have one.
fn address_word<'a>(kind: LineKind, words: &[&'a [u8]]) -> Option<&'a [u8]>
    ensures { option_copied result ≡ address_word kind (map (λ word. word.now) words.now) }
{
    match kind {
        LineKind::Listen | LineKind::Admin | LineKind::Metrics => words.get(1).copied(),
        LineKind::Peer => address_part(behind_name(words)),
        LineKind::Node | LineKind::Socket | LineKind::Section | LineKind::Table => None,
        LineKind::Size | LineKind::Nopurge | LineKind::Log | LineKind::Journal => None,
    }
}

/// Returns the words behind the first two.
pub(crate) fn behind_name<'a, 'b>(words: &'b [&'a [u8]]) -> &'b [&'a [u8]]
    ensures { result.now ≡ drop 2 words.now }
{
    match words {
        [_, _, behind @ ..] => behind,
        _ => &[],
    }
}
