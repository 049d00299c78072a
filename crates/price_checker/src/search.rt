//! Finding the links of requests.

ghost use Rattle.std.specs.Prelude.{◌≡◌, ◌+◌, ◌≤◌, ◌<◌, ◌↔◌, IsTrue, ◌||◌, not, is_some, length, option_to_list};
ghost use Rattle.known_state.specs.Plans.{at_start, links, link_of, AreLinked};
ghost use Rattle.price_checker.specs.NamesHeld.{AreFew, names_held};

use crate::last_places::LastPlaces;
use crate::links::{Links, RequestLink};
use crate::names_held::Held;
use known_state::Request;

/// Returns the link of the request at the place `to`, if its name was requested or held at a place `from`.
fn link_of(from: Option<u16>, to: u16, request: &Request, kept: bool) -> Option<RequestLink>
    ensures { option_to_list result ≡ link_of from to request.now kept }
{
    let from = from?;
    Some(RequestLink {
        from,
        to,
        saving: request.write_cost() - request.read_cost(),
        kept,
    })
}

/// Returns whether a request has a link or isn't kept.
fn is_linked(from: Option<u16>, kept: bool) -> bool
    ensures { result ≡ (is_some from || not kept) }
{
    from.is_some() || !kept
}

/// Returns the links of `requests` if the names in `held` are held at the start, each with the mark of its request, and
/// whether each kept request has a link.
pub fn find_links<'a>(held: Held<'a>, requests: &'a [Request], keep: &[bool]) -> (Links, bool)
    requires held { AreFew held }
    requires most { length requests.now ≤ 4096 }
    requires marks { length keep.now ≡ length requests.now }
    ensures links { result.0 ≡ links (names_held held.entry) requests.now keep.now }
    ensures linked { IsTrue result.1 ↔ AreLinked (at_start (names_held held.entry)) requests.now keep.now }
{
    let mut links = Links::new();
    let mut last_places = LastPlaces::at_start(held);
    let mut linked = true;
    for (index, request) in requests.iter().enumerate() {
        let (name, to) = (request.name(), index as u16 + 1);
        let from = last_places.insert(name.as_slice(), to);
        linked &= is_linked(from, keep[index]);
        if let Some(link) = link_of(from, to, request, keep[index]) {
            links.push(link);
        }
    }
    (links, linked)
}
