//! Whether the slots suffice for all kept links.

ghost use Rattle.std.specs.Prelude.{◌≡◌, ℕ, ◌+◌, ◌-◌, ◌<◌, ◌≤◌, ◌↔◌, ◌==◌, IsTrue, length, slice_index, if◌then◌else◌};
ghost use Rattle.known_state.specs.Plans.{kept_over, kept_from, kept_to};
ghost use Rattle.price_checker.specs.Links.{AreWithin};

use crate::links::{MOST_REQUESTS, RequestLink};

/// A number for each place.
type Counts = [u16; MOST_REQUESTS + 1];

/// Adds one at a place.
fn count(counts: &mut Counts, place: u16)
    requires place { place ≤ 4096 }
    requires small { (other : ℕ) → slice_index counts.old other ≤ 4096 }
    ensures counted { (other : ℕ) → slice_index counts.new other ≡ slice_index counts.old other + (if place == other then 1 else 0) }
{
    counts[usize::from(place)] += 1;
}

/// Returns for each place how many kept links begin at it, and how many end at it. There are at most 4,096 links, each
/// to a place up to 4,096.
fn kept_ends(links: &[RequestLink]) -> (Counts, Counts)
    requires most { length links.now ≤ 4096 }
    requires within { AreWithin 4096 links.now }
    ensures begin { (place : ℕ) → slice_index result.0 place ≡ kept_from links.now place }
    ensures end { (place : ℕ) → slice_index result.1 place ≡ kept_to links.now place }
{
    let (mut begin, mut end) = ([0; MOST_REQUESTS + 1], [0; MOST_REQUESTS + 1]);
    for link in links {
        if link.kept {
            count(&mut begin, link.from);
            count(&mut end, link.to);
        }
    }
    (begin, end)
}

/// Returns whether no place is inside more kept links than there are slots less one. There are at most 4,096 links, each
/// to a place up to 4,096. Goes through the links once, and then through the places.
pub fn have_room(slots: usize, links: &[RequestLink]) -> bool
    requires slots { 1 ≤ slots }
    requires most { length links.now ≤ 4096 }
    requires within { AreWithin 4096 links.now }
    ensures { IsTrue result ↔ ((place : ℕ) → kept_over links.now place ≤ slots - 1) }
{
    let (begin, end) = kept_ends(links);
    let mut over = 0_u16;
    for place in 1..MOST_REQUESTS {
        over = over + begin[place - 1] - end[place];
        if usize::from(over) >= slots {
            return false;
        }
    }
    true
}
