//! The check of a plan.

ghost use Rattle.std.specs.Prelude.{◌≤◌, ◌^◌, ◌↔◌, IsTrue, length};
ghost use Rattle.std.specs.List.{AllByRecursion};
ghost use Rattle.table_types.specs.SlotIds.{slot_count};
ghost use Rattle.known_state.specs.Plans.{Accepts};

use crate::bound::{bound, kept_savings};
use crate::names_held::Held;
use crate::room::have_room;
use crate::search::find_links;
use known_state::{Plan, Request};
use table_types::Name;

/// The greatest price.
pub const MOST_PRICE: u64 = 1 << 32;

/// Returns whether no price is above 2^32.
pub fn are_prices(prices: &[u64]) -> bool
    ensures { IsTrue result ↔ AllByRecursion (λ price. price ≤ 2 ^ 32) prices.now }
{
    prices.iter().all(|price| *price <= MOST_PRICE)
}

/// Returns whether the plan is accepted for `requests`, with `slots` slots, if the names in `held` are held at the
/// start. It is accepted if it has one mark and one price for each request, no price is above 2^32, each kept request
/// has a link, no place is inside more kept links than there are slots less one, and the kept links together save the
/// most that links can save at these prices. Then no other choice of requests to read saves more. Doesn't allocate.
///
/// There are 1 to 128 slots, at most as many held names, and at most 4,096 requests.
pub fn check_plan(slots: usize, held: &[Name], requests: &[Request], plan: &Plan) -> bool
    requires slots { (1 ≤ slots) × (slots ≤ slot_count) }
    requires held { length held.now ≤ slots }
    requires requests { length requests.now ≤ 4096 }
    ensures { IsTrue result ↔ Accepts slots held.now requests.now plan.now }
{
    let (keep, prices) = (plan.keep(), plan.prices());
    if keep.len() != requests.len() || prices.len() != requests.len() || !are_prices(prices) {
        return false;
    }
    let (found, linked) = find_links(Held::Names(held), requests, keep);
    let links = found.as_slice();
    if !linked || !have_room(slots, links) {
        return false;
    }
    kept_savings(links) == bound(slots, links, prices)
}
