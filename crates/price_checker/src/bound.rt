//! The most that links can save.

ghost use Rattle.std.specs.Prelude.{◌≡◌, ◌<◌, ◌≤◌, ◌^◌, length};
ghost use Rattle.std.specs.List.{AllByRecursion};
ghost use Rattle.table_types.specs.SlotIds.{slot_count};
ghost use Rattle.known_state.specs.Plans.{sum_of, kept_savings, bound};
ghost use Rattle.price_checker.specs.Links.{AreWithin};
ghost use Rattle.price_checker.specs.Sums.{AreSums};

use crate::links::{MOST_REQUESTS, RequestLink};

/// Returns the sums of the first `prices`, at each index of as many.
fn sums_of(prices: &[u64]) -> [u64; MOST_REQUESTS + 1]
    requires most { length prices.now ≤ 4096 }
    requires small { sum_of prices.now < 2 ^ 64 }
    ensures { AreSums prices.now result }
{
    let mut sums = [0; MOST_REQUESTS + 1];
    for (index, price) in prices.iter().enumerate() {
        sums[index + 1] = sums[index] + *price;
    }
    sums
}

/// Returns the most that the links can save with `slots` slots, 1 to 128, as `prices` prove: at most 4,096 prices, each
/// at most 2^32.
pub fn bound(slots: usize, links: &[RequestLink], prices: &[u64]) -> u64
    requires slots { (1 ≤ slots) × (slots ≤ slot_count) }
    requires prices { (length prices.now ≤ 4096) × AllByRecursion (λ price. price ≤ 2 ^ 32) prices.now }
    requires links { (length links.now ≤ 4096) × AreWithin (length prices.now) links.now }
    ensures { result ≡ bound slots links.now prices.now }
{
    let sums = sums_of(prices);
    let mut above = 0;
    for link in links {
        let inside = sums[usize::from(link.to) - 1] - sums[usize::from(link.from)];
        above += u64::from(link.saving).saturating_sub(inside);
    }
    (slots as u64 - 1) * sums[prices.len()] + above
}

/// Returns what the kept links save. There are at most 4,096 links.
pub fn kept_savings(links: &[RequestLink]) -> u64
    requires { length links.now ≤ 4096 }
    ensures { result ≡ kept_savings links.now }
{
    let mut saved = 0;
    for link in links {
        if link.kept {
            saved += u64::from(link.saving);
        }
    }
    saved
}
