//! The free slots at each place.

ghost use Rattle.std.specs.Prelude.{◌≡◌, ℕ, ◌+◌, ◌-◌, ◌≤◌, ◌<◌, IfOk, length, slice_index};
ghost use Rattle.table_types.specs.SlotIds.{slot_count};
ghost use Rattle.known_state.specs.Plans.{kept_from, kept_over};
ghost use Rattle.retention_flow.specs.Network.{links_of, GoBack, IsRoom};

use crate::arcs::RequestArc;
use std::alloc::Global;
use table_types::Memory;

/// Returns how many kept arcs begin at each node, from the first node on.
fn kept_from(alloc: Global, arcs: &[RequestArc]) -> Result<Vec<usize>, Memory>
    requires most { length arcs.now ≤ 4096 }
    requires back { GoBack arcs.now }
    ensures { IfOk result (λ begun. (length begun.items ≡ length arcs.now) × ((node : ℕ) → slice_index begun.items node ≡ kept_from (links_of 0 arcs.now) node)) }
{
    let mut begun = vec![in alloc; 0; arcs.len()]?;
    for arc in arcs {
        if arc.kept {
            begun[arc.from] += 1;
        }
    }
    Ok(begun)
}

/// Adds up along the places: turns how many kept arcs begin at each node into how many pass the place after it. The arc
/// of the request at a place doesn't pass that place.
fn add_up(arcs: &[RequestArc], counts: &mut [usize])
    requires most { length arcs.now ≤ 4096 }
    requires back { GoBack arcs.now }
    requires long { length counts.old ≡ length arcs.now }
    requires begun { (node : ℕ) → slice_index counts.old node ≡ kept_from (links_of 0 arcs.now) node }
    ensures long { length counts.new ≡ length arcs.now }
    ensures passed { (node : ℕ) → slice_index counts.new node ≡ kept_over (links_of 0 arcs.now) (node + 1) }
{
    let mut passing = 0;
    for (node, arc) in arcs.iter().enumerate() {
        passing += counts[node];
        if arc.kept {
            passing -= 1;
        }
        counts[node] = passing;
    }
}

/// Returns how many kept arcs pass each place, from place 1 on.
fn kept_over(alloc: Global, arcs: &[RequestArc]) -> Result<Vec<usize>, Memory>
    requires most { length arcs.now ≤ 4096 }
    requires back { GoBack arcs.now }
    ensures { IfOk result (λ over. (length over.items ≡ length arcs.now) × ((place : ℕ) → slice_index over.items place ≡ kept_over (links_of 0 arcs.now) (place + 1))) }
{
    let mut counts = kept_from(alloc, arcs)?;
    add_up(arcs, &mut counts);
    Ok(counts)
}

/// Returns the greatest of `counts` and `least`.
fn greatest(least: usize, counts: &[usize]) -> usize
    requires { (least ≤ 4096) × ((index : ℕ) → slice_index counts.now index ≤ 4096) }
    ensures range { (least ≤ result) × (result ≤ 4096) }
    ensures most { (index : ℕ) → index < length counts.now → slice_index counts.now index ≤ result }
{
    let mut most = least;
    for count in counts {
        most = most.max(*count);
    }
    most
}

/// Replaces each count by `most` less the count.
fn take_from(most: usize, counts: &mut [usize])
    requires { (index : ℕ) → index < length counts.old → slice_index counts.old index ≤ most }
    ensures long { length counts.new ≡ length counts.old }
    ensures each { (index : ℕ) → index < length counts.old → slice_index counts.new index + slice_index counts.old index ≡ most }
{
    for index in 0..counts.len() {
        counts[index] = most - counts[index];
    }
}

/// Returns the free slots at each place, from place 1 on, out of as many as the number beside them: the most kept arcs
/// over any place, or `slots - 1` if that is more.
pub fn find_room(
    alloc: Global,
    slots: usize,
    arcs: &[RequestArc],
) -> Result<(Vec<usize>, usize), Memory>
    requires slots { (1 ≤ slots) × (slots ≤ slot_count) }
    requires most { length arcs.now ≤ 4096 }
    requires back { GoBack arcs.now }
    ensures { IfOk result (λ found. IsRoom found.1 found.0.items arcs.now × (slots - 1 ≤ found.1) × (found.1 ≤ 4096)) }
{
    let mut room = kept_over(alloc, arcs)?;
    let most_over = greatest(slots - 1, &room);
    take_from(most_over, &mut room);
    Ok((room, most_over))
}
