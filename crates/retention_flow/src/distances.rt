//! Heights raised by distances, so that a search reaches its target without raising any.
//!
//! Each height rises by as much as its node is nearer to the source than the target is, if the length of a residual arc
//! is its slack. The distances come from a heap (Dijkstra), and nothing is proved of them: the heights are used only if
//! a test finds them calm.

ghost use Rattle.std.specs.Prelude.{◌≡◌, ◌+◌, ◌≤◌, ◌<◌, ◌↔◌, IsTrue, false, length, slice_index, IfOk, IfSome};
ghost use Rattle.retention_flow.specs.Network.{is_reached, AreSmall, IsCalmRise, IsCalm, IsNetwork};

use crate::arcs::RequestArc;
use crate::leaving::{over_arc, over_place};
use crate::network::Network;
use crate::steps::{Ends, Leaving, ResidualArc, Step};
use std::alloc::Global;
use std::cmp::Reverse;
use std::collections::BinaryHeap;
use table_types::Memory;

/// The distances from the source found so far.
#[derive(Drop)]
struct Distances {
    /// For each node, the least of them.
    least: Vec<u64>,
    /// All of them with their nodes, the least first.
    heap: BinaryHeap<Reverse<(u64, usize)>>,
}

/// Returns distances of `nodes` nodes: 0 for the source, and none found for the others.
fn first_distances(alloc: Global, nodes: usize, source: usize) -> Result<Distances, Memory>
    requires { source < nodes }
    ensures { IfOk result (λ found. length found.least.items ≡ nodes) }
{
    let mut least = vec![in alloc; u64::MAX; nodes]?;
    least[source] = 0;
    let mut heap = BinaryHeap::new(alloc);
    heap.push(Reverse((0, source)))?;
    Ok(Distances { least, heap })
}

/// Notes the distance of the node of `leaving` over its arc, if its tail is at `distance`. It is of no use unless it is
/// less than that noted before, and than that of the target.
fn note(
    leaving: Option<Leaving>,
    distance: u64,
    target: usize,
    found: &mut Distances,
) -> Result<(), Memory>
    requires node { IfSome leaving (λ arc. arc.node < length found.old.least.items) }
    requires target { target < length found.old.least.items }
    ensures { IfOk result (λ done. length found.new.least.items ≡ length found.old.least.items) }
{
    let Some(leaving) = leaving else {
        return Ok(());
    };
    let distance = distance.saturating_add(leaving.slack);
    if distance < found.least[leaving.node].min(found.least[target]) {
        found.least[leaving.node] = distance;
        found.heap.push(Reverse((distance, leaving.node)))?;
    }
    Ok(())
}

/// Returns the residual arc over the place before `node`, if there is one and it leaves the nodes reached.
fn over_place_before(
    network: &Network<'_>,
    heights: &[u64],
    steps: &[Option<Step>],
    node: usize,
) -> Option<Leaving>
    requires network { IsNetwork network.now }
    requires calm { IsCalm heights.now network.now.room.now network.now.arcs.now }
    requires steps { length steps.now ≡ length network.now.arcs.now + 1 }
    requires node { node ≤ length network.now.arcs.now }
    ensures { IfSome result (λ arc. arc.node < length steps.now) }
{
    if node == 0 {
        return None;
    }
    over_place(heights, network.room, steps, node - 1)
}

/// Notes the distances of the nodes to which the arcs that begin at `node` lead, if that is the first node.
fn note_from_first(
    network: &Network<'_>,
    heights: &[u64],
    steps: &[Option<Step>],
    target: usize,
    node: usize,
    found: &mut Distances,
) -> Result<(), Memory>
    requires network { IsNetwork network.now }
    requires calm { IsCalm heights.now network.now.room.now network.now.arcs.now }
    requires small { AreSmall heights.now }
    requires node { node < length network.now.arcs.now }
    requires target { target ≤ length network.now.arcs.now }
    requires long { (length steps.now ≡ length network.now.arcs.now + 1) × (length found.old.least.items ≡ length network.now.arcs.now + 1) }
    ensures { IfOk result (λ done. length found.new.least.items ≡ length found.old.least.items) }
{
    if node > 0 {
        return Ok(());
    }
    let distance = found.least[node];
    for place in 0..network.first.len() {
        let leaving = over_arc(heights, network.arcs, steps, network.first[place]);
        note(leaving, distance, target, found)?;
    }
    Ok(())
}

/// Notes the distances of the nodes next to `node`, which is at its least distance.
fn note_from(
    network: &Network<'_>,
    heights: &[u64],
    steps: &[Option<Step>],
    target: usize,
    node: usize,
    found: &mut Distances,
) -> Result<(), Memory>
    requires network { IsNetwork network.now }
    requires calm { IsCalm heights.now network.now.room.now network.now.arcs.now }
    requires small { AreSmall heights.now }
    requires node { node ≤ length network.now.arcs.now }
    requires target { target ≤ length network.now.arcs.now }
    requires long { (length steps.now ≡ length network.now.arcs.now + 1) × (length found.old.least.items ≡ length network.now.arcs.now + 1) }
    ensures { IfOk result (λ done. length found.new.least.items ≡ length found.old.least.items) }
{
    let distance = found.least[node];
    let before = over_place_before(network, heights, steps, node);
    note(before, distance, target, found)?;
    if node == network.arcs.len() {
        return Ok(());
    }
    note_from_first(network, heights, steps, target, node, found)?;
    let over = over_arc(heights, network.arcs, steps, node);
    note(over, distance, target, found)?;
    let on = over_arc(heights, network.arcs, steps, network.later[node]);
    note(on, distance, target, found)?;
    let after = over_place(heights, network.room, steps, node);
    note(after, distance, target, found)?;
    Ok(())
}

/// Takes distances from the heap until one is that of a node that isn't reached, and returns the node.
fn nearest(steps: &[Option<Step>], heap: &mut BinaryHeap<Reverse<(u64, usize)>>) -> Option<usize>
    ensures { IfSome result (λ node. (node < length steps.now) × (is_reached steps.now node ≡ false)) }
{
    while let Some(Reverse((_, node))) = heap.pop() {
        if node < steps.len() && steps[node].is_none() {
            return Some(node);
        }
    }
    None
}

/// Returns what the heap found as distances from the source, one for each node. Only their number is proved.
fn find_distances(
    alloc: Global,
    ends: Ends,
    network: &Network<'_>,
    heights: &[u64],
) -> Result<Vec<u64>, Memory>
    requires network { IsNetwork network.now }
    requires calm { IsCalm heights.now network.now.room.now network.now.arcs.now }
    requires small { AreSmall heights.now }
    requires ends { (ends.source ≤ length network.now.arcs.now) × (ends.target ≤ length network.now.arcs.now) }
    ensures { IfOk result (λ distances. length distances.items ≡ length network.now.arcs.now + 1) }
{
    let mut found = first_distances(alloc, heights.len(), ends.source)?;
    let mut steps = vec![in alloc; None; heights.len()]?;
    while let Some(node) = nearest(&steps, &mut found.heap) {
        if node == ends.target {
            return Ok(found.least);
        }
        steps[node] = Some(Step {
            rank: 0,
            arc: ResidualArc::Start,
        });
        note_from(network, heights, &steps, ends.target, node, &mut found)?;
    }
    Ok(found.least)
}

/// Returns whether no change to whether `arc` is kept gains anything, if the heights of its ends are these.
fn is_calm_rise(arc: RequestArc, low: u64, high: u64) -> bool
    ensures { IsTrue result ↔ IsCalmRise arc.kept arc.saving low high }
{
    if arc.kept {
        return high.saturating_sub(low) <= arc.saving;
    }
    low <= high && arc.saving <= high - low
}

/// Returns whether the heights rise over the place after `node`, and only if no slot is free there.
fn is_calm_place(heights: &[u64], room: &[usize], node: usize) -> bool
    requires heights { node + 1 < length heights.now }
    requires room { node < length room.now }
    ensures rises { IsTrue result → slice_index heights.now node ≤ slice_index heights.now (node + 1) }
    ensures full { IsTrue result → 0 < slice_index room.now node → slice_index heights.now (node + 1) ≤ slice_index heights.now node }
{
    if room[node] > 0 {
        return heights[node] == heights[node + 1];
    }
    heights[node] <= heights[node + 1]
}

/// Returns whether the heights are calm.
fn is_calm(network: &Network<'_>, heights: &[u64]) -> bool
    requires network { IsNetwork network.now }
    requires long { length heights.now ≡ length network.now.arcs.now + 1 }
    ensures { IsTrue result → IsCalm heights.now network.now.room.now network.now.arcs.now }
{
    for (node, arc) in network.arcs.iter().enumerate() {
        if !is_calm_place(heights, network.room, node) {
            return false;
        }
        if !is_calm_rise(*arc, heights[arc.from], heights[node]) {
            return false;
        }
    }
    true
}

/// Returns the heights, each raised by as much as its node is nearer to the source than the target is.
fn nearer_raised(
    alloc: Global,
    target: usize,
    heights: &[u64],
    distances: &[u64],
) -> Result<Vec<u64>, Memory>
    requires long { length distances.now ≡ length heights.now }
    requires target { target < length heights.now }
    ensures { IfOk result (λ raised. length raised.items ≡ length heights.now) }
{
    let farthest = distances[target];
    let mut raised = Vec::new(alloc);
    for (node, height) in heights.iter().enumerate() {
        raised.push(height.saturating_add(farthest.saturating_sub(distances[node])))?;
    }
    Ok(raised)
}

/// Raises each height by as much as its node is nearer to the source than the target is, so that a search reaches the target
/// without raising any, unless a test finds that the raised heights aren't calm.
pub fn raise_by_distances(
    alloc: Global,
    ends: Ends,
    network: &Network<'_>,
    heights: &mut [u64],
) -> Result<(), Memory>
    requires network { IsNetwork network.now }
    requires calm { IsCalm heights.old network.now.room.now network.now.arcs.now }
    requires small { AreSmall heights.old }
    requires ends { (ends.source ≤ length network.now.arcs.now) × (ends.target ≤ length network.now.arcs.now) }
    ensures calm { IfOk result (λ done. IsCalm heights.new network.now.room.now network.now.arcs.now) }
    ensures target { IfOk result (λ done. slice_index heights.new ends.target ≡ slice_index heights.old ends.target) }
{
    let distances = find_distances(alloc, ends, network, heights)?;
    let raised = nearer_raised(alloc, ends.target, heights, &distances)?;
    if raised[ends.target] == heights[ends.target] && is_calm(network, &raised) {
        heights.copy_from_slice(&raised);
    }
    Ok(())
}
