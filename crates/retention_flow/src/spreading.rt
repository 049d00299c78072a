//! Reaching nodes over arcs of slack 0.

ghost use Rattle.std.specs.Prelude.{◌≡◌, ℕ, ◌+◌, ◌≤◌, ◌<◌, List, [], ◌∷◌, ◌++◌, Some, slice_set, length, slice_index, IfOk, IfSome};
ghost use Rattle.retention_flow.specs.declared.arcs.RequestArc.{RequestArc};
ghost use Rattle.retention_flow.specs.Network.{AreSmall, GoBack, IsCalm, IsNetwork, Leaves, IsSpread};

use crate::arcs::RequestArc;
use crate::leaving::{over_arc, over_place};
use crate::network::Network;
use crate::steps::{Ends, Leaving, Step};
use std::alloc::Global;
use table_types::Memory;

/// Returns for each node but the last where the arc of a request that begins there ends: at the node before that
/// request. For a node where no arc begins, the entry is an arbitrary node, since callers look at the arc of the
/// request after it.
pub fn later_ends(alloc: Global, arcs: &[RequestArc]) -> Result<Vec<usize>, Memory>
    requires back { GoBack arcs.now }
    ensures long { IfOk result (λ later. length later.items ≡ length arcs.now) }
    ensures within { IfOk result (λ later. (node : ℕ) → node < length arcs.now → slice_index later.items node < length arcs.now) }
{
    let mut later = vec![in alloc; 0; arcs.len()]?;
    for (node, arc) in arcs.iter().enumerate() {
        later[arc.from] = node;
    }
    Ok(later)
}

/// Returns the indices of the arcs that begin at the first node, in order: one for each name held at the start, and that of the
/// first request.
pub fn first_arcs(alloc: Global, arcs: &[RequestArc]) -> Result<Vec<usize>, Memory>
    ensures { IfOk result (λ first. (place : ℕ) → place < length first.items → slice_index first.items place < length arcs.now) }
{
    let mut first = Vec::new(alloc);
    for (index, arc) in arcs.iter().enumerate() {
        if arc.from == 0 {
            first.push(index)?;
        }
    }
    Ok(first)
}

/// Reaches the node of `leaving` over its arc.
pub fn reach(
    leaving: Leaving,
    steps: &mut [Option<Step>],
    order: &mut Vec<usize>,
) -> Result<(), Memory>
    requires { leaving.node < length steps.old }
    ensures steps { IfOk result (λ done. steps.new ≡ slice_set steps.old leaving.node (Some (record { rank = length order.old.items; arc = leaving.arc }))) }
    ensures order { IfOk result (λ done. order.new.items ≡ order.old.items ++ leaving.node ∷ []) }
{
    let rank = order.len();
    order.push(leaving.node)?;
    steps[leaving.node] = Some(Step {
        rank,
        arc: leaving.arc,
    });
    Ok(())
}

/// Reaches the node of `leaving` over its arc, if there is one and its slack is 0.
fn reach_freely(
    leaving: Option<Leaving>,
    steps: &mut [Option<Step>],
    order: &mut Vec<usize>,
) -> Result<(), Memory>
    requires { IfSome leaving (λ arc. arc.node < length steps.old) }
    ensures grows { IfOk result (λ done. length order.old.items ≤ length order.new.items) }
    ensures spread { IfOk result (λ done. (heights room : List ℕ) → (arcs : List RequestArc) → (source : ℕ) → GoBack arcs → length heights ≡ length arcs + 1 →
        IfSome leaving (Leaves heights room arcs steps.old) → IsSpread heights room arcs steps.old source order.old.items → IsSpread heights room arcs steps.new source order.new.items) }
{
    let Some(leaving) = leaving else {
        return Ok(());
    };
    if leaving.slack > 0 {
        return Ok(());
    }
    reach(leaving, steps, order)?;
    Ok(())
}

/// Reaches a node over the place after `node`, if the slack is 0.
fn reach_over_place(
    network: &Network<'_>,
    heights: &[u64],
    node: usize,
    steps: &mut [Option<Step>],
    order: &mut Vec<usize>,
) -> Result<(), Memory>
    requires network { IsNetwork network.now }
    requires calm { IsCalm heights.now network.now.room.now network.now.arcs.now }
    requires node { node < length network.now.arcs.now }
    requires long { length steps.old ≡ length network.now.arcs.now + 1 }
    ensures grows { IfOk result (λ done. length order.old.items ≤ length order.new.items) }
    ensures spread { IfOk result (λ done. (source : ℕ) → IsSpread heights.now network.now.room.now network.now.arcs.now steps.old source order.old.items → IsSpread heights.now network.now.room.now network.now.arcs.now steps.new source order.new.items) }
{
    let leaving = over_place(heights, network.room, steps, node);
    reach_freely(leaving, steps, order)?;
    Ok(())
}

/// Reaches the node before `node`, if there is one and the slack is 0.
fn reach_before(
    network: &Network<'_>,
    heights: &[u64],
    node: usize,
    steps: &mut [Option<Step>],
    order: &mut Vec<usize>,
) -> Result<(), Memory>
    requires network { IsNetwork network.now }
    requires calm { IsCalm heights.now network.now.room.now network.now.arcs.now }
    requires node { node ≤ length network.now.arcs.now }
    requires long { length steps.old ≡ length network.now.arcs.now + 1 }
    ensures grows { IfOk result (λ done. length order.old.items ≤ length order.new.items) }
    ensures spread { IfOk result (λ done. (source : ℕ) → IsSpread heights.now network.now.room.now network.now.arcs.now steps.old source order.old.items → IsSpread heights.now network.now.room.now network.now.arcs.now steps.new source order.new.items) }
{
    if node == 0 {
        return Ok(());
    }
    reach_over_place(network, heights, node - 1, steps, order)?;
    Ok(())
}

/// Reaches a node over the arc of the request after `node`, if the slack is 0.
fn reach_over_arc(
    network: &Network<'_>,
    heights: &[u64],
    node: usize,
    steps: &mut [Option<Step>],
    order: &mut Vec<usize>,
) -> Result<(), Memory>
    requires network { IsNetwork network.now }
    requires calm { IsCalm heights.now network.now.room.now network.now.arcs.now }
    requires small { AreSmall heights.now }
    requires node { node < length network.now.arcs.now }
    requires long { length steps.old ≡ length network.now.arcs.now + 1 }
    ensures grows { IfOk result (λ done. length order.old.items ≤ length order.new.items) }
    ensures spread { IfOk result (λ done. (source : ℕ) → IsSpread heights.now network.now.room.now network.now.arcs.now steps.old source order.old.items → IsSpread heights.now network.now.room.now network.now.arcs.now steps.new source order.new.items) }
{
    let leaving = over_arc(heights, network.arcs, steps, node);
    reach_freely(leaving, steps, order)?;
    Ok(())
}

/// Reaches nodes over the arcs that begin at `node`, if that is the first node and the slack is 0. There one arc begins for each
/// name held at the start, at any other node at most one.
fn reach_from_first(
    network: &Network<'_>,
    heights: &[u64],
    node: usize,
    steps: &mut [Option<Step>],
    order: &mut Vec<usize>,
) -> Result<(), Memory>
    requires network { IsNetwork network.now }
    requires calm { IsCalm heights.now network.now.room.now network.now.arcs.now }
    requires small { AreSmall heights.now }
    requires node { node < length network.now.arcs.now }
    requires long { length steps.old ≡ length network.now.arcs.now + 1 }
    ensures grows { IfOk result (λ done. length order.old.items ≤ length order.new.items) }
    ensures spread { IfOk result (λ done. (source : ℕ) → IsSpread heights.now network.now.room.now network.now.arcs.now steps.old source order.old.items → IsSpread heights.now network.now.room.now network.now.arcs.now steps.new source order.new.items) }
{
    if node > 0 {
        return Ok(());
    }
    for place in 0..network.first.len() {
        reach_over_arc(network, heights, network.first[place], steps, order)?;
    }
    Ok(())
}

/// Reaches the nodes next to `node` over arcs of slack 0, earlier nodes first.
fn spread_from(
    network: &Network<'_>,
    heights: &[u64],
    node: usize,
    steps: &mut [Option<Step>],
    order: &mut Vec<usize>,
) -> Result<(), Memory>
    requires network { IsNetwork network.now }
    requires calm { IsCalm heights.now network.now.room.now network.now.arcs.now }
    requires small { AreSmall heights.now }
    requires node { node ≤ length network.now.arcs.now }
    requires long { length steps.old ≡ length network.now.arcs.now + 1 }
    ensures grows { IfOk result (λ done. length order.old.items ≤ length order.new.items) }
    ensures spread { IfOk result (λ done. (source : ℕ) → IsSpread heights.now network.now.room.now network.now.arcs.now steps.old source order.old.items → IsSpread heights.now network.now.room.now network.now.arcs.now steps.new source order.new.items) }
{
    reach_before(network, heights, node, steps, order)?;
    if node == network.arcs.len() {
        return Ok(());
    }
    reach_from_first(network, heights, node, steps, order)?;
    reach_over_arc(network, heights, node, steps, order)?;
    reach_over_arc(network, heights, network.later[node], steps, order)?;
    reach_over_place(network, heights, node, steps, order)?;
    Ok(())
}

/// Reaches nodes over arcs of slack 0 until the target is reached or no such arc is left.
pub fn spread(
    ends: Ends,
    network: &Network<'_>,
    heights: &[u64],
    steps: &mut [Option<Step>],
    order: &mut Vec<usize>,
) -> Result<(), Memory>
    requires network { IsNetwork network.now }
    requires calm { IsCalm heights.now network.now.room.now network.now.arcs.now }
    requires small { AreSmall heights.now }
    requires target { ends.target ≤ length network.now.arcs.now }
    requires spread { IsSpread heights.now network.now.room.now network.now.arcs.now steps.old ends.source order.old.items }
    ensures grows { IfOk result (λ done. length order.old.items ≤ length order.new.items) }
    ensures spread { IfOk result (λ done. IsSpread heights.now network.now.room.now network.now.arcs.now steps.new ends.source order.new.items) }
{
    let mut index = 0;
    while index < order.len() {
        if steps[ends.target].is_some() {
            return Ok(());
        }
        let node = order[index];
        spread_from(network, heights, node, steps, order)?;
        index += 1;
    }
    Ok(())
}
