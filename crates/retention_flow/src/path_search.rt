//! A search for an augmenting path.

ghost use Rattle.std.specs.Prelude.{◌≡◌, ◌≤◌, ◌<◌, true, false, None, Some, length, replicate, slice_index, slice_set, IfOk};
ghost use Rattle.retention_flow.specs.declared.steps.ResidualArc.TheVariants.{Start};
ghost use Rattle.retention_flow.specs.Network.{is_reached, AreLow, IsCalm, IsFound, IsNetwork, IsSpread};

use crate::distances::raise_by_distances;
use crate::leaving::least_leaving;
use crate::network::Network;
use crate::raising::raise;
use crate::spreading::{reach, spread};
use crate::steps::{Ends, ResidualArc, Step};
use std::alloc::Global;
use table_types::Memory;

/// How often a quick search raises heights before it asks the heap.
const FEW_RAISES: usize = 2;

/// Returns the steps by which only the source is reached.
fn first_step(alloc: Global, nodes: usize, source: usize) -> Result<Vec<Option<Step>>, Memory>
    requires { source < nodes }
    ensures { IfOk result (λ steps. steps.items ≡ slice_set (replicate nodes None) source (Some (record { rank = 0; arc = Start }))) }
{
    let mut steps = vec![in alloc; None; nodes]?;
    steps[source] = Some(Step {
        rank: 0,
        arc: ResidualArc::Start,
    });
    Ok(steps)
}

/// Raises the heights of the nodes reached until an arc that leaves them has slack 0, and goes on from there.
fn go_on(
    ends: Ends,
    network: &Network<'_>,
    heights: &mut [u64],
    steps: &mut [Option<Step>],
    order: &mut Vec<usize>,
) -> Result<(), Memory>
    requires network { IsNetwork network.now }
    requires calm { IsCalm heights.old network.now.room.now network.now.arcs.now }
    requires low { AreLow network.now.room.now network.now.arcs.now ends.target (slice_index heights.old ends.target) }
    requires target { ends.target ≤ length network.now.arcs.now }
    requires start { is_reached steps.old ends.target ≡ false }
    requires spread { IsSpread heights.old network.now.room.now network.now.arcs.now steps.old ends.source order.old.items }
    ensures calm { IfOk result (λ done. IsCalm heights.new network.now.room.now network.now.arcs.now) }
    ensures target { IfOk result (λ done. slice_index heights.new ends.target ≡ slice_index heights.old ends.target) }
    ensures grows { IfOk result (λ done. length order.old.items < length order.new.items) }
    ensures spread { IfOk result (λ done. IsSpread heights.new network.now.room.now network.now.arcs.now steps.new ends.source order.new.items) }
{
    let leaving = least_leaving(network, heights, steps).unwrap();
    raise(heights, steps, leaving.slack);
    reach(leaving, steps, order)?;
    spread(ends, network, heights, steps, order)?;
    Ok(())
}

/// Reaches nodes over arcs of slack 0 until the target is reached, and raises heights for that, at most `most` times.
fn reach_target(
    most: usize,
    ends: Ends,
    network: &Network<'_>,
    heights: &mut [u64],
    steps: &mut [Option<Step>],
    order: &mut Vec<usize>,
) -> Result<(), Memory>
    requires network { IsNetwork network.now }
    requires calm { IsCalm heights.old network.now.room.now network.now.arcs.now }
    requires low { AreLow network.now.room.now network.now.arcs.now ends.target (slice_index heights.old ends.target) }
    requires target { ends.target ≤ length network.now.arcs.now }
    requires spread { IsSpread heights.old network.now.room.now network.now.arcs.now steps.old ends.source order.old.items }
    ensures calm { IfOk result (λ done. IsCalm heights.new network.now.room.now network.now.arcs.now) }
    ensures target { IfOk result (λ done. slice_index heights.new ends.target ≡ slice_index heights.old ends.target) }
    ensures reached { IfOk result (λ done. length network.now.arcs.now < most → is_reached steps.new ends.target ≡ true) }
    ensures spread { IfOk result (λ done. IsSpread heights.new network.now.room.now network.now.arcs.now steps.new ends.source order.new.items) }
{
    spread(ends, network, heights, steps, order)?;
    for _ in 0..most {
        if steps[ends.target].is_some() {
            return Ok(());
        }
        go_on(ends, network, heights, steps, order)?;
    }
    Ok(())
}

/// Raises heights, at most `most` times, until the target is reached from the source over arcs of slack 0. Returns how
/// each node is reached.
pub fn search(
    alloc: Global,
    most: usize,
    ends: Ends,
    network: &Network<'_>,
    heights: &mut [u64],
) -> Result<Vec<Option<Step>>, Memory>
    requires network { IsNetwork network.now }
    requires calm { IsCalm heights.old network.now.room.now network.now.arcs.now }
    requires low { AreLow network.now.room.now network.now.arcs.now ends.target (slice_index heights.old ends.target) }
    requires ends { (ends.source ≤ length network.now.arcs.now) × (ends.target ≤ length network.now.arcs.now) }
    ensures found { IfOk result (λ steps. IsFound heights.old heights.new network.now ends steps.items) }
    ensures reached { IfOk result (λ steps. length network.now.arcs.now < most → is_reached steps.items ends.target ≡ true) }
{
    let mut steps = first_step(alloc, heights.len(), ends.source)?;
    let mut order = Vec::with_capacity(alloc, heights.len())?;
    order.push(ends.source)?;
    reach_target(most, ends, network, heights, &mut steps, &mut order)?;
    Ok(steps)
}

/// Like `search`, until the target is reached. After a few raises it takes the heights from a heap, and begins anew.
pub fn quick_search(
    alloc: Global,
    ends: Ends,
    network: &Network<'_>,
    heights: &mut [u64],
) -> Result<Vec<Option<Step>>, Memory>
    requires network { IsNetwork network.now }
    requires calm { IsCalm heights.old network.now.room.now network.now.arcs.now }
    requires low { AreLow network.now.room.now network.now.arcs.now ends.target (slice_index heights.old ends.target) }
    requires ends { (ends.source ≤ length network.now.arcs.now) × (ends.target ≤ length network.now.arcs.now) }
    ensures found { IfOk result (λ steps. IsFound heights.old heights.new network.now ends steps.items) }
    ensures reached { IfOk result (λ steps. is_reached steps.items ends.target ≡ true) }
{
    let steps = search(alloc, FEW_RAISES, ends, network, heights)?;
    if steps[ends.target].is_some() {
        return Ok(steps);
    }
    raise_by_distances(alloc, ends, network, heights)?;
    let steps = search(alloc, heights.len(), ends, network, heights)?;
    Ok(steps)
}
