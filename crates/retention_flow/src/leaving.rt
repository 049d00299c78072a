//! Residual arcs that leave the nodes reached.

ghost use Rattle.std.specs.Prelude.{◌≡◌, ℕ, ◌+◌, ◌^◌, ◌≤◌, ◌<◌, ◌⊎◌, List, true, false, length, slice_index, IfSome};
ghost use Rattle.retention_flow.specs.declared.arcs.RequestArc.{RequestArc};
ghost use Rattle.retention_flow.specs.Network.{is_reached, arc_at, AreSmall, IsCalmArc, IsCalm, IsNetwork, IsSlackOf, IsSlack, IsNoMore, Leaves};

use crate::arcs::RequestArc;
use crate::network::Network;
use crate::steps::{Leaving, ResidualArc, Step};

/// Returns whether the node is reached.
fn is_reached(steps: &[Option<Step>], node: usize) -> bool
    requires { node < length steps.now }
    ensures { result ≡ is_reached steps.now node }
{
    steps[node].is_some()
}

/// Returns the residual arc over the place after `node`, if it leaves the nodes reached: on to the next node, or back
/// from it if a slot is free at the place.
pub fn over_place(
    heights: &[u64],
    room: &[usize],
    steps: &[Option<Step>],
    node: usize,
) -> Option<Leaving>
    requires heights { node + 1 < length heights.now }
    requires room { node < length room.now }
    requires steps { node + 1 < length steps.now }
    requires rises { slice_index heights.now node ≤ slice_index heights.now (node + 1) }
    requires full { 0 < slice_index room.now node → slice_index heights.now (node + 1) ≤ slice_index heights.now node }
    ensures right { (by : ℕ) → IsNoMore by result → is_reached steps.now node ≡ true → is_reached steps.now (node + 1) ≡ false → slice_index heights.now node + by ≤ slice_index heights.now (node + 1) }
    ensures left { (by : ℕ) → IsNoMore by result → 0 < slice_index room.now node → is_reached steps.now (node + 1) ≡ true → is_reached steps.now node ≡ false → slice_index heights.now (node + 1) + by ≤ slice_index heights.now node }
    ensures leaves { (arcs : List RequestArc) → node < length arcs → IfSome result (Leaves heights.now room.now arcs steps.now) }
{
    let (before, after) = (is_reached(steps, node), is_reached(steps, node + 1));
    if before == after {
        return None;
    }
    if before {
        return Some(Leaving {
            node: node + 1,
            arc: ResidualArc::Right,
            slack: heights[node + 1] - heights[node],
        });
    }
    if room[node] == 0 {
        return None;
    }
    Some(Leaving {
        node,
        arc: ResidualArc::Left,
        slack: heights[node] - heights[node + 1],
    })
}

/// Returns the residual arc of the request after `node`, if it leaves the nodes reached: back to where the request's
/// link begins if the arc is kept, and on from there if it isn't.
pub fn over_arc(
    heights: &[u64],
    arcs: &[RequestArc],
    steps: &[Option<Step>],
    node: usize,
) -> Option<Leaving>
    requires arcs { node < length arcs.now }
    requires heights { (length arcs.now < length heights.now) × (length arcs.now < length steps.now) }
    requires back { (arc_at arcs.now node).from ≤ node }
    requires calm { IsCalmArc heights.now node (arc_at arcs.now node) }
    requires small { (slice_index heights.now (arc_at arcs.now node).from ≤ 2 ^ 32) × ((arc_at arcs.now node).saving ≤ 32768) }
    ensures slack { (by : ℕ) → IsNoMore by result → IsSlackOf (arc_at arcs.now node).kept (arc_at arcs.now node).saving (slice_index heights.now (arc_at arcs.now node).from) (slice_index heights.now node) (is_reached steps.now (arc_at arcs.now node).from) (is_reached steps.now node) by }
    ensures leaves { (room : List ℕ) → IfSome result (Leaves heights.now room arcs.now steps.now) }
{
    let arc = arcs[node];
    let (low, high) = (is_reached(steps, arc.from), is_reached(steps, node));
    if low == high || high != arc.kept {
        return None;
    }
    if arc.kept {
        return Some(Leaving {
            node: arc.from,
            arc: ResidualArc::Back(node),
            slack: heights[arc.from] + arc.saving - heights[node],
        });
    }
    Some(Leaving {
        node,
        arc: ResidualArc::On,
        slack: heights[node] - (heights[arc.from] + arc.saving),
    })
}

/// Returns the arc with the lesser slack.
fn lesser(one: Option<Leaving>, other: Option<Leaving>) -> Option<Leaving>
    ensures both { (by : ℕ) → IsNoMore by result → IsNoMore by one × IsNoMore by other }
    ensures either { (result ≡ one) ⊎ (result ≡ other) }
{
    match (one, other) {
        (Some(first), Some(second)) if second.slack < first.slack => other,
        (None, _) => other,
        _ => one,
    }
}

/// Returns an arc of least slack among those that leave the nodes reached.
pub fn least_leaving(
    network: &Network<'_>,
    heights: &[u64],
    steps: &[Option<Step>],
) -> Option<Leaving>
    requires network { IsNetwork network.now }
    requires calm { IsCalm heights.now network.now.room.now network.now.arcs.now }
    requires small { AreSmall heights.now }
    requires steps { length steps.now ≡ length network.now.arcs.now + 1 }
    ensures slack { (by : ℕ) → IsNoMore by result → IsSlack heights.now network.now.room.now network.now.arcs.now (is_reached steps.now) by }
    ensures leaves { IfSome result (Leaves heights.now network.now.room.now network.now.arcs.now steps.now) }
{
    let mut least = None;
    for node in 0..network.arcs.len() {
        least = lesser(least, over_place(heights, network.room, steps, node));
        least = lesser(least, over_arc(heights, network.arcs, steps, node));
    }
    least
}
