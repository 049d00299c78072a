//! The plan that arcs and heights make.

ghost use Rattle.std.specs.Prelude.{◌≡◌, ℕ, ◌+◌, ◌-◌, ◌≤◌, ◌<◌, length, slice_index, IfOk};
ghost use Rattle.retention_flow.specs.Network.{marks, plan_of, prices_of};

use crate::arcs::RequestArc;
use known_state::Plan;
use std::alloc::Global;
use table_types::Memory;

/// Returns which requests are kept.
fn marks(alloc: Global, arcs: &[RequestArc]) -> Result<Vec<bool>, Memory>
    ensures { IfOk result (λ keep. keep.items ≡ marks arcs.now) }
{
    let mut keep = Vec::new(alloc);
    for arc in arcs {
        keep.push(arc.kept)?;
    }
    Ok(keep)
}

/// Returns how far the heights rise over each place.
fn prices_of(alloc: Global, heights: &[u64]) -> Result<Vec<u64>, Memory>
    requires some { 1 ≤ length heights.now }
    requires rises { (node : ℕ) → node + 1 < length heights.now → slice_index heights.now node ≤ slice_index heights.now (node + 1) }
    ensures { IfOk result (λ prices. prices.items ≡ prices_of heights.now) }
{
    let mut prices = Vec::new(alloc);
    for node in 0..heights.len() - 1 {
        prices.push(heights[node + 1] - heights[node])?;
    }
    Ok(prices)
}

/// Returns the plan that keeps what is kept, at the prices of the heights.
pub fn plan_of(alloc: Global, heights: &[u64], arcs: &[RequestArc]) -> Result<Plan, Memory>
    requires some { 1 ≤ length heights.now }
    requires rises { (node : ℕ) → node + 1 < length heights.now → slice_index heights.now node ≤ slice_index heights.now (node + 1) }
    ensures { IfOk result (λ plan. plan ≡ plan_of heights.now arcs.now) }
{
    Ok(Plan::new(marks(alloc, arcs)?, prices_of(alloc, heights)?))
}
