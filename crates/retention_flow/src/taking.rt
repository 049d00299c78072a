//! Taking slots away.

ghost use Rattle.std.specs.Prelude.{◌≡◌, ℕ, ◌+◌, ◌-◌, ◌^◌, ◌≤◌, ◌<◌, List, length, replicate, slice_index, IfOk};
ghost use Rattle.known_state.specs.Requests.{Asked};
ghost use Rattle.known_state.specs.Plans.{at_start, Accepts};
ghost use Rattle.retention_flow.specs.Network.{AreArcs, GoBack, SaveLittle, IsCalm, IsRoom};

use crate::arcs::RequestArc;
use crate::augmenting::augment;
use crate::network::Network;
use crate::path_search::search;
use crate::plans::plan_of;
use crate::spreading::{first_arcs, later_ends};
use crate::steps::Ends;
use known_state::Plan;
use std::alloc::Global;
use table_types::Memory;

/// Takes `count` slots away, one by one, each along an augmenting path of least cost from the last node to the first.
fn take_away(
    alloc: Global,
    count: usize,
    heights: &mut [u64],
    room: &mut [usize],
    arcs: &mut [RequestArc],
) -> Result<(), Memory>
    requires most { length arcs.old ≤ 4096 }
    requires back { GoBack arcs.old }
    requires little { SaveLittle arcs.old }
    requires calm { IsCalm heights.old room.old arcs.old }
    requires zero { (node : ℕ) → slice_index heights.old node ≡ 0 }
    requires room { (slots : ℕ) × (count ≤ slots) × (slots ≤ 4096) × IsRoom slots room.old arcs.old }
    ensures calm { IfOk result (λ done. IsCalm heights.new room.new arcs.new) }
    ensures small { IfOk result (λ done. (node : ℕ) → node < length heights.new → slice_index heights.new node ≤ 2 ^ 27) }
    ensures room { IfOk result (λ done. (slots : ℕ) → IsRoom slots room.old arcs.old → IsRoom (slots - count) room.new arcs.new) }
    ensures arcs { IfOk result (λ done. (held : List (List ℕ)) → (rs : List Asked) → AreArcs (at_start held) rs arcs.old → AreArcs (at_start held) rs arcs.new) }
{
    let later = later_ends(alloc, arcs)?;
    let first = first_arcs(alloc, arcs)?;
    let ends = Ends {
        source: arcs.len(),
        target: 0,
    };
    for _ in 0..count {
        let network = Network {
            arcs: &*arcs,
            room: &*room,
            later: later.as_slice(),
            first: first.as_slice(),
        };
        let steps = search(alloc, heights.len(), ends, &network, heights)?;
        augment(ends, room, arcs, &steps);
    }
    Ok(())
}

/// Returns the plan for `slots` slots, if at most `most_over` kept arcs are over any place, and heights of 0 are calm.
/// These arcs take `most_over` slots, and the names that aren't kept one more; takes away those that are too many.
pub fn plan_by_taking(
    alloc: Global,
    slots: usize,
    most_over: usize,
    room: &mut [usize],
    arcs: &mut [RequestArc],
) -> Result<Plan, Memory>
    requires slots { (1 ≤ slots) × (slots - 1 ≤ most_over) × (most_over ≤ 4096) }
    requires most { length arcs.old ≤ 4096 }
    requires back { GoBack arcs.old }
    requires little { SaveLittle arcs.old }
    requires calm { IsCalm (replicate (length arcs.old + 1) 0) room.old arcs.old }
    requires room { IsRoom most_over room.old arcs.old }
    ensures { IfOk result (λ plan. (held : List (List ℕ)) → (rs : List Asked) → AreArcs (at_start held) rs arcs.old → Accepts slots held rs plan) }
{
    let mut heights = vec![in alloc; 0; arcs.len() + 1]?;
    take_away(alloc, most_over + 1 - slots, &mut heights, room, arcs)?;
    plan_of(alloc, &heights, arcs)
}
