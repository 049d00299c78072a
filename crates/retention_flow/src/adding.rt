//! Adding slots.

ghost use Rattle.std.specs.Prelude.{◌≡◌, ℕ, ◌+◌, ◌-◌, ◌*◌, ◌^◌, ◌≤◌, ◌<◌, false, List, length, slice_index, IfOk};
ghost use Rattle.table_types.specs.SlotIds.{slot_count};
ghost use Rattle.known_state.specs.Requests.{Asked};
ghost use Rattle.known_state.specs.Plans.{at_start, Accepts};
ghost use Rattle.retention_flow.specs.Network.{arc_at, AreArcs, GoBack, SaveLittle, SaveIfKept, IsCalm, IsKeptLoop, IsRoom};

use crate::arcs::RequestArc;
use crate::augmenting::augment;
use crate::distances::raise_by_distances;
use crate::network::Network;
use crate::path_search::quick_search;
use crate::plans::plan_of;
use crate::spreading::{first_arcs, later_ends};
use crate::steps::Ends;
use known_state::Plan;
use std::alloc::Global;
use table_types::Memory;

/// The most bytes that a link saves.
const MOST_SAVED: u64 = 32_768;

/// Keeps only arcs of links with nothing inside, which begin at the node before their request: no slot is used at any
/// place.
fn keep_loops(arcs: &mut [RequestArc])
    requires back { GoBack arcs.old }
    requires little { SaveLittle arcs.old }
    requires saves { SaveIfKept arcs.old }
    ensures arcs { (held : List (List ℕ)) → (rs : List Asked) → AreArcs (at_start held) rs arcs.old → AreArcs (at_start held) rs arcs.new }
    ensures back { GoBack arcs.new }
    ensures little { SaveLittle arcs.new }
    ensures loops { (node : ℕ) → node < length arcs.new → IsKeptLoop node (arc_at arcs.new node) }
{
    for node in 0..arcs.len() {
        if arcs[node].from < node {
            arcs[node].kept = false;
        }
    }
}

/// Returns heights that rise from each node to the next by the most that a link saves.
fn steep_heights(alloc: Global, nodes: usize) -> Result<Vec<u64>, Memory>
    requires { nodes ≤ 4097 }
    ensures long { IfOk result (λ heights. length heights.items ≡ nodes) }
    ensures steep { IfOk result (λ heights. (node : ℕ) → node < nodes → slice_index heights.items node ≡ node * 32768) }
{
    let mut heights = Vec::new(alloc);
    let mut height = 0;
    for _ in 0..nodes {
        heights.push(height)?;
        height += MOST_SAVED;
    }
    Ok(heights)
}

/// Adds at most `count` slots, one by one, each along an augmenting path of least cost from the first node to the last.
/// Ends early when the heights of the two ends, and so all between them, are equal: then another slot saves nothing, and
/// the rest may stay free.
fn add_slots(
    alloc: Global,
    count: usize,
    heights: &mut [u64],
    room: &mut [usize],
    arcs: &mut [RequestArc],
) -> Result<(), Memory>
    requires count { count ≤ slot_count }
    requires most { length arcs.old ≤ 4096 }
    requires back { GoBack arcs.old }
    requires little { SaveLittle arcs.old }
    requires calm { IsCalm heights.old room.old arcs.old }
    requires low { slice_index heights.old (length arcs.old) ≤ 2 ^ 27 }
    requires room { IsRoom 0 room.old arcs.old }
    ensures calm { IfOk result (λ done. (room : List ℕ) × IsCalm heights.new room arcs.new × IsRoom count room arcs.new) }
    ensures small { IfOk result (λ done. (node : ℕ) → node < length heights.new → slice_index heights.new node ≤ 2 ^ 27) }
    ensures arcs { IfOk result (λ done. (held : List (List ℕ)) → (rs : List Asked) → AreArcs (at_start held) rs arcs.old → AreArcs (at_start held) rs arcs.new) }
{
    let later = later_ends(alloc, arcs)?;
    let first = first_arcs(alloc, arcs)?;
    let ends = Ends {
        source: 0,
        target: arcs.len(),
    };
    let network = Network {
        arcs: &*arcs,
        room: &*room,
        later: later.as_slice(),
        first: first.as_slice(),
    };
    raise_by_distances(alloc, ends, &network, heights)?;
    for _ in 0..count {
        if heights[ends.source] == heights[ends.target] {
            return Ok(());
        }
        let network = Network {
            arcs: &*arcs,
            room: &*room,
            later: later.as_slice(),
            first: first.as_slice(),
        };
        let steps = quick_search(alloc, ends, &network, heights)?;
        augment(ends, room, arcs, &steps);
    }
    Ok(())
}

/// Returns the plan for `slots` slots. Begins with only those links kept that have nothing inside, and adds one slot
/// after another.
pub fn plan_by_adding(alloc: Global, slots: usize, arcs: &mut [RequestArc]) -> Result<Plan, Memory>
    requires slots { (1 ≤ slots) × (slots ≤ slot_count) }
    requires most { length arcs.old ≤ 4096 }
    requires back { GoBack arcs.old }
    requires little { SaveLittle arcs.old }
    requires saves { SaveIfKept arcs.old }
    ensures { IfOk result (λ plan. (held : List (List ℕ)) → (rs : List Asked) → AreArcs (at_start held) rs arcs.old → Accepts slots held rs plan) }
{
    keep_loops(arcs);
    let mut heights = steep_heights(alloc, arcs.len() + 1)?;
    let mut room = vec![in alloc; 0; arcs.len()]?;
    add_slots(alloc, slots - 1, &mut heights, &mut room, arcs)?;
    plan_of(alloc, &heights, arcs)
}
