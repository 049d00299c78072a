//! Augmenting along a path.

ghost use Rattle.std.specs.Prelude.{◌≡◌, ℕ, ◌+◌, ◌-◌, ◌^◌, ◌≤◌, ◌<◌, List, true, length, slice_index};
ghost use Rattle.known_state.specs.Requests.{Asked};
ghost use Rattle.known_state.specs.Plans.{at_start};
ghost use Rattle.retention_flow.specs.Network.{is_reached, AreArcs, GoBack, SaveLittle, IsCalm, IsRoomFrom, IsSearch, IsResidual, tail_of, augmented_room, augmented_arcs};

use crate::arcs::RequestArc;
use crate::steps::{Ends, ResidualArc, Step};

/// Augments along the residual arc by which a node is reached, and returns the node from which it leads.
fn augment_step(
    room: &mut [usize],
    arcs: &mut [RequestArc],
    residual: ResidualArc,
    node: usize,
) -> usize
    requires count { length room.old ≡ length arcs.old }
    requires small { length arcs.old ≤ 4096 }
    requires most { (place : ℕ) → place < length room.old → slice_index room.old place ≤ 4096 }
    requires residual { (heights : List ℕ) × IsResidual heights room.old arcs.old residual node 0 }
    ensures room { room.new ≡ augmented_room residual node room.old }
    ensures arcs { arcs.new ≡ augmented_arcs residual node arcs.old }
    ensures before { result ≡ tail_of arcs.old residual node }
{
    match residual {
        ResidualArc::Start => node,
        ResidualArc::Right => {
            room[node - 1] += 1;
            node - 1
        }
        ResidualArc::Left => {
            room[node] -= 1;
            node + 1
        }
        ResidualArc::Back(later) => {
            arcs[later].kept = false;
            later
        }
        ResidualArc::On => {
            arcs[node].kept = true;
            arcs[node].from
        }
    }
}

/// Augments along the path by which the target is reached from the source, arc by arc. The heights are still calm
/// afterwards. Each place between the two ends has one slot fewer, free or used, if the path goes back to an earlier
/// node, and one slot more if it goes to a later one.
pub fn augment(ends: Ends, room: &mut [usize], arcs: &mut [RequestArc], steps: &[Option<Step>])
    requires small { length arcs.old ≤ 4096 }
    requires count { length room.old ≡ length arcs.old }
    requires back { GoBack arcs.old }
    requires little { SaveLittle arcs.old }
    requires reached { is_reached steps.now ends.target ≡ true }
    requires search { (heights : List ℕ) × (count : ℕ) × (slots : ℕ) × (slots ≤ 4096)
        × IsCalm heights room.old arcs.old × IsSearch heights room.old arcs.old steps.now ends.source count × IsRoomFrom ends.target slots room.old arcs.old }
    ensures turned { (heights : List ℕ) → (count slots : ℕ) → IsCalm heights room.old arcs.old → IsSearch heights room.old arcs.old steps.now ends.source count → IsRoomFrom ends.target slots room.old arcs.old →
        IsCalm heights room.new arcs.new × IsRoomFrom ends.source slots room.new arcs.new }
    ensures arcs { (held : List (List ℕ)) → (rs : List Asked) → AreArcs (at_start held) rs arcs.old → AreArcs (at_start held) rs arcs.new }
    ensures back { GoBack arcs.new }
    ensures little { SaveLittle arcs.new }
{
    let mut node = ends.target;
    while node != ends.source {
        let step = steps[node].unwrap();
        node = augment_step(room, arcs, step.arc, node);
    }
}
