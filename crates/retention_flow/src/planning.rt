//! The plan that saves the most.

ghost use Rattle.std.specs.Prelude.{◌≡◌, ◌-◌, ◌≤◌, length, IfOk};
ghost use Rattle.table_types.specs.SlotIds.{slot_count};
ghost use Rattle.known_state.specs.Plans.{at_start, Accepts};
ghost use Rattle.retention_flow.specs.Network.{arcs_from, GoBack, SaveLittle, IsRoom};

use crate::adding::plan_by_adding;
use crate::arcs::{RequestArc, find_arcs};
use crate::room::find_room;
use crate::taking::plan_by_taking;
use known_state::{Plan, Request};
use std::alloc::{AllocError, Global};
use table_types::{Memory, Name};
use thiserror::Error;

/// Why there is no plan.
#[derive(Clone, Copy, Debug, PartialEq, Eq, Error)]
pub enum PlanError {
    /// Out of memory.
    #[error("memory")]
    Memory,
}

impl From<AllocError> for PlanError {
    fn from(_refused: AllocError) -> PlanError {
        PlanError::Memory
    }
}

impl From<Memory> for PlanError {
    fn from(_refused: Memory) -> PlanError {
        PlanError::Memory
    }
}

/// The arcs of all links, kept, and the most of them over any place.
#[derive(Drop)]
struct AllKept {
    arcs: Vec<RequestArc>,
    /// The free slots at each place, from place 1 on.
    room: Vec<usize>,
    /// The most kept links over any place, or `slots - 1` if that is more. One slot more holds the names that aren't kept.
    most_over: usize,
}

/// Keeps all links of `requests`, if the names in `held` are held at the start, in as many slots as that takes.
fn keep_all(
    alloc: Global,
    slots: usize,
    held: &[Name],
    requests: &[Request],
) -> Result<AllKept, Memory>
    requires slots { (1 ≤ slots) × (slots ≤ slot_count) }
    requires requests { length requests.now ≤ 4096 }
    ensures arcs { IfOk result (λ all. all.arcs.items ≡ arcs_from (at_start held.now) requests.now) }
    ensures back { IfOk result (λ all. GoBack all.arcs.items) }
    ensures little { IfOk result (λ all. SaveLittle all.arcs.items) }
    ensures room { IfOk result (λ all. IsRoom all.most_over all.room.items all.arcs.items × (slots - 1 ≤ all.most_over) × (all.most_over ≤ 4096)) }
{
    let arcs = find_arcs(alloc, held, requests)?;
    let (room, most_over) = find_room(alloc, slots, &arcs)?;
    Ok(AllKept {
        arcs,
        room,
        most_over,
    })
}

/// Returns an accepted plan for `requests`, with `slots` slots, if the names in `held` are held at the start: no other
/// choice of requests to read saves more bytes (profile). If at most `slots - 1` slots are too many to keep all links,
/// takes them away one by one; otherwise begins with only those links kept that have nothing inside, and adds one slot
/// after another.
///
/// There are 1 to 128 slots, at most as many held names, and at most 4,096 requests.
pub fn plan(
    alloc: Global,
    slots: usize,
    held: &[Name],
    requests: &[Request],
) -> Result<Plan, PlanError>
    requires slots { (1 ≤ slots) × (slots ≤ slot_count) }
    requires held { length held.now ≤ slots }
    requires requests { length requests.now ≤ 4096 }
    ensures accepted { IfOk result (λ plan. Accepts slots held.now requests.now plan) }
{
    let AllKept {
        mut arcs,
        mut room,
        most_over,
    } = keep_all(alloc, slots, held, requests)?;
    if most_over + 1 - slots < slots {
        return Ok(plan_by_taking(alloc, slots, most_over, &mut room, &mut arcs)?);
    }
    Ok(plan_by_adding(alloc, slots, &mut arcs)?)
}

/// Returns an accepted plan like `plan`, but always begins with all links kept, in as many slots as that takes, and takes
/// the slots that are too many away one by one. Each closes a negative cycle of the flow.
///
/// There are 1 to 128 slots, at most as many held names, and at most 4,096 requests.
pub fn plan_by_cycles(
    alloc: Global,
    slots: usize,
    held: &[Name],
    requests: &[Request],
) -> Result<Plan, PlanError>
    requires slots { (1 ≤ slots) × (slots ≤ slot_count) }
    requires held { length held.now ≤ slots }
    requires requests { length requests.now ≤ 4096 }
    ensures accepted { IfOk result (λ plan. Accepts slots held.now requests.now plan) }
{
    let AllKept {
        mut arcs,
        mut room,
        most_over,
    } = keep_all(alloc, slots, held, requests)?;
    Ok(plan_by_taking(alloc, slots, most_over, &mut room, &mut arcs)?)
}
