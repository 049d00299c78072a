//! The names on which the plan of a lesson depends.

ghost use Rattle.std.specs.Prelude.{◌≡◌, ◌≤◌, IfOk, length};
ghost use Rattle.table_types.specs.SlotIds.{slot_count};
ghost use Rattle.known_state.specs.Plans.{Plan, Accepts, names_in};

use dict_slots::Slots;
use known_state::Request;
use std::alloc::Global;
use table_types::{Memory, Name};

/// Returns the names that the slots hold, slot by slot. A name that several slots hold occurs as often.
fn names_held(alloc: Global, slots: &Slots) -> Result<Vec<Name>, Memory>
    ensures names { IfOk result (λ names. names.items ≡ names_in slots.now) }
    ensures few { IfOk result (λ names. length names.items ≤ slot_count) }
{
    let mut names = Vec::new(alloc);
    for index in 0..slots.len() {
        if let Some(name) = slots.name(index as u8 + 1) {
            names.push(name.copy(alloc)?)?;
        }
    }
    Ok(names)
}

/// Returns the held names that a plan of these requests depends on: those that the slots hold, slot by slot, or none if
/// there are no requests.
pub fn names_to_plan(
    alloc: Global,
    slots: &Slots,
    requests: &[Request],
) -> Result<Vec<Name>, Memory>
    ensures enough { IfOk result (λ names. (plan : Plan) → Accepts slot_count names.items requests.now plan → Accepts slot_count (names_in slots.now) requests.now plan) }
    ensures few { IfOk result (λ names. length names.items ≤ slot_count) }
{
    if requests.is_empty() {
        return Ok(Vec::new(alloc));
    }
    names_held(alloc, slots)
}
