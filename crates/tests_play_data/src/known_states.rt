//! Known states: which messages one accepts.

use crate::parts::{KnownParts, T1, TableParts, alone, definition, known};
use dict_slots::Slots;
use known_state::{Known, StepError};
use peers_msg::{Message, NameField, UpdateMsg};
use std::alloc::Global;
use table_types::{Key, ShortList, TableDef, Value};

/// A message, written in short.
pub enum Sent {
    Define(TableParts),
    Switch(u64),
    /// An update of an integer key, with its number if it has one.
    Count(Option<u32>),
}

/// A message, why it is refused, if it is, and the table selected and the last number of the roster's table after it.
pub type Step = (Sent, Option<StepError>, Option<u64>, Option<u32>);

/// The parts of a state, and messages that come to it one after another.
pub type Story = (KnownParts, &'static [Step]);

fn count(alloc: Global, number: Option<u32>) -> Option<Message> {
    let values = ShortList::from_slice(alloc, &[Value::Count(5)]).ok()?;
    let key = Key::Int(7);
    let update = UpdateMsg::new(number, Some(30_000), key, values, NameField::NotStored);
    Some(Message::Update(update))
}

fn message(alloc: Global, sent: &Sent) -> Option<Message> {
    match sent {
        Sent::Define(table) => Some(Message::Define(definition(alloc, table)?)),
        Sent::Switch(id) => Some(Message::Switch(*id)),
        Sent::Count(number) => count(alloc, *number),
    }
}

fn refusal(known: &mut Known, message: &Message) -> Option<StepError> {
    known.after(message).err()
}

fn stands_at(known: &Known, id: u64, selected: Option<u64>, last: Option<u32>) -> bool {
    known.received().selected() == selected && known.last_numbers().last(id) == last
}

/// Returns whether the message is refused or accepted as `step` says, and leaves the state that it says.
fn is_step(alloc: Global, known: &mut Known, id: u64, step: &Step) -> Option<bool> {
    let message = message(alloc, &step.0)?;
    Some(refusal(known, &message) == step.1 && stands_at(known, id, step.2, step.3))
}

fn are_steps(alloc: Global, known: &mut Known, id: u64, steps: &[Step]) -> Option<bool> {
    for step in steps {
        if !is_step(alloc, known, id, step)? {
            return Some(false);
        }
    }
    Some(true)
}

fn goes_through(alloc: Global, state: &KnownParts, steps: &[Step]) -> Option<bool> {
    are_steps(alloc, &mut known(alloc, state)?, state.table.id, steps)
}

fn is_same_table(one: &TableDef, other: &TableDef) -> bool {
    (one.id(), one.kind(), one.key_length(), one.expire())
        == (other.id(), other.kind(), other.key_length(), other.expire())
        && one.name() == other.name()
        && one.types() == other.types()
}

/// Returns whether both states have the same definition and the same last number of a table, or neither has.
fn stand_alike_at(one: &Known, other: &Known, id: u64) -> bool {
    let is_defined_alike = match (one.received().table(id), other.received().table(id)) {
        (Some(table), Some(defined)) => is_same_table(table, defined),
        (None, None) => true,
        _ => false,
    };
    is_defined_alike && one.last_numbers().last(id) == other.last_numbers().last(id)
}

/// Returns whether the slots of both hold the same names.
fn hold_alike(one: &Slots, other: &Slots) -> bool {
    for id in 1..=Slots::COUNT {
        if one.name(id) != other.name(id) {
            return false;
        }
    }
    true
}

/// Returns whether two states of one roster are the same: the tables defined, the table selected, the last numbers, and the names
/// in slots.
pub fn are_same(one: &Known, other: &Known) -> bool {
    for table in one.roster().tables() {
        if !stand_alike_at(one, other, table.id()) {
            return false;
        }
    }
    one.received().count() == other.received().count()
        && one.received().selected() == other.received().selected()
        && hold_alike(one.slots(), other.slots())
}

/// Makes the state in which `t1` is defined and selected and its last number is `last`, or in which nothing is known if there is
/// none.
pub fn known_of_t1(alloc: Global, last: Option<u32>) -> Option<Known> {
    let roster = alone(alloc, &T1)?;
    let (mut defined, mut numbers) = (Vec::new(alloc), Vec::new(alloc));
    let Some(last) = last else {
        return Known::build(alloc, roster, None, defined, numbers, Slots::new(alloc)).ok();
    };
    defined.push(T1.id).ok()?;
    numbers.push((T1.id, last)).ok()?;
    Known::build(
        alloc,
        roster,
        Some(T1.id),
        defined,
        numbers,
        Slots::new(alloc),
    )
    .ok()
}

/// Returns the index of the first story of which a step fails.
pub fn first_failing(alloc: Global, stories: &[Story]) -> Option<usize> {
    for (place, (state, steps)) in stories.iter().enumerate() {
        if goes_through(alloc, state, *steps) != Some(true) {
            return Some(place);
        }
    }
    None
}
