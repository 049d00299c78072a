//! What becomes of messages that the strict intake doesn't take.

ghost use Rattle.std.specs.Prelude.{◌≡◌, ℕ, [], true, Ok, Err, Some, None, IfOk, IsNone};
ghost use Rattle.table_types.specs.Names.{is_name};
ghost use Rattle.table_types.specs.Tables.{is_id};
ghost use Rattle.peers_msg.specs.Borrowed.{owned_name, is_named};
ghost use Rattle.peers_msg.specs.Received.{selected_table};
ghost use Rattle.peers_msg.specs.Reading.{meant};
ghost use Rattle.known_state.specs.State.{reads_empty};
ghost use Rattle.known_state.specs.Effects.{written_by};
ghost use Rattle.tolerant_intake.specs.declared.plan.Plan.TheVariants as plans;
ghost use Rattle.tolerant_intake.specs.Tolerance.{is_further};
ghost use Rattle.tolerant_intake.specs.Loose.{loose_definition_at};
ghost use Rattle.tolerant_intake.specs.Policy.{StandsIn, numbered, of_bad_values, of_breach, of_loose_definition, of_loose_update, writes};
ghost use Rattle.tolerant_intake.specs.Planning.{IsPassing, Planned, defines_further};

use crate::loose_definition::{LooseDefinition, loose_definition_at};
use crate::loose_update::{LooseUpdateRef, loose_update_at};
use crate::passed_over::Cause;
use crate::plan::Plan;
use known_state::{Effect, ResolvedUpdate, State};
use learner::{Fault, Intake};
use peers_msg::{Breach, Frame, Meaning, NameFieldRef, Received};
use std::alloc::Global;
use table_types::{Memory, Name, Roster};

/// The number of tables that a peer may have defined at once (profile).
const MOST_TABLES: usize = 1024;

/// Returns whether an id stands for no table, while as many ids as may be do.
fn is_further(received: &Received, id: u64) -> bool
    ensures { result ≡ is_further received.now id }
{
    received.count() >= MOST_TABLES && received.table(id).is_none()
}

/// Returns whether an effect defines a table under a further id.
pub(crate) fn defines_further(received: &Received, effect: &Effect) -> bool
    ensures { result ≡ defines_further received.now effect.now }
{
    match effect {
        Effect::Define(table) => is_further(received, table.id()),
        Effect::Nothing | Effect::Select(_) | Effect::Update(_) => false,
    }
}

/// Returns the selected id, and the number of an update of its table.
pub(crate) fn numbered(state: &State, number: Option<u32>) -> Option<(u64, u32)>
    ensures { result ≡ numbered state.now number }
{
    let Some(table) = state.received().selected() else {
        return None;
    };
    match (number, state.last_numbers().last(table)) {
        (Some(number), _) => Some((table, number)),
        (None, Some(last)) => Some((table, last.wrapping_add(1))),
        (None, None) => None,
    }
}

/// Returns whether a name field writes a name.
fn writes(field: NameFieldRef<'_>) -> bool
    ensures { result ≡ writes (owned_name field.entry) }
{
    matches!(field, NameFieldRef::Written(_, _))
}

/// Returns whether a name field reads an empty slot.
fn reads_empty(state: &State, field: NameFieldRef<'_>) -> bool
    requires { is_named (owned_name field) ≡ true }
    ensures { result ≡ reads_empty state.now.slots (owned_name field.entry) }
{
    match field {
        NameFieldRef::Held(_) => state.name(field).is_none(),
        NameFieldRef::NotStored | NameFieldRef::NoName | NameFieldRef::Written(_, _) => false,
    }
}

/// Returns the slot that a name field writes, and the name.
fn written_by(alloc: Global, field: NameFieldRef<'_>) -> Result<Option<(u8, Name)>, Memory>
    requires { is_named (owned_name field) ≡ true }
    ensures { IfOk result (λ written. written ≡ written_by (owned_name field.entry)) }
{
    match field {
        NameFieldRef::Written(slot, name) => Ok(Some((slot, Name::from_slice(alloc, name)?))),
        NameFieldRef::NotStored | NameFieldRef::NoName | NameFieldRef::Held(_) => Ok(None),
    }
}

/// Plans an update of the selected table, which is outside the profile; the message has `used` bytes.
pub(crate) fn plan_loose_update(
    alloc: Global,
    state: &State,
    update: LooseUpdateRef<'_>,
    used: usize,
) -> Result<Option<Plan>, Fault>
    requires { is_named (owned_name update.name) ≡ true }
    ensures { Planned [] (of_loose_update state.now (Ok (record { number = update.entry.number; name = owned_name update.entry.name; rest = update.entry.rest.now }))) used result }
{
    let Some((table, number)) = numbered(state, update.number) else {
        return Err(Fault::NoNumber);
    };
    let cause = if reads_empty(state, update.name) {
        Some(Cause::Slot)
    } else {
        None
    };
    let written = written_by(alloc, update.name)?;
    let update = ResolvedUpdate {
        table,
        number,
        written,
    };
    Ok(Some(Plan::Counts {
        update,
        cause,
        used,
    }))
}

/// Plans an update of the selected table that writes no name, and is passed over for a cause if it has a number.
pub(crate) fn plan_passed(
    state: &State,
    number: Option<u32>,
    cause: Cause,
    used: usize,
) -> Option<Plan>
    ensures none { IsNone result → numbered state.now number ≡ None }
    ensures lacks { numbered state.now number ≡ None → result ≡ None }
    ensures some { (n : ℕ × ℕ) → numbered state.now number ≡ Some n → result ≡ Some (plans.Counts (record { table = n.0; number = n.1; written = None }) (Some cause) used) }
{
    let Some((table, number)) = numbered(state, number) else {
        return None;
    };
    let update = ResolvedUpdate {
        table,
        number,
        written: None,
    };
    Some(Plan::Counts {
        update,
        cause: Some(cause),
        used,
    })
}

/// Plans an update of the selected table, of the profile, with a value out of its range; `body` are its data.
fn plan_bad_values(
    state: &State,
    numbered: bool,
    timed: bool,
    body: &[u8],
    used: usize,
) -> Option<Plan>
    ensures { Planned [] (of_bad_values state.now numbered timed body.now (selected_table state.now.received)) used (Ok result) }
{
    let Some(table) = state.received().selected_table() else {
        return None;
    };
    let kind = u64::from(table.kind().number());
    let Ok(update) = loose_update_at(
        kind,
        table.key_length(),
        table.types(),
        numbered,
        timed,
        body,
    ) else {
        return None;
    };
    if !update.rest.is_empty() || writes(update.name) {
        return None;
    }
    plan_passed(state, update.number, Cause::Value, used)
}

/// Plans a definition outside the profile.
fn stand_in(
    alloc: Global,
    roster: &Roster,
    definition: LooseDefinition<'_>,
    used: usize,
) -> Result<Plan, Memory>
    requires id { is_id definition.id ≡ true }
    requires name { is_name definition.name.now ≡ true }
    ensures { IfOk result (λ plan. IsPassing roster.now (StandsIn (record { id = definition.entry.id; name = definition.entry.name.now; kind = definition.entry.kind; key_length = definition.entry.key_length; bits = definition.entry.bits; periods = definition.entry.periods.now })) plan used) }
{
    let loose = definition.table(alloc)?;
    let table = definition.stand_in(alloc, roster, loose.types.as_slice())?;
    Ok(Plan::StandsIn {
        table,
        loose,
        cause: definition.cause(),
        used,
    })
}

/// Plans a definition that the strict intake can't read; `body` are its data.
fn plan_loose_definition(
    alloc: Global,
    intake: &Intake,
    body: &[u8],
    used: usize,
) -> Result<Option<Plan>, Fault>
    ensures { Planned intake.now.roster (of_loose_definition intake.now.state (loose_definition_at body.now)) used result }
{
    let Ok(definition) = loose_definition_at(body) else {
        return Ok(None);
    };
    if is_further(intake.state().received(), definition.id) {
        return Err(Fault::Breach(Breach::SizeLimit));
    }
    let plan = stand_in(alloc, intake.roster(), definition, used)?;
    Ok(Some(plan))
}

/// Plans a message of `used` bytes that the strict intake can't read, for this breach.
pub(crate) fn plan_breach(
    alloc: Global,
    intake: &Intake,
    frame: Frame<'_>,
    breach: Breach,
    used: usize,
) -> Result<Option<Plan>, Fault>
    ensures { Planned intake.now.roster (of_breach intake.now.state (meant frame.entry.class frame.entry.message_type) frame.entry.body.now breach) used result }
{
    match (frame.meaning(), breach) {
        (Meaning::Update { numbered, timed }, Breach::BadValue) => Ok(plan_bad_values(
            intake.state(),
            numbered,
            timed,
            frame.body,
            used,
        )),
        (Meaning::Define, Breach::UnknownDataType | Breach::BadDefinition) => {
            plan_loose_definition(alloc, intake, frame.body, used)
        }
        _ => Ok(None),
    }
}
