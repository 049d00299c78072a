//! How the messages of updates are sent, one by one.

ghost use Rattle.std.specs.Prelude.{◌≡◌, ◌∷◌, [], ◌++◌, true, false, List, Some, Ok, IfOk, OnOk, OnErr, drop};
ghost use Rattle.table_types.specs.declared.update.Update.{Update};
ghost use Rattle.table_types.specs.Tables.{Definition, is_definition};
ghost use Rattle.table_types.specs.Updates.{fits};
ghost use Rattle.table_types.specs.Rosters.{table_at};
ghost use Rattle.peers_msg.specs.Borrowed.{is_named, owned_name};
ghost use Rattle.peers_msg.specs.declared.message.Message.{Message};
ghost use Rattle.peers_msg.specs.Fitting.{name_fits};
ghost use Rattle.peers_msg.specs.Received.{selected_table};
ghost use Rattle.peers_msg.specs.Spelling.{spelled};
ghost use Rattle.known_state.specs.Cost.{is_selected};
ghost use Rattle.known_state.specs.Known.{IsTakenBy};
ghost use Rattle.known_state.specs.State.{Step, IsOwn, reads_empty};
ghost use Rattle.teach_writer.specs.Pieces.{AreSendable, IsFirst, IsPart, IsSendable, planned_field, selected_id, selection_of, state_selected};
ghost use Rattle.teach_writer.specs.Sending.{is_table, selection, update_sent};

use crate::planned_name::PlannedName;
use known_state::{Known, number_sent};
use peers_msg::{Message, NameFieldRef, Received, append, append_update};
use std::alloc::Global;
use table_types::{Memory, TableDef, Update};

/// Returns the id of the selected table.
pub fn selected_id(received: &Received) -> Option<u64>
    ensures { result ≡ selected_id received.now }
{
    match received.selected_table() {
        Some(table) => Some(table.id()),
        None => None,
    }
}

/// Returns whether the table `id` is selected, given the id of the selected table.
fn is_selected(selected: Option<u64>, id: u64) -> bool
    ensures { result ≡ is_selected selected id }
{
    selected == Some(id)
}

/// Returns what selects a table of the roster that isn't selected: a switch if it is defined, and its definition
/// otherwise.
fn selection(alloc: Global, received: &Received, table: &TableDef) -> Result<Message, Memory>
    requires { is_table (selected_table received.now) table.now.id ≡ false }
    ensures chosen { IfOk result (λ message. message ∷ [] ≡ selection received.now table.now) }
    ensures defined { is_definition table.now ≡ true }
{
    let id = table.id();
    match received.table(id) {
        Some(_) => Ok(Message::Switch(id)),
        None => Ok(Message::Define(table.copy(alloc)?)),
    }
}

/// Appends a message to `bytes`, and applies it to what the learner knows.
fn write_message(known: &mut Known, message: Message, bytes: &mut Vec<u8>) -> Result<(), Memory>
    requires { IsTakenBy known.old message }
    ensures appended { OnOk result (bytes.new.items ≡ bytes.old.items ++ spelled message) }
    ensures step { OnOk result ((us : List Update) × Step known.old.state message us known.new.state
        × IsOwn known.old.roster message) }
    ensures roster { known.new.roster ≡ known.old.roster }
    ensures stays { OnErr result (known.new ≡ known.old) }
{
    append(bytes, &message)?;
    known.follow(message)
}

/// Selects a table of the roster that isn't selected, by a definition or a switch.
fn write_selection(
    alloc: Global,
    known: &mut Known,
    id: u64,
    bytes: &mut Vec<u8>,
) -> Result<(), Memory>
    requires listed { (d : Definition) × (table_at known.old.roster id ≡ Some d) }
    requires other { is_table (selected_table known.old.state.received) id ≡ false }
    ensures written { OnOk result ((m : Message) × (bytes.new.items ≡ bytes.old.items ++ spelled m)
        × (selection_of (table_at known.old.roster id) known.old.state.received ≡ m ∷ [])
        × (known.new.state ≡ state_selected known.old.state (m ∷ []))
        × (selection_of (table_at known.old.roster id) known.new.state.received ≡ [])) }
    ensures selected { OnOk result (selected_id known.new.state.received ≡ Some id) }
    ensures roster { known.new.roster ≡ known.old.roster }
    ensures stays { OnErr result (known.new ≡ known.old) }
{
    let roster = known.roster();
    let Some(table) = roster.table(id) else {
        unreachable!();
    };
    let message = selection(alloc, known.received(), table)?;
    write_message(known, message, bytes)?;
    Ok(())
}

/// Returns the name field of an update whose name is planned.
fn name_field(update: &Update, name: PlannedName) -> NameFieldRef<'_>
    ensures { owned_name result ≡ planned_field update.now.name name }
{
    match name {
        PlannedName::NotStored => NameFieldRef::NotStored,
        PlannedName::NoName => NameFieldRef::NoName,
        PlannedName::Read(slot) => NameFieldRef::Held(slot),
        PlannedName::Write(slot) => match &update.name {
            Some(name) => NameFieldRef::Written(slot, name.as_slice()),
            None => NameFieldRef::NoName,
        },
    }
}

/// Writes one update, whose table is selected, with the name field `field`: appends its message to `bytes`, and applies
/// it to what the learner knows.
fn write_selected(
    known: &mut Known,
    update: &Update,
    field: NameFieldRef<'_>,
    bytes: &mut Vec<u8>,
) -> Result<(), Memory>
    requires selected { (d : Definition) × (selected_table known.old.state.received ≡ Some d) × (d.id ≡ update.now.table)
        × (is_definition d ≡ true) × (fits d update.now ≡ true) × (name_fits d (owned_name field) ≡ true) }
    requires reads { reads_empty known.old.state.slots (owned_name field) ≡ false }
    requires named { is_named (owned_name field) ≡ true }
    ensures appended { OnOk result (bytes.new.items ≡ bytes.old.items
        ++ spelled (update_sent known.old.state (owned_name field.entry) update.now)) }
    ensures step { OnOk result ((us : List Update)
        × Step known.old.state (update_sent known.old.state (owned_name field.entry) update.now) us known.new.state) }
    ensures roster { known.new.roster ≡ known.old.roster }
    ensures stays { OnErr result (known.new ≡ known.old) }
{
    let number = number_sent(known.last_numbers().last(update.table), update.number);
    let values = update.values.as_slice();
    append_update(bytes, number, update.life, &update.key, values, field)?;
    known.follow_update(number, field)?;
    Ok(())
}

/// Sends the next message of an update: what selects its table, if that isn't the one with the id `selected`, and
/// otherwise the update. Returns whether that was the update.
fn send_part(
    alloc: Global,
    known: &mut Known,
    selected: Option<u64>,
    update: &Update,
    name: PlannedName,
    bytes: &mut Vec<u8>,
) -> Result<bool, Memory>
    requires sendable { IsSendable known.old.roster known.old.state update.now name }
    requires selected { selected ≡ selected_id known.old.state.received }
    ensures part { IfOk result (λ whole. (m : Message) × (bytes.new.items ≡ bytes.old.items ++ spelled m)
        × IsPart known.old.roster known.old.state update.now name whole m known.new.state) }
    ensures selected { OnOk result (selected_id known.new.state.received ≡ Some update.now.table) }
    ensures roster { known.new.roster ≡ known.old.roster }
    ensures stays { OnErr result (known.new ≡ known.old) }
{
    // This call serves its clauses alone: they say that the tables that the known state has received are the roster's.
    let _roster = known.roster();
    if is_selected(selected, update.table) {
        let field = name_field(update, name);
        write_selected(known, update, field, bytes)?;
        return Ok(true);
    }
    write_selection(alloc, known, update.table, bytes)?;
    Ok(false)
}

/// Sends the next message of the updates from `index` on, if one is left, and moves `index` past its update unless that is
/// still to be sent. The table of the update is then the selected one. Returns whether there was a message.
pub fn send_next(
    alloc: Global,
    known: &mut Known,
    selected: &mut Option<u64>,
    updates: &[Update],
    names: &[PlannedName],
    index: &mut usize,
    bytes: &mut Vec<u8>,
) -> Result<bool, Memory>
    requires sendable { AreSendable known.old.roster known.old.state (drop index.old updates.now) (drop index.old names.now) }
    requires selected { selected.old ≡ selected_id known.old.state.received }
    ensures more { IfOk result (λ more. more ≡ true → (m : Message) × (bytes.new.items ≡ bytes.old.items ++ spelled m)
        × IsFirst known.old.roster known.old.state (drop index.old updates.now) (drop index.old names.now) m known.new.state
        (drop index.new updates.now) (drop index.new names.now)) }
    ensures none { IfOk result (λ more. more ≡ false → (drop index.old updates.now ≡ []) × (bytes.new.items ≡ bytes.old.items)
        × (known.new ≡ known.old) × (index.new ≡ index.old)) }
    ensures selected { selected.new ≡ selected_id known.new.state.received }
    ensures ended { drop index.old updates.now ≡ [] → result ≡ Ok false }
    ensures roster { known.new.roster ≡ known.old.roster }
    ensures stays { OnErr result ((known.new ≡ known.old) × (index.new ≡ index.old)) }
{
    if *index >= updates.len() || *index >= names.len() {
        return Ok(false);
    }
    let update = &updates[*index];
    let whole = send_part(alloc, known, *selected, update, names[*index], bytes)?;
    *selected = Some(update.table);
    if !whole {
        return Ok(true);
    }
    *index += 1;
    Ok(true)
}
