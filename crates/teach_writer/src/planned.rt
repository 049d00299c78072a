//! Planning how the names of a lesson are sent.

ghost use Rattle.std.specs.Prelude.{◌-◌, ◌≡◌, ◌<◌, ◌≤◌, ◌^◌, ℕ, true, false, Some, IfOk, IfSome, OnOk, length, slice_index_or};
ghost use Rattle.table_types.specs.Batches.{IsBatchFor};
ghost use Rattle.table_types.specs.Rosters.{table_at};
ghost use Rattle.table_types.specs.SlotIds.{slot_count, is_slot};
ghost use Rattle.table_types.specs.Tables.{Definition};
ghost use Rattle.table_types.specs.Updates.{fits, stores_name};
ghost use Rattle.peers_msg.specs.Fitting.{name_fits};
ghost use Rattle.peers_msg.specs.Spelling.{stream_of};
ghost use Rattle.known_state.specs.Cost.{knowledge_of};
ghost use Rattle.known_state.specs.Lessons.{IsLessonFor};
ghost use Rattle.known_state.specs.Plans.{AreLinked, at_start, kept_over, links, names_in};
ghost use Rattle.known_state.specs.Requests.{IsUpdateOf, requests_of};
ghost use Rattle.known_state.specs.State.{name_of, reads_empty, slots_after};
ghost use Rattle.teach_writer.specs.NextRequests.{IsAsMarked, retained_after, index_after};
ghost use Rattle.teach_writer.specs.Pieces.{AreSendable, messages_left, planned_field, state_left};
ghost use Rattle.teach_writer.specs.Planning.{StoresNames};
ghost use Rattle.teach_writer.specs.Retained.{IsNameField};
ghost use Rattle.teach_writer.specs.Sending.{GoesThrough, is_stored, slot_of};

use crate::next_requests::{NextRequest, next_kept, retained_first};
use crate::planned_name::PlannedName;
use crate::retained::Retained;
use dict_slots::Slots;
use known_state::{Known, Request, number_sent};
use std::alloc::Global;
use table_types::{Batch, Memory, Update, is_slot};

/// Returns the mark at this index, or false if there is none.
fn mark_at(marks: &[bool], index: usize) -> bool
    ensures { result ≡ slice_index_or marks.now index false }
{
    if index < marks.len() {
        marks[index]
    } else {
        false
    }
}

/// Updates `retained` and `index` after an update whose name used `slot`, if it has one: the slot retains the name if
/// the flag of the request at this index says that the next request for the name is kept, and is free otherwise. The
/// index moves to the next request.
fn retain_or_free(retained: &mut Retained, index: &mut usize, slot: Option<u8>, next: &[bool])
    requires slot { IfSome slot (λ id. is_slot id ≡ true) }
    requires index { index.old < 4096 }
    ensures retained { retained.new ≡ retained_after retained.old slot (slice_index_or next.now index.old false) }
    ensures index { index.new ≡ index_after index.old slot }
{
    if let Some(slot) = slot {
        retained.set(slot, mark_at(next, *index));
        *index += 1;
    }
}

/// Returns the slot in which the name of the request at this index is likely to be retained, if one is noted.
fn likely_slot(likely_slots: &[Option<u8>], index: usize) -> Option<u8>
    ensures { IfSome result (λ slot. is_slot slot ≡ true) }
{
    if index >= likely_slots.len() {
        return None;
    }
    match likely_slots[index] {
        Some(slot) if is_slot(u64::from(slot)) => Some(slot),
        _ => None,
    }
}

/// Notes the slot that the request at this index used as the likely one for the next request for the same name.
fn note_likely_slot(
    likely_slots: &mut [Option<u8>],
    later: &[Option<NextRequest>],
    index: usize,
    slot: Option<u8>,
) {
    if index >= later.len() {
        return;
    }
    if let Some(next) = later[index] {
        if next.index < likely_slots.len() {
            likely_slots[next.index] = slot;
        }
    }
}

/// A table, and whether it stores names.
#[derive(Clone, Copy, Debug)]
struct NamedTable {
    id: u64,
    stores_name: bool,
}

/// Returns the table of an update. Looks it up only if it isn't that of the update before.
fn table_of(known: &Known, update: &Update, before: Option<NamedTable>) -> NamedTable
    requires of { IsUpdateOf known.now.roster update.now }
    requires before { IfSome before (λ table. StoresNames known.now.roster table.id table.stores_name) }
    ensures id { result.id ≡ update.now.table }
    ensures stored { result.stores_name ≡ is_stored known.now.roster update.now }
    ensures table { StoresNames known.now.roster update.now.table result.stores_name }
    ensures word { update.now.number < 2 ^ 32 }
{
    // This call serves its clauses alone: they say that the number is below 2^32.
    let _number = number_sent(None, update.number);
    match before {
        Some(table) if table.id == update.table => table,
        _ => looked_up(known, update.table),
    }
}

/// Looks up the table with the id `id`, which the roster has.
fn looked_up(known: &Known, id: u64) -> NamedTable
    requires { (d : Definition) × (table_at known.now.roster id ≡ Some d) }
    ensures id { result.id ≡ id }
    ensures table { StoresNames known.now.roster id result.stores_name }
{
    let Some(table) = known.roster().table(id) else {
        unreachable!();
    };
    // This call serves its clauses alone: they say that the table is well defined.
    let _id = table.id();
    NamedTable {
        id,
        stores_name: table.stores_name(),
    }
}

/// Plans how the name of an update is sent: if its request is kept, read from a slot that retains it, of which the
/// likely slot is tried first, and otherwise written to the lowest free slot. `stored` says whether the update's table
/// stores names.
fn plan_name(
    retained: &Retained,
    slots: &Slots,
    update: &Update,
    stored: bool,
    kept: bool,
    likely_slot: Option<u8>,
) -> PlannedName
    requires likely_slot { IfSome likely_slot (λ slot. is_slot slot ≡ true) }
    ensures field { IsAsMarked retained.now slots.now kept update.now.name →
        IsNameField retained.now slots.now stored update.now.name (planned_field update.now.name result) }
    ensures fits { (d : Definition) → stores_name d ≡ stored → fits d update.now ≡ true → name_fits d (planned_field update.now.name result) ≡ true }
    ensures reads { reads_empty slots.now (planned_field update.now.name result) ≡ false }
    ensures named { name_of slots.now (planned_field update.now.name result) ≡ update.now.name }
    ensures slot { IfSome (slot_of (planned_field update.now.name result)) (λ id. is_slot id ≡ true) }
{
    let Some(name) = &update.name else {
        return if stored {
            PlannedName::NoName
        } else {
            PlannedName::NotStored
        };
    };
    match retained.find(slots, name, kept, likely_slot) {
        Some(slot) => PlannedName::Read(slot),
        None => PlannedName::Write(retained.free()),
    }
}

/// Writes the name of an update to its slot, if that is planned, and returns the slot that it is read from or written to.
fn use_name(
    alloc: Global,
    slots: &mut Slots,
    update: &Update,
    name: PlannedName,
) -> Result<Option<u8>, Memory>
    requires { IfSome (slot_of (planned_field update.now.name name)) (λ id. is_slot id ≡ true) }
    ensures slot { IfOk result (λ slot. slot ≡ slot_of (planned_field update.now.name name)) }
    ensures valid { IfOk result (λ slot. IfSome slot (λ id. is_slot id ≡ true)) }
    ensures written { OnOk result (slots.new ≡ slots_after slots.old (planned_field update.now.name name)) }
{
    match (name, &update.name) {
        (PlannedName::Read(slot), _) => Ok(Some(slot)),
        (PlannedName::Write(slot), Some(name)) => {
            slots.write(slot, name.copy(alloc)?);
            Ok(Some(slot))
        }
        (PlannedName::NotStored | PlannedName::NoName | PlannedName::Write(_), _) => Ok(None),
    }
}

/// Plans how the name of each update of a batch is sent, with the requests kept that `keep` marks. Whatever the marks,
/// the updates can be sent so, and their messages are a lesson. If each request that is marked has a link and the slots
/// suffice for all these links, then each of them is read, and any other name is written.
pub fn plan_names(
    alloc: Global,
    known: &Known,
    batch: &Batch,
    requests: &[Request],
    keep: &[bool],
) -> Result<Vec<PlannedName>, Memory>
    requires batch { IsBatchFor known.now.roster batch.now }
    requires requests { requests.now ≡ requests_of known.now.roster (knowledge_of known.now.state) batch.now }
    requires keep { length keep.now ≡ length requests.now }
    ensures sendable { IfOk result (λ names. AreSendable known.now.roster known.now.state batch.now names.items) }
    ensures taught { IfOk result (λ names. IsLessonFor known.now batch.now (stream_of (messages_left known.now.roster known.now.state batch.now names.items))
        (record { roster = known.now.roster; state = state_left known.now.roster known.now.state batch.now names.items })) }
    ensures order { IfOk result (λ names. AreLinked (at_start (names_in known.now.state.slots)) requests.now keep.now →
        ((place : ℕ) → kept_over (links (names_in known.now.state.slots) requests.now keep.now) place ≤ slot_count - 1) →
        GoesThrough known.now batch.now keep.now (stream_of (messages_left known.now.roster known.now.state batch.now names.items))
        (state_left known.now.roster known.now.state batch.now names.items)) }
{
    // This call serves its clauses alone: they say that the roster is sound.
    let _tables = known.roster().tables();
    let (next, later, first) = next_kept(alloc, requests, keep)?;
    let mut slots = known.slots().copy(alloc)?;
    let mut retained = retained_first(&slots, &first);
    let mut likely_slots = vec![in alloc; None; requests.len()]?;
    let mut names = Vec::new(alloc);
    let mut index = 0;
    let mut before = None;
    for update in batch.updates() {
        let likely_slot = likely_slot(&likely_slots, index);
        let kept = mark_at(keep, index);
        let table = table_of(known, update, before);
        let stored = table.stores_name;
        let name = plan_name(&retained, &slots, update, stored, kept, likely_slot);
        let slot = use_name(alloc, &mut slots, update, name)?;
        note_likely_slot(&mut likely_slots, &later, index, slot);
        retain_or_free(&mut retained, &mut index, slot, next.as_slice());
        names.push(name)?;
        before = Some(table);
    }
    Ok(names)
}
