//! The state of one direction of a session.

ghost use Rattle.std.specs.Prelude.{◌≡◌, ◌≢◌, ◌-◌, true, false, None, Some, Err, IfOk, IfErr, IfSome, OnOk, OnErr, option_copied, option_map, slice_set};
ghost use Rattle.table_types.specs.Names.{is_name};
ghost use Rattle.dict_slots.specs.Slots.{no_names, slot_at};
ghost use Rattle.peers_msg.specs.Borrowed.{owned_name, is_named};
ghost use Rattle.known_state.specs.LastNumbers.{last_of};
ghost use Rattle.known_state.specs.State.{fresh, resolved_number, reads_empty, name_of};
ghost use Rattle.known_state.specs.Effects.{Resolves, made, refusal_of, selected_number, slots_with};
ghost use Rattle.known_state.specs.declared.effect.Effect.TheVariants as effects;
ghost use Rattle.known_state.specs.declared.effect.Refusal.{Refusal};
ghost use Rattle.known_state.specs.declared.effect.ResolvedUpdate.{ResolvedUpdate};
ghost use Rattle.known_state.specs.declared.effect.Refusal.TheVariants as refusals;

use crate::effect::{Effect, Refusal, ResolvedUpdate};
use crate::last_numbers::{LastNumbers, LostIds};
use dict_slots::Slots;
use peers_msg::{NameFieldRef, Received};
use std::alloc::Global;
use std::marker::Model;
use table_types::{Memory, Name, TableDef};

/// The state of one direction of a session: the tables received, the last number of each, and the slots of the
/// dictionary of server names. Each message makes a step (HAProxy, doc/peers-v2.0.txt, "Stick Table Messages"): its
/// `Effect`, or the reason to refuse it, is found first, and then the effect is made.
#[derive(Debug, Drop)]
pub struct State {
    alloc: Global,
    received: Received,
    last_numbers: LastNumbers,
    slots: Slots,
}

impl Model for State {
    ghost use Rattle.known_state.specs.State.{State};

    ghost Value = { State };

    ghost view = { λ s. record { received = s.received; last_numbers = s.last_numbers; slots = s.slots } };
}

/// Returns the number of an update: its own, or one more than `last`, modulo 2^32.
fn resolved_number(number: Option<u32>, last: Option<u32>) -> Option<u32>
    ensures { result ≡ resolved_number number last }
{
    match (number, last) {
        (Some(number), _) => Some(number),
        (None, Some(last)) => Some(last.wrapping_add(1)),
        (None, None) => None,
    }
}

/// Returns the name that a slot holds. Slot 0, which no message has, counts as slot 1; slots above 128 hold no name.
fn held(slots: &Slots, slot: u8) -> Option<&Name>
    ensures { option_copied result ≡ slot_at slots.now slot }
{
    if usize::from(slot) > slots.len() {
        return None;
    }
    slots.name(slot.max(1))
}

/// Writes a name into its slot. Slot 0, which no message has, counts as slot 1; nothing is written to slots above 128.
fn write(slots: &mut Slots, written: Option<(u8, Name)>)
    ensures { slots.new ≡ slots_with slots.old written }
{
    let Some((slot, name)) = written else {
        return;
    };
    if usize::from(slot) > slots.len() {
        return;
    }
    let _old = slots.write(slot.max(1), name);
}

impl State {
    /// Returns the state in which nothing was received. Doesn't allocate.
    pub fn new(alloc: Global) -> State
        ensures { result ≡ fresh }
    {
        State::of(
            alloc,
            Received::new(alloc),
            LastNumbers::new(alloc),
            Slots::new(alloc),
        )
    }

    /// Returns the state with these parts.
    pub fn of(alloc: Global, received: Received, last_numbers: LastNumbers, slots: Slots) -> State
        ensures { result ≡ record { received = received; last_numbers = last_numbers; slots = slots } }
    {
        State {
            alloc,
            received,
            last_numbers,
            slots,
        }
    }

    /// Returns what was received: the tables defined, and the one selected.
    pub fn received(&self) -> &Received
        ensures { result.now ≡ self.now.received }
    {
        &self.received
    }

    /// Returns the last number of each table.
    pub fn last_numbers(&self) -> &LastNumbers
        ensures { result.now ≡ self.now.last_numbers }
    {
        &self.last_numbers
    }

    /// Returns the slots of the dictionary of server names.
    pub fn slots(&self) -> &Slots
        ensures { result.now ≡ self.now.slots }
    {
        &self.slots
    }

    /// Returns the selected id, and the number of an update of its table: its own, or one more than the table's last,
    /// modulo 2^32. `None` if no table is selected, or for an incremental update of a table that has no last number.
    pub fn number(&self, number: Option<u32>) -> Option<(u64, u32)>
        ensures table { IfSome result (λ found. self.now.received.selected ≡ Some found.0) }
        ensures number { option_map (λ found. found.1) result ≡ selected_number self.now number }
    {
        match self.received.selected() {
            Some(table) => match resolved_number(number, self.last_numbers.last(table)) {
                Some(number) => Some((table, number)),
                None => None,
            },
            None => None,
        }
    }

    fn reads_empty(&self, field: NameFieldRef<'_>) -> bool
        ensures { result ≡ reads_empty self.now.slots (owned_name field.entry) }
    {
        match field {
            NameFieldRef::Held(slot) => held(&self.slots, slot).is_none(),
            NameFieldRef::NotStored | NameFieldRef::NoName | NameFieldRef::Written(_, _) => false,
        }
    }

    /// Returns the name that a field gives: the one written, or the one its slot holds; `None` if the field has no name
    /// or reads an empty slot.
    pub fn name<'a>(&'a self, field: NameFieldRef<'a>) -> Option<&'a [u8]>
        requires { is_named (owned_name field) ≡ true }
        ensures name { option_map (λ name. name.now) result ≡ name_of self.now.slots (owned_name field.entry) }
        ensures named { IfSome result (λ name. is_name name.now ≡ true) }
    {
        match field {
            NameFieldRef::NotStored | NameFieldRef::NoName => None,
            NameFieldRef::Held(slot) => match held(&self.slots, slot) {
                Some(name) => Some(name.as_slice()),
                None => None,
            },
            NameFieldRef::Written(_, name) => Some(name),
        }
    }

    /// Returns the selected id, and the number to which an update with `number` and the name field `field` resolves; or
    /// why it is refused: `NoNumber` before `EmptySlot`.
    fn numbered(&self, number: Option<u32>, field: NameFieldRef<'_>) -> Result<(u64, u32), Refusal>
        ensures table { IfOk result (λ found. self.now.received.selected ≡ Some found.0) }
        ensures number { IfOk result (λ found. resolved_number number (last_of self.now.last_numbers found.0) ≡ Some found.1) }
        ensures reads { IfOk result (λ _. reads_empty self.now.slots (owned_name field.entry) ≡ false) }
        ensures refused { IfErr result (λ e. refusal_of self.now number (owned_name field.entry) ≡ Some e) }
    {
        match self.number(number) {
            None => Err(Refusal::NoNumber),
            Some(_) if self.reads_empty(field) => Err(Refusal::EmptySlot),
            Some(found) => Ok(found),
        }
    }

    /// Returns why an update with `number` and the name field `field` is refused, if it is. Doesn't allocate.
    pub fn refusal(&self, number: Option<u32>, field: NameFieldRef<'_>) -> Option<Refusal>
        ensures { result ≡ refusal_of self.now number (owned_name field.entry) }
    {
        match self.numbered(number, field) {
            Ok(_) => None,
            Err(refusal) => Some(refusal),
        }
    }

    /// Returns what an update with `number` and the name field `field` does to the state, which doesn't change yet.
    /// Copies the name if the update writes one.
    ///
    /// Errors, in this order: `NoNumber`, `EmptySlot`, `Memory`.
    pub fn resolve(
        &self,
        number: Option<u32>,
        field: NameFieldRef<'_>,
    ) -> Result<ResolvedUpdate, Refusal>
        requires { is_named (owned_name field) ≡ true }
        ensures resolved { IfOk result (λ update. Resolves self.now number (owned_name field.entry) update) }
        ensures refused { IfErr result (λ e. e ≢ refusals.Memory → refusal_of self.now number (owned_name field.entry) ≡ Some e) }
        ensures exactly { (e : Refusal) → refusal_of self.now number (owned_name field.entry) ≡ Some e → result ≡ Err e }
    {
        match self.numbered(number, field) {
            Ok((table, number)) => {
                let field = field.to_owned(self.alloc)?;
                Ok(ResolvedUpdate::of(table, number, field))
            }
            Err(refusal) => Err(refusal),
        }
    }

    /// Applies an update with `number` and the name field `field` that isn't refused. Copies the name if the update writes
    /// one. After `Memory` nothing has changed.
    pub(crate) fn follow_update(
        &mut self,
        number: Option<u32>,
        field: NameFieldRef<'_>,
    ) -> Result<(), Memory>
        requires named { is_named (owned_name field) ≡ true }
        requires unrefused { refusal_of self.old number (owned_name field) ≡ None }
        ensures made { OnOk result ((update : ResolvedUpdate) × Resolves self.old number (owned_name field.entry) update
            × (self.new ≡ made self.old (effects.Update update))) }
        ensures stays { OnErr result (self.new ≡ self.old) }
    {
        match self.resolve(number, field) {
            Ok(update) => self.make_update(update),
            Err(Refusal::Memory) => Err(Memory),
            Err(Refusal::NoNumber | Refusal::EmptySlot) => unreachable!(),
        }
    }

    /// Applies an effect. After `Memory` nothing has changed.
    pub fn make(&mut self, effect: Effect) -> Result<(), Memory>
        ensures made { OnOk result (self.new ≡ made self.old effect) }
        ensures stays { OnErr result (self.new ≡ self.old) }
    {
        match effect {
            Effect::Nothing => Ok(()),
            Effect::Define(table) => self.define(table),
            Effect::Select(id) => {
                self.received.select(id);
                Ok(())
            }
            Effect::Update(update) => self.make_update(update),
        }
    }

    fn define(&mut self, table: TableDef) -> Result<(), Memory>
        ensures made { OnOk result (self.new ≡ made self.old (effects.Define table)) }
        ensures stays { OnErr result (self.new ≡ self.old) }
    {
        let lost = LostIds::at(&table, &self.received);
        self.received.define(table)?;
        self.last_numbers.forget(lost);
        Ok(())
    }

    fn make_update(&mut self, update: ResolvedUpdate) -> Result<(), Memory>
        ensures made { OnOk result (self.new ≡ made self.old (effects.Update update)) }
        ensures stays { OnErr result (self.new ≡ self.old) }
    {
        self.last_numbers.set(update.table, update.number)?;
        write(&mut self.slots, update.written);
        Ok(())
    }

    /// Empties the slots of the dictionary of server names. Doesn't allocate.
    pub(crate) fn forget_names(&mut self)
        ensures { self.new ≡ record self.old { slots = no_names } }
    {
        self.slots = Slots::new(self.alloc);
    }

    /// Returns an equal state.
    pub fn copy(&self, alloc: Global) -> Result<State, Memory>
        ensures { IfOk result (λ copy. copy ≡ self.now) }
    {
        let received = self.received.copy(alloc)?;
        let last_numbers = self.last_numbers.copy(alloc)?;
        Ok(State::of(alloc, received, last_numbers, self.slots.copy(alloc)?))
    }
}
