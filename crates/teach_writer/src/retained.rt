//! Which slots hold a name that is retained.

ghost use Rattle.std.specs.Prelude.{◌≡◌, ◌≤◌, ◌-◌, ℕ, true, false, IsTrue, ◌↔◌, Some, IfSome, IsNone, option_copied, length, slice_set};
ghost use Rattle.dict_slots.specs.Slots.{slot_at};
ghost use Rattle.table_types.specs.SlotIds.{slot_count, is_slot};
ghost use Rattle.teach_writer.specs.Retained.{none_retained, Retains, IsFree};

use dict_slots::Slots;
use std::marker::Model;
use table_types::{Name, SLOT_COUNT};

/// Which slots of the dictionary hold a name that is retained for a later update, whose request is kept.
#[derive(Debug, Drop)]
pub struct Retained {
    flags: [bool; SLOT_COUNT],
}

impl Model for Retained {
    ghost use Rattle.std.specs.Prelude.{◌≡◌, Bool, List, length};
    ghost use Rattle.table_types.specs.SlotIds.{slot_count};

    ghost Value = { List Bool };

    ghost view = { λ k. k.flags };

    ghost invariant = { λ k. length k.flags ≡ slot_count };
}

/// Returns the lowest free slot, if there is one.
fn lowest_free(flags: &[bool; SLOT_COUNT]) -> Option<u8>
    ensures found { IfSome result (λ slot. IsFree flags.now slot) }
    ensures lowest { IfSome result (λ slot. (other : ℕ) → IsFree flags.now other → slot ≤ other) }
    ensures absent { IsNone result → (slot : ℕ) → IsFree flags.now slot → ⊥ }
{
    for (index, retained) in flags.iter().enumerate() {
        if !*retained {
            return Some(index as u8 + 1);
        }
    }
    None
}

fn is_held_name(held: Option<&Name>, name: &Name) -> bool
    ensures { IsTrue result ↔ (option_copied held.entry ≡ Some name.now) }
{
    match held {
        Some(held) => held.is_same(name),
        None => false,
    }
}

impl Retained {
    /// Returns the value in which no slot's name is retained.
    pub fn none() -> Retained
        ensures none { result ≡ none_retained }
        ensures count { length result ≡ slot_count }
    {
        Retained {
            flags: [false; SLOT_COUNT],
        }
    }

    /// Returns whether `name` is retained in `slot`, given what the slots hold.
    fn retains(&self, slots: &Slots, slot: u8, name: &Name) -> bool
        requires { is_slot slot ≡ true }
        ensures { IsTrue result ↔ Retains self.now slots.now slot name.now }
    {
        self.flags[usize::from(slot) - 1] && is_held_name(slots.name(slot), name)
    }

    /// Returns a slot in which `name` is retained, given what the slots hold; `None` if there is none, or if the name's
    /// request isn't kept. Tries `likely_slot` first, if there is one.
    pub fn find(
        &self,
        slots: &Slots,
        name: &Name,
        kept: bool,
        likely_slot: Option<u8>,
    ) -> Option<u8>
        requires likely_slot { IfSome likely_slot (λ slot. is_slot slot ≡ true) }
        ensures found { IfSome result (λ slot. Retains self.now slots.now slot name.now) }
        ensures absent { IsNone result → kept ≡ true → (slot : ℕ) → Retains self.now slots.now slot name.now → ⊥ }
    {
        if !kept {
            return None;
        }
        if let Some(slot) = likely_slot {
            if self.retains(slots, slot, name) {
                return Some(slot);
            }
        }
        for (index, retained) in self.flags.iter().enumerate() {
            let slot = index as u8 + 1;
            if *retained && is_held_name(slots.name(slot), name) {
                return Some(slot);
            }
        }
        None
    }

    /// Returns the lowest free slot, or the first slot if none is free.
    pub fn free(&self) -> u8
        ensures slot { is_slot result ≡ true }
        ensures lowest { (free : ℕ) → IsFree self.now free → IsFree self.now result × (result ≤ free) }
    {
        match lowest_free(&self.flags) {
            Some(slot) => slot,
            None => 1,
        }
    }

    /// Sets whether the name in `slot` is retained from here on.
    pub fn set(&mut self, slot: u8, retained: bool)
        requires { is_slot slot ≡ true }
        ensures set { self.new ≡ slice_set self.old (slot - 1) retained }
        ensures count { length self.new ≡ slot_count }
    {
        self.flags[usize::from(slot) - 1] = retained;
    }
}
