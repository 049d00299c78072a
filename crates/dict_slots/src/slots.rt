//! The slots of the dictionary of server names.

ghost use Rattle.std.specs.Prelude.{◌≡◌, ◌≤◌, ◌-◌, ℕ, Some, IfOk, IfSome, IsNone, true, IsTrue, ◌↔◌, option_copied, length, slice_set};
ghost use Rattle.dict_slots.specs.Slots.{no_names, slot_at, Holds};
ghost use Rattle.table_types.specs.SlotIds.{slot_count, is_slot};

use std::alloc::Global;
use std::marker::Model;
use table_types::{Memory, Name, SLOT_COUNT};

/// The dictionary of server names of one direction of a session: slots 1 to 128, each empty or with a name. The slots
/// are stored inline, so only the names take memory.
#[derive(Debug, Drop)]
pub struct Slots {
    names: [Option<Name>; SLOT_COUNT],
}

impl Model for Slots {
    ghost use Rattle.std.specs.Prelude.{◌≡◌, List, Option, ℕ, length};
    ghost use Rattle.table_types.specs.SlotIds.{slot_count};

    ghost Value = { List (Option (List ℕ)) };

    ghost view = { λ a. a.names };

    ghost invariant = { λ a. length a.names ≡ slot_count };
}

fn holds(slot: &Option<Name>, name: &Name) -> bool
    ensures { IsTrue result ↔ (slot.now ≡ Some name.now) }
{
    match slot {
        Some(held) => held.is_same(name),
        None => false,
    }
}

fn no_names() -> [Option<Name>; SLOT_COUNT]
    ensures { result ≡ no_names }
{
    Default::default()
}

impl Slots {
    /// The number of slots, which is also the greatest slot id.
    pub const COUNT: u8 = SLOT_COUNT as u8;

    /// Returns slots that are all empty. Doesn't allocate.
    pub fn new(_alloc: Global) -> Slots
        ensures { result ≡ no_names }
    {
        Slots { names: no_names() }
    }

    /// Returns the number of slots: 128.
    pub fn len(&self) -> usize
        ensures count { result ≡ length self.now }
        ensures all { result ≡ slot_count }
    {
        self.names.as_slice().len()
    }

    /// Returns the lowest slot that holds `name`, or `None` if no slot does.
    pub fn find(&self, name: &Name) -> Option<u8>
        ensures found { IfSome result (λ slot. Holds self.now slot name.now) }
        ensures lowest { IfSome result (λ slot. (other : ℕ) → Holds self.now other name.now → slot ≤ other) }
        ensures absent { IsNone result → (slot : ℕ) → Holds self.now slot name.now → ⊥ }
        ensures count { length self.now ≡ slot_count }
    {
        for (index, held) in self.names.iter().enumerate() {
            if holds(held, name) {
                return Some(index as u8 + 1);
            }
        }
        None
    }

    /// Returns the name in slot `id`, 1 to 128, or `None` if the slot is empty.
    pub fn name(&self, id: u8) -> Option<&Name>
        requires slot { is_slot id ≡ true }
        ensures held { option_copied result ≡ slot_at self.now id }
        ensures count { length self.now ≡ slot_count }
    {
        self.names[usize::from(id) - 1].as_ref()
    }

    /// Writes a name into slot `id`, 1 to 128, and returns the one it held before. Doesn't allocate.
    pub fn write(&mut self, id: u8, name: Name) -> Option<Name>
        requires slot { is_slot id ≡ true }
        ensures old { result ≡ slot_at self.old id }
        ensures written { self.new ≡ slice_set self.old (id - 1) (Some name) }
        ensures count { length self.new ≡ slot_count }
    {
        self.names[usize::from(id) - 1].replace(name)
    }

    /// Returns an equal copy. Fails if memory runs out.
    pub fn copy(&self, alloc: Global) -> Result<Slots, Memory>
        ensures { IfOk result (λ copy. copy ≡ self.now) }
    {
        let mut copy = Slots::new(alloc);
        for (index, held) in self.names.iter().enumerate() {
            copy.names[index] = Name::copy_of(alloc, held)?;
        }
        Ok(copy)
    }
}
