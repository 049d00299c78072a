//! Rows with their keys, in slots.

ghost use Rattle.std.specs.Prelude.{◌≡◌, [], OnOk, Some, None, option_copied, true};
ghost use Rattle.table_types.specs.declared.key.Key.{Key};
ghost use Rattle.table_types.specs.Rows.{StoredRow};
ghost use Rattle.table_stock.specs.Shelves.{UpdatesSlot, current, row_in};
ghost use Rattle.table_stock.specs.Slots.{link_in};

use crate::blocks::Blocks;
use std::alloc::Global;
use std::marker::Model;
use table_types::{Key, Memory, Row};

/// A slot, which has a row with its key or is vacant.
#[derive(Drop)]
enum Slot {
    /// The slot has no row. The number is that of the slot that was vacated before it.
    Vacant(u32),
    Taken((Key, Row)),
}

/// Rows with their keys, each in a slot of its own, which it keeps until it is taken out. The slots lie in blocks, so that no
/// row is moved when their number grows.
#[derive(Drop)]
pub(crate) struct Slots {
    slots: Blocks<Slot>,
    /// The slot that was vacated last. If it has a row again, no slot is vacant.
    vacated: u32,
}

impl Model for Slots {
    ghost use Rattle.std.specs.Prelude.{map};
    ghost use Rattle.table_stock.specs.Slots.{RowsInSlots, has_room_in, row_of, vacant_in};

    ghost Value = { RowsInSlots };

    ghost view = { λ s. record { rows = map row_of s.slots.items; vacant = vacant_in s.slots.items s.vacated; has_room = has_room_in s.slots s.vacated } };
}

/// Returns the slot that was vacated before `slot`, or `None` if that one isn't vacant.
fn link_of(slots: &Blocks<Slot>, slot: u32) -> Option<u32>
    ensures { result ≡ link_in slots.now.items slot }
{
    let Some(found) = slots.get(slot as usize) else {
        return None;
    };
    match found {
        Slot::Vacant(link) => Some(*link),
        Slot::Taken(_) => None,
    }
}

impl Slots {
    /// Makes slots without rows. Doesn't allocate.
    pub(crate) fn new(alloc: Global) -> Slots
        ensures { result.rows ≡ [] }
    {
        Slots {
            slots: Blocks::new(alloc),
            vacated: 0,
        }
    }

    /// Returns the row in `slot` with its key.
    pub(crate) fn get(&self, slot: u32) -> Option<&(Key, Row)>
        ensures { option_copied result ≡ row_in self.now.rows slot }
    {
        let Some(found) = self.slots.get(slot as usize) else {
            return None;
        };
        match found {
            Slot::Taken(row) => Some(row),
            Slot::Vacant(_) => None,
        }
    }

    /// Returns the row, with its key, of an entry of the log, a number with a slot: the row in that slot, if it has that number.
    pub(crate) fn row_of(&self, entry: (u32, u32)) -> Option<&(Key, Row)>
        ensures { option_copied result ≡ current (row_in self.now.rows) entry }
    {
        let Some(row) = self.get(entry.1) else {
            return None;
        };
        if row.1.number() == entry.0 {
            return Some(row);
        }
        None
    }

    /// Makes room for one more row, which changes no row. Fails if memory runs out, or if there are 2^32 slots.
    pub(crate) fn make_room(&mut self) -> Result<(), Memory>
        ensures room { OnOk result (self.new.has_room ≡ true) }
        ensures stays { self.new.rows ≡ self.old.rows }
    {
        if link_of(&self.slots, self.vacated).is_some() {
            return Ok(());
        }
        self.slots.reserve_one()?;
        if self.slots.len() > u32::MAX as usize {
            return Err(Memory);
        }
        Ok(())
    }

    /// Returns the slot of the next row, for which there is room.
    pub(crate) fn vacant(&self) -> u32
        requires { self.now.has_room ≡ true }
        ensures slot { result ≡ self.now.vacant }
        ensures vacant { row_in self.now.rows result ≡ None }
    {
        if link_of(&self.slots, self.vacated).is_some() {
            return self.vacated;
        }
        self.slots.len() as u32
    }

    /// Puts a row with its key into the slot that `vacant` returns. There must be room. Doesn't allocate.
    pub(crate) fn put(&mut self, key: Key, row: Row)
        requires { self.old.has_room ≡ true }
        ensures { UpdatesSlot self.old.rows self.new.rows self.old.vacant (Some (key, row)) }
    {
        let slot = Slot::Taken((key, row));
        let Some(link) = link_of(&self.slots, self.vacated) else {
            self.slots.push_reserved(slot);
            return;
        };
        self.slots.replace(self.vacated as usize, slot);
        self.vacated = link;
    }

    /// Puts a row with its key in place of the one in `slot`, and returns the row that was there. Doesn't allocate.
    pub(crate) fn replace(&mut self, slot: u32, key: Key, row: Row) -> Row
        requires { (e : Key × StoredRow) × (row_in self.old.rows slot ≡ Some e) }
        ensures older { (e : Key × StoredRow) → row_in self.old.rows slot ≡ Some e → result ≡ e.1 }
        ensures put { UpdatesSlot self.old.rows self.new.rows slot (Some (key, row)) }
    {
        match self.slots.replace(slot as usize, Slot::Taken((key, row))) {
            Slot::Taken((_, older)) => older,
            Slot::Vacant(_) => unreachable!(),
        }
    }

    /// Takes the row out of `slot`, if there is one. Doesn't allocate.
    pub(crate) fn take(&mut self, slot: u32)
        ensures { UpdatesSlot self.old.rows self.new.rows slot None }
    {
        if self.get(slot).is_none() {
            return;
        }
        self.slots
            .replace(slot as usize, Slot::Vacant(self.vacated));
        self.vacated = slot;
    }
}
