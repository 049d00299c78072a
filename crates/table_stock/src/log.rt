//! The log of a stock: the numbers of its rows with their slots.

ghost use Rattle.std.specs.Prelude.{◌≡◌, ◌≤◌, ◌<◌, ◌+◌, ◌∷◌, ◌++◌, ℕ, [], OnOk, Some, drop, filter, get_or, length, nat_lt, slice_get, take, true};
ghost use Rattle.table_stock.specs.Shelves.{IsSwept, LogRises, has_room_at, row_in};

use crate::blocks::Blocks;
use crate::slots::Slots;
use std::alloc::Global;
use std::marker::Model;
use table_types::Memory;

/// How many entries a log may have besides two for each row before it is swept.
const SPARE: usize = 64;

/// How many entries each step of a sweep looks at.
const STEP: usize = 4;

/// The numbers that were assigned, each with the slot of its row, in ascending order of number. An entry is stale once its
/// slot has no row with its number. Nothing is written for that: a sweep goes through the log, some entries at each change,
/// and leaves the stale ones out. The entries lie in blocks, which a sweep fills again, so no call moves or frees them all.
#[derive(Drop)]
pub(crate) struct Log {
    entries: Blocks<(u32, u32)>,
    /// How many entries at the front the sweep has kept. Those after them, below `unswept`, are no part of the log.
    kept: usize,
    /// The index of the first entry that the sweep hasn't looked at, or 0 if there is no sweep.
    unswept: usize,
    /// The index after the last entry. What lies there is written over.
    end: usize,
}

impl Model for Log {
    ghost use Rattle.std.specs.Prelude.{◌≤◌, length, take};
    ghost use Rattle.table_stock.specs.Shelves.{ListInLog, has_room_at, logged_in};

    ghost Value = { ListInLog };

    ghost view = { λ l. record { entries = logged_in (take l.end l.entries.items) l.kept l.unswept; has_room = has_room_at l.entries l.end } };

    ghost invariant = { λ l. (l.kept ≤ l.unswept) × (l.unswept ≤ l.end) × (l.end ≤ length l.entries.items) };
}

/// Puts `entry` at `end`, in place of an old one if there is one there, and returns the end after it. There must be room.
/// Doesn't allocate.
fn put_at(entries: &mut Blocks<(u32, u32)>, end: usize, entry: (u32, u32)) -> usize
    requires within { end ≤ length entries.old.items }
    requires room { has_room_at entries.old end ≡ true }
    ensures end { result ≡ end + 1 }
    ensures within { result ≤ length entries.new.items }
    ensures put { take (end + 1) entries.new.items ≡ take end entries.old.items ++ entry ∷ [] }
{
    if end < entries.len() {
        entries.replace(end, entry);
        return end + 1;
    }
    entries.push_reserved(entry);
    entries.len()
}

impl Log {
    /// Makes a log without entries. Doesn't allocate.
    pub(crate) fn new(alloc: Global) -> Log
        ensures { result.entries ≡ [] }
    {
        Log {
            entries: Blocks::new(alloc),
            kept: 0,
            unswept: 0,
            end: 0,
        }
    }

    /// Returns the number of entries.
    pub(crate) fn len(&self) -> usize
        ensures { result ≡ length self.now.entries }
    {
        self.end - (self.unswept - self.kept)
    }

    /// Returns the entry at `index`, or `None` if there is none.
    pub(crate) fn get(&self, index: usize) -> Option<(u32, u32)>
        ensures { result ≡ slice_get self.now.entries index }
    {
        if index < self.kept {
            return self.entries.get(index).copied();
        }
        let after = index - self.kept;
        let count = self.end - self.unswept;
        if after >= count {
            return None;
        }
        // As far before the end as in the log.
        self.entries.get(self.end - (count - after)).copied()
    }

    /// Makes room for one more entry, which changes no entry.
    pub(crate) fn make_room(&mut self) -> Result<(), Memory>
        ensures room { OnOk result (self.new.has_room ≡ true) }
        ensures stays { self.new.entries ≡ self.old.entries }
    {
        if self.end < self.entries.len() {
            return Ok(());
        }
        self.entries.reserve_one()?;
        Ok(())
    }

    /// Adds `number` with the slot of its row, for which there is room. Doesn't allocate.
    pub(crate) fn push(&mut self, number: u32, slot: u32)
        requires { self.old.has_room ≡ true }
        ensures { self.new.entries ≡ self.old.entries ++ (number, slot) ∷ [] }
    {
        self.end = put_at(&mut self.entries, self.end, (number, slot));
    }

    /// Looks at the next entry, and leaves it out if it is stale. Returns whether there was one; the sweep ends if not.
    fn sweep_one(&mut self, slots: &Slots) -> bool
        ensures { IsSwept (row_in slots.now.rows) self.old.entries self.new.entries }
    {
        if self.unswept >= self.end {
            self.end = self.kept;
            self.kept = 0;
            self.unswept = 0;
            return false;
        }
        let Some(entry) = self.entries.get(self.unswept).copied() else {
            return false;
        };
        self.unswept += 1;
        if slots.row_of(entry).is_none() {
            return true;
        }
        self.entries.replace(self.kept, entry);
        self.kept += 1;
        true
    }

    /// Sweeps some entries, if a sweep has begun, or if the log is long for so many rows. Doesn't allocate.
    pub(crate) fn sweep(&mut self, slots: &Slots, rows: usize)
        ensures { IsSwept (row_in slots.now.rows) self.old.entries self.new.entries }
    {
        if self.unswept == 0 && self.end / 2 < rows.saturating_add(SPARE / 2) {
            return;
        }
        for _ in 0..STEP {
            if !self.sweep_one(slots) {
                return;
            }
        }
    }

    /// Returns whether the entry at `index` is above `number`.
    fn is_above(&self, number: u32, index: usize) -> bool
        requires { index < length self.now.entries }
        ensures { (d : ℕ × ℕ) → result ≡ nat_lt number (get_or self.now.entries index d).0 }
    {
        match self.get(index) {
            Some(entry) => entry.0 > number,
            None => unreachable!(),
        }
    }

    /// Returns the index of the first entry above `number`, by a binary search.
    pub(crate) fn first_above(&self, number: u32) -> usize
        ensures { (least next : ℕ) → LogRises least next self.now.entries → drop result self.now.entries ≡ filter (λ entry. nat_lt number entry.0) self.now.entries }
    {
        let mut low = 0;
        let mut high = self.len();
        while low < high {
            let middle = low + (high - low) / 2;
            if self.is_above(number, middle) {
                high = middle;
            } else {
                low = middle + 1;
            }
        }
        low
    }
}
