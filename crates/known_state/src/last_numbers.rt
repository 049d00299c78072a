//! The last number of each table.

ghost use Rattle.std.specs.Prelude.{◌≡◌, ℕ, not, List, IfOk, OnOk, OnErr, [], filter};
ghost use Rattle.table_types.specs.Rosters.{table_at};
ghost use Rattle.known_state.specs.LastNumbers.{last_of, set_last, keeps_last, own_last_numbers, is_lost, AreRising};
ghost use Rattle.peers_msg.specs.OwnTables.{is_own_one};
ghost use Rattle.peers_msg.specs.ReceivedIndex.{is_id};
ghost use Rattle.known_state.specs.Known.{last_numbers_put};

use peers_msg::{Received, is_own};
use std::alloc::Global;
use std::collections::BTreeMap;
use std::marker::Model;
use table_types::{Memory, Roster, TableDef};

/// The number of the last update of each table id that had one. Each call but `of`, `own_part` and `copy` takes time
/// logarithmic in the number of ids.
#[derive(Debug, Drop)]
pub struct LastNumbers {
    numbers: BTreeMap<u64, u32>,
}

impl Model for LastNumbers {
    ghost use Rattle.std.specs.Prelude.{List, ℕ};
    ghost use Rattle.known_state.specs.LastNumbers.{AreRising};

    ghost Value = { List (ℕ × ℕ) };

    ghost view = { λ a. a.numbers.entries };

    ghost invariant = { λ a. AreRising a.numbers.entries };
}

/// The ids that lose their last numbers at a definition.
#[derive(Clone, Copy, Debug)]
pub struct LostIds {
    /// The defined id, if it stood for no table of the new name.
    defined: Option<u64>,
    /// The id of another table, of which the new one takes the name.
    other: Option<u64>,
}

impl LostIds {
    /// Returns the ids that lose their last numbers at the definition `new`, given what was received of the tables before
    /// it.
    pub fn at(new: &TableDef, received: &Received) -> LostIds
        ensures { (numbers : List (ℕ × ℕ)) → filter (λ last. not (is_lost result last.0)) numbers
            ≡ filter (λ last. keeps_last new.now (table_at received.now.tables last.0) last.0) numbers }
    {
        let id = new.id();
        let Some(table) = received.named(new.name()) else {
            return LostIds {
                defined: Some(id),
                other: None,
            };
        };
        let named = table.id();
        if named == id {
            return LostIds {
                defined: None,
                other: None,
            };
        }
        LostIds {
            defined: Some(id),
            other: Some(named),
        }
    }
}

/// Removes the last number of an id, if there is an id.
fn remove(numbers: &mut BTreeMap<u64, u32>, id: Option<u64>)
    requires { AreRising numbers.old.entries }
    ensures { numbers.new.entries ≡ filter (λ last. not (is_id id last.0)) numbers.old.entries }
{
    if let Some(id) = id {
        numbers.remove(&id);
    }
}

/// Returns whether an id stands for a definition that is the roster's own.
fn is_own_id(received: &Received, roster: &Roster, id: u64) -> bool
    ensures { result ≡ is_own_one roster.now (table_at received.now.tables id) }
{
    match received.table(id) {
        Some(table) => is_own(roster, table),
        None => false,
    }
}

impl LastNumbers {
    /// Returns last numbers of no table. Doesn't allocate.
    pub fn new(alloc: Global) -> LastNumbers
        ensures { result ≡ [] }
    {
        LastNumbers {
            numbers: BTreeMap::new(alloc),
        }
    }

    /// Returns these last numbers, put one after another.
    pub fn of(alloc: Global, last_numbers: &[(u64, u32)]) -> Result<LastNumbers, Memory>
        ensures { IfOk result (λ made. made ≡ last_numbers_put last_numbers.now) }
    {
        let mut made = LastNumbers::new(alloc);
        for last in last_numbers {
            made.set(last.0, last.1)?;
        }
        Ok(made)
    }

    /// Returns the last number of a table, if it has one.
    pub fn last(&self, id: u64) -> Option<u32>
        ensures { result ≡ last_of self.now id }
    {
        self.numbers.get(&id).copied()
    }

    /// Makes `number` the last one of the table `id`. After `Memory` nothing has changed.
    pub fn set(&mut self, id: u64, number: u32) -> Result<(), Memory>
        ensures set { OnOk result (self.new ≡ set_last id number self.old) }
        ensures stays { OnErr result (self.new ≡ self.old) }
    {
        self.numbers.insert(id, number)?;
        Ok(())
    }

    /// Drops the last numbers that the definition `new` takes away, given what was received of the tables before it.
    pub fn define(&mut self, new: &TableDef, received: &Received)
        ensures { self.new
            ≡ filter (λ last. keeps_last new.now (table_at received.now.tables last.0) last.0) self.old }
    {
        self.forget(LostIds::at(new, received));
    }

    /// Drops the last numbers of these ids.
    pub fn forget(&mut self, lost: LostIds)
        ensures { self.new ≡ filter (λ last. not (is_lost lost last.0)) self.old }
    {
        remove(&mut self.numbers, lost.defined);
        remove(&mut self.numbers, lost.other);
    }

    /// Returns the last numbers of the roster's own tables: of the ids that stand in `received` for that very
    /// definition.
    pub fn own_part(
        &self,
        alloc: Global,
        received: &Received,
        roster: &Roster,
    ) -> Result<LastNumbers, Memory>
        ensures part { IfOk result (λ part. part ≡ own_last_numbers roster.now received.now self.now) }
        ensures rising { AreRising self.now }
    {
        let mut part = LastNumbers::new(alloc);
        for (id, number) in &self.numbers {
            if is_own_id(received, roster, *id) {
                part.set(*id, *number)?;
            }
        }
        Ok(part)
    }

    /// Returns equal last numbers.
    pub fn copy(&self, alloc: Global) -> Result<LastNumbers, Memory>
        ensures { IfOk result (λ copy. copy ≡ self.now) }
    {
        let mut copy = LastNumbers::new(alloc);
        for (id, number) in &self.numbers {
            copy.set(*id, *number)?;
        }
        Ok(copy)
    }
}
