//! Rosters: the tables that a node keeps.

ghost use Rattle.std.specs.Prelude.{◌≡◌, None, IfOk, IfErr, MatchResult, Some, length, nat_eq, option_copied};
ghost use Rattle.table_types.specs.Rosters.{is_same_name, has_id, has_name, repeats_id, repeats_name, roster_fault, table_at};

use crate::items::Items;
use crate::memory::Memory;
use crate::table_def::TableDef;
use std::alloc::Global;
use std::marker::Model;
use thiserror::Error;

/// Why a roster was refused: the first of these that applies, in this order.
#[derive(Clone, Copy, Debug, PartialEq, Eq, Error)]
pub enum RosterError {
    /// There are no tables, or more than 64.
    #[error("a roster has 1 to 64 tables")]
    Count,
    /// Two tables have the same id.
    #[error("two tables have one id")]
    RepeatedId,
    /// Two tables have the same name.
    #[error("two tables have one name")]
    RepeatedName,
    /// Memory ran out. Never returned, since a roster keeps the `Vec` that it is made of.
    #[error("memory")]
    Memory,
}

/// The tables that a node keeps: 1 to 64, in the order given, with distinct ids and distinct names.
#[derive(Debug, Drop)]
pub struct Roster {
    tables: Items<TableDef>,
}

impl Model for Roster {
    ghost use Rattle.std.specs.Prelude.{List, ◌≡◌, None};
    ghost use Rattle.table_types.specs.Tables.{Definition};
    ghost use Rattle.table_types.specs.Rosters.{roster_fault};

    ghost Value = { List Definition };

    ghost view = { λ a. a.tables };

    ghost invariant = { λ a. roster_fault a.tables ≡ None };
}

/// Returns whether two names are the same, byte for byte.
pub fn is_same_name(one: &[u8], other: &[u8]) -> bool
    ensures { result ≡ is_same_name one.now other.now }
{
    one == other
}

/// Returns whether one of the tables has the id `id`.
pub fn has_id(tables: &[TableDef], id: u64) -> bool
    ensures { result ≡ has_id id tables.now }
{
    for table in tables {
        if table.id() == id {
            return true;
        }
    }
    false
}

fn has_name(tables: &[TableDef], name: &[u8]) -> bool
    ensures { result ≡ has_name name.now tables.now }
{
    for table in tables {
        if is_same_name(table.name(), name) {
            return true;
        }
    }
    false
}

fn repeats_id(tables: &[TableDef]) -> bool
    ensures { result ≡ repeats_id tables.now }
{
    for (index, table) in tables.iter().enumerate() {
        if has_id(&tables[index + 1..], table.id()) {
            return true;
        }
    }
    false
}

fn repeats_name(tables: &[TableDef]) -> bool
    ensures { result ≡ repeats_name tables.now }
{
    for (index, table) in tables.iter().enumerate() {
        if has_name(&tables[index + 1..], table.name()) {
            return true;
        }
    }
    false
}

/// Returns the first of the tables that has the id `id`.
pub fn table_at(tables: &[TableDef], id: u64) -> Option<&TableDef>
    ensures { option_copied result ≡ table_at tables.now id }
{
    for table in tables {
        if table.id() == id {
            return Some(table);
        }
    }
    None
}

impl Roster {
    /// The most tables that a roster can have.
    pub const MOST: usize = 64;

    /// Makes a roster of the tables, in this order.
    pub fn new(tables: Vec<TableDef>) -> Result<Roster, RosterError>
        ensures made { IfOk result (λ roster. (roster ≡ tables.items) × (roster_fault tables.items ≡ None)) }
        ensures refused { IfErr result (λ e. roster_fault tables.items ≡ Some e) }
    {
        if tables.is_empty() || tables.len() > Roster::MOST {
            return Err(RosterError::Count);
        }
        if repeats_id(tables.as_slice()) {
            return Err(RosterError::RepeatedId);
        }
        if repeats_name(tables.as_slice()) {
            return Err(RosterError::RepeatedName);
        }
        Ok(Roster {
            tables: Items::new(tables),
        })
    }

    /// Returns the tables, in the order given.
    pub fn tables(&self) -> &[TableDef]
        ensures tables { result.now ≡ self.now }
        ensures sound { roster_fault self.now ≡ None }
    {
        self.tables.as_slice()
    }

    /// Returns the table with the id `id`.
    pub fn table(&self, id: u64) -> Option<&TableDef>
        ensures found { option_copied result ≡ table_at self.now id }
        ensures sound { roster_fault self.now ≡ None }
    {
        table_at(self.tables.as_slice(), id)
    }

    /// Returns an equal copy. Fails if memory runs out.
    pub fn copy(&self, alloc: Global) -> Result<Roster, Memory>
        ensures { IfOk result (λ copy. copy ≡ self.now) }
    {
        let mut tables = Vec::with_capacity(alloc, self.tables.len())?;
        for table in self.tables.as_slice() {
            tables.push(table.copy(alloc)?)?;
        }
        Ok(Roster {
            tables: Items::new(tables),
        })
    }
}
