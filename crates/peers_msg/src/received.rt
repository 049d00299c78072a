//! The definitions received on a stream.

ghost use Rattle.std.specs.Prelude.{◌≡◌, ◌==◌, ℕ, List, None, IfOk, OnOk, OnErr, IsSome, option_copied, length, if◌then◌else◌};
ghost use Rattle.std.specs.BTreeMap.{IsOrdered, get, get_by};
ghost use Rattle.std.specs.Cmp.Lexicographic.{slice_cmp};
ghost use Rattle.std.specs.Map.{values_of};
ghost use Rattle.std.specs.Ordering.{nat_cmp};
ghost use Rattle.table_types.specs.Rosters.{table_at};
ghost use Rattle.peers_msg.specs.declared.message.Message.TheVariants as messages;
ghost use Rattle.peers_msg.specs.Received.{AreDistinct, defined, nothing_received, received_after, selected_table, resumed, table_above, table_named};
ghost use Rattle.peers_msg.specs.ReceivedIndex.{AreIndexed, has_that_name, is_id};
ghost use Rattle.peers_msg.specs.OwnTables.{own_part};

use crate::own_tables::is_own;
use std::alloc::Global;
use std::collections::BTreeMap;
use std::marker::Model;
use std::ops::Bound;
use table_types::{Memory, Roster, TableDef};

/// The definition of each id received, and the selected id: all that a decoder needs to know of earlier messages
/// (HAProxy, doc/peers-v2.0.txt, "Table Definition Message", "Table Switch Message"). Each call but `resume`, `own_part`
/// and `copy` takes time logarithmic in the number of tables.
#[derive(Debug, Drop)]
pub struct Received {
    alloc: Global,
    /// By id, with distinct names.
    tables: BTreeMap<u64, TableDef>,
    /// The id of the table of each name.
    names: BTreeMap<Vec<u8>, u64>,
    selected: Option<u64>,
}

impl Model for Received {
    ghost use Rattle.std.specs.BTreeMap.{get_by};
    ghost use Rattle.std.specs.Cmp.Lexicographic.{slice_cmp};
    ghost use Rattle.std.specs.Map.{values_of};
    ghost use Rattle.std.specs.Ordering.{nat_cmp};
    ghost use Rattle.peers_msg.specs.Received.{Received};
    ghost use Rattle.peers_msg.specs.ReceivedIndex.{AreIndexed};

    ghost Value = { Received };

    ghost view = { λ h. record { tables = values_of h.tables.entries; selected = h.selected } };

    ghost invariant = { λ h. AreIndexed h.tables.entries (λ name. get_by (λ key. slice_cmp nat_cmp name key.items) h.names) };
}

/// Returns whether there is an id, and it is this one.
fn is_id(one: Option<u64>, id: u64) -> bool
    ensures { result ≡ is_id one id }
{
    match one {
        Some(other) => id == other,
        None => false,
    }
}

/// Undoes an insertion at `id`, given the table that was there before.
fn put_back(tables: &mut BTreeMap<u64, TableDef>, id: u64, before: Option<TableDef>)
    requires { IsSome (get nat_cmp tables.old id) }
    ensures back { (other : ℕ) → get nat_cmp tables.new other ≡ (if other == id then before else get nat_cmp tables.old other) }
    ensures ordered { IsOrdered nat_cmp tables.new }
{
    match before {
        Some(table) => {
            let _put = tables.insert(id, table);
        }
        None => {
            tables.remove(&id);
        }
    }
}

/// Removes the table of an id, if there is an id.
fn remove_table(tables: &mut BTreeMap<u64, TableDef>, id: Option<u64>)
    ensures removed { (other : ℕ) → get nat_cmp tables.new other ≡ (if is_id id other then None else get nat_cmp tables.old other) }
    ensures ordered { IsOrdered nat_cmp tables.new }
{
    // The ids ascend, also if none is removed.
    let _count = tables.len();
    if let Some(id) = id {
        tables.remove(&id);
    }
}

/// Removes the name of a table, if there is a table.
fn remove_name(names: &mut BTreeMap<Vec<u8>, u64>, table: Option<TableDef>)
    ensures { (name : List ℕ) → get_by (λ key. slice_cmp nat_cmp name key.items) names.new
        ≡ (if has_that_name table name then None else get_by (λ key. slice_cmp nat_cmp name key.items) names.old) }
{
    if let Some(table) = table {
        names.remove(table.name());
    }
}

/// Sets the table of its id, and removes any other table of the same name. If memory runs out, both maps are as before.
fn define(
    alloc: Global,
    tables: &mut BTreeMap<u64, TableDef>,
    names: &mut BTreeMap<Vec<u8>, u64>,
    table: TableDef,
) -> Result<(), Memory>
    requires { AreIndexed tables.old.entries (λ name. get_by (λ key. slice_cmp nat_cmp name key.items) names.old) }
    ensures defined { OnOk result (values_of tables.new.entries ≡ defined table (values_of tables.old.entries)) }
    ensures stays { OnErr result (tables.new.entries ≡ tables.old.entries) }
    ensures indexed { AreIndexed tables.new.entries (λ name. get_by (λ key. slice_cmp nat_cmp name key.items) names.new) }
{
    let id = table.id();
    let name = Vec::from_slice(alloc, table.name())?;
    let before = tables.insert(id, table)?;
    let named = match names.insert(name, id) {
        Ok(named) => named,
        Err(_) => {
            put_back(tables, id, before);
            return Err(Memory);
        }
    };
    if is_id(named, id) {
        return Ok(());
    }
    remove_name(names, before);
    remove_table(tables, named);
    Ok(())
}

impl Received {
    /// Makes the state in which nothing was received. Doesn't allocate.
    pub fn new(alloc: Global) -> Received
        ensures { result ≡ nothing_received }
    {
        Received {
            alloc,
            tables: BTreeMap::new(alloc),
            names: BTreeMap::new(alloc),
            selected: None,
        }
    }

    /// Makes the state in which the roster's tables with the ids `defined` were defined, in this order, and `selected` was
    /// selected last. Skips ids that the roster lacks. Fails if memory runs out.
    pub fn resume(
        alloc: Global,
        roster: &Roster,
        defined: &[u64],
        selected: Option<u64>,
    ) -> Result<Received, Memory>
        ensures { IfOk result (λ received. received ≡ resumed roster.now defined.now selected) }
    {
        let mut received = Received::new(alloc);
        for id in defined {
            if let Some(table) = roster.table(*id) {
                received.define(table.copy(alloc)?)?;
            }
        }
        received.selected = selected;
        Ok(received)
    }

    /// Returns how many tables were received.
    pub fn count(&self) -> usize
        ensures count { result ≡ length self.now.tables }
        ensures distinct { AreDistinct self.now.tables }
    {
        self.tables.len()
    }

    /// Returns the selected id.
    pub fn selected(&self) -> Option<u64>
        ensures { result ≡ self.now.selected }
    {
        self.selected
    }

    /// Returns the table with the id `id`.
    pub fn table(&self, id: u64) -> Option<&TableDef>
        ensures { option_copied result ≡ table_at self.now.tables id }
    {
        self.tables.get(&id)
    }

    /// Returns the table with the least id above `id`. From 0 on, each call with the id that the last one found goes to the next table.
    pub fn table_above(&self, id: u64) -> Option<&TableDef>
        ensures { option_copied result ≡ table_above self.now.tables id }
    {
        let mut above = self.tables.range((Bound::Excluded(id), Bound::Unbounded));
        match above.next() {
            Some((_, table)) => Some(table),
            None => None,
        }
    }

    /// Returns the table with the name `name`.
    pub fn named(&self, name: &[u8]) -> Option<&TableDef>
        ensures named { option_copied result ≡ table_named self.now.tables name.now }
        ensures distinct { AreDistinct self.now.tables }
    {
        match self.names.get(name) {
            Some(id) => self.tables.get(id),
            None => None,
        }
    }

    /// Returns the selected table.
    pub fn selected_table(&self) -> Option<&TableDef>
        ensures { option_copied result ≡ selected_table self.now }
    {
        match self.selected {
            Some(id) => self.table(id),
            None => None,
        }
    }

    /// Receives a definition: sets the table of its id, selects it, and removes any other table of the same name.
    /// Changes nothing if memory runs out.
    pub fn define(&mut self, table: TableDef) -> Result<(), Memory>
        ensures received { OnOk result (self.new ≡ received_after self.old (messages.Define table)) }
        ensures stays { OnErr result (self.new ≡ self.old) }
    {
        let id = table.id();
        define(self.alloc, &mut self.tables, &mut self.names, table)?;
        self.selected = Some(id);
        Ok(())
    }

    /// Receives a switch: selects `id`.
    pub fn select(&mut self, id: u64)
        ensures { self.new ≡ received_after self.old (messages.Switch id) }
    {
        self.selected = Some(id);
    }

    /// Returns the part that belongs to the roster's own tables: the tables for which the roster has the very same
    /// definition at their id, and the selected id if it is one of theirs. Fails if memory runs out.
    pub fn own_part(&self, alloc: Global, roster: &Roster) -> Result<Received, Memory>
        ensures { IfOk result (λ part. part ≡ own_part roster.now self.now) }
    {
        let mut part = Received::new(alloc);
        for (_, table) in &self.tables {
            if is_own(roster, table) {
                part.define(table.copy(alloc)?)?;
            }
        }
        part.selected = self.own_selected(roster);
        Ok(part)
    }

    fn own_selected(&self, roster: &Roster) -> Option<u64>
        ensures { result ≡ (own_part roster.now self.now).selected }
    {
        match self.selected_table() {
            Some(table) if is_own(roster, table) => self.selected,
            _ => None,
        }
    }

    /// Returns an equal copy. Fails if memory runs out.
    pub fn copy(&self, alloc: Global) -> Result<Received, Memory>
        ensures { IfOk result (λ copy. copy ≡ self.now) }
    {
        let mut copy = Received::new(alloc);
        for (_, table) in &self.tables {
            copy.define(table.copy(alloc)?)?;
        }
        copy.selected = self.selected;
        Ok(copy)
    }
}
