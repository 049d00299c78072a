//! Batches: updates that are taught together.

ghost use Rattle.std.specs.Prelude.{◌≡◌, ◌≢◌, ◌↔◌, ◌+◌, ◌≤◌, ◌∷◌, [], List, None, Err, IfOk, IfErr, IsTrue, Some, length, option_copied};
ghost use Rattle.table_types.specs.declared.batch.BatchError.{BatchError};
ghost use Rattle.table_types.specs.declared.batch.BatchError.TheVariants as errors;
ghost use Rattle.table_types.specs.Batches.{fault_in, batch_fault, faults_from, IsBatchFor};
ghost use Rattle.table_types.specs.Rosters.{table_at};
ghost use Rattle.table_types.specs.Tables.{Definition};

use crate::items::Items;
use crate::memory::Memory;
use crate::roster::Roster;
use crate::table_def::TableDef;
use crate::update::{Update, are_same_updates};
use std::alloc::Global;
use std::marker::Model;
use std::sync::Arc;
use thiserror::Error;

/// Why a batch was refused. `TooMany` comes first. Otherwise the error names the least index with a fault, counted from
/// 0, and the first of `NoTable` and `Misfit` that applies there.
#[derive(Clone, Copy, Debug, PartialEq, Eq, Error)]
pub enum BatchError {
    /// There are more than 4,096 updates.
    #[error("a batch has at most 4096 updates")]
    TooMany,
    /// The roster has no table with the id of the update at this index.
    #[error("update {0} is of a table that the roster lacks")]
    NoTable(usize),
    /// The key, values, name or life of the update at this index doesn't fit its table.
    #[error("update {0} doesn't fit its table")]
    Misfit(usize),
    /// Memory ran out.
    #[error("memory")]
    Memory,
}

impl From<Memory> for BatchError {
    ghost from_gives = { λ _ e. e ≡ errors.Memory };

    fn from(_refused: Memory) -> BatchError {
        BatchError::Memory
    }
}

/// At most 4,096 updates that fit the tables of the roster for which the batch was made. Copies of a batch share its
/// updates.
#[derive(Debug, Drop)]
pub struct Batch {
    updates: Arc<Items<Update>, Global>,
}

impl Model for Batch {
    ghost use Rattle.std.specs.Prelude.{List, ◌≤◌, length};
    ghost use Rattle.std.specs.Arc.{arc_value};
    ghost use Rattle.table_types.specs.declared.update.Update.{Update};

    ghost Value = { List Update };

    ghost view = { λ a. arc_value a.updates };

    ghost invariant = { λ a. length (arc_value a.updates) ≤ 4096 };
}

fn fault_in(table: Option<&TableDef>, index: usize, update: &Update) -> Option<BatchError>
    ensures { result ≡ fault_in index (option_copied table.entry) update.now }
{
    match table {
        None => Some(BatchError::NoTable(index)),
        Some(table) if !table.fits(update) => Some(BatchError::Misfit(index)),
        Some(_) => None,
    }
}

fn fault_of(roster: &Roster, updates: &[Update]) -> Option<BatchError>
    ensures { result ≡ faults_from 0 roster.now updates.now }
{
    for (index, update) in updates.iter().enumerate() {
        let fault = fault_in(roster.table(update.table), index, update);
        if fault.is_some() {
            return fault;
        }
    }
    None
}

/// Returns the table if its id is `id`.
fn only_table(table: &TableDef, id: u64) -> Option<&TableDef>
    ensures { option_copied result ≡ table_at (table.now ∷ []) id }
{
    if table.id() == id { Some(table) } else { None }
}

fn fault_of_table(table: &TableDef, updates: &[Update]) -> Option<BatchError>
    ensures { result ≡ faults_from 0 (table.now ∷ []) updates.now }
{
    for (index, update) in updates.iter().enumerate() {
        let fault = fault_in(only_table(table, update.table), index, update);
        if fault.is_some() {
            return fault;
        }
    }
    None
}

impl Batch {
    /// The most updates that a batch can have.
    pub const MOST: usize = 4096;

    /// Makes a batch of the updates, in this order, for `roster`. Refuses updates that don't fit the roster, as
    /// `BatchError` says.
    pub fn new(alloc: Global, roster: &Roster, updates: Vec<Update>) -> Result<Batch, BatchError>
        ensures made { IfOk result (λ batch. (batch ≡ updates.items) × IsBatchFor roster.now updates.items) }
        ensures refused { IfErr result (λ e. e ≢ errors.Memory → batch_fault roster.now updates.items ≡ Some e) }
        ensures exactly { (e : BatchError) → batch_fault roster.now updates.items ≡ Some e → result ≡ Err e }
    {
        if updates.len() > Batch::MOST {
            return Err(BatchError::TooMany);
        }
        if let Some(fault) = fault_of(roster, updates.as_slice()) {
            return Err(fault);
        }
        Ok(Batch::of_fitting(alloc, updates)?)
    }

    /// Makes a batch of the updates, in this order, all of them of one table. It is a batch for every roster that has
    /// this table at its id (`a_batch_of_one_table`).
    pub fn of_table(
        alloc: Global,
        table: &TableDef,
        updates: Vec<Update>,
    ) -> Result<Batch, BatchError>
        ensures made { IfOk result (λ batch. (batch ≡ updates.items) × IsBatchFor (table.now ∷ []) updates.items) }
        ensures refused { IfErr result (λ e. e ≢ errors.Memory → batch_fault (table.now ∷ []) updates.items ≡ Some e) }
        ensures exactly { (e : BatchError) → batch_fault (table.now ∷ []) updates.items ≡ Some e → result ≡ Err e }
    {
        if updates.len() > Batch::MOST {
            return Err(BatchError::TooMany);
        }
        if let Some(fault) = fault_of_table(table, updates.as_slice()) {
            return Err(fault);
        }
        Ok(Batch::of_fitting(alloc, updates)?)
    }

    /// Makes a batch of the updates, in this order. They must be a batch for some roster, and aren't tested.
    pub fn of_fitting(alloc: Global, updates: Vec<Update>) -> Result<Batch, Memory>
        requires { (roster : List Definition) × IsBatchFor roster updates.items }
        ensures { IfOk result (λ batch. batch ≡ updates.items) }
    {
        match Arc::new(alloc, Items::new(updates)) {
            Ok(updates) => Ok(Batch { updates }),
            Err(_) => Err(Memory),
        }
    }

    /// Returns whether the batch is one for `roster`, whatever roster or table it was made for.
    pub fn is_for(&self, roster: &Roster) -> bool
        ensures { IsTrue result ↔ IsBatchFor roster.now self.now }
    {
        fault_of(roster, self.updates()).is_none()
    }

    /// Returns whether both have the same updates in the same order.
    pub fn is_same(&self, other: &Batch) -> bool
        ensures { IsTrue result ↔ (self.now ≡ other.now) }
    {
        are_same_updates(self.updates(), other.updates())
    }

    /// Returns the updates in order.
    pub fn updates(&self) -> &[Update]
        ensures updates { result.now ≡ self.now }
        ensures most { length self.now ≤ 4096 }
    {
        self.updates.as_slice()
    }

    /// Returns an equal batch that shares the updates. Doesn't allocate; fails only if 2^63 - 1 batches share them
    /// already.
    pub fn copy(&self) -> Result<Batch, Memory>
        ensures { IfOk result (λ copy. copy ≡ self.now) }
    {
        match Arc::try_clone(&self.updates) {
            Ok(updates) => Ok(Batch { updates }),
            Err(_) => Err(Memory),
        }
    }
}
