//! The rows of one table.

ghost use Rattle.std.specs.Prelude.{◌≡◌, [], IfOk, OnOk, OnErr, option_copied};
ghost use Rattle.std.specs.BTreeMap.{insert_entry};
ghost use Rattle.table_types.specs.Keys.{key_cmp};
ghost use Rattle.learner.specs.Front.{with_effect};
ghost use Rattle.learner.specs.Rows.{row_at};

use crate::intake::Intake;
use known_state::Effect;
use std::alloc::Global;
use std::collections::BTreeMap;
use std::collections::btree_map::Entry;
use std::marker::Model;
use table_types::{Key, Memory, Row};

/// The rows of one table by their keys.
#[derive(Drop)]
pub struct TableRows {
    rows: BTreeMap<Key, Row>,
}

impl Model for TableRows {
    ghost use Rattle.std.specs.Prelude.{List};
    ghost use Rattle.table_types.specs.declared.key.Key.{Key};
    ghost use Rattle.table_types.specs.Rows.{StoredRow};

    ghost Value = { List (Key × StoredRow) };

    ghost view = { λ s. s.rows.entries };
}

/// Returns `row` once `intake` has applied `effect`. After `Memory` the intake hasn't changed.
fn row_after(intake: &mut Intake, effect: Effect, row: Row) -> Result<Row, Memory>
    ensures row { IfOk result (λ after. after ≡ row) }
    ensures made { OnOk result (intake.new ≡ with_effect intake.old effect) }
    ensures stays { OnErr result (intake.new ≡ intake.old) }
{
    intake.make(effect)?;
    Ok(row)
}

impl TableRows {
    /// Returns no rows. Doesn't allocate.
    pub fn new(alloc: Global) -> TableRows
        ensures { result ≡ [] }
    {
        TableRows {
            rows: BTreeMap::new(alloc),
        }
    }

    /// Returns the row of `key`, if there is one.
    pub fn row(&self, key: &Key) -> Option<&Row>
        ensures { option_copied result ≡ row_at key.now self.now }
    {
        self.rows.get(key)
    }

    /// Makes room for the row of `key`, lets `intake` apply `effect`, and then puts `row` in place of the key's old
    /// row, if there is one. After `Memory` neither the rows nor the intake have changed.
    pub fn put(
        &mut self,
        key: Key,
        row: Row,
        intake: &mut Intake,
        effect: Effect,
    ) -> Result<(), Memory>
        ensures put { OnOk result (self.new ≡ insert_entry key_cmp self.old key row) }
        ensures made { OnOk result (intake.new ≡ with_effect intake.old effect) }
        ensures stays { OnErr result (self.new ≡ self.old) }
        ensures unmade { OnErr result (intake.new ≡ intake.old) }
    {
        match self.rows.entry(key)? {
            Entry::Occupied(mut entry) => {
                entry.insert(row_after(intake, effect, row)?);
            }
            vacant => {
                let row = row_after(intake, effect, row);
                vacant.or_try_insert_with(|| row)?;
            }
        }
        Ok(())
    }

    /// Returns the rows by their keys.
    pub fn rows(&self) -> &BTreeMap<Key, Row>
        ensures rows { result.now.entries ≡ self.now }
    {
        &self.rows
    }
}
