//! Rows in an ordered map.

ghost use Rattle.std.specs.Prelude.{◌≡◌, [], IfOk, OnOk};
ghost use Rattle.std.specs.BTreeMap.{insert_entry};
ghost use Rattle.table_types.specs.Keys.{key_cmp};

use crate::row_end::{first_of, key_of};
use crate::rows::Rows;
use std::alloc::Global;
use std::collections::BTreeMap;
use std::marker::Model;
use std::ops::Bound;
use table_types::{Key, Memory, Row};

/// The rows of a table in an ordered map by key. Each call but `first_to_end`, `list`, `list_after` and `copy` takes
/// time logarithmic in the number of rows.
#[derive(Drop)]
pub struct MapRows {
    alloc: Global,
    rows: BTreeMap<Key, Row>,
}

impl Model for MapRows {
    ghost use Rattle.std.specs.Prelude.{List};
    ghost use Rattle.std.specs.List.Sorted.{IsStrictlySortedBy};
    ghost use Rattle.std.specs.Map.{keys_of};
    ghost use Rattle.table_types.specs.declared.key.Key.{Key};
    ghost use Rattle.table_types.specs.Keys.{key_cmp};
    ghost use Rattle.table_types.specs.Rows.{StoredRow};

    ghost Value = { List (Key × StoredRow) };

    ghost view = { λ a. a.rows.entries };

    ghost invariant = { λ a. IsStrictlySortedBy key_cmp (keys_of a.rows.entries) };
}

impl MapRows {
    /// Makes a collection without rows. Doesn't allocate.
    pub fn new(alloc: Global) -> MapRows
        ensures { result ≡ [] }
    {
        MapRows {
            alloc,
            rows: BTreeMap::new(alloc),
        }
    }
}

/// Puts a copy of `row` under a copy of `key`.
fn put_copy(rows: &mut MapRows, key: &Key, row: &Row) -> Result<(), Memory>
    ensures { OnOk result (rows.new ≡ insert_entry key_cmp rows.old key.now row.now) }
{
    let key = key.copy(rows.alloc)?;
    let row = row.copy(rows.alloc)?;
    rows.put(key, row)?;
    Ok(())
}

impl Rows for MapRows {
    ghost content = { λ rows. rows };

    fn get(&self, key: &Key) -> Option<&Row> {
        self.rows.get(key)
    }

    fn put(&mut self, key: Key, row: Row) -> Result<Option<Row>, Memory> {
        Ok(self.rows.insert(key, row)?)
    }

    fn take(&mut self, key: &Key) -> Option<Row> {
        self.rows.remove(key)
    }

    fn first_to_end(&self) -> Option<&Key> {
        let mut first = None;
        for entry in &self.rows {
            first = Some(first_of(first, entry));
        }
        key_of(first)
    }

    fn len(&self) -> usize {
        self.rows.len()
    }

    fn list(&self) -> Result<Vec<(Key, Row)>, Memory> {
        let mut list = Vec::with_capacity(self.alloc, self.rows.len())?;
        for (key, row) in &self.rows {
            list.push((key.copy(self.alloc)?, row.copy(self.alloc)?))?;
        }
        Ok(list)
    }

    fn list_after(&self, after: Option<&Key>, most: usize) -> Result<Vec<(Key, Row)>, Memory> {
        let start = match after {
            Some(key) => Bound::Excluded(key),
            None => Bound::Unbounded,
        };
        let mut list = Vec::new(self.alloc);
        for (key, row) in self.rows.range((start, Bound::Unbounded)) {
            if list.len() == most {
                break;
            }
            list.push((key.copy(self.alloc)?, row.copy(self.alloc)?))?;
        }
        Ok(list)
    }

    fn copy(&self) -> Result<MapRows, Memory> {
        let mut copy = MapRows::new(self.alloc);
        for (key, row) in &self.rows {
            put_copy(&mut copy, key, row)?;
        }
        Ok(copy)
    }
}
