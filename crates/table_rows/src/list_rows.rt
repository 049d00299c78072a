//! Rows in a list.

ghost use Rattle.std.specs.Prelude.{◌≡◌, [], IfErr, IfOk, option_copied};
ghost use Rattle.table_rows.specs.Places.{IsGap, IsThere};
ghost use Rattle.table_rows.specs.Rows.{follows};

use crate::row_end::{first_of, key_of};
use crate::rows::Rows;
use std::alloc::Global;
use std::cmp::Ordering;
use std::marker::Model;
use std::mem;
use table_types::{Key, Memory, Row};

/// The rows of a table in a list, in ascending order of key. Each call but `len` may go over the whole list.
#[derive(Drop)]
pub struct ListRows {
    alloc: Global,
    rows: Vec<(Key, Row)>,
}

impl Model for ListRows {
    ghost use Rattle.std.specs.Prelude.{List};
    ghost use Rattle.std.specs.List.Sorted.{IsStrictlySortedBy};
    ghost use Rattle.std.specs.Map.{keys_of};
    ghost use Rattle.table_types.specs.declared.key.Key.{Key};
    ghost use Rattle.table_types.specs.Keys.{key_cmp};
    ghost use Rattle.table_types.specs.Rows.{StoredRow};

    ghost Value = { List (Key × StoredRow) };

    ghost view = { λ a. a.rows.items };

    ghost invariant = { λ a. IsStrictlySortedBy key_cmp (keys_of a.rows.items) };
}

/// Returns the index at which `key` stands among rows in ascending order of key, or as the error the index at which it
/// would.
fn place(rows: &[(Key, Row)], key: &Key) -> Result<usize, usize>
    ensures there { IfOk result (IsThere key.now rows.now) }
    ensures gap { IfErr result (IsGap key.now rows.now) }
{
    for index in 0..rows.len() {
        match key.cmp(&rows[index].0) {
            Ordering::Less => return Err(index),
            Ordering::Equal => return Ok(index),
            Ordering::Greater => {}
        }
    }
    Err(rows.len())
}

/// Returns whether `key` follows `after`, as every key does if there is none.
fn follows(after: Option<&Key>, key: &Key) -> bool
    ensures { result ≡ follows (option_copied after.entry) key.now }
{
    match after {
        Some(after) => after.cmp(key).is_lt(),
        None => true,
    }
}

impl ListRows {
    /// Makes a collection without rows. Doesn't allocate.
    pub fn new(alloc: Global) -> ListRows
        ensures { result ≡ [] }
    {
        ListRows {
            alloc,
            rows: Vec::new(alloc),
        }
    }
}

/// Returns copies of the rows and their keys, in the same order.
fn copy_of(alloc: Global, rows: &[(Key, Row)]) -> Result<Vec<(Key, Row)>, Memory>
    ensures { IfOk result (λ copy. copy.items ≡ rows.now) }
{
    let mut copy = Vec::with_capacity(alloc, rows.len())?;
    for entry in rows {
        copy.push((entry.0.copy(alloc)?, entry.1.copy(alloc)?))?;
    }
    Ok(copy)
}

impl Rows for ListRows {
    ghost content = { λ rows. rows };

    fn get(&self, key: &Key) -> Option<&Row> {
        match place(&self.rows, key) {
            Ok(index) => Some(&self.rows[index].1),
            Err(_) => None,
        }
    }

    fn put(&mut self, key: Key, row: Row) -> Result<Option<Row>, Memory> {
        match place(&self.rows, &key) {
            Ok(index) => {
                let (_, before) = mem::replace(&mut self.rows[index], (key, row));
                Ok(Some(before))
            }
            Err(index) => {
                self.rows.insert(index, (key, row))?;
                Ok(None)
            }
        }
    }

    fn take(&mut self, key: &Key) -> Option<Row> {
        match place(&self.rows, key) {
            Ok(index) => {
                let (_, row) = self.rows.remove(index);
                Some(row)
            }
            Err(_) => None,
        }
    }

    fn first_to_end(&self) -> Option<&Key> {
        let mut first = None;
        for entry in &self.rows {
            first = Some(first_of(first, (&entry.0, &entry.1)));
        }
        key_of(first)
    }

    fn len(&self) -> usize {
        self.rows.len()
    }

    fn list(&self) -> Result<Vec<(Key, Row)>, Memory> {
        copy_of(self.alloc, &self.rows)
    }

    fn list_after(&self, after: Option<&Key>, most: usize) -> Result<Vec<(Key, Row)>, Memory> {
        let mut list = Vec::new(self.alloc);
        for entry in &self.rows {
            if list.len() == most {
                break;
            }
            if !follows(after, &entry.0) {
                continue;
            }
            list.push((entry.0.copy(self.alloc)?, entry.1.copy(self.alloc)?))?;
        }
        Ok(list)
    }

    fn copy(&self) -> Result<ListRows, Memory> {
        let rows = copy_of(self.alloc, &self.rows)?;
        Ok(ListRows {
            alloc: self.alloc,
            rows,
        })
    }
}
