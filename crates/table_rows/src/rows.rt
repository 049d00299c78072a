//! Collections of a table's rows.

ghost use Rattle.std.specs.Prelude.{◌≡◌, IfOk, IfSome, List, OnErr, OnOk, is_some, length, nat_lt, option_copied, take};
ghost use Rattle.std.specs.BTreeMap.{insert_entry};
ghost use Rattle.std.specs.List.Sorted.{IsStrictlySortedBy};
ghost use Rattle.std.specs.Map.{keys_of};
ghost use Rattle.table_types.specs.declared.key.Key.{Key};
ghost use Rattle.table_types.specs.Keys.{key_cmp};
ghost use Rattle.table_types.specs.Rows.{StoredRow};
ghost use Rattle.table_rows.specs.Rows.{IsFirstToEnd, is_live, row_at, rows_after, rows_without};

use table_types::{Key, Memory, Moment, Row};

/// Returns whether a row is live at `now`: it ends after `now`, or never expires.
pub fn is_live(row: &Row, now: Moment) -> bool
    ensures { result ≡ is_live now row.now }
{
    match row.ends() {
        Some(end) => now.milliseconds() < end.milliseconds(),
        None => true,
    }
}

/// A collection of a table's rows by key.
pub trait Rows: Drop {
    /// The keys with their rows, in ascending order of key.
    ghost content: { Self → List (Key × StoredRow) };

    /// Returns the row of `key`.
    fn get(&self, key: &Key) -> Option<&Row>
        ensures { option_copied result ≡ row_at key.now (content self.now) };

    /// Puts `row` in place of the key's, and returns the row that was there. If memory runs out, nothing has changed.
    fn put(&mut self, key: Key, row: Row) -> Result<Option<Row>, Memory>
        ensures before { IfOk result (λ before. before ≡ row_at key (content self.old)) }
        ensures put { OnOk result (content self.new ≡ insert_entry key_cmp (content self.old) key row) }
        ensures stays { OnErr result (content self.new ≡ content self.old) };

    /// Removes the row of `key`, and returns it. Doesn't allocate.
    fn take(&mut self, key: &Key) -> Option<Row>
        ensures taken { result ≡ row_at key.now (content self.old) }
        ensures others { content self.new ≡ rows_without key.now (content self.old) };

    /// Returns the key of the first row to end, or `None` if there are no rows: of the rows that end first, and rows without an
    /// end come last, the one with the least number, and of those with that number the one with the least key. Walks all
    /// rows, and doesn't allocate. A table finds its first row to end in an index of its own, and doesn't call this.
    fn first_to_end(&self) -> Option<&Key>
        ensures first { IfSome (option_copied result) (IsFirstToEnd (content self.now)) }
        ensures some { is_some result ≡ nat_lt 0 (length (content self.now)) };

    /// Returns the number of rows.
    fn len(&self) -> usize
        ensures len { result ≡ length (content self.now) }
        ensures rising { IsStrictlySortedBy key_cmp (keys_of (content self.now)) };

    /// Returns copies of the rows with their keys, in ascending order of key.
    fn list(&self) -> Result<Vec<(Key, Row)>, Memory>
        ensures { IfOk result (λ list. list.items ≡ content self.now) };

    /// Returns copies of the rows whose keys follow `after`, or of all rows, with their keys, in ascending order of key, at
    /// most `most` of them.
    fn list_after(&self, after: Option<&Key>, most: usize) -> Result<Vec<(Key, Row)>, Memory>
        ensures { IfOk result (λ list. list.items ≡ take most (rows_after (option_copied after.entry) (content self.now))) };

    /// Returns a copy of the collection: equal rows under equal keys.
    fn copy(&self) -> Result<Self, Memory>
    where
        Self: Sized,
        ensures { IfOk result (λ copy. content copy ≡ content self.now) };
}
