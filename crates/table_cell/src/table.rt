//! The state of a stick table.

ghost use Rattle.std.specs.Prelude.{◌≡◌, ◌↔◌, ◌≤◌, ◌<◌, ◌^◌, ℕ, IfOk, IfSome, IsTrue, List, nat_lt, OnErr, OnOk, filter, length, not, option_copied};
ghost use Rattle.std.specs.List.{list_all};
ghost use Rattle.table_types.specs.declared.key.Key.{Key};
ghost use Rattle.table_types.specs.Rows.{StoredRow};
ghost use Rattle.table_rows.specs.Rows.{IsFirstToEnd, goes_past, is_live, row_at};
ghost use Rattle.table_cell.specs.Cells.{IsNewFrom};
ghost use Rattle.table_cell.specs.Machine.{Leaves, is_full, learned, new_table, stored, tracked};
ghost use Rattle.table_stock.specs.Stock.{AreInRisingKey, AreNextInRisingKey};

use crate::learned_run::LearnedRun;
use crate::progress::Progress;
use std::alloc::Global;
use std::marker::Model;
use table_rows::is_live;
use table_stock::Stock;
use table_types::{Change, Key, Memory, Moment, Row, TableDef, Update};

/// A stick table: its parameters, its rows, the latest moment, and its open sessions.
#[derive(Drop)]
pub(crate) struct Table {
    pub(crate) alloc: Global,
    pub(crate) definition: TableDef,
    pub(crate) size: usize,
    pub(crate) nopurge: bool,
    pub(crate) stock: Stock,
    pub(crate) latest: Moment,
    pub(crate) sessions: Vec<(u32, Progress)>,
    pub(crate) learned_run: LearnedRun,
    /// How many rows new ones have displaced.
    displaced: u64,
}

impl Model for Table {
    ghost use Rattle.table_cell.specs.LearnedRuns.{IsLearnedRun};
    ghost use Rattle.table_cell.specs.Machine.{TableState};

    ghost Value = { TableState };

    ghost view = { λ t. record { definition = t.definition; size = t.size; nopurge = t.nopurge; rows = t.stock.rows; next = t.stock.next; latest = t.latest; sessions = t.sessions.items } };

    ghost invariant = { λ t. IsLearnedRun t.learned_run.after t.learned_run.last t.stock.next t.learned_run.since t.stock.rows };
}

impl Table {
    /// Makes a table without rows or sessions, whose next number is `first`. Doesn't allocate.
    pub(crate) fn new(
        alloc: Global,
        definition: TableDef,
        size: usize,
        nopurge: bool,
        first: u32,
    ) -> Table
        requires { 1 ≤ first }
        ensures { result ≡ new_table definition size nopurge first }
    {
        Table {
            alloc,
            definition,
            size,
            nopurge,
            stock: Stock::new(alloc, first),
            latest: Moment::least(),
            sessions: Vec::new(alloc),
            learned_run: LearnedRun {
                after: 0,
                last: first - 1,
                since: Moment::least(),
            },
            displaced: 0,
        }
    }

    /// Returns how many rows new ones have displaced.
    pub(crate) fn displaced(&self) -> u64 {
        self.displaced
    }

    /// Returns the table's allocator.
    pub(crate) fn alloc(&self) -> Global {
        self.alloc
    }

    /// Returns the table's definition.
    pub(crate) fn definition(&self) -> &TableDef
        ensures { result.now ≡ self.now.definition }
    {
        &self.definition
    }

    /// Returns the row of `key`.
    pub(crate) fn row(&self, key: &Key) -> Option<&Row>
        ensures { option_copied result ≡ row_at key.now self.now.rows }
    {
        self.stock.row(key)
    }

    /// Returns the number of rows.
    pub(crate) fn row_count(&self) -> usize
        ensures { result ≡ length self.now.rows }
    {
        self.stock.len()
    }

    /// Returns copies of the rows with their keys, in ascending order of key.
    pub(crate) fn rows(&self) -> Result<Vec<(Key, Row)>, Memory>
        ensures { IfOk result (λ list. AreInRisingKey self.now.rows list.items) }
    {
        self.stock.list()
    }

    /// Returns copies of the rows whose keys follow `after`, or of all rows, with their keys, in ascending order of key, at
    /// most `most` of them.
    pub(crate) fn rows_after(
        &self,
        after: Option<&Key>,
        most: usize,
    ) -> Result<Vec<(Key, Row)>, Memory>
        ensures { IfOk result (λ list. AreNextInRisingKey (option_copied after.entry) most self.now.rows list.items) }
    {
        self.stock.list_after(after, most)
    }

    /// Returns whether the table may have at most `size` rows, and has `nopurge` or not.
    pub(crate) fn has_limits(&self, size: usize, nopurge: bool) -> bool
        ensures { IsTrue result ↔ ((self.now.size ≡ size) × (self.now.nopurge ≡ nopurge)) }
    {
        self.size == size && self.nopurge == nopurge
    }

    /// Returns the next number if the table is as a new one with that number is.
    #[tactic(auto, using(crate::proofs::AnewLaws::is_new, crate::proofs::AnewLaws::has_rows, crate::proofs::AnewLaws::has_sessions, crate::proofs::AnewLaws::has_moved))]
    pub(crate) fn next_if_new(&self) -> Option<u64>
        ensures { IsNewFrom self.now result }
    {
        if self.stock.len() > 0 {
            return None;
        }
        if self.sessions.len() > 0 {
            return None;
        }
        if self.latest.milliseconds() > Moment::least().milliseconds() {
            return None;
        }
        Some(self.stock.next())
    }

    /// Returns whether a session is open.
    pub(crate) fn has_sessions(&self) -> bool
        ensures { result ≡ nat_lt 0 (length self.now.sessions) }
    {
        self.sessions.len() > 0
    }

    /// Returns the latest moment of an event.
    pub(crate) fn latest(&self) -> Moment
        ensures { result ≡ self.now.latest }
    {
        self.latest
    }

    /// Returns the next number to assign, or 2^32 if all are assigned.
    pub(crate) fn next_number(&self) -> u64
        ensures { result ≡ self.now.next }
    {
        self.stock.next()
    }

    /// Returns whether `now` is before the latest moment of an event.
    pub(crate) fn is_past(&self, now: Moment) -> bool
        ensures past { result ≡ nat_lt now self.now.latest }
        ensures timely { now < 2 ^ 63 }
    {
        now.milliseconds() < self.latest.milliseconds()
    }

    fn are_live(&self, now: Moment) -> bool
        ensures { result ≡ list_all (λ e. is_live now e.1) self.now.rows }
    {
        let Some(first) = self.stock.first_to_end() else {
            return true;
        };
        match self.stock.row(first) {
            Some(row) => is_live(row, now),
            None => true,
        }
    }

    /// Returns when the first row to end ends, or `None` if no row has an end.
    pub(crate) fn next_end(&self) -> Option<Moment>
        ensures { (now : ℕ) → list_all (λ e. is_live now e.1) self.now.rows ≡ goes_past now result }
    {
        let Some(first) = self.stock.first_to_end() else {
            return None;
        };
        match self.stock.row(first) {
            Some(row) => row.ends(),
            None => None,
        }
    }

    /// Returns whether a row of `key` would displace another, all rows are live, and the table has `nopurge`.
    pub(crate) fn is_full(&self, key: &Key, now: Moment) -> bool
        ensures { result ≡ is_full self.now key.now now }
    {
        self.nopurge
            && self.stock.len() >= self.size
            && self.stock.row(key).is_none()
            && self.are_live(now)
    }

    /// Returns the next number to assign. There must be one left.
    pub(crate) fn next(&self) -> u32
        requires { self.now.next < 2 ^ 32 }
        ensures { result ≡ self.now.next }
    {
        self.stock.next() as u32
    }

    /// Returns the row that `change` makes, under the next number. There must be a number left.
    pub(crate) fn tracked(&self, key: &Key, change: &Change, now: Moment) -> Result<Row, Memory>
        requires { self.now.next < 2 ^ 32 }
        ensures { IfOk result (λ row. row ≡ tracked self.now key.now change.now now) }
    {
        let live = match self.stock.row(key) {
            Some(row) if is_live(row, now) => Some(row),
            _ => None,
        };
        Row::tracked(self.alloc, &self.definition, live, change, self.next(), now)
    }

    /// Returns the row that `update` makes, under the next number. There must be a number left.
    pub(crate) fn learned(&self, update: &Update, now: Moment) -> Result<Row, Memory>
        requires { self.now.next < 2 ^ 32 }
        ensures { IfOk result (λ row. row ≡ learned self.now update.now now) }
    {
        Row::learned_as(
            self.alloc,
            update,
            self.next(),
            self.definition.expire(),
            now,
        )
    }

    /// Stores `row`, which has the next number, in place of the key's, and removes the first row to end if there is no
    /// room for it. `now` becomes the latest moment. If memory runs out, nothing has changed.
    pub(crate) fn store(&mut self, key: Key, row: Row, now: Moment) -> Result<(), Memory>
        requires some { 1 ≤ self.old.size }
        requires number { row.number ≡ self.old.next }
        requires left { self.old.next < 2 ^ 32 }
        ensures stored { OnOk result ((rest : List (Key × StoredRow)) × Leaves self.old key rest × (self.new ≡ stored self.old key row now rest)) }
        ensures stays { OnErr result (self.new ≡ self.old) }
    {
        let full = self.stock.len() >= self.size;
        let displaces = self.displaces(&key);
        let learned_run = self.run_with(&row);
        self.stock.put(key, row, full)?;
        self.displaced = self.displaced.saturating_add(u64::from(displaces));
        self.learned_run = learned_run;
        self.latest = now;
        Ok(())
    }

    /// Returns how many rows aren't live at `now`. Walks these alone, and doesn't allocate.
    pub(crate) fn count_ended(&self, now: Moment) -> usize
        ensures { result ≡ length (filter (λ row. not (is_live now row.1)) self.now.rows) }
    {
        self.stock.count_ended(now)
    }

    /// Removes the rows that aren't live at `now`. Walks these alone, and doesn't allocate.
    pub(crate) fn purge(&mut self, now: Moment)
        ensures { self.new ≡ record self.old { rows = filter (λ row. is_live now row.1) self.old.rows; latest = now } }
    {
        self.latest = now;
        self.stock.drop_ended(now);
    }
}
