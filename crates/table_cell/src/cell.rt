//! Stick tables with their history.

ghost use Rattle.std.specs.Prelude.{◌≡◌, ◌+◌, ◌≤◌, ◌↔◌, ℕ, IfOk, IsOk, IsTrue, false, is_none, length, option_copied, option_map};
ghost use Rattle.std.specs.List.{list_all};
ghost use Rattle.table_rows.specs.Rows.{goes_past, is_live, row_at};
ghost use Rattle.table_cell.specs.Machine.{ack_refusal, has_out, new_table, progress_of};
ghost use Rattle.table_stock.specs.Stock.{AreInRisingKey, AreNextInRisingKey};
ghost use Rattle.table_cell.specs.Histories.{IsSoundCell, Kept, events_of, event_in, is_history_full, new_cell, room_of};

use crate::entry::Entry;
use crate::events::{CellEvent, CellReply};
use crate::origin::Origin;
use crate::table::Table;
use std::alloc::Global;
use std::collections::BTreeMap;
use std::marker::Model;
use table_stock::Blocks;
use table_types::{Key, Memory, Moment, Row, TableDef};

/// A stick table that keeps its history: each event with its reply, including the batches that were copied.
///
/// Its state is always what replaying the history leads to (`IsSoundCell`), so the batch of each copy is what its session
/// had not acknowledged at that point of the history (`batches_are_kept`). The history begins with the new table, or with the
/// state of the last `checkpoint` or `begin_anew`. After a `slide` the table has only the later events of it, and the latest
/// batch of each session that was open then. `renumber` gives the rows new numbers, with which the history begins. A refused
/// call changes nothing, and adds no event.
#[derive(Drop)]
pub struct TableCell {
    pub(crate) origin: Origin,
    pub(crate) table: Table,
    /// The events that the table has, with their replies.
    pub(crate) history: Blocks<Entry>,
    /// Each session's latest copy. Closing a session keeps it until the next `slide`.
    pub(crate) latest_copies: BTreeMap<u32, Entry>,
}

impl Model for TableCell {
    ghost use Rattle.table_cell.specs.Cells.{IsCell, cell_of};
    ghost use Rattle.table_cell.specs.Histories.{CellState};

    ghost Value = { CellState };

    ghost view = { λ c. cell_of c.origin c.history.items c.table };

    ghost invariant = { λ c. IsCell c.origin c.history.items c.table c.latest_copies.entries };
}

impl TableCell {
    /// The most rows that a table may have.
    pub const MOST_ROWS: usize = 1_000_000;

    /// The most events that a table may have at once.
    pub const MOST_EVENTS: usize = 1_000_000;

    /// The most events that a table may ever have, dropped ones included.
    pub const MOST_EVENTS_EVER: u64 = 1 << 63;

    /// Makes a table without rows or sessions, whose next number is `first`. It has at most `size` rows, up to
    /// `MOST_ROWS`; with `nopurge`, it refuses a row of a new key while it is full of live rows. Always succeeds, and
    /// doesn't allocate.
    pub fn new(
        alloc: Global,
        definition: TableDef,
        size: usize,
        nopurge: bool,
        first: u32,
    ) -> Result<TableCell, Memory>
        requires size { (1 ≤ size) × (size ≤ 1000000) }
        requires first { 1 ≤ first }
        ensures made { IsOk result }
        ensures cell { IfOk result (λ cell. cell ≡ new_cell definition size nopurge first) }
    {
        let table = Table::new(alloc, definition, size, nopurge, first);
        let latest_copies = BTreeMap::new(alloc);
        Ok(TableCell {
            origin: Origin::at(&table, 0, 0, &latest_copies),
            table,
            history: Blocks::new(alloc),
            latest_copies,
        })
    }

    /// Returns the table's definition.
    pub fn definition(&self) -> &TableDef
        ensures { result.now ≡ self.now.state.definition }
    {
        self.table.definition()
    }

    /// Returns the latest moment of an event, or the least moment if none had one.
    pub fn latest(&self) -> Moment
        ensures { result ≡ self.now.state.latest }
    {
        self.table.latest()
    }

    /// Returns the row of `key`, if there is one; it may have ended. Doesn't allocate.
    pub fn row(&self, key: &Key) -> Option<&Row>
        ensures { option_copied result ≡ row_at key.now self.now.state.rows }
    {
        self.table.row(key)
    }

    /// Returns the number of rows, those that have ended among them.
    pub fn row_count(&self) -> usize
        ensures { result ≡ length self.now.state.rows }
    {
        self.table.row_count()
    }

    /// Returns when the first row to end ends, or `None` if no row has an end: at each moment all rows are live exactly if
    /// there is no such end, or it is later. So there is something to purge from then on. Doesn't allocate.
    pub fn next_end(&self) -> Option<Moment>
        ensures { (now : ℕ) → list_all (λ e. is_live now e.1) self.now.state.rows ≡ goes_past now result }
    {
        self.table.next_end()
    }

    /// Returns the next number to assign, or 2^32 if all are assigned.
    pub fn next_number(&self) -> u64
        ensures { result ≡ self.now.state.next }
    {
        self.table.next_number()
    }

    /// Returns whether the history begins with a new table, as `new` makes it with this `size`, `nopurge` and `first`.
    pub fn begins_new(&self, size: usize, nopurge: bool, first: u32) -> bool
        ensures { IsTrue result ↔ (self.now.base ≡ new_table self.now.state.definition size nopurge first) }
    {
        if !self.table.has_limits(size, nopurge) {
            return false;
        }
        match self.origin.first() {
            Some(begun) => begun == u64::from(first),
            None => false,
        }
    }

    /// Returns the number of all events so far.
    pub fn events(&self) -> u64
        ensures events { result ≡ events_of self.now }
        ensures sound { IsSoundCell self.now }
        ensures kept { Kept self.now }
    {
        self.origin.before() + self.history.len() as u64
    }

    /// Returns how many of the events so far were dropped, by `checkpoint`, `begin_anew` or `slide`.
    pub fn dropped(&self) -> u64
        ensures dropped { result ≡ self.now.dropped + self.now.slid }
        ensures sound { IsSoundCell self.now }
        ensures kept { Kept self.now }
    {
        self.origin.before()
    }

    /// Returns how often the rows got new numbers (`renumber`). The count starts again after 2^64 - 1.
    pub fn renewals(&self) -> u64
        ensures { result ≡ self.now.renewals }
    {
        self.origin.renewals()
    }

    /// Returns how many more events there is room for.
    pub fn room(&self) -> u64
        ensures { result ≡ room_of self.now }
    {
        let in_history = (TableCell::MOST_EVENTS - self.history.len()) as u64;
        in_history.min(TableCell::MOST_EVENTS_EVER - self.events())
    }

    pub(crate) fn is_history_full(&self) -> bool
        ensures { result ≡ is_history_full self.now }
    {
        self.room() == 0
    }

    /// Returns the event at `place` with its reply, or `None` if there is none or it was dropped. Places count all events
    /// from 1.
    pub fn event_at(&self, place: u64) -> Option<(&CellEvent, &CellReply)>
        ensures { option_map (λ e. (e.0.now, e.1.now)) result ≡ event_in self.now place }
    {
        let index = usize::try_from(place.checked_sub(self.origin.before() + 1)?).ok()?;
        let entry = self.history.get(index)?;
        Some((entry.event(), entry.reply()))
    }

    /// Returns whether a batch of `session` is out: it was copied, and its last number isn't acknowledged yet. Doesn't
    /// allocate.
    pub fn is_out(&self, session: u32) -> bool
        ensures { result ≡ has_out (progress_of session self.now.state) }
    {
        match self.table.progress(session) {
            Some(progress) => progress.acknowledged < progress.taught,
            None => false,
        }
    }

    /// Returns whether `session` is open and was taught `number` or a later one, so that `ack` takes `number` as long as
    /// there is room for an event. Doesn't allocate.
    pub fn can_ack(&self, session: u32, number: u32) -> bool
        ensures { result ≡ is_none (ack_refusal false self.now.state session number) }
    {
        self.table.ack_refusal(false, session, number).is_none()
    }

    /// Returns copies of the rows with their keys, in ascending order of key.
    pub fn rows(&self) -> Result<Vec<(Key, Row)>, Memory>
        ensures { IfOk result (λ list. AreInRisingKey self.now.state.rows list.items) }
    {
        self.table.rows()
    }

    /// Returns copies of the rows whose keys follow `after`, or of all rows if it is `None`, with their keys, in ascending
    /// order of key, at most `most` of them. A list of fewer says that no more rows follow. So a table can be listed in
    /// parts, each under a short lock; a table that changes between two parts shows each part as it is then. Takes time
    /// linear in `most`, and logarithmic in the number of rows.
    pub fn rows_after(&self, after: Option<&Key>, most: usize) -> Result<Vec<(Key, Row)>, Memory>
        ensures { IfOk result (λ list. AreNextInRisingKey (option_copied after.entry) most self.now.state.rows list.items) }
    {
        self.table.rows_after(after, most)
    }
}
