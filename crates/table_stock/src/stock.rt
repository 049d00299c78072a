//! The rows of a table with their numbers.

ghost use Rattle.std.specs.Prelude.{◌≡◌, ◌≤◌, ◌<◌, ◌+◌, ◌-◌, ◌^◌, ℕ, [], ◌∷◌, ◌++◌, List, cond, false, nat_lt, not, filter, length, true, IfNone, IfOk, IfSome, IsTrue, OnErr, OnOk, Some, None, option_copied, take};
ghost use Rattle.std.specs.Bool.{OnFalse, OnTrue};
ghost use Rattle.std.specs.List.{cons_option};
ghost use Rattle.std.specs.List.Sorted.{IsStrictlySortedBy};
ghost use Rattle.std.specs.Map.{keys_of};
ghost use Rattle.std.specs.Ordering.{is_eq};
ghost use Rattle.table_types.specs.declared.key.Key.{Key};
ghost use Rattle.table_types.specs.Keys.{key_cmp};
ghost use Rattle.table_types.specs.Rows.{StoredRow};
ghost use Rattle.table_rows.specs.declared.row_end.RowEnd.{RowEnd};
ghost use Rattle.table_rows.specs.Endings.{ending_of, is_among};
ghost use Rattle.table_rows.specs.Rows.{IsFirstToEnd, follows, is_live, row_at};
ghost use Rattle.table_stock.specs.NumberedRows.{numbered_from, without};
ghost use Rattle.table_stock.specs.Shelves.{EndsFirst, LogRises, PutsEnd, PutsRow, TakesRow, UpdatesSlot, has_end, listed, row_alone, row_in, rows_in, slot_of};
ghost use Rattle.table_stock.specs.Stock.{AreNextInRisingKey, IsStock, LeftFor};

use crate::above::Above;
use crate::log::Log;
use crate::slots::Slots;
use std::alloc::Global;
use std::collections::{BTreeMap, BTreeSet};
use std::marker::Model;
use std::ops::Bound;
use table_rows::RowEnd;
use table_types::{Key, Memory, Moment, Row};

/// The rows of a table by key, with the numbers assigned to them, and the next number to assign. Each call but `renumbered`,
/// `list`, `list_after` and those that walk rows takes time logarithmic in the number of rows. No call moves all rows, or all
/// entries of the log, when there are more of them.
#[derive(Drop)]
pub struct Stock {
    alloc: Global,
    /// The slot of each key's row.
    keys: BTreeMap<Key, u32>,
    slots: Slots,
    log: Log,
    /// The next number to assign, or 2^32 if all are assigned.
    next: u64,
    /// The end of each row. The numbers of the rows differ, and `log` has the slot of each.
    ends: BTreeSet<RowEnd>,
}

impl Model for Stock {
    ghost use Rattle.table_stock.specs.Shelves.{AreShelved, row_in, rows_in};
    ghost use Rattle.table_stock.specs.Stock.{Stocked, stocked};

    ghost Value = { Stocked };

    ghost view = { λ a. stocked a.next (rows_in (row_in a.slots.rows) a.log.entries) };

    ghost invariant = { λ a. AreShelved a.keys.entries (row_in a.slots.rows) a.log.entries a.next a.ends.keys };
}

/// Puts `row` with its key in place of the row in `slot`, and its end in place of that one's. If memory runs out, nothing has
/// changed.
fn put_held(
    slots: &mut Slots,
    ends: &mut BTreeSet<RowEnd>,
    slot: u32,
    key: Key,
    row: Row,
) -> Result<(), Memory>
    requires held { (e : Key × StoredRow) × (row_in slots.old.rows slot ≡ Some e) }
    ensures put { OnOk result (UpdatesSlot slots.old.rows slots.new.rows slot (Some (key, row))) }
    ensures ends { OnOk result (PutsEnd (row_alone (row_in slots.old.rows slot)) row ends.old.keys ends.new.keys) }
    ensures within { OnOk result (IfSome row.ends (λ end. end < 2 ^ 63)) }
    ensures stays { OnErr result (slots.new ≡ slots.old) }
    ensures as_before { OnErr result (ends.new.keys ≡ ends.old.keys) }
{
    let end = RowEnd::of(&row);
    ends.insert(end)?;
    let older = slots.replace(slot, key, row);
    ends.remove(&RowEnd::of(&older));
    Ok(())
}

/// Puts `row`, whose key has none, into a slot of its own, and adds its end. Returns the slot. If memory runs out, the rows are
/// as before, and so are the ends, if the end is a new one.
fn put_new(
    alloc: Global,
    keys: &mut BTreeMap<Key, u32>,
    slots: &mut Slots,
    ends: &mut BTreeSet<RowEnd>,
    key: Key,
    row: Row,
) -> Result<u32, Memory>
    ensures vacant { IfOk result (λ slot. row_in slots.old.rows slot ≡ None) }
    ensures named { IfOk result (λ slot. (k : Key) → slot_of k keys.new.entries ≡ cond (is_eq (key_cmp key k)) (Some slot) (slot_of k keys.old.entries)) }
    ensures put { IfOk result (λ slot. UpdatesSlot slots.old.rows slots.new.rows slot (Some (key, row))) }
    ensures ends { OnOk result (PutsEnd None row ends.old.keys ends.new.keys) }
    ensures within { OnOk result (IfSome row.ends (λ end. end < 2 ^ 63)) }
    ensures same_keys { OnErr result (keys.new.entries ≡ keys.old.entries) }
    ensures same_rows { OnErr result (slots.new.rows ≡ slots.old.rows) }
    ensures as_before { OnErr result (is_among ends.old.keys (ending_of row) ≡ false → (end : RowEnd) → is_among ends.new.keys end ≡ is_among ends.old.keys end) }
{
    slots.make_room()?;
    let named = key.copy(alloc)?;
    let end = RowEnd::of(&row);
    ends.insert(end)?;
    let slot = slots.vacant();
    let Ok(_) = keys.insert(named, slot) else {
        ends.remove(&end);
        return Err(Memory);
    };
    slots.put(key, row);
    Ok(slot)
}

/// Puts `row` with its key into the key's slot, or into a new one, and its end in place of the older row's, if there is one.
/// Returns the slot. If memory runs out, the rows are as before, and so are the ends, if the end is a new one.
fn put_row(
    alloc: Global,
    keys: &mut BTreeMap<Key, u32>,
    slots: &mut Slots,
    ends: &mut BTreeSet<RowEnd>,
    key: Key,
    row: Row,
) -> Result<u32, Memory>
    requires found { (slot : ℕ) → slot_of key keys.old.entries ≡ Some slot → (e : Key × StoredRow) × (row_in slots.old.rows slot ≡ Some e) }
    ensures put { IfOk result (λ slot. PutsRow key row slot keys.old.entries keys.new.entries slots.old.rows slots.new.rows) }
    ensures ends { IfOk result (λ slot. PutsEnd (row_alone (row_in slots.old.rows slot)) row ends.old.keys ends.new.keys) }
    ensures within { OnOk result (IfSome row.ends (λ end. end < 2 ^ 63)) }
    ensures same_keys { OnErr result (keys.new.entries ≡ keys.old.entries) }
    ensures same_rows { OnErr result (slots.new.rows ≡ slots.old.rows) }
    ensures as_before { OnErr result (is_among ends.old.keys (ending_of row) ≡ false → (end : RowEnd) → is_among ends.new.keys end ≡ is_among ends.old.keys end) }
{
    if let Some(&slot) = keys.get(&key) {
        put_held(slots, ends, slot, key, row)?;
        return Ok(slot);
    }
    put_new(alloc, keys, slots, ends, key, row)
}

/// Takes out the first row whose number is `number` or above. Doesn't allocate.
fn take_from(keys: &mut BTreeMap<Key, u32>, slots: &mut Slots, log: &Log, number: u32)
    requires { (next : ℕ) × LogRises 1 next log.now.entries }
    ensures { (e : Key × StoredRow) (rest : List (Key × StoredRow)) → filter (λ q. nat_lt (number - 1) q.1.number) (rows_in (row_in slots.old.rows) log.now.entries) ≡ e ∷ rest → TakesRow e.0 keys.old.entries keys.new.entries slots.old.rows slots.new.rows }
{
    let first = log.first_above(number.saturating_sub(1));
    let Some((key, _)) = Above::new(log, slots, first).next() else {
        return;
    };
    if let Some(slot) = keys.remove(key) {
        slots.take(slot);
    }
}

/// Adds a copy of the row in `slot`, with its key, if there is one.
fn push_copy(
    alloc: Global,
    list: &mut Vec<(Key, Row)>,
    slots: &Slots,
    slot: u32,
) -> Result<(), Memory>
    ensures { OnOk result (list.new.items ≡ list.old.items ++ cons_option (row_in slots.now.rows slot) []) }
{
    if let Some((key, row)) = slots.get(slot) {
        list.push((key.copy(alloc)?, row.copy(alloc)?))?;
    }
    Ok(())
}

/// Returns copies of the rows whose keys follow `after`, or of all rows, with their keys, in ascending order of key, at most
/// `most` of them. Allocates for `room` of them at once.
fn copies_after(
    alloc: Global,
    keys: &BTreeMap<Key, u32>,
    slots: &Slots,
    after: Option<&Key>,
    most: usize,
    room: usize,
) -> Result<Vec<(Key, Row)>, Memory>
    ensures copies { IfOk result (λ list. list.items ≡ take most (listed (row_in slots.now.rows) (filter (λ e. follows (option_copied after.entry) e.0) keys.now.entries))) }
    ensures rising { OnOk result (IsStrictlySortedBy key_cmp (keys_of keys.now.entries)) }
{
    let start = match after {
        Some(key) => Bound::Excluded(key),
        None => Bound::Unbounded,
    };
    let mut list = Vec::with_capacity(alloc, room)?;
    for (_, slot) in keys.range((start, Bound::Unbounded)) {
        if list.len() == most {
            break;
        }
        push_copy(alloc, &mut list, slots, *slot)?;
    }
    Ok(list)
}

impl Stock {
    /// Makes a stock without rows, whose next number is `first`. Doesn't allocate.
    pub fn new(alloc: Global, first: u32) -> Stock
        requires { 1 ≤ first }
        ensures { result ≡ record { rows = []; next = first } }
    {
        Stock {
            alloc,
            keys: BTreeMap::new(alloc),
            slots: Slots::new(alloc),
            log: Log::new(alloc),
            next: u64::from(first),
            ends: BTreeSet::new(alloc),
        }
    }

    /// Returns the next number to assign, or 2^32 if all are assigned.
    pub fn next(&self) -> u64
        ensures next { result ≡ self.now.next }
        ensures sound { IsStock self.now }
    {
        self.next
    }

    /// Returns the number before the next one to assign.
    pub fn last_number(&self) -> u32
        ensures number { result ≡ self.now.next - 1 }
        ensures sound { IsStock self.now }
    {
        self.next().saturating_sub(1) as u32
    }

    /// Returns the number of rows.
    pub fn len(&self) -> usize
        ensures { result ≡ length self.now.rows }
    {
        self.ends.len()
    }

    /// Returns the row of `key`.
    pub fn row(&self, key: &Key) -> Option<&Row>
        ensures { option_copied result ≡ row_at key.now self.now.rows }
    {
        let Some(&slot) = self.keys.get(key) else {
            return None;
        };
        match self.slots.get(slot) {
            Some((_, row)) => Some(row),
            None => None,
        }
    }

    /// Returns the end of the first row to end, or `None` if there are no rows.
    fn first_end(&self) -> Option<RowEnd>
        ensures first { IfSome result (EndsFirst self.now.rows) }
        ensures none { IfNone result (self.now.rows ≡ []) }
        ensures sound { IsStock self.now }
    {
        match self.ends.last() {
            Some(first) => Some(*first),
            None => None,
        }
    }

    /// Returns the key of the first row to end, or `None` if there are no rows.
    pub fn first_to_end(&self) -> Option<&Key>
        ensures first { IfSome result (λ key. IsFirstToEnd self.now.rows key.now) }
        ensures none { IfNone result (self.now.rows ≡ []) }
    {
        let Some(first) = self.first_end() else {
            return None;
        };
        // Numbers are at least 1, so this is the row with that number.
        match self.above(first.number.saturating_sub(1)).next() {
            Some((key, _)) => Some(key),
            None => None,
        }
    }

    /// Stores `row`, which has the next number, in place of the key's. If memory runs out, nothing has changed.
    fn store(&mut self, key: Key, row: Row) -> Result<(), Memory>
        requires number { row.number ≡ self.old.next }
        requires left { self.old.next < 2 ^ 32 }
        ensures stored { OnOk result (self.new ≡ record { rows = without key self.old.rows ++ (key, row) ∷ []; next = self.old.next + 1 }) }
        ensures stays { OnErr result (self.new ≡ self.old) }
    {
        let number = row.number();
        self.log.make_room()?;
        let slot = put_row(
            self.alloc,
            &mut self.keys,
            &mut self.slots,
            &mut self.ends,
            key,
            row,
        )?;
        self.log.push(number, slot);
        self.next += 1;
        self.log.sweep(&self.slots, self.ends.len());
        Ok(())
    }

    /// Removes the row of this end. Doesn't allocate.
    fn take(&mut self, end: RowEnd)
        requires { has_end self.old.rows end ≡ true }
        ensures { (key : Key) (row : StoredRow) → row_at key self.old.rows ≡ Some row → end ≡ ending_of row → self.new ≡ record { rows = without key self.old.rows; next = self.old.next } }
    {
        take_from(&mut self.keys, &mut self.slots, &self.log, end.number);
        self.ends.remove(&end);
    }

    /// Stores `row`, which has the next number, in place of the key's. If the key had none, removes the first row to end.
    /// There must be one. If memory runs out, nothing has changed.
    fn put_full(&mut self, key: Key, row: Row) -> Result<(), Memory>
        requires number { row.number ≡ self.old.next }
        requires left { self.old.next < 2 ^ 32 }
        requires some { 1 ≤ length self.old.rows }
        ensures put { OnOk result ((rest : List (Key × StoredRow)) × LeftFor key true self.old.rows rest × (self.new ≡ record { rows = without key rest ++ (key, row) ∷ []; next = self.old.next + 1 })) }
        ensures stays { OnErr result (self.new ≡ self.old) }
    {
        let before = self.len();
        let first = self.first_end();
        self.store(key, row)?;
        if self.len() <= before {
            return Ok(());
        }
        if let Some(first) = first {
            self.take(first);
        }
        Ok(())
    }

    /// Stores `row`, which has the next number, in place of the key's. If the key had none, and the table is `full`, removes
    /// the first row to end. There must be one then. If memory runs out, nothing has changed.
    pub fn put(&mut self, key: Key, row: Row, full: bool) -> Result<(), Memory>
        requires number { row.number ≡ self.old.next }
        requires left { self.old.next < 2 ^ 32 }
        requires some { IsTrue full → 1 ≤ length self.old.rows }
        ensures put { OnOk result ((rest : List (Key × StoredRow)) × LeftFor key full self.old.rows rest × (self.new ≡ record { rows = without key rest ++ (key, row) ∷ []; next = self.old.next + 1 })) }
        ensures stays { OnErr result (self.new ≡ self.old) }
    {
        if full {
            return self.put_full(key, row);
        }
        self.store(key, row)
    }

    /// Removes one row that isn't live at `now`, and returns whether there was one. Doesn't allocate.
    fn take_one_ended(&mut self, now: Moment) -> bool
        ensures live { filter (λ e. is_live now e.1) self.new.rows ≡ filter (λ e. is_live now e.1) self.old.rows }
        ensures next { self.new.next ≡ self.old.next }
        ensures one { OnTrue result (length self.new.rows + 1 ≡ length self.old.rows) }
        ensures none { OnFalse result (filter (λ e. is_live now e.1) self.new.rows ≡ self.new.rows) }
    {
        let Some(first) = self.first_end() else {
            return false;
        };
        if first.end > now.milliseconds() {
            return false;
        }
        self.take(first);
        true
    }

    /// Removes the rows that aren't live at `now`. Walks these alone, and doesn't allocate.
    pub fn drop_ended(&mut self, now: Moment)
        ensures { self.new ≡ record { rows = filter (λ e. is_live now e.1) self.old.rows; next = self.old.next } }
    {
        let most = self.len();
        for _ in 0..most {
            if !self.take_one_ended(now) {
                return;
            }
        }
    }

    /// Returns the rows above `number` with their keys, in ascending order of number. Doesn't allocate.
    pub fn above(&self, number: u32) -> Above<'_>
        ensures { result ≡ filter (λ e. nat_lt number e.1.number) self.now.rows }
    {
        Above::new(&self.log, &self.slots, self.log.first_above(number))
    }

    /// Returns how many rows aren't live at `now`. Walks these alone, and doesn't allocate.
    pub fn count_ended(&self, now: Moment) -> usize
        ensures { result ≡ length (filter (λ e. not (is_live now e.1)) self.now.rows) }
    {
        // No row has this end, since numbers are at least 1. In the order in which rows end, it stands between the rows that
        // aren't live and those that are.
        let first_live = RowEnd {
            end: now.milliseconds() + 1,
            number: 0,
        };
        let ended = (Bound::Excluded(first_live), Bound::Unbounded);
        self.ends.range(ended).count()
    }

    /// Stores a copy of `row` under the next number in place of the key's.
    fn store_copy(&mut self, key: &Key, row: &Row) -> Result<(), Memory>
        requires { self.old.next < 2 ^ 32 }
        ensures { OnOk result (self.new ≡ record { rows = without key.now self.old.rows ++ (key.now, record row.now { number = self.old.next }) ∷ []; next = self.old.next + 1 }) }
    {
        let numbered = row.copy_as(self.alloc, self.next() as u32)?;
        self.store(key.copy(self.alloc)?, numbered)
    }

    /// Returns a stock of copies of the rows, in their order, with the numbers from 1 on.
    pub fn renumbered(&self) -> Result<Stock, Memory>
        ensures { IfOk result (λ stock. stock ≡ record { rows = numbered_from 1 self.now.rows; next = length self.now.rows + 1 }) }
    {
        let mut stock = Stock::new(self.alloc, 1);
        // Numbers are at least 1, so these are all the rows.
        for (key, row) in self.above(0) {
            stock.store_copy(key, row)?;
        }
        Ok(stock)
    }

    /// Returns copies of the rows with their keys, in ascending order of key.
    pub fn list(&self) -> Result<Vec<(Key, Row)>, Memory>
        ensures rising { IfOk result (λ list. IsStrictlySortedBy key_cmp (keys_of list.items)) }
        ensures each { IfOk result (λ list. (key : Key) → row_at key list.items ≡ row_at key self.now.rows) }
    {
        let count = self.keys.len();
        copies_after(self.alloc, &self.keys, &self.slots, None, count, count)
    }

    /// Returns copies of the rows whose keys follow `after`, or of all rows, with their keys, in ascending order of key, at
    /// most `most` of them.
    pub fn list_after(&self, after: Option<&Key>, most: usize) -> Result<Vec<(Key, Row)>, Memory>
        ensures { IfOk result (λ list. AreNextInRisingKey (option_copied after.entry) most self.now.rows list.items) }
    {
        copies_after(self.alloc, &self.keys, &self.slots, after, most, 0)
    }
}
