//! Iteration over rows with their keys, in ascending order of number.

ghost use Rattle.std.specs.Prelude.{◌≡◌, ◌<◌, ◌+◌, ◌∷◌, [], IfNone, IfSome, drop, length, option_copied};
ghost use Rattle.std.specs.Iterator.{at_most};
ghost use Rattle.std.specs.List.{cons_option};
ghost use Rattle.std.specs.Map.Iter.{TakesFirst, deref_pair};
ghost use Rattle.table_stock.specs.Shelves.{row_in, rows_in};

use crate::log::Log;
use crate::slots::Slots;
use std::marker::Model;
use table_types::{Key, Row};

/// An iterator over the remaining rows with their keys, in ascending order of number. It doesn't allocate.
#[derive(Drop)]
pub struct Above<'a> {
    log: &'a Log,
    slots: &'a Slots,
    /// The index in the log from which the remaining rows come.
    index: usize,
}

impl<'a> Model for Above<'a> {
    ghost use Rattle.std.specs.Prelude.{List, drop};
    ghost use Rattle.table_types.specs.declared.key.Key.{Key};
    ghost use Rattle.table_types.specs.Rows.{StoredRow};
    ghost use Rattle.table_stock.specs.Shelves.{row_in, rows_in};

    ghost Value = { List (Key × StoredRow) };

    ghost view = { λ a. rows_in (row_in a.slots.now.rows) (drop a.index a.log.now.entries) };
}

/// Returns the row, with its key, of the entry at `index`, unless that entry is stale.
fn row_at<'a>(log: &Log, slots: &'a Slots, index: usize) -> Option<&'a (Key, Row)>
    requires { index < length log.now.entries }
    ensures { rows_in (row_in slots.now.rows) (drop index log.now.entries) ≡ cons_option (option_copied result) (rows_in (row_in slots.now.rows) (drop (index + 1) log.now.entries)) }
{
    match log.get(index) {
        Some(entry) => slots.row_of(entry),
        None => unreachable!(),
    }
}

/// Returns the row, with its key, of the first entry from `start` on that isn't stale, and the index after that entry.
fn first_row<'a>(log: &Log, slots: &'a Slots, start: usize) -> Option<(&'a (Key, Row), usize)>
    ensures some { IfSome result (λ found. rows_in (row_in slots.now.rows) (drop start log.now.entries) ≡ found.0.now ∷ rows_in (row_in slots.now.rows) (drop found.1 log.now.entries)) }
    ensures none { IfNone result (rows_in (row_in slots.now.rows) (drop start log.now.entries) ≡ []) }
{
    for index in start..log.len() {
        if let Some(row) = row_at(log, slots, index) {
            return Some((row, index + 1));
        }
    }
    None
}

impl<'a> Above<'a> {
    /// Iterates over the rows of the entries of the log from `index` on.
    pub(crate) fn new(log: &'a Log, slots: &'a Slots, index: usize) -> Above<'a>
        ensures { result ≡ rows_in (row_in slots.now.rows) (drop index log.now.entries) }
    {
        Above { log, slots, index }
    }
}

impl<'a> Iterator for Above<'a> {
    type Item = (&'a Key, &'a Row);

    ghost next_gives = { TakesFirst deref_pair };

    ghost remaining = { λ s. at_most (length s) };

    fn next(&mut self) -> Option<(&'a Key, &'a Row)> {
        let Some((row, after)) = first_row(self.log, self.slots, self.index) else {
            return None;
        };
        self.index = after;
        Some((&row.0, &row.1))
    }
}
