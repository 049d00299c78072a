//! Counting the rows that a session hasn't acknowledged.

ghost use Rattle.std.specs.Prelude.{◌≡◌, ◌≤◌, ◌<◌, IfSome, Some, not, true};
ghost use Rattle.std.specs.Option.{unwrap_or};
ghost use Rattle.table_cell.specs.Machine.{has_room, progress_of};
ghost use Rattle.table_cell.specs.Pending.{Counts, is_any_above};
ghost use Rattle.table_cell.specs.Soundness.{NumbersRise};

use crate::cell::TableCell;
use crate::copying::is_chosen;
use crate::progress::Progress;
use crate::table::Table;
use table_types::{CopyKind, Key, Moment};

/// A count of rows that a session hasn't acknowledged.
#[derive(Clone, Copy, Debug, PartialEq, Eq)]
pub struct Pending {
    /// How many there are.
    pub count: usize,
    /// The number of the first one.
    pub first: Option<u32>,
    /// The number above which there are rows that weren't looked at, if there are.
    pub next: Option<u32>,
}

impl Table {
    /// Counts the rows above `number`, in ascending order of number, that a copy of `kind` at `now`, for a session with this
    /// `bound`, includes. Looks at `most` rows at most, and doesn't allocate.
    pub(crate) fn pending_above(
        &self,
        number: u32,
        bound: u32,
        kind: CopyKind,
        now: Moment,
        most: usize,
    ) -> Pending
        requires rising { NumbersRise 1 self.now.next self.now.rows }
        requires some { 1 ≤ most }
        ensures counts { Counts kind bound number now self.now.rows result }
        ensures few { result.count ≤ most }
        ensures onward { IfSome result.next (λ next. number < next) }
        ensures left { IfSome result.next (λ next. is_any_above next self.now.rows ≡ true) }
    {
        let mut seen = self.copy_start(kind, number, now);
        let mut looked = 0;
        let mut count = 0;
        let mut first = None;
        for (_, row) in self.stock.above(seen) {
            if looked >= most {
                return Pending {
                    count,
                    first,
                    next: Some(seen),
                };
            }
            looked += 1;
            seen = row.number();
            if is_chosen(kind, bound, row, now) {
                count += 1;
                first = or_first(first, seen);
            }
        }
        Pending {
            count,
            first,
            next: None,
        }
    }

    /// Returns whether a row of `key` displaces another: the key has none, and there is no room for one more.
    pub(crate) fn displaces(&self, key: &Key) -> bool
        ensures { result ≡ not (has_room self.now key.now) }
    {
        self.stock.len() >= self.size && self.stock.row(key).is_none()
    }
}

/// Returns the first of some numbers, or `number` if there are none yet.
fn or_first(first: Option<u32>, number: u32) -> Option<u32>
    ensures { result ≡ Some (unwrap_or first number) }
{
    match first {
        Some(first) => Some(first),
        None => Some(number),
    }
}

impl TableCell {
    /// Returns the progress of `session`, or `None` if it isn't open. Doesn't allocate.
    pub fn progress(&self, session: u32) -> Option<Progress>
        ensures { result ≡ progress_of session self.now.state }
    {
        self.table.progress(session)
    }

    /// Counts the rows above `number`, in ascending order of number, that a copy of `kind` at `now` includes for a session whose
    /// progress has this `bound`. Looks at `most` rows at most, so a table can be counted in parts, each under a short lock. Takes
    /// time linear in `most`, passes a known run of rows that a push doesn't include without looking at it, and doesn't allocate.
    pub fn pending_above(
        &self,
        number: u32,
        bound: u32,
        kind: CopyKind,
        now: Moment,
        most: usize,
    ) -> Pending
        requires { 1 ≤ most }
        ensures counts { Counts kind bound number now self.now.state.rows result }
        ensures few { result.count ≤ most }
        ensures onward { IfSome result.next (λ next. number < next) }
        ensures left { IfSome result.next (λ next. is_any_above next self.now.state.rows ≡ true) }
    {
        self.table.pending_above(number, bound, kind, now, most)
    }

    /// Returns how many rows new ones have displaced so far, since there was no room for them. The count stops at 2^64 - 1. No
    /// contract says what is counted.
    pub fn displaced(&self) -> u64 {
        self.table.displaced()
    }
}
