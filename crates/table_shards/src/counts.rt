//! Counting the receipts of events.

ghost use Rattle.std.specs.Prelude.{◌≡◌, ◌↔◌, ◌<◌, EachIndex, IsTrue, length, slice_index};
ghost use Rattle.std.specs.Bool.{MatchBool};
ghost use Rattle.std.specs.List.{AllByRecursion};
ghost use Rattle.table_shards.specs.Counts.{AreAdded, AreCounts, AreOnce, HaveRoom, RiseAfter};
ghost use Rattle.table_shards.specs.Receipts.{PlacesRise, all_receipts, receipts_of, seen_of, times};

use crate::receipts::Receipts;
use crate::seat::Seat;

/// How many places are counted at a time, so that no memory is needed for a count of each event. Each seat is searched once for
/// each such span.
const SPAN: usize = 512;

/// Adds one to the count of each of the `SPAN` places after `from` that a receipt is of. All receipts are of places after `from`.
fn add_places(from: u64, receipts: Receipts<'_>, counts: &mut [usize; SPAN])
    requires rising { RiseAfter from receipts }
    requires room { HaveRoom counts.old }
    ensures { AreAdded from receipts.entry counts.old counts.new }
{
    for receipt in receipts {
        let index = receipt.place() - from - 1;
        if index >= SPAN as u64 {
            return;
        }
        counts[index as usize] += 1;
    }
}

/// Returns how many receipts of `table` the seats have of each of the `SPAN` places after `from`.
fn counts_after(table: u64, from: u64, seats: &[Seat]) -> [usize; SPAN]
    ensures counted { AreCounts from (all_receipts table seats.now) result }
    ensures long { length result ≡ 512 }
{
    let mut counts = [0; SPAN];
    for seat in seats {
        add_places(from, seat.receipts(table).later_than(from), &mut counts);
    }
    counts
}

/// Returns whether all the counts are one.
fn are_ones(counts: &[usize]) -> bool
    ensures { IsTrue result ↔ EachIndex counts.now (λ index. slice_index counts.now index ≡ 1) }
{
    counts.iter().all(|count| *count == 1)
}

/// Returns whether each event after the first `from`, up to place `last`, is a receipt exactly once.
pub fn are_once(table: u64, from: u64, last: u64, seats: &[Seat]) -> bool
    ensures { MatchBool result (AreOnce table seats.now from last) (AreOnce table seats.now from last → ⊥) }
{
    let mut counted = from;
    while counted < last {
        let width = (last - counted).min(SPAN as u64);
        let counts = counts_after(table, counted, seats);
        if !are_ones(&counts[..width as usize]) {
            return false;
        }
        counted += width;
    }
    true
}

/// Returns whether all the receipts are of places after `from`.
fn are_after(from: u64, receipts: Receipts<'_>) -> bool
    ensures { MatchBool result (AllByRecursion (λ r. from < r.place) receipts.entry) (AllByRecursion (λ r. from < r.place) receipts.entry → ⊥) }
{
    for receipt in receipts {
        if receipt.place() <= from {
            return false;
        }
    }
    true
}

/// Returns whether all receipts of `table` are of places after `from`.
pub fn are_of_round(table: u64, from: u64, seats: &[Seat]) -> bool
    ensures rising { IsTrue result → AllByRecursion (λ s. PlacesRise 0 (receipts_of table s) (seen_of table s)) seats.now }
    ensures after { MatchBool result
        (AllByRecursion (λ r. from < r.place) (all_receipts table seats.now))
        (AllByRecursion (λ r. from < r.place) (all_receipts table seats.now) → ⊥) }
{
    for seat in seats {
        if !are_after(from, seat.receipts(table)) {
            return false;
        }
    }
    true
}
