//! Comparing receipts with a table's history.

ghost use Rattle.std.specs.Prelude.{◌≡◌, ◌↔◌, IsTrue};
ghost use Rattle.std.specs.Bool.{MatchBool};
ghost use Rattle.table_shards.specs.Agreement.{AreEntries, Compares, IsEntry, Strays, lesser};

use crate::counts::{are_of_round, are_once};
use crate::receipt::{Receipt, are_same_events, are_same_replies};
use crate::seat::Seat;
use table_cell::TableCell;

/// Returns whether the receipt is the table's event at its place, with its reply.
fn is_entry(cell: &TableCell, receipt: &Receipt) -> bool
    ensures { IsTrue result ↔ IsEntry cell.now receipt.now }
{
    match cell.event_at(receipt.place()) {
        None => false,
        Some((event, reply)) => {
            are_same_events(event, receipt.event()) && are_same_replies(reply, receipt.reply())
        }
    }
}

/// Returns whether the seat's receipts of the table are the table's events.
fn has_entries(cell: &TableCell, seat: &Seat) -> bool
    ensures { MatchBool result (AreEntries cell.now seat.now) (AreEntries cell.now seat.now → ⊥) }
{
    for receipt in seat.receipts(cell.definition().id()) {
        if !is_entry(cell, receipt) {
            return false;
        }
    }
    true
}

fn lesser(least: Option<u32>, number: u32) -> u32
    ensures { result ≡ lesser least number }
{
    match least {
        Some(least) if least < number => least,
        _ => number,
    }
}

/// Returns the least number of a stray seat, or `None` if there is none. A seat is a stray if it has a receipt that isn't
/// the table's event at its place.
fn least_stray(cell: &TableCell, seats: &[Seat]) -> Option<u32>
    ensures { Strays cell.now seats.now result }
{
    let mut least = None;
    for seat in seats {
        if !has_entries(cell, seat) {
            least = Some(lesser(least, seat.number()));
        }
    }
    least
}

/// Compares the seats' receipts of the table with its events after the first `from`. Returns `None` if each of these
/// events is the receipt of exactly one seat, exactly once, and the seats have no other receipts of the table.
/// Otherwise returns the least seat with a receipt that isn't the table's event at its place, or 0 if there is none.
/// Doesn't allocate. Takes time linear in the number of events and receipts.
pub fn compare(cell: &TableCell, from: u64, seats: &[Seat]) -> Option<u32>
    ensures { Compares cell.now from seats.now result }
{
    let stray = least_stray(cell, seats);
    if stray.is_some() {
        return stray;
    }
    // All the receipts are the table's events. They must also be its events after the first `from`, one for one.
    let table = cell.definition().id();
    if are_of_round(table, from, seats) && are_once(table, from, cell.events(), seats) {
        None
    } else {
        Some(0)
    }
}
