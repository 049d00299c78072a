//! Cells that were swapped under their locks: the calls and the audit notice it.

use crate::round::Round;
use std::alloc::Global;
use std::mem;
use std::sync::Wait;
use table_shards::{AuditError, Seat, ShardError, Shards, Unlocked};
use table_types::Key;
use tests_play_data::parts::{T1, T2};

/// The fault that an audit finds in `t1` if its cell is another table's, or has an event without a receipt.
const SWAPPED: AuditError = AuditError::Mismatch { table: 1, seat: 0 };

/// Swaps the cells under two locks.
fn swap<R: Wait>(rt: &R, one: (&Shards, u64), other: (&Shards, u64)) -> Option<()> {
    let (one, other) = (one.0.cell(one.1)?, other.0.cell(other.1)?);
    let mut first = one.lock(rt);
    let mut second = other.lock(rt);
    mem::swap(&mut *first, &mut *second);
    Some(())
}

/// Makes a row of key 7 in `t1` and in `t2`, and swaps their cells. Returns whether both tracks were accepted.
fn is_swapped<R: Wait>(rt: &R, round: &mut Round) -> Option<bool> {
    let counted = round.track(rt, 1, 7) == Some(1) && round.track(rt, 2, 7) == Some(1);
    swap(rt, (&round.shards, 1), (&round.shards, 2))?;
    Some(counted)
}

/// Makes `t1` and `t2`, each with a row of key 7, and swaps their cells.
fn swapped<R: Wait>(rt: &R, alloc: Global) -> Option<Round> {
    let mut round = Round::new(alloc, &[T1, T2])?;
    if is_swapped(rt, &mut round) == Some(true) {
        Some(round)
    } else {
        None
    }
}

/// Returns whether a call of `t1` is refused, and gives no receipt.
fn is_refused<R: Wait>(rt: &R, round: &mut Round) -> bool {
    let refusal = round.refusal(rt, 1, 1, Key::Int(7));
    refusal == Some(ShardError::NoTable) && round.receipts(1) == Some(1)
}

/// Returns whether both tables came back, each with its event, the cell of `t2` first, and one seat.
fn are_handed_back(tables: &Unlocked, seats: &[Seat]) -> bool {
    let [first, second] = tables.tables() else {
        return false;
    };
    let events = first.cell.events() == 1 && second.cell.events() == 1;
    first.table == 1 && first.cell.definition().id() == 2 && events && seats.len() == 1
}

/// Returns whether the audit names `t1`, and returns the tables and the seat.
fn hands_back(alloc: Global, round: Round) -> Option<bool> {
    let (error, tables, seats) = round.audit(alloc)?.err()?;
    Some(error == SWAPPED && are_handed_back(&tables, seats.as_slice()))
}

/// Returns whether a call of `t1` is refused while the cell of `t2` stands under its lock, and the audit names `t1`.
pub fn names_swapped_cells<R: Wait>(rt: &R, alloc: Global) -> Option<bool> {
    let mut round = swapped(rt, alloc)?;
    let refused = is_refused(rt, &mut round);
    let handed_back = hands_back(alloc, round);
    Some(refused && handed_back == Some(true))
}
