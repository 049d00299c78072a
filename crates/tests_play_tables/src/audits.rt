//! Audits without a seat, and with the tables' own.

use crate::seats::tracked;
use crate::tracks::count;
use std::alloc::Global;
use std::sync::Wait;
use table_cell::{CellEvent, CellReply};
use table_shards::{Audit, AuditError, Receipt, Receipts, Seat, Unlocked};

/// Returns whether the receipt is that of a track from seat 1 that counted 3.
fn counts_to_3(receipt: &Receipt) -> bool {
    match (receipt.event(), receipt.reply()) {
        (CellEvent::Track { seat: 1, .. }, CellReply::Track(reply)) => count(reply) == Some(3),
        _ => false,
    }
}

/// Returns whether the receipts are those of three tracks.
fn are_three_tracks(receipts: Receipts<'_>) -> bool {
    let (Some(first), Some(second), Some(third)) = (
        receipts.get(0),
        receipts.get(1),
        receipts.get(2),
    ) else {
        return false;
    };
    let places = first.place() == 1 && second.place() == 2 && third.place() == 3;
    places && counts_to_3(third) && receipts.len() == 3
}

/// Returns whether the audit has `t1` with three events, and the seat with the receipts of its three tracks.
fn has_receipts(audit: &Audit) -> bool {
    let ([table], [seat]) = (audit.tables(), audit.seats()) else {
        return false;
    };
    are_three_tracks(seat.receipts(1)) && table.cell.events() == 3
}

/// Audits the tables without a seat, and returns them if they come back.
fn refuses_nobody(alloc: Global, tables: Unlocked) -> Option<Unlocked> {
    let (error, tables, back) = tables.audit(Vec::new(alloc)).err()?;
    if error == AuditError::MissingSeat && back.is_empty() {
        Some(tables)
    } else {
        None
    }
}

/// Returns whether the audit with the tables' own seat has its receipts.
fn is_audited(tables: Unlocked, seats: Vec<Seat>) -> Option<bool> {
    let audit = tables.audit(seats).ok()?;
    Some(has_receipts(&audit))
}

/// Returns whether an audit misses a seat without the tables' own, and has its receipts with it.
pub fn wants_its_own_seats<R: Wait>(rt: &R, alloc: Global) -> Option<bool> {
    let (tables, seats) = tracked(rt, alloc)?.unlock(alloc)?;
    let (tables, seats) = refuses_nobody(alloc, tables).zip(Some(seats))?;
    is_audited(tables, seats)
}
