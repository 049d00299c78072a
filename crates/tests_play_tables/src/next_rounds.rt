//! Rounds after an audit, and calls in a round that drop events or give rows new numbers.

use crate::round::Round;
use crate::seats::{purges, tracked};
use std::alloc::Global;
use std::convert::Infallible;
use std::sync::Wait;
use table_cell::{CheckpointError, RenumberError};
use table_shards::held::lent;
use table_shards::{Audit, AuditError, Seat, ShardError, Shards, held};
use table_types::{CopyKind, Moment, Version};

/// Makes a round of `t1` with three tracks of key 7, and audits it.
fn audited<R: Wait>(rt: &R, alloc: Global) -> Option<Audit> {
    tracked(rt, alloc)?.audit(alloc)?.ok()
}

/// Makes a round of the tables and their only seat.
fn with_seat(shards: Shards, seats: Vec<Seat>) -> Round {
    let mut seats = seats;
    let seat = seats.pop();
    Round { shards, seat }
}

/// Returns whether the seat is seat 1, has no receipts, and has seen three events.
fn has_seen_three(round: &Round) -> Option<bool> {
    let seat = round.seat.as_ref()?;
    Some(seat.number() == 1 && seat.receipts(1).is_empty() && seat.seen(1) == 3)
}

/// Returns whether the audit has `t1` with these many events, of which the round has all after the first `began`, and none but
/// those.
fn has_events(audit: &Audit, began: u64, events: u64) -> bool {
    match audit.tables() {
        [table] => {
            table.began == began && table.cell.events() == events && table.cell.dropped() == began
        }
        _ => false,
    }
}

/// Tracks key 7 in another round. Returns whether the count goes on, and the audit of the round finds no fault.
fn goes_on<R: Wait>(rt: &R, alloc: Global, audit: Audit) -> Option<bool> {
    let (shards, seats) = audit.next_round(alloc).ok()?;
    let mut round = with_seat(shards, seats);
    let begun = has_seen_three(&round)?;
    let counted = round.track(rt, 1, 7) == Some(4) && round.receipts(1) == Some(1);
    let audit = round.audit(alloc)?.ok()?;
    Some(begun && counted && has_events(&audit, 3, 4))
}

/// Returns whether another round begins with the tables and seats of an audited one.
pub fn begins_another<R: Wait>(rt: &R, alloc: Global) -> Option<bool> {
    goes_on(rt, alloc, audited(rt, alloc)?)
}

/// Opens session 1 of `t1`, and copies for it.
fn copies<R: Wait>(rt: &R, round: &mut Round) -> Option<bool> {
    let lock = round.shards.cell(1)?;
    let seat = round.seat.as_mut()?;
    let mut locked = lock.lock(rt);
    let opened = lent::open_session(&mut locked, seat, 1, 1, Version::V21);
    let copied = lent::copy(
        &mut locked,
        seat,
        1,
        1,
        CopyKind::Push,
        512,
        Moment::least(),
    );
    Some(opened == Ok(()) && copied.is_ok())
}

/// Lets the history of `t1` begin anew from the seat, which comes back. Returns how many events it dropped, or why it is
/// refused.
pub(crate) fn begun_anew<R: Wait>(
    rt: &R,
    round: &mut Round,
) -> Option<Result<u64, ShardError<CheckpointError>>> {
    let lock = round.shards.cell(1)?;
    let seat = round.seat.take()?;
    let (seat, dropped) = held::begin_anew(&mut lock.lock(rt), seat, 1);
    round.seat = Some(seat);
    Some(dropped.map(|dropped| dropped.count()))
}

/// Lets `t1` slide from the seat, which comes back. Returns how many events it dropped, or why it is refused.
fn slid_away<R: Wait>(rt: &R, round: &mut Round) -> Option<Result<u64, ShardError<Infallible>>> {
    let lock = round.shards.cell(1)?;
    let seat = round.seat.take()?;
    let (seat, dropped) = held::slide(&mut lock.lock(rt), seat, 1);
    round.seat = Some(seat);
    Some(dropped.map(|dropped| dropped.count()))
}

/// Gives the rows of `t1` new numbers from the seat, which comes back. Returns why it is refused, if it is.
fn renumbered<R: Wait>(rt: &R, round: &mut Round) -> Option<Result<(), ShardError<RenumberError>>> {
    let lock = round.shards.cell(1)?;
    let seat = round.seat.take()?;
    let (seat, done) = held::renumber(&mut lock.lock(rt), seat, 1);
    round.seat = Some(seat);
    Some(done)
}

/// Returns whether `t1`, which has three events, is purged and begins anew from a seat, but not while a batch is out, slides also then,
/// and gets new numbers, but not while a session is open.
fn drops_events<R: Wait>(rt: &R, round: &mut Round) -> Option<bool> {
    let purged = purges(rt, &round.shards, &mut round.seat)?;
    let begun = begun_anew(rt, round)? == Ok(4);
    let renewed = renumbered(rt, round)? == Ok(());
    let copied = copies(rt, round)?;
    let refused = begun_anew(rt, round)? == Err(ShardError::Cell(CheckpointError::BatchOut));
    let slid = slid_away(rt, round)? == Ok(2);
    let open = renumbered(rt, round)? == Err(ShardError::Cell(RenumberError::SessionOpen));
    Some(purged && begun && renewed && copied && refused && slid && open)
}

/// Returns whether `t1` answers such calls as it should, and whether the seat keeps its receipts, and an audit notices.
pub fn comes_back<R: Wait>(rt: &R, alloc: Global) -> Option<bool> {
    let mut round = tracked(rt, alloc)?;
    let dropped = drops_events(rt, &mut round);
    let kept = round.receipts(1) == Some(6);
    let fault = AuditError::Mismatch { table: 1, seat: 0 };
    let noticed = round.audited(alloc) == Some(Err(fault));
    Some(dropped == Some(true) && kept && noticed)
}
