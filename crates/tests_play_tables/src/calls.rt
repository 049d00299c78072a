//! Calls that take a seat and return it, each to its end.

use crate::cells::{count, only, received};
use crate::growth::copied;
use crate::round::Round;
use crate::seats::fresh;
use std::alloc::Global;
use std::sync::Wait;
use table_shards::held;
use table_types::{Moment, Settled, Version};

/// Opens session 1 in `t1`. Returns whether it is open.
fn opens<R: Wait>(rt: &R, round: &mut Round) -> Option<bool> {
    let lock = round.shards.cell(1)?;
    let seat = round.seat.take()?;
    let (seat, opened) = held::open_session(&mut lock.lock(rt), seat, 1, 1, Version::V21);
    round.seat = Some(seat);
    Some(opened == Ok(()))
}

/// Learns 5 for key 7 of `t1`, which has no row. Returns whether the row has that, and number 1.
fn learns<R: Wait>(rt: &R, alloc: Global, round: &mut Round) -> Option<bool> {
    let update = received(alloc, false)?;
    let lock = round.shards.cell(1)?;
    let seat = round.seat.take()?;
    let (seat, learned) = held::learn(&mut lock.lock(rt), seat, 1, 1, update, Moment::least());
    round.seat = Some(seat);
    Some(match learned {
        Ok(reply) => reply.number == 1 && count(&reply.row) == Some(5),
        Err(_) => false,
    })
}

/// Copies what is due to session 1. Returns whether that is number 2, in which key 7 has 6.
fn copies<R: Wait>(rt: &R, round: &mut Round) -> Option<bool> {
    Some(match copied(rt, round)? {
        Ok(batch) => only(&batch) == Some((2, 30_000, 6)),
        Err(_) => false,
    })
}

/// Acknowledges number 2 in session 1. Returns whether that is all.
fn acknowledges<R: Wait>(rt: &R, round: &mut Round) -> Option<bool> {
    let lock = round.shards.cell(1)?;
    let seat = round.seat.take()?;
    let (seat, settled) = held::ack(&mut lock.lock(rt), seat, 1, 1, 2);
    round.seat = Some(seat);
    Some(settled == Ok(Settled::All))
}

/// Closes session 1 in `t1`. Returns whether it was open.
fn closes<R: Wait>(rt: &R, round: &mut Round) -> Option<bool> {
    let lock = round.shards.cell(1)?;
    let seat = round.seat.take()?;
    let (seat, closed) = held::close_session(&mut lock.lock(rt), seat, 1, 1);
    round.seat = Some(seat);
    Some(closed == Ok(()))
}

/// Returns whether the calls, with a track of key 7 behind the update, return what they should.
fn are_made<R: Wait>(rt: &R, alloc: Global, round: &mut Round) -> Option<bool> {
    let begun = opens(rt, round)? && learns(rt, alloc, round)?;
    let tracked = round.track(rt, 1, 7) == Some(6);
    let taught = copies(rt, round)? && acknowledges(rt, round)?;
    Some(begun && tracked && taught && closes(rt, round)?)
}

/// Returns whether a seat comes back from each call with a receipt, and an audit finds no fault.
pub fn come_back<R: Wait>(rt: &R, alloc: Global) -> Option<bool> {
    let mut round = fresh(alloc)?;
    let made = are_made(rt, alloc, &mut round);
    let kept = round.receipts(1) == Some(6);
    let audited = round.audited(alloc);
    Some(made == Some(true) && kept && audited == Some(Ok(())))
}
