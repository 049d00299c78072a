//! A round of `t1`, and calls from its seat.

use crate::round::Round;
use std::alloc::Global;
use std::sync::Wait;
use table_shards::{Seat, Shards, held};
use table_types::Moment;
use tests_play_data::parts::T1;

/// Makes a round of `t1` without events.
pub(crate) fn fresh(alloc: Global) -> Option<Round> {
    Round::new(alloc, &[T1])
}

/// Tracks key 7 `times` times. Returns whether the counts ascend from 1.
pub(crate) fn tracks<R: Wait>(rt: &R, round: &mut Round, times: u64) -> bool {
    for counted in 1..=times {
        if round.track(rt, 1, 7) != Some(counted) {
            return false;
        }
    }
    true
}

/// Makes a round of `t1` with three tracks of key 7.
pub(crate) fn tracked<R: Wait>(rt: &R, alloc: Global) -> Option<Round> {
    let mut round = fresh(alloc)?;
    if tracks(rt, &mut round, 3) {
        Some(round)
    } else {
        None
    }
}

/// Purges `t1`, of which no row has ended. Returns whether no row was purged.
pub(crate) fn purges<R: Wait>(rt: &R, shards: &Shards, seat: &mut Option<Seat>) -> Option<bool> {
    let lock = shards.cell(1)?;
    let taken = seat.take()?;
    let mut locked = lock.lock(rt);
    let (back, purged) = held::purge(&mut locked, taken, 1, Moment::least());
    *seat = Some(back);
    Some(purged == Ok(0))
}
