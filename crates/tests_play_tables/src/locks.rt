//! Tables under locks of their own.

use crate::round::Round;
use crate::tracks::{comes, track};
use std::alloc::Global;
use std::sync::Wait;
use std::sync::atomic::{AtomicBool, Ordering};
use std::thread;
use std::thread::Threads;
use std::time::Clock;
use table_shards::{Seat, Shards};
use tests_play_data::parts::{T1, T2};

/// Holds the lock of `t1` until the other thread sets `is_answered`. Returns whether it did, with `t1` unchanged.
fn held_meanwhile<R: Wait + Clock>(
    rt: &R,
    shards: &Shards,
    is_held: &AtomicBool,
    is_answered: &AtomicBool,
) -> bool {
    let Some(lock) = shards.cell(1) else {
        return false;
    };
    let locked = lock.lock(rt);
    is_held.store(true, Ordering::SeqCst);
    let came = comes(rt, is_answered);
    came && locked.cell().events() == 0
}

/// Tracks key 7 of `t2` once the lock of `t1` is held. Returns whether the count is 1.
fn tracked_meanwhile<R: Wait + Clock>(
    rt: &R,
    shards: &Shards,
    seat: &mut Option<Seat>,
    is_held: &AtomicBool,
    is_answered: &AtomicBool,
) -> bool {
    let ready = comes(rt, is_held);
    let counted = track(rt, shards, seat, 2, 7);
    is_answered.store(true, Ordering::SeqCst);
    ready && counted == Some(1)
}

/// Returns whether a track of `t2` returns while another thread holds the lock of `t1`.
fn answered_meanwhile<R: Threads + Wait + Clock + Sync>(
    rt: &R,
    shards: &Shards,
    seat: &mut Option<Seat>,
) -> bool {
    let (is_held, is_answered) = (AtomicBool::new(false), AtomicBool::new(false));
    let (came, counted) = thread::join(
        rt,
        || held_meanwhile(rt, shards, &is_held, &is_answered),
        || tracked_meanwhile(rt, shards, seat, &is_held, &is_answered),
    );
    came && counted
}

/// Returns whether a table can be changed while another is locked.
pub fn are_apart<R: Threads + Wait + Clock + Sync>(rt: &R, alloc: Global) -> Option<bool> {
    let mut round = Round::new(alloc, &[T1, T2])?;
    Some(answered_meanwhile(rt, &round.shards, &mut round.seat))
}
