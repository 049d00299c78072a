//! A table under its lock, with two seats.

use crate::tracks::shards;
use std::alloc::Global;
use table_shards::{Seat, Shards, Unlocked};
use tests_play_data::parts::T1;

/// `t1` under its lock, and its two seats. Each is `None` while a call uses it.
#[derive(Drop)]
pub struct TwoSeats {
    pub shards: Shards,
    pub first: Option<Seat>,
    pub second: Option<Seat>,
}

/// Makes a list of both seats.
fn both(alloc: Global, first: Option<Seat>, second: Option<Seat>) -> Option<Vec<Seat>> {
    let (first, second) = first.zip(second)?;
    vec![in alloc; first, second].ok()
}

impl TwoSeats {
    /// Makes `t1` without rows, and its seats.
    pub fn new(alloc: Global) -> Option<TwoSeats> {
        let (shards, mut seats) = shards(alloc, &[T1], 2)?;
        let (second, first) = (seats.pop(), seats.pop());
        Some(TwoSeats {
            shards,
            first,
            second,
        })
    }

    /// Returns the table without its lock, and both seats in their order.
    pub fn unlock(self, alloc: Global) -> Option<(Unlocked, Vec<Seat>)> {
        let TwoSeats {
            shards,
            first,
            second,
        } = self;
        let table = shards.unlock(alloc).ok();
        table.zip(both(alloc, first, second))
    }
}
