//! Tables with integer keys and gpc0 under their locks, tracks from a seat that is kept in an `Option`, and threads that wait
//! for each other.

use crate::cells;
use std::alloc::Global;
use std::sync::Wait;
use std::sync::atomic::{AtomicBool, Ordering};
use std::thread;
use std::time::{Clock, Duration};
use table_cell::{Reply, TrackError};
use table_shards::{Seat, ShardError, Shards, held};
use table_types::{Change, DataType, Key, Moment};
use tests_play_data::parts::TableParts;

/// How often a thread looks for the sign of another, 1 ms apart.
const TURNS: u32 = 10_000;

/// Makes these tables under their locks, and seats.
pub(crate) fn shards(
    alloc: Global,
    tables: &[TableParts],
    seats: u32,
) -> Option<(Shards, Vec<Seat>)> {
    let mut made = Vec::new(alloc);
    for table in tables {
        made.push(cells::cell(alloc, table, 10)?).ok()?;
    }
    Shards::new(alloc, made, seats).ok()
}

/// What a call of `held::track` returns.
pub(crate) type Tracked = Result<Reply, ShardError<TrackError>>;

/// Adds 1 to gpc0 of a key of `table` at the least moment, under the lock of table `lock`. Takes the seat and puts it back.
/// Returns `None` if there is no such lock or no seat.
pub(crate) fn track_at<R: Wait>(
    rt: &R,
    shards: &Shards,
    lock: u64,
    seat: &mut Option<Seat>,
    table: u64,
    key: Key,
) -> Option<Tracked> {
    let lock = shards.cell(lock)?;
    let taken = seat.take()?;
    let change = Change::Add(DataType::Gpc0, 1);
    let mut locked = lock.lock(rt);
    let (back, answer) = held::track(&mut locked, taken, table, key, change, Moment::least());
    *seat = Some(back);
    Some(answer)
}

/// Adds 1 to gpc0 of a key of `table` at the least moment, and returns the count.
pub fn track<R: Wait>(
    rt: &R,
    shards: &Shards,
    seat: &mut Option<Seat>,
    table: u64,
    key: u32,
) -> Option<u64> {
    let answer = track_at(rt, shards, table, seat, table, Key::Int(key))?;
    count(&answer.ok()?)
}

/// Returns the count of the row of a reply.
pub fn count(reply: &Reply) -> Option<u64> {
    cells::count(&reply.row)
}

/// Waits until another thread sets `sign`, at most about 10 s. Returns whether it did.
pub fn comes<C: Clock>(clock: &C, sign: &AtomicBool) -> bool {
    for _ in 0..TURNS {
        if sign.load(Ordering::SeqCst) {
            return true;
        }
        thread::sleep(clock, Duration::from_millis(1));
    }
    false
}
