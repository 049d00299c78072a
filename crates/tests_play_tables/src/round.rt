//! Tables under their locks, and the only seat.

use crate::tracks::{Tracked, shards, track, track_at};
use std::alloc::Global;
use std::sync::Wait;
use table_cell::TrackError;
use table_shards::{Audit, AuditError, Seat, ShardError, Shards, Unlocked};
use table_types::Key;
use tests_play_data::parts::TableParts;

/// Tables under their locks, and their only seat, which is `None` while a call uses it.
#[derive(Drop)]
pub(crate) struct Round {
    pub(crate) shards: Shards,
    pub(crate) seat: Option<Seat>,
}

/// What an audit returns.
pub(crate) type Audited = Result<Audit, (AuditError, Unlocked, Vec<Seat>)>;

/// Makes a list of the seat alone.
fn alone(alloc: Global, seat: Option<Seat>) -> Option<Vec<Seat>> {
    vec![in alloc; seat?].ok()
}

impl Round {
    /// Makes a round of these tables.
    pub(crate) fn new(alloc: Global, tables: &[TableParts]) -> Option<Round> {
        let (shards, mut seats) = shards(alloc, tables, 1)?;
        let seat = seats.pop();
        Some(Round { shards, seat })
    }

    /// Adds 1 to gpc0 of a key of `table` at the least moment, and returns the count.
    pub(crate) fn track<R: Wait>(&mut self, rt: &R, table: u64, key: u32) -> Option<u64> {
        track(rt, &self.shards, &mut self.seat, table, key)
    }

    /// Calls `track` under the lock of table `lock`, and returns what the call returns.
    pub(crate) fn track_at<R: Wait>(
        &mut self,
        rt: &R,
        lock: u64,
        table: u64,
        key: Key,
    ) -> Option<Tracked> {
        track_at(rt, &self.shards, lock, &mut self.seat, table, key)
    }

    /// Calls `track_at`, and returns why it is refused, if it is.
    pub(crate) fn refusal<R: Wait>(
        &mut self,
        rt: &R,
        lock: u64,
        table: u64,
        key: Key,
    ) -> Option<ShardError<TrackError>> {
        match self.track_at(rt, lock, table, key) {
            Some(Err(refusal)) => Some(refusal),
            _ => None,
        }
    }

    /// Returns how many receipts of a table the seat has.
    pub(crate) fn receipts(&self, table: u64) -> Option<usize> {
        Some(self.seat.as_ref()?.receipts(table).len())
    }

    /// Returns the tables without their locks, and a list of the seat alone.
    pub(crate) fn unlock(self, alloc: Global) -> Option<(Unlocked, Vec<Seat>)> {
        let Round { shards, seat } = self;
        let tables = shards.unlock(alloc).ok();
        tables.zip(alone(alloc, seat))
    }

    /// Audits the tables with the seat.
    pub(crate) fn audit(self, alloc: Global) -> Option<Audited> {
        let (tables, seats) = self.unlock(alloc)?;
        Some(tables.audit(seats))
    }

    /// Calls `audit`, and returns the error alone.
    pub(crate) fn audited(self, alloc: Global) -> Option<Result<(), AuditError>> {
        match self.audit(alloc)? {
            Ok(_) => Some(Ok(())),
            Err((error, _, _)) => Some(Err(error)),
        }
    }
}
