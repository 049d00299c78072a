//! Tables under their locks.

ghost use Rattle.std.specs.Prelude.{◌≡◌, ◌==◌, IfErr, IfOk, is_some};
ghost use Rattle.std.specs.List.{list_any};
ghost use Rattle.table_shards.specs.Agreement.{id_of};
ghost use Rattle.table_shards.specs.Audits.{round_of_unlocked};
ghost use Rattle.table_shards.specs.Rounds.{fresh_seats, round_of_shards};

use crate::locked::Locked;
use crate::seat::Seat;
use crate::unlocked::{Unlocked, UnlockedTable};
use std::alloc::Global;
use std::marker::Model;
use std::snapshot::Snapshot;
use std::sync::Mutex;
use table_cell::TableCell;
use table_types::Memory;

/// A table under its lock, with its id, and how many events it had and how often its rows had got new numbers when the round
/// began. Contracts see the table as it was when it was put under the lock, since no contract of a lock says what it holds.
#[derive(Drop)]
pub(crate) struct Shard {
    table: u64,
    began: u64,
    renewals: u64,
    given: Snapshot<TableCell>,
    cell: Mutex<Locked>,
}

impl Model for Shard {
    ghost use Rattle.std.specs.Prelude.{◌≡◌};
    ghost use Rattle.table_cell.specs.Histories.{CellState, events_of};
    ghost use Rattle.table_shards.specs.Agreement.{id_of};

    ghost Value = { CellState };

    ghost view = { λ s. s.given.value };

    ghost invariant = { λ s. (s.table ≡ id_of s.given.value) × (s.began ≡ events_of s.given.value) × (s.renewals ≡ s.given.value.renewals) };
}

/// Tables, each under its own lock, which many threads change from their seats.
#[derive(Drop)]
pub struct Shards {
    seats: u32,
    shards: Vec<Shard>,
}

// Threads share tables under their locks.
unsafe impl Sync for Shards {}

impl Model for Shards {
    ghost use Rattle.table_shards.specs.Rounds.{ShardsState};

    ghost Value = { ShardsState };

    ghost view = { λ a. record { seats = a.seats; cells = a.shards.items } };
}

/// Puts a table under a lock.
pub(crate) fn put_under_lock(cell: TableCell) -> Shard
    ensures { result ≡ cell }
{
    Shard {
        table: cell.definition().id(),
        began: cell.events(),
        renewals: cell.renewals(),
        given: Snapshot::of(&cell),
        cell: Mutex::new(Locked { cell }),
    }
}

impl Shards {
    /// Puts each table under a lock, and makes the seats 1 to `seats`, in this order. The tables have distinct ids;
    /// there are 1 to 64 tables, and 1 to 64 seats. If memory runs out, the tables are dropped.
    #[tactic(auto, using(crate::proofs::RoundLaws::one_seat_more))]
    pub fn new(
        alloc: Global,
        cells: Vec<TableCell>,
        seats: u32,
    ) -> Result<(Shards, Vec<Seat>), Memory>
        ensures shards { IfOk result (λ made. made.0 ≡ record { seats = seats; cells = cells.items }) }
        ensures seats { IfOk result (λ made. made.1.items ≡ fresh_seats seats) }
    {
        let mut shards = Vec::new(alloc);
        for cell in cells {
            shards.push(put_under_lock(cell))?;
        }
        let mut made = Vec::new(alloc);
        for before in 0..seats {
            made.push(Seat::with_pages(alloc, before + 1, Vec::new(alloc)))?;
        }
        Ok((Shards { seats, shards }, made))
    }

    /// Joins `shards` with the number of seats that are made with them.
    pub(crate) fn of(seats: u32, shards: Vec<Shard>) -> Shards
        ensures { result ≡ record { seats = seats; cells = shards.items } }
    {
        Shards { seats, shards }
    }

    /// Returns the lock of `table`, or `None` if there is no such table. Doesn't allocate or wait.
    pub fn cell(&self, table: u64) -> Option<&Mutex<Locked>>
        ensures { is_some result ≡ list_any (λ c. id_of c == table) self.now.cells }
    {
        for shard in &self.shards {
            if shard.table == table {
                return Some(&shard.cell);
            }
        }
        None
    }

    /// Takes the tables out of their locks. If memory runs out, returns them as they were.
    #[tactic(auto, using(crate::proofs::RoundLaws::one_unlocked))]
    pub fn unlock(self, alloc: Global) -> Result<Unlocked, (Memory, Shards)>
        ensures unlocked { IfOk result (λ unlocked. round_of_unlocked unlocked ≡ round_of_shards self) }
        ensures refused { IfErr result (λ back. back.1 ≡ self) }
    {
        let Ok(mut tables) = Vec::with_capacity(alloc, self.shards.len()) else {
            return Err((Memory, self));
        };
        for shard in self.shards {
            tables.push_reserved(UnlockedTable {
                table: shard.table,
                began: shard.began,
                renewals: shard.renewals,
                cell: shard.cell.into_inner().cell,
            });
        }
        Ok(Unlocked::of(self.seats, tables))
    }
}
