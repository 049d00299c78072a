//! Sides, of which the tables are data.

use crate::sessions::{accepting, connecting, roster};
use crate::sides::{SESSION, Side};
use peers_engine::Worker;
use session_core::Session;
use std::alloc::Global;
use table_cell::TableCell;
use table_shards::{Seat, Shards};
use table_types::{Moment, Version};
use tests_play_data::parts::{TableParts, UpdateParts, definition, update};

/// The tables of a side.
#[derive(Drop)]
pub struct Tables {
    /// The tables that the session shares.
    pub roster: &'static [TableParts],
    /// The tables under their locks.
    pub tables: &'static [TableParts],
    /// The rows that they have learned.
    pub rows: &'static [UpdateParts],
    /// Whether each table has room for one row, which it doesn't purge. Otherwise it has room for ten.
    pub are_full: bool,
    /// Whether the session is open in them.
    pub are_open: bool,
}

/// Which side it is.
#[derive(Clone, Copy, Debug, PartialEq, Eq)]
pub enum Role {
    /// `a`, which connects to `b` and isn't up to date.
    Connects,
    /// `b`, to which `a` connects, and which is up to date.
    Accepts,
}

impl Tables {
    /// Learns the rows of this table.
    fn learn(&self, alloc: Global, cell: &mut TableCell, table: u64) -> Option<()> {
        for row in self.rows {
            if row.table == table {
                cell.learn(SESSION, update(alloc, row)?, Moment::least())
                    .ok()?;
            }
        }
        Some(())
    }

    /// Opens the session in a table if it is to be open, and learns the table's rows.
    fn fill(&self, alloc: Global, cell: &mut TableCell, table: u64) -> Option<()> {
        if self.are_open {
            cell.open_session(SESSION, Version::V21).ok()?;
        }
        self.learn(alloc, cell, table)
    }

    fn cell(&self, alloc: Global, table: &TableParts) -> Option<TableCell> {
        let size = if self.are_full { 1 } else { 10 };
        let definition = definition(alloc, table)?;
        let mut cell = TableCell::new(alloc, definition, size, self.are_full, 1).ok()?;
        self.fill(alloc, &mut cell, table.id)?;
        Some(cell)
    }

    /// Makes the tables under their locks, and two seats.
    pub(crate) fn shards(&self, alloc: Global) -> Option<(Shards, Vec<Seat>)> {
        let mut cells = Vec::new(alloc);
        for table in self.tables {
            cells.push(self.cell(alloc, table)?).ok()?;
        }
        Shards::new(alloc, cells, 2).ok()
    }

    /// Makes the session of a side with these tables.
    pub(crate) fn session(&self, alloc: Global, role: Role) -> Option<Session> {
        let roster = roster(alloc, self.roster)?;
        match role {
            Role::Connects => connecting(alloc, roster, false),
            Role::Accepts => accepting(alloc, roster, true),
        }
    }

    /// Makes a side with these tables.
    pub(crate) fn side(&self, alloc: Global, role: Role) -> Option<Side> {
        let (session, (shards, mut seats)) = self.session(alloc, role).zip(self.shards(alloc))?;
        let other = seats.pop();
        let seat = seats.pop()?;
        let worker = Worker {
            session,
            seat,
            number: SESSION,
        };
        Some(Side {
            worker,
            shards,
            other,
        })
    }
}
