//! A table under its lock.

ghost use Rattle.std.specs.Prelude.{◌≡◌};

use std::marker::Model;
use table_cell::TableCell;

/// A table under its lock. Only the calls of the module `held` change the table. A thread that holds two locks may swap
/// their contents; if they are still swapped when the round is audited, the audit finds a table that isn't the lock's
/// own.
#[derive(Drop)]
pub struct Locked {
    pub(crate) cell: TableCell,
}

impl Model for Locked {
    ghost use Rattle.table_cell.specs.Histories.{CellState};

    ghost Value = { CellState };

    ghost view = { λ a. a.cell };
}

impl Locked {
    /// Returns the table.
    pub fn cell(&self) -> &TableCell
        ensures { result.now ≡ self.now }
    {
        &self.cell
    }
}
