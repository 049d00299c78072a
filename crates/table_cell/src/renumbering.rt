//! Rows that get new numbers.

ghost use Rattle.std.specs.Prelude.{◌≡◌, OnErr, OnOk};
ghost use Rattle.table_cell.specs.Renumbering.{Renumbers, renumbered};

use crate::cell::TableCell;
use crate::errors::RenumberError;
use crate::learned_run::LearnedRun;
use crate::origin::Origin;
use crate::table::Table;
use std::collections::BTreeMap;
use table_stock::Blocks;
use table_types::Memory;

impl Table {
    /// Gives the rows, in their order, the numbers from 1 on. If memory runs out, nothing has changed.
    fn renumber(&mut self) -> Result<(), Memory>
        ensures renumbered { OnOk result (self.new ≡ renumbered self.old) }
        ensures stays { OnErr result (self.new ≡ self.old) }
    {
        self.stock = self.stock.renumbered()?;
        self.learned_run = LearnedRun {
            after: 0,
            last: 0,
            since: self.latest,
        };
        Ok(())
    }
}

impl TableCell {
    /// Gives the rows, in their order, the numbers from 1 on, so that numbers are left for further changes, and lets the
    /// history begin anew with them. It is no event, but the table counts it (`renewals`). The rows' contents, their origin,
    /// the latest moment and the number of events so far stay. No batch is kept. If a session is open, the call is refused;
    /// then, and if memory runs out, nothing has changed.
    pub fn renumber(&mut self) -> Result<(), RenumberError>
        ensures { Renumbers self.old result self.new }
    {
        if self.table.has_sessions() {
            return Err(RenumberError::SessionOpen);
        }
        let alloc = self.table.alloc();
        let events = self.events();
        let renewals = self.renewals().wrapping_add(1);
        let Ok(()) = self.table.renumber() else {
            return Err(RenumberError::Memory);
        };
        self.latest_copies = BTreeMap::new(alloc);
        self.origin = Origin::at(&self.table, events, renewals, &self.latest_copies);
        self.history = Blocks::new(alloc);
        Ok(())
    }
}
