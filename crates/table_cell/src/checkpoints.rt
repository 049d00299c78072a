//! Histories that begin anew, and histories whose events are dropped.

ghost use Rattle.std.specs.Prelude.{◌≡◌, length};
ghost use Rattle.std.specs.List.{filter};
ghost use Rattle.table_cell.specs.Histories.{BeginsAnew, Checkpoints, IsReplayed, Kept, Slides};
ghost use Rattle.table_cell.specs.Machine.{is_any_out, is_open};

use crate::cell::TableCell;
use crate::entry::Entry;
use crate::errors::CheckpointError;
use crate::origin::Origin;
use crate::table::Table;
use std::collections::BTreeMap;
use std::marker::Model;
use std::mem;
use table_stock::Blocks;

/// The events that a table has dropped. Dropping it frees those that no receipt shares, for which no lock on the table is
/// needed.
#[derive(Drop)]
pub struct Dropped {
    history: Blocks<Entry>,
    /// The copies among them that the table had kept by session.
    copies: BTreeMap<u32, Entry>,
}

impl Model for Dropped {
    ghost use Rattle.std.specs.Prelude.{List};
    ghost use Rattle.table_cell.specs.declared.events.CellEvent.{CellEvent};
    ghost use Rattle.table_cell.specs.declared.events.CellReply.{CellReply};

    ghost Value = { List (CellEvent × CellReply) };

    ghost view = { λ a. a.history.items };
}

impl Dropped {
    /// Returns the number of events.
    pub fn count(&self) -> u64
        ensures { result ≡ length self.now }
    {
        self.history.len() as u64
    }
}

/// Removes the copies for sessions that aren't open. Doesn't allocate.
fn retain_open(copies: &mut BTreeMap<u32, Entry>, table: &Table)
    ensures { copies.new.entries ≡ filter (λ e. is_open e.0 table.now) copies.old.entries }
{
    copies.retain(|session, _| table.progress(*session).is_some());
}

impl TableCell {
    /// Returns whether a batch of some open session is out, so that `checkpoint` and `begin_anew` are refused. Doesn't
    /// allocate.
    pub fn has_batch_out(&self) -> bool
        ensures { result ≡ is_any_out self.now.state }
    {
        self.table.is_any_out()
    }

    /// Lets the history begin anew with the present state, and returns the events that the table had. The rows, their
    /// numbers, the sessions, and the numbers of events and renewals so far stay. No batch is kept. If a batch of an open
    /// session is out, the call is refused, and nothing has changed. Takes constant time, and doesn't allocate.
    pub fn begin_anew(&mut self) -> Result<Dropped, CheckpointError>
        ensures { BeginsAnew self.old result self.new }
    {
        if self.has_batch_out() {
            return Err(CheckpointError::BatchOut);
        }
        let alloc = self.table.alloc();
        let events = self.events();
        let renewals = self.renewals();
        let copies = mem::replace(&mut self.latest_copies, BTreeMap::new(alloc));
        self.origin = Origin::at(&self.table, events, renewals, &self.latest_copies);
        Ok(Dropped {
            history: mem::replace(&mut self.history, Blocks::new(alloc)),
            copies,
        })
    }

    /// Lets the history begin anew like `begin_anew`, and frees the events that the table had. Doesn't allocate.
    pub fn checkpoint(&mut self) -> Result<(), CheckpointError>
        ensures { Checkpoints self.old result self.new }
    {
        self.begin_anew()?;
        Ok(())
    }

    /// Drops the events that the table has, also while batches are out, and returns them. The rows, their numbers, the
    /// sessions and the number of events so far stay; the state is the replay of all events, dropped ones included. Of the
    /// batches, the latest one of each open session stays kept. Takes time linear in the number of sessions that copied
    /// since the last slide or were open then, and doesn't allocate.
    pub fn slide(&mut self) -> Dropped
        ensures slides { Slides self.old result self.new }
        ensures replayed { IsReplayed self.new }
        ensures kept { Kept self.new }
    {
        let alloc = self.table.alloc();
        retain_open(&mut self.latest_copies, &self.table);
        let history = mem::replace(&mut self.history, Blocks::new(alloc));
        Dropped {
            history: self.origin.slide(history, &self.latest_copies),
            copies: BTreeMap::new(alloc),
        }
    }
}
