//! What stands before the events that a table has.

ghost use Rattle.std.specs.Prelude.{◌≡◌, ◌+◌, ◌++◌, ◌≤◌, ◌^◌, [], length};
ghost use Rattle.table_cell.specs.Cells.{IsNewFrom};

use crate::entry::Entry;
use crate::past::{Past, no_past, with_events};
use crate::table::Table;
use std::collections::BTreeMap;
use std::marker::Model;
use std::mem;
use std::snapshot::Snapshot;
use table_stock::Blocks;

/// What stands before the events that a table has: the table with which its history begins, and the events of the history
/// that slides dropped.
#[derive(Drop)]
pub(crate) struct Origin {
    /// The table with which the history begins. It has no bytes: only clauses read it.
    base: Snapshot<Table>,
    /// If the history begins with a new table, the next number of that table.
    first: Option<u64>,
    /// The events of the history that slides dropped. They have no bytes either.
    past: Snapshot<Past>,
    /// The copies that slides kept, by session. They have no bytes either.
    held: Snapshot<BTreeMap<u32, Entry>>,
    /// How many events came before those that the table has.
    before: u64,
    /// How often the rows got new numbers. The count starts again after 2^64 - 1.
    renewals: u64,
}

impl Model for Origin {
    ghost use Rattle.std.specs.Prelude.{◌-◌, ◌≤◌, length};
    ghost use Rattle.table_cell.specs.Cells.{IsNewFrom, OriginState};
    ghost use Rattle.table_cell.specs.Pasts.{all_of};

    ghost Value = { OriginState };

    ghost view = { λ o. record { base = o.base.value; dropped = o.before - length (all_of o.past.value); past = all_of o.past.value; held = o.held.value.entries; renewals = o.renewals } };

    ghost invariant = { λ o. (length (all_of o.past.value) ≤ o.before) × IsNewFrom o.base.value o.first };
}

impl Origin {
    /// Begins a history with `table`, after `before` events and `renewals` renewals of its numbers, with no copies. Takes
    /// constant time, and doesn't allocate.
    pub(crate) fn at(
        table: &Table,
        before: u64,
        renewals: u64,
        copies: &BTreeMap<u32, Entry>,
    ) -> Origin
        requires { copies.now.entries ≡ [] }
        ensures { result ≡ record { base = table.now; dropped = before; past = []; held = []; renewals = renewals } }
    {
        Origin {
            base: Snapshot::of(table),
            first: table.next_if_new(),
            past: no_past(),
            held: Snapshot::of(copies),
            before,
            renewals,
        }
    }

    /// Returns how many events came before those that the table has.
    pub(crate) fn before(&self) -> u64
        ensures { result ≡ self.now.dropped + length self.now.past }
    {
        self.before
    }

    /// Returns how often the rows got new numbers.
    pub(crate) fn renewals(&self) -> u64
        ensures { result ≡ self.now.renewals }
    {
        self.renewals
    }

    /// If the history begins with a new table, returns the next number of that table.
    pub(crate) fn first(&self) -> Option<u64>
        ensures { IsNewFrom self.now.base result }
    {
        self.first
    }

    /// Drops the events that the table has, but for the latest copies, which stay kept, and returns the events. Takes
    /// constant time, and doesn't allocate.
    pub(crate) fn slide(
        &mut self,
        events: Blocks<Entry>,
        copies: &BTreeMap<u32, Entry>,
    ) -> Blocks<Entry>
        requires { self.old.dropped + length self.old.past + length events.items ≤ 2 ^ 63 }
        ensures origin { self.new ≡ record self.old { past = self.old.past ++ events.items; held = copies.now.entries } }
        ensures events { result ≡ events }
    {
        self.before += events.len() as u64;
        let before = mem::replace(&mut self.past, no_past());
        let (past, events) = with_events(before, events);
        self.past = past;
        self.held = Snapshot::of(copies);
        events
    }
}
