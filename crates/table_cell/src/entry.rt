//! Events with their replies, which a table's history shares with its callers.

ghost use Rattle.std.specs.Prelude.{◌≡◌, ◌++◌, ◌∷◌, [], IfOk, OnOk, option_copied, true};
ghost use Rattle.table_cell.specs.Histories.{batch_in};

use crate::events::{CellEvent, CellReply};
use std::alloc::Global;
use std::marker::Model;
use std::sync::Arc;
use table_stock::Blocks;
use table_types::{Batch, Memory};

/// An event of a table with the table's reply. Copies of an entry share both.
#[derive(Debug, Drop)]
pub struct Entry {
    shared: Arc<(CellEvent, CellReply), Global>,
}

impl Model for Entry {
    ghost use Rattle.std.specs.Arc.{arc_value};
    ghost use Rattle.table_cell.specs.declared.events.CellEvent.{CellEvent};
    ghost use Rattle.table_cell.specs.declared.events.CellReply.{CellReply};

    ghost Value = { CellEvent × CellReply };

    ghost view = { λ a. arc_value a.shared };
}

impl Entry {
    /// Makes the entry of `event` and `reply`.
    pub(crate) fn new(alloc: Global, event: CellEvent, reply: CellReply) -> Result<Entry, Memory>
        ensures { IfOk result (λ entry. entry ≡ (event, reply)) }
    {
        match Arc::new(alloc, (event, reply)) {
            Ok(shared) => Ok(Entry { shared }),
            Err(_) => Err(Memory),
        }
    }

    /// Returns the event.
    pub fn event(&self) -> &CellEvent
        ensures { result.now ≡ self.now.0 }
    {
        let (event, _) = &*self.shared;
        event
    }

    /// Returns the reply.
    pub fn reply(&self) -> &CellReply
        ensures { result.now ≡ self.now.1 }
    {
        let (_, reply) = &*self.shared;
        reply
    }

    /// Returns the batch in the reply, if it is that of a copy.
    pub fn batch(&self) -> Option<&Batch>
        ensures { option_copied result ≡ batch_in self.now.1 }
    {
        match self.reply() {
            CellReply::Copy(batch) => Some(batch),
            _ => None,
        }
    }

    /// Returns an equal entry that shares the event and the reply. Doesn't allocate; fails only if 2^63 - 1 entries
    /// share them already.
    pub fn copy(&self) -> Result<Entry, Memory>
        ensures { IfOk result (λ copy. copy ≡ self.now) }
    {
        match Arc::try_clone(&self.shared) {
            Ok(shared) => Ok(Entry { shared }),
            Err(_) => Err(Memory),
        }
    }
}

/// Makes room for one more entry in the history, and makes the entry of `event` and `reply`: one for the history, and
/// one for the caller.
pub(crate) fn prepare(
    alloc: Global,
    history: &mut Blocks<Entry>,
    event: CellEvent,
    reply: CellReply,
) -> Result<(Entry, Entry), Memory>
    ensures kept { IfOk result (λ pair. pair.0 ≡ (event, reply)) }
    ensures given { IfOk result (λ pair. pair.1 ≡ (event, reply)) }
    ensures room { OnOk result (history.new.has_room ≡ true) }
    ensures stays { history.new.items ≡ history.old.items }
{
    history.reserve_one()?;
    let entry = Entry::new(alloc, event, reply)?;
    Ok((entry.copy()?, entry))
}
