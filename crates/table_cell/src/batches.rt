//! Batches: copied for sessions, kept in the history, and settled.

ghost use Rattle.std.specs.Prelude.{◌≡◌, ◌↔◌, ◌≤◌, ◌∷◌, ◌++◌, [], ℕ, IfOk, IfSome, IsOk, List, OnErr, OnOk, option_copied};
ghost use Rattle.table_cell.specs.Cells.{AreLatestCopies};
ghost use Rattle.table_cell.specs.declared.events.CellEvent.{CellEvent};
ghost use Rattle.table_cell.specs.declared.events.CellEvent.TheVariants as events;
ghost use Rattle.table_cell.specs.declared.events.CellReply.{CellReply};
ghost use Rattle.table_cell.specs.declared.events.CellReply.TheVariants as replies;
ghost use Rattle.table_cell.specs.Histories.{Copies, IsLatestBatch, Shares, SharesWith, batch_in, kept_batch};
ghost use Rattle.table_cell.specs.Machine.{Step};
ghost use Rattle.table_cell.specs.Parts.{IsCopy};
ghost use Rattle.table_types.specs.Batches.{IsBatchFor};
ghost use Rattle.table_types.specs.declared.copies.CopyKind.{CopyKind};

use crate::cell::TableCell;
use crate::copying::last_number;
use crate::entry::{Entry, prepare};
use crate::errors::{CopyError, StrangeBatch};
use crate::events::{CellEvent, CellReply};
use crate::table::Table;
use std::collections::BTreeMap;
use table_stock::Blocks;
use table_types::{Batch, CopyKind, Memory, Moment};

/// Records that the session is taught the batch of a copy, which is `event`, and adds the event to the history. Returns the
/// batch, and the event's entry. If memory runs out, nothing has changed.
fn add_copy(
    table: &mut Table,
    history: &mut Blocks<Entry>,
    latest_copies: &mut BTreeMap<u32, Entry>,
    session: u32,
    event: CellEvent,
    batch: Batch,
    now: Moment,
) -> Result<(Batch, Entry), Memory>
    requires { (kind : CopyKind) × (limit : ℕ) × (event ≡ events.Copy session kind limit now) × IsCopy table.old session kind limit now batch }
    ensures step { OnOk result (Step table.old event (replies.Copy batch) table.new) }
    ensures batch { IfOk result (λ pair. pair.0 ≡ batch) }
    ensures entry { IfOk result (λ pair. pair.1 ≡ (event, replies.Copy batch)) }
    ensures event { OnOk result (history.new.items ≡ history.old.items ++ (event, replies.Copy batch) ∷ []) }
    ensures latest { (held : List (ℕ × (CellEvent × CellReply))) → AreLatestCopies latest_copies.old.entries held history.old.items → AreLatestCopies latest_copies.new.entries held history.new.items }
    ensures stays { OnErr result (table.new ≡ table.old) }
    ensures no_event { OnErr result (history.new.items ≡ history.old.items) }
{
    let reply = CellReply::Copy(batch.copy()?);
    let (kept, entry) = prepare(table.alloc(), history, event, reply)?;
    latest_copies.insert(session, entry.copy()?)?;
    table.teach(session, last_number(batch.updates(), 0), now);
    history.push_reserved(kept);
    Ok((batch, entry))
}

impl TableCell {
    /// Copies for `session` the rows of `kind` that it hasn't acknowledged, in ascending order of number, at most
    /// `limit` of them, as updates at `now`. The batch is out until its last number is acknowledged, and the history
    /// keeps it. If the copy is refused, nothing has changed.
    pub fn copy(
        &mut self,
        session: u32,
        kind: CopyKind,
        limit: usize,
        now: Moment,
    ) -> Result<Batch, CopyError>
        requires { (1 ≤ limit) × (limit ≤ 4096) }
        ensures call { Copies self.old session kind limit now result self.new }
        ensures for_table { IfOk result (λ batch. IsBatchFor (self.old.state.definition ∷ []) batch) }
    {
        let (batch, _) = self.copy_with_reply(session, kind, limit, now)?;
        Ok(batch)
    }

    /// Copies like `copy`, and returns the entry that the history shares.
    pub fn copy_shared(
        &mut self,
        session: u32,
        kind: CopyKind,
        limit: usize,
        now: Moment,
    ) -> Result<Entry, CopyError>
        requires { (1 ≤ limit) × (limit ≤ 4096) }
        ensures call { Shares (λ r. Copies self.old session kind limit now r self.new) (events.Copy session kind limit now) replies.Copy result }
        ensures for_table { IfOk result (λ entry. IfSome (batch_in entry.1) (IsBatchFor (self.old.state.definition ∷ []))) }
    {
        let (_, entry) = self.copy_with_reply(session, kind, limit, now)?;
        Ok(entry)
    }

    /// Copies like `copy`, and returns the batch and the entry that the history shares. The batch shares its updates
    /// with the entry. Walks once the rows from the one that the session acknowledged last, and a push passes a known run of
    /// rows that it doesn't include without walking it.
    pub fn copy_with_reply(
        &mut self,
        session: u32,
        kind: CopyKind,
        limit: usize,
        now: Moment,
    ) -> Result<(Batch, Entry), CopyError>
        requires { (1 ≤ limit) × (limit ≤ 4096) }
        ensures call { SharesWith (λ r. Copies self.old session kind limit now r self.new) (events.Copy session kind limit now) replies.Copy result }
        ensures for_table { IfOk result (λ pair. IsBatchFor (self.old.state.definition ∷ []) pair.0) }
    {
        if self.is_history_full() {
            return Err(self.table.copy_refusal_when_full(session, kind, limit, now));
        }
        let batch = self.table.batch(session, kind, limit, now)?;
        let event = CellEvent::Copy {
            session,
            kind,
            limit,
            moment: now,
        };
        let Ok(copied) = add_copy(
            &mut self.table,
            &mut self.history,
            &mut self.latest_copies,
            session,
            event,
            batch,
            now,
        ) else {
            return Err(CopyError::Memory);
        };
        Ok(copied)
    }

    /// Returns the latest batch of `session`, if it is kept.
    fn latest_batch(&self, session: u32) -> Option<&Batch>
        ensures { option_copied result ≡ kept_batch session self.now }
    {
        match self.latest_copies.get(&session) {
            Some(entry) => entry.batch(),
            None => None,
        }
    }

    /// Returns `Ok` if `batch` is the latest one of `session` and still kept, and otherwise `StrangeBatch`. The session may
    /// have been closed since. Doesn't allocate.
    pub fn settle(&self, session: u32, batch: &Batch) -> Result<(), StrangeBatch>
        ensures { IsOk result ↔ IsLatestBatch self.now session batch.now }
    {
        match self.latest_batch(session) {
            Some(latest) if latest.is_same(batch) => Ok(()),
            _ => Err(StrangeBatch),
        }
    }
}
