//! Acknowledging, opening and closing sessions, and purging rows.

ghost use Rattle.std.specs.Prelude.{◌≡◌, ◌∷◌, ◌++◌, [], IfOk, None, OnErr, OnOk, false};
ghost use Rattle.table_cell.specs.declared.events.CellEvent.{CellEvent};
ghost use Rattle.table_cell.specs.declared.events.CellEvent.TheVariants as events;
ghost use Rattle.table_cell.specs.declared.events.CellReply.{CellReply};
ghost use Rattle.table_cell.specs.declared.events.CellReply.TheVariants as replies;
ghost use Rattle.table_cell.specs.Histories.{Acknowledges, Closes, Opens, Purges, Shares, SharesWith};
ghost use Rattle.table_cell.specs.Machine.{Step, ack_refusal, close_refusal, open_refusal, purge_refusal};

use crate::cell::TableCell;
use crate::entry::{Entry, prepare};
use crate::errors::{AckError, CloseError, OpenError, PurgeError};
use crate::events::{CellEvent, CellReply};
use crate::table::Table;
use table_stock::Blocks;
use table_types::{Memory, Moment, Settled, Version};

/// Acknowledges `number`, and adds the event to the history. Returns what this settled, and the event's entry. If memory
/// runs out, nothing has changed.
fn acknowledge(
    table: &mut Table,
    history: &mut Blocks<Entry>,
    session: u32,
    number: u32,
) -> Result<(Settled, Entry), Memory>
    requires granted { ack_refusal false table.old session number ≡ None }
    ensures step { IfOk result (λ pair. Step table.old (events.Ack session number) (replies.Ack pair.0) table.new) }
    ensures entry { IfOk result (λ pair. pair.1 ≡ (events.Ack session number, replies.Ack pair.0)) }
    ensures event { IfOk result (λ pair. history.new.items ≡ history.old.items ++ (events.Ack session number, replies.Ack pair.0) ∷ []) }
    ensures stays { OnErr result (table.new ≡ table.old) }
    ensures no_event { OnErr result (history.new.items ≡ history.old.items) }
{
    let settled = table.settled_by(session, number);
    let event = CellEvent::Ack { session, number };
    let (kept, entry) = prepare(table.alloc(), history, event, CellReply::Ack(settled))?;
    table.acknowledge(session, number);
    history.push_reserved(kept);
    Ok((settled, entry))
}

/// Opens `session` with this version, and adds the event to the history. Returns its entry. If memory runs out, nothing has
/// changed.
fn open(
    table: &mut Table,
    history: &mut Blocks<Entry>,
    session: u32,
    version: Version,
) -> Result<Entry, Memory>
    requires granted { open_refusal false table.old session ≡ None }
    ensures step { OnOk result (Step table.old (events.Open session version) replies.Open table.new) }
    ensures entry { IfOk result (λ entry. entry ≡ (events.Open session version, replies.Open)) }
    ensures event { OnOk result (history.new.items ≡ history.old.items ++ (events.Open session version, replies.Open) ∷ []) }
    ensures stays { OnErr result (table.new ≡ table.old) }
    ensures no_event { OnErr result (history.new.items ≡ history.old.items) }
{
    let event = CellEvent::Open { session, version };
    let (kept, entry) = prepare(table.alloc(), history, event, CellReply::Open)?;
    table.open(session, version)?;
    history.push_reserved(kept);
    Ok(entry)
}

/// Closes `session`, and adds the event to the history. Returns its entry. If memory runs out, nothing has changed.
fn close(table: &mut Table, history: &mut Blocks<Entry>, session: u32) -> Result<Entry, Memory>
    requires granted { close_refusal false table.old session ≡ None }
    ensures step { OnOk result (Step table.old (events.Close session) replies.Close table.new) }
    ensures entry { IfOk result (λ entry. entry ≡ (events.Close session, replies.Close)) }
    ensures event { OnOk result (history.new.items ≡ history.old.items ++ (events.Close session, replies.Close) ∷ []) }
    ensures stays { OnErr result (table.new ≡ table.old) }
    ensures no_event { OnErr result (history.new.items ≡ history.old.items) }
{
    let event = CellEvent::Close { session };
    let (kept, entry) = prepare(table.alloc(), history, event, CellReply::Close)?;
    table.close(session);
    history.push_reserved(kept);
    Ok(entry)
}

/// Removes the rows that aren't live at `now`, and adds the event to the history. Returns their number, and the event's
/// entry. If memory runs out, nothing has changed.
fn purge(
    table: &mut Table,
    history: &mut Blocks<Entry>,
    now: Moment,
) -> Result<(usize, Entry), Memory>
    requires granted { purge_refusal false table.old now ≡ None }
    ensures step { IfOk result (λ pair. Step table.old (events.Purge now) (replies.Purge pair.0) table.new) }
    ensures entry { IfOk result (λ pair. pair.1 ≡ (events.Purge now, replies.Purge pair.0)) }
    ensures event { IfOk result (λ pair. history.new.items ≡ history.old.items ++ (events.Purge now, replies.Purge pair.0) ∷ []) }
    ensures stays { OnErr result (table.new ≡ table.old) }
    ensures no_event { OnErr result (history.new.items ≡ history.old.items) }
{
    let count = table.count_ended(now);
    let event = CellEvent::Purge { moment: now };
    let (kept, entry) = prepare(table.alloc(), history, event, CellReply::Purge(count))?;
    table.purge(now);
    history.push_reserved(kept);
    Ok((count, entry))
}

impl TableCell {
    /// Records that `session` acknowledged `number`, and returns what this settled: `Older` if the number isn't above
    /// the one already acknowledged, which doesn't change the session's progress. If the call is refused, nothing has
    /// changed.
    pub fn ack(&mut self, session: u32, number: u32) -> Result<Settled, AckError>
        ensures { Acknowledges self.old session number result self.new }
    {
        let (settled, _) = self.ack_with_reply(session, number)?;
        Ok(settled)
    }

    /// Acknowledges like `ack`, and returns the entry that the history shares.
    pub fn ack_shared(&mut self, session: u32, number: u32) -> Result<Entry, AckError>
        ensures { Shares (λ r. Acknowledges self.old session number r self.new) (events.Ack session number) replies.Ack result }
    {
        let (_, entry) = self.ack_with_reply(session, number)?;
        Ok(entry)
    }

    /// Acknowledges like `ack`, and returns what the acknowledgement settled and the entry that the history shares.
    pub fn ack_with_reply(
        &mut self,
        session: u32,
        number: u32,
    ) -> Result<(Settled, Entry), AckError>
        ensures { SharesWith (λ r. Acknowledges self.old session number r self.new) (events.Ack session number) replies.Ack result }
    {
        let full = self.is_history_full();
        if let Some(error) = self.table.ack_refusal(full, session, number) {
            return Err(error);
        }
        let Ok(settled) = acknowledge(&mut self.table, &mut self.history, session, number) else {
            return Err(AckError::Memory);
        };
        Ok(settled)
    }

    /// Opens `session`, which has acknowledged nothing and was taught nothing. It speaks `version`, so its copies have lives
    /// only if that is 2.1. If the call is refused, nothing has changed.
    pub fn open_session(&mut self, session: u32, version: Version) -> Result<(), OpenError>
        ensures { Opens self.old session version result self.new }
    {
        self.open_shared(session, version)?;
        Ok(())
    }

    /// Opens a session like `open_session`, and returns the entry that the history shares.
    pub fn open_shared(&mut self, session: u32, version: Version) -> Result<Entry, OpenError>
        ensures { Shares (λ r. Opens self.old session version r self.new) (events.Open session version) (λ _. replies.Open) result }
    {
        let full = self.is_history_full();
        if let Some(error) = self.table.open_refusal(full, session) {
            return Err(error);
        }
        let Ok(entry) = open(&mut self.table, &mut self.history, session, version) else {
            return Err(OpenError::Memory);
        };
        Ok(entry)
    }

    /// Closes `session`, and forgets what it acknowledged and was taught. If the call is refused, nothing has changed.
    pub fn close_session(&mut self, session: u32) -> Result<(), CloseError>
        ensures { Closes self.old session result self.new }
    {
        self.close_shared(session)?;
        Ok(())
    }

    /// Closes a session like `close_session`, and returns the entry that the history shares.
    pub fn close_shared(&mut self, session: u32) -> Result<Entry, CloseError>
        ensures { Shares (λ r. Closes self.old session r self.new) (events.Close session) (λ _. replies.Close) result }
    {
        let full = self.is_history_full();
        if let Some(error) = self.table.close_refusal(full, session) {
            return Err(error);
        }
        let Ok(entry) = close(&mut self.table, &mut self.history, session) else {
            return Err(CloseError::Memory);
        };
        Ok(entry)
    }

    /// Removes the rows that aren't live at `now`, and returns their number. If the call is refused, nothing has
    /// changed.
    pub fn purge(&mut self, now: Moment) -> Result<usize, PurgeError>
        ensures { Purges self.old now result self.new }
    {
        let (count, _) = self.purge_with_reply(now)?;
        Ok(count)
    }

    /// Purges like `purge`, and returns the entry that the history shares.
    pub fn purge_shared(&mut self, now: Moment) -> Result<Entry, PurgeError>
        ensures { Shares (λ r. Purges self.old now r self.new) (events.Purge now) replies.Purge result }
    {
        let (_, entry) = self.purge_with_reply(now)?;
        Ok(entry)
    }

    /// Purges like `purge`, and returns the number of rows removed and the entry that the history shares.
    pub fn purge_with_reply(&mut self, now: Moment) -> Result<(usize, Entry), PurgeError>
        ensures { SharesWith (λ r. Purges self.old now r self.new) (events.Purge now) replies.Purge result }
    {
        let full = self.is_history_full();
        if let Some(error) = self.table.purge_refusal(full, now) {
            return Err(error);
        }
        let Ok(purged) = purge(&mut self.table, &mut self.history, now) else {
            return Err(PurgeError::Memory);
        };
        Ok(purged)
    }
}
