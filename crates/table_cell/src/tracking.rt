//! Changing rows, and learning rows.

ghost use Rattle.std.specs.Prelude.{◌≡◌, ◌≤◌, ◌<◌, ◌^◌, ◌∷◌, ◌++◌, [], ℕ, Err, IfErr, IfOk, List, None, Ok, OnErr, OnOk, false};
ghost use Rattle.table_types.specs.declared.key.Key.{Key};
ghost use Rattle.table_types.specs.Rows.{StoredRow};
ghost use Rattle.table_cell.specs.declared.events.CellEvent.{CellEvent};
ghost use Rattle.table_cell.specs.declared.events.CellEvent.TheVariants as events;
ghost use Rattle.table_cell.specs.declared.events.CellReply.{CellReply};
ghost use Rattle.table_cell.specs.declared.events.CellReply.TheVariants as replies;
ghost use Rattle.table_cell.specs.Histories.{Learns, Shares, SharesWith, Tracks, is_history_full};
ghost use Rattle.table_cell.specs.Machine.{Leaves, Step, learn_refusal, learned, stored, track_refusal, tracked};
ghost use Rattle.table_cell.specs.Parts.{reply_of};

use crate::cell::TableCell;
use crate::entry::{Entry, prepare};
use crate::errors::{LearnError, TrackError};
use crate::events::{CellEvent, CellReply, Reply};
use crate::table::Table;
use table_stock::Blocks;
use table_types::{Change, Key, Memory, Moment, Row, Update};

/// Stores `row` under the next number in place of the key's, and adds `event` with `reply` to the history. Returns the
/// entry of both. If memory runs out, nothing has changed.
fn store_row(
    table: &mut Table,
    history: &mut Blocks<Entry>,
    key: Key,
    row: Row,
    now: Moment,
    event: CellEvent,
    reply: CellReply,
) -> Result<Entry, Memory>
    requires some { 1 ≤ table.old.size }
    requires number { row.number ≡ table.old.next }
    requires left { table.old.next < 2 ^ 32 }
    ensures stored { OnOk result ((rest : List (Key × StoredRow)) × Leaves table.old key rest × (table.new ≡ stored table.old key row now rest)) }
    ensures entry { IfOk result (λ entry. entry ≡ (event, reply)) }
    ensures event { OnOk result (history.new.items ≡ history.old.items ++ (event, reply) ∷ []) }
    ensures stays { OnErr result (table.new ≡ table.old) }
    ensures no_event { OnErr result (history.new.items ≡ history.old.items) }
{
    let (kept, entry) = prepare(table.alloc(), history, event, reply)?;
    table.store(key, row, now)?;
    history.push_reserved(kept);
    Ok(entry)
}

/// Tracks with the row that the change makes: stores the row, and adds the event to the history. Returns its entry. If
/// memory runs out, nothing has changed.
fn track_row(
    table: &mut Table,
    history: &mut Blocks<Entry>,
    seat: u32,
    key: Key,
    change: Change,
    now: Moment,
    row: Row,
) -> Result<Entry, Memory>
    requires some { 1 ≤ table.old.size }
    requires granted { track_refusal false table.old key change now ≡ None }
    requires row { row ≡ tracked table.old key change now }
    ensures step { OnOk result (Step table.old (events.Track seat key change now) (replies.Track (reply_of row)) table.new) }
    ensures entry { IfOk result (λ entry. entry ≡ (events.Track seat key change now, replies.Track (reply_of row))) }
    ensures event { OnOk result (history.new.items ≡ history.old.items ++ (events.Track seat key change now, replies.Track (reply_of row)) ∷ []) }
    ensures stays { OnErr result (table.new ≡ table.old) }
    ensures no_event { OnErr result (history.new.items ≡ history.old.items) }
{
    let stored_key = key.copy(table.alloc())?;
    let reply = Reply::of(table.alloc(), &row)?;
    let event = CellEvent::Track {
        seat,
        key,
        change,
        moment: now,
    };
    store_row(
        table,
        history,
        stored_key,
        row,
        now,
        event,
        CellReply::Track(reply),
    )
}

/// Learns with the row that the update makes: stores the row, and adds the event to the history. Returns its entry. If
/// memory runs out, nothing has changed.
fn learn_row(
    table: &mut Table,
    history: &mut Blocks<Entry>,
    session: u32,
    update: Update,
    now: Moment,
    row: Row,
) -> Result<Entry, Memory>
    requires some { 1 ≤ table.old.size }
    requires granted { learn_refusal false table.old session update now ≡ None }
    requires row { row ≡ learned table.old update now }
    ensures step { OnOk result (Step table.old (events.Learn session update now) (replies.Learn (reply_of row)) table.new) }
    ensures entry { IfOk result (λ entry. entry ≡ (events.Learn session update now, replies.Learn (reply_of row))) }
    ensures event { OnOk result (history.new.items ≡ history.old.items ++ (events.Learn session update now, replies.Learn (reply_of row)) ∷ []) }
    ensures stays { OnErr result (table.new ≡ table.old) }
    ensures no_event { OnErr result (history.new.items ≡ history.old.items) }
{
    let stored_key = update.key.copy(table.alloc())?;
    let reply = Reply::of(table.alloc(), &row)?;
    let event = CellEvent::Learn {
        session,
        update,
        moment: now,
    };
    store_row(
        table,
        history,
        stored_key,
        row,
        now,
        event,
        CellReply::Learn(reply),
    )
}

impl TableCell {
    /// Returns the row that a change makes, or why the change is refused.
    fn tracked_row(&self, key: &Key, change: &Change, now: Moment) -> Result<Row, TrackError>
        ensures granted { OnOk result (track_refusal (is_history_full self.now) self.now.state key.now change.now now ≡ None) }
        ensures timely { OnOk result (now < 2 ^ 63) }
        ensures row { IfOk result (λ row. row ≡ tracked self.now.state key.now change.now now) }
        ensures refused { (seat : ℕ) → IfErr result (λ error. Tracks self.now seat key.now change.now now (Err error) self.now) }
    {
        let full = self.is_history_full();
        if let Some(error) = self.table.track_refusal(full, key, change, now) {
            return Err(error);
        }
        let Ok(row) = self.table.tracked(key, change, now) else {
            return Err(TrackError::Memory);
        };
        Ok(row)
    }

    /// Tracks with the row that the change makes, and returns the event's entry. If memory runs out, which is the only
    /// error, nothing has changed.
    fn add_tracked(
        &mut self,
        seat: u32,
        key: Key,
        change: Change,
        now: Moment,
        row: Row,
    ) -> Result<Entry, TrackError>
        requires granted { track_refusal (is_history_full self.old) self.old.state key change now ≡ None }
        requires timely { now < 2 ^ 63 }
        requires row { row ≡ tracked self.old.state key change now }
        ensures shared { Shares (λ r. Tracks self.old seat key change now r self.new) (events.Track seat key change now) replies.Track result }
        ensures entry { IfOk result (λ entry. entry ≡ (events.Track seat key change now, replies.Track (reply_of row))) }
        ensures call { OnOk result (Tracks self.old seat key change now (Ok (reply_of row)) self.new) }
    {
        let Ok(entry) = track_row(
            &mut self.table,
            &mut self.history,
            seat,
            key,
            change,
            now,
            row,
        ) else {
            return Err(TrackError::Memory);
        };
        Ok(entry)
    }

    /// Returns the row that an update makes, or why the update isn't learned.
    fn learned_row(&self, session: u32, update: &Update, now: Moment) -> Result<Row, LearnError>
        ensures granted { OnOk result (learn_refusal (is_history_full self.now) self.now.state session update.now now ≡ None) }
        ensures timely { OnOk result (now < 2 ^ 63) }
        ensures row { IfOk result (λ row. row ≡ learned self.now.state update.now now) }
        ensures refused { IfErr result (λ error. Learns self.now session update.now now (Err error) self.now) }
    {
        let full = self.is_history_full();
        if let Some(error) = self.table.learn_refusal(full, session, update, now) {
            return Err(error);
        }
        let Ok(row) = self.table.learned(update, now) else {
            return Err(LearnError::Memory);
        };
        Ok(row)
    }

    /// Learns with the row that the update makes, and returns the event's entry. If memory runs out, which is the only
    /// error, nothing has changed.
    fn add_learned(
        &mut self,
        session: u32,
        update: Update,
        now: Moment,
        row: Row,
    ) -> Result<Entry, LearnError>
        requires granted { learn_refusal (is_history_full self.old) self.old.state session update now ≡ None }
        requires timely { now < 2 ^ 63 }
        requires row { row ≡ learned self.old.state update now }
        ensures shared { Shares (λ r. Learns self.old session update now r self.new) (events.Learn session update now) replies.Learn result }
        ensures entry { IfOk result (λ entry. entry ≡ (events.Learn session update now, replies.Learn (reply_of row))) }
        ensures call { OnOk result (Learns self.old session update now (Ok (reply_of row)) self.new) }
    {
        let Ok(entry) = learn_row(
            &mut self.table,
            &mut self.history,
            session,
            update,
            now,
            row,
        ) else {
            return Err(LearnError::Memory);
        };
        Ok(entry)
    }

    /// Makes a change by this node, at `seat`, to the live row of `key` or to a new one, and returns the row after it.
    /// The row takes the next number, and its life begins again. If there is no room for a new row, the first row to
    /// end is removed. If the change is refused, nothing has changed.
    pub fn track(
        &mut self,
        seat: u32,
        key: Key,
        change: Change,
        now: Moment,
    ) -> Result<Reply, TrackError>
        ensures { Tracks self.old seat key change now result self.new }
    {
        let (reply, _) = self.track_with_reply(seat, key, change, now)?;
        Ok(reply)
    }

    /// Tracks like `track`, and returns the entry that the history shares.
    pub fn track_shared(
        &mut self,
        seat: u32,
        key: Key,
        change: Change,
        now: Moment,
    ) -> Result<Entry, TrackError>
        ensures { Shares (λ r. Tracks self.old seat key change now r self.new) (events.Track seat key change now) replies.Track result }
    {
        let row = self.tracked_row(&key, &change, now)?;
        self.add_tracked(seat, key, change, now, row)
    }

    /// Tracks like `track`, and returns the reply and the entry that the history shares. Copies the reply before anything
    /// changes.
    pub fn track_with_reply(
        &mut self,
        seat: u32,
        key: Key,
        change: Change,
        now: Moment,
    ) -> Result<(Reply, Entry), TrackError>
        ensures { SharesWith (λ r. Tracks self.old seat key change now r self.new) (events.Track seat key change now) replies.Track result }
    {
        let row = self.tracked_row(&key, &change, now)?;
        let Ok(reply) = Reply::of(self.table.alloc(), &row) else {
            return Err(TrackError::Memory);
        };
        let entry = self.add_tracked(seat, key, change, now, row)?;
        Ok((reply, entry))
    }

    /// Learns what a peer taught in `session`: the update's row replaces the key's, under this table's own next number.
    /// Returns the row. If there is no room for a new row, the first row to end is removed. If the update is refused,
    /// nothing has changed.
    pub fn learn(&mut self, session: u32, update: Update, now: Moment) -> Result<Reply, LearnError>
        ensures { Learns self.old session update now result self.new }
    {
        let (reply, _) = self.learn_with_reply(session, update, now)?;
        Ok(reply)
    }

    /// Learns like `learn`, and returns the entry that the history shares.
    pub fn learn_shared(
        &mut self,
        session: u32,
        update: Update,
        now: Moment,
    ) -> Result<Entry, LearnError>
        ensures { Shares (λ r. Learns self.old session update now r self.new) (events.Learn session update now) replies.Learn result }
    {
        let row = self.learned_row(session, &update, now)?;
        self.add_learned(session, update, now, row)
    }

    /// Learns like `learn`, and returns the reply and the entry that the history shares. Copies the reply before anything
    /// changes.
    pub fn learn_with_reply(
        &mut self,
        session: u32,
        update: Update,
        now: Moment,
    ) -> Result<(Reply, Entry), LearnError>
        ensures { SharesWith (λ r. Learns self.old session update now r self.new) (events.Learn session update now) replies.Learn result }
    {
        let row = self.learned_row(session, &update, now)?;
        let Ok(reply) = Reply::of(self.table.alloc(), &row) else {
            return Err(LearnError::Memory);
        };
        let entry = self.add_learned(session, update, now, row)?;
        Ok((reply, entry))
    }
}
