//! What is printed of what a table has: batches, events and rows.
ghost use Rattle.std.specs.Prelude.{◌≡◌, ◌+◌, ◌++◌, List, OnOk, flat_map, length};
ghost use Rattle.table_types.specs.declared.key.Key.{Key};
ghost use Rattle.table_types.specs.Rows.{StoredRow};
ghost use Rattle.table_cell.specs.Stock.{AreInRisingKey};
ghost use Rattle.table_cell.specs.Histories.{event_in, events_of, room_of};
ghost use Rattle.node_text.specs.Updates.{update_line};
ghost use Rattle.text_commands.specs.Answers.{Adds, batch_lines, copied, event_line, events_line, rows_lines, stored_row_line};
ghost use Rattle.text_commands.specs.Running.{definition_of, with_batch};

use crate::lines::{end_line, push_line, push_refusal};
use node_text::{copy_refusal, push_event, push_event_reply, push_stored_row, push_update};
use std::alloc::Global;
use table_cell::{CellEvent, CellReply, CopyError, TableCell};
use table_types::{Batch, Key, Memory, Row, TableDef, Update};

/// Appends the lines of what a table answered to a copy, and appends the batch to `given`.
pub(crate) fn push_copied(
    alloc: Global,
    table: &TableDef,
    given: &mut Vec<Batch>,
    text: &mut Vec<u8>,
    answer: Result<Batch, CopyError>,
) -> Result<(), Memory>
    ensures lines { OnOk result (Adds (copied table.now (length given.old.items + 1) answer) text.old.items text.new.items) }
    ensures given { OnOk result (given.new.items ≡ with_batch given.old.items answer) }
{
    match answer {
        Ok(batch) => {
            push_batch(alloc, text, table, given.len(), &batch)?;
            Ok(given.push(batch)?)
        }
        Err(error) => push_refusal(text, copy_refusal(error)),
    }
}

/// Appends the lines of a batch that has `before` others before it, and those of its updates.
fn push_batch(
    alloc: Global,
    text: &mut Vec<u8>,
    table: &TableDef,
    before: usize,
    batch: &Batch,
) -> Result<(), Memory>
    ensures { OnOk result (text.new.items ≡ text.old.items ++ batch_lines table.now (before + 1) batch.now) }
{
    let place = before as u128 + 1;
    let count = batch.updates().len();
    text.extend_from_slice(format!(in alloc; "batch {place} {count}\n")?.as_bytes())?;
    push_updates(text, table, batch.updates())
}

/// Appends a line for each update.
fn push_updates(text: &mut Vec<u8>, table: &TableDef, updates: &[Update]) -> Result<(), Memory>
    ensures { OnOk result (text.new.items ≡ text.old.items ++ flat_map (update_line table.now) updates.now) }
{
    for update in updates {
        push_update(text, table, update)?;
    }
    Ok(())
}

/// Appends the line with the number of events, and with how many more may come.
pub(crate) fn push_events(alloc: Global, cell: &TableCell, text: &mut Vec<u8>) -> Result<(), Memory>
    ensures { OnOk result (text.new.items ≡ text.old.items ++ events_line (events_of cell.now) (room_of cell.now)) }
{
    push_counts(alloc, text, cell.events(), cell.room())
}

fn push_counts(alloc: Global, text: &mut Vec<u8>, events: u64, room: u64) -> Result<(), Memory>
    ensures { OnOk result (text.new.items ≡ text.old.items ++ events_line events room) }
{
    text.extend_from_slice(format!(in alloc; "events {events} room {room}\n")?.as_bytes())?;
    Ok(())
}

/// Appends the line of the event at `place` with its reply, or `none` if there is none.
pub(crate) fn push_event_at(cell: &TableCell, text: &mut Vec<u8>, place: u64) -> Result<(), Memory>
    ensures { OnOk result (text.new.items ≡ text.old.items ++ event_line (definition_of cell.now) (event_in cell.now place)) }
{
    match cell.event_at(place) {
        Some((event, reply)) => push_made(text, cell.definition(), event, reply),
        None => push_line(text, "none"),
    }
}

/// Appends the line of an event and its reply.
fn push_made(
    text: &mut Vec<u8>,
    table: &TableDef,
    event: &CellEvent,
    reply: &CellReply,
) -> Result<(), Memory>
    ensures { OnOk result (text.new.items ≡ text.old.items ++ event_line table.now (Some (event.now, reply.now))) }
{
    push_event(text, table, event)?;
    text.extend_from_slice(b" = ")?;
    push_event_reply(text, table, event, reply)?;
    end_line(text)
}

/// Appends the line with the number of rows, and a line for each row in ascending order of key.
pub(crate) fn push_rows(alloc: Global, cell: &TableCell, text: &mut Vec<u8>) -> Result<(), Memory>
    ensures { OnOk result ((rows : List (Key × StoredRow)) × AreInRisingKey cell.now.state.rows rows
        × (text.new.items ≡ text.old.items ++ rows_lines (definition_of cell.now) rows)) }
{
    let rows = cell.rows()?;
    push_listed(alloc, text, cell.definition(), rows.as_slice())
}

/// Appends the line with the number of rows, and a line for each row, in their order.
pub(crate) fn push_listed(
    alloc: Global,
    text: &mut Vec<u8>,
    table: &TableDef,
    rows: &[(Key, Row)],
) -> Result<(), Memory>
    ensures { OnOk result (text.new.items ≡ text.old.items ++ rows_lines table.now rows.now) }
{
    let count = rows.len();
    text.extend_from_slice(format!(in alloc; "rows {count}\n")?.as_bytes())?;
    push_entries(text, table, rows)
}

/// Appends a line for each row.
fn push_entries(text: &mut Vec<u8>, table: &TableDef, rows: &[(Key, Row)]) -> Result<(), Memory>
    ensures { OnOk result (text.new.items ≡ text.old.items ++ flat_map (stored_row_line table.now) rows.now) }
{
    for entry in rows {
        push_entry(text, table, &entry.0, &entry.1)?;
    }
    Ok(())
}

/// Appends the line of a row.
fn push_entry(text: &mut Vec<u8>, table: &TableDef, key: &Key, row: &Row) -> Result<(), Memory>
    ensures { OnOk result (text.new.items ≡ text.old.items ++ stored_row_line table.now (key.now, row.now)) }
{
    text.extend_from_slice(b"row ")?;
    push_stored_row(text, table, key, row)?;
    end_line(text)
}
