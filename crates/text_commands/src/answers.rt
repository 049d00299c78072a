//! Calls that change a table, or compare a batch with its own, and what is printed of them.
ghost use Rattle.std.specs.Prelude.{◌≡◌, ◌++◌, ℕ, List, OnOk, Result, length};
ghost use Rattle.table_types.specs.declared.copies.Settled.{Settled};
ghost use Rattle.table_cell.specs.declared.events.CellEvent.{CellEvent};
ghost use Rattle.table_cell.specs.declared.events.CellReply.{CellReply};
ghost use Rattle.table_cell.specs.declared.events.Reply.{Reply};
ghost use Rattle.table_cell.specs.declared.errors.AckError.{AckError};
ghost use Rattle.table_cell.specs.declared.errors.CheckpointError.{CheckpointError};
ghost use Rattle.table_cell.specs.declared.errors.CloseError.{CloseError};
ghost use Rattle.table_cell.specs.declared.errors.LearnError.{LearnError};
ghost use Rattle.table_cell.specs.declared.errors.OpenError.{OpenError};
ghost use Rattle.table_cell.specs.declared.errors.PurgeError.{PurgeError};
ghost use Rattle.table_cell.specs.declared.errors.RenumberError.{RenumberError};
ghost use Rattle.table_cell.specs.declared.errors.StrangeBatch.{StrangeBatch};
ghost use Rattle.table_cell.specs.declared.errors.TrackError.{TrackError};
ghost use Rattle.table_cell.specs.Histories.{Acknowledges, Checkpoints, Closes, Learns, Opens, Purges, Slides, Tracks};
ghost use Rattle.table_cell.specs.Renumbering.{Renumbers};
ghost use Rattle.text_commands.specs.Answers.{Adds, acknowledged, begun_anew, closed, dropped_line, learned, opened, purged, renumbered, settled, tracked};
ghost use Rattle.text_commands.specs.Running.{Settles, definition_of};

use crate::lines::{end_line, push_line, push_refusal};
use node_text::{
    ack_refusal, checkpoint_refusal, close_refusal, learn_refusal, open_refusal, purge_refusal,
    push_reply, renumber_refusal, settled_name, track_refusal,
};
use std::alloc::Global;
use table_cell::TableCell;
use table_types::{Batch, Change, Key, Memory, Moment, Update, Version};

/// Opens a session, and appends the line of the result.
pub(crate) fn open(
    cell: &mut TableCell,
    text: &mut Vec<u8>,
    session: u32,
    version: Version,
) -> Result<(), Memory>
    ensures { OnOk result ((r : Result (Unit {0}) OpenError) × Opens cell.old session version r cell.new × Adds (opened r) text.old.items text.new.items) }
{
    match cell.open_session(session, version) {
        Ok(()) => push_line(text, "ok"),
        Err(error) => push_refusal(text, open_refusal(error)),
    }
}

/// Closes a session, and appends the line of the result.
pub(crate) fn close(cell: &mut TableCell, text: &mut Vec<u8>, session: u32) -> Result<(), Memory>
    ensures { OnOk result ((r : Result (Unit {0}) CloseError) × Closes cell.old session r cell.new × Adds (closed r) text.old.items text.new.items) }
{
    match cell.close_session(session) {
        Ok(()) => push_line(text, "ok"),
        Err(error) => push_refusal(text, close_refusal(error)),
    }
}

/// Changes a row, and appends the line of the result.
pub(crate) fn track(
    alloc: Global,
    cell: &mut TableCell,
    text: &mut Vec<u8>,
    seat: u32,
    key: Key,
    change: Change,
    moment: Moment,
) -> Result<(), Memory>
    ensures { OnOk result ((r : Result Reply TrackError) × Tracks cell.old seat key change moment r cell.new
        × Adds (tracked (definition_of cell.new) key r) text.old.items text.new.items) }
{
    let printed = key.copy(alloc)?;
    match cell.track(seat, key, change, moment) {
        Ok(reply) => {
            push_reply(text, cell.definition(), &printed, &reply)?;
            end_line(text)
        }
        Err(error) => push_refusal(text, track_refusal(error)),
    }
}

/// Learns an update, and appends the line of the result.
pub(crate) fn learn(
    alloc: Global,
    cell: &mut TableCell,
    text: &mut Vec<u8>,
    session: u32,
    update: Update,
    moment: Moment,
) -> Result<(), Memory>
    ensures { OnOk result ((r : Result Reply LearnError) × Learns cell.old session update moment r cell.new
        × Adds (learned (definition_of cell.new) update.key r) text.old.items text.new.items) }
{
    let printed = update.key.copy(alloc)?;
    match cell.learn(session, update, moment) {
        Ok(reply) => {
            push_reply(text, cell.definition(), &printed, &reply)?;
            end_line(text)
        }
        Err(error) => push_refusal(text, learn_refusal(error)),
    }
}

/// Acknowledges a number, and appends the line of the result.
pub(crate) fn acknowledge(
    cell: &mut TableCell,
    text: &mut Vec<u8>,
    session: u32,
    number: u32,
) -> Result<(), Memory>
    ensures { OnOk result ((r : Result Settled AckError) × Acknowledges cell.old session number r cell.new × Adds (acknowledged r) text.old.items text.new.items) }
{
    match cell.ack(session, number) {
        Ok(settled) => push_line(text, settled_name(settled)),
        Err(error) => push_refusal(text, ack_refusal(error)),
    }
}

/// Removes the rows that have ended by `moment`, and appends the line of the result.
pub(crate) fn purge(
    alloc: Global,
    cell: &mut TableCell,
    text: &mut Vec<u8>,
    moment: Moment,
) -> Result<(), Memory>
    ensures { OnOk result ((r : Result ℕ PurgeError) × Purges cell.old moment r cell.new × Adds (purged r) text.old.items text.new.items) }
{
    match cell.purge(moment) {
        Ok(count) => Ok(text.extend_from_slice(format!(in alloc; "purged {count}\n")?.as_bytes())?),
        Err(error) => push_refusal(text, purge_refusal(error)),
    }
}

/// Lets the history begin anew, and appends the line of the result.
pub(crate) fn checkpoint(cell: &mut TableCell, text: &mut Vec<u8>) -> Result<(), Memory>
    ensures { OnOk result ((r : Result (Unit {0}) CheckpointError) × Checkpoints cell.old r cell.new × Adds (begun_anew r) text.old.items text.new.items) }
{
    match cell.checkpoint() {
        Ok(()) => push_line(text, "ok"),
        Err(error) => push_refusal(text, checkpoint_refusal(error)),
    }
}

/// Drops the events of the history, and appends the line with their number.
pub(crate) fn slide(alloc: Global, cell: &mut TableCell, text: &mut Vec<u8>) -> Result<(), Memory>
    ensures { OnOk result ((hs : List (CellEvent × CellReply)) × Slides cell.old hs cell.new
        × (text.new.items ≡ text.old.items ++ dropped_line (length hs))) }
{
    let dropped = cell.slide();
    let count = dropped.count();
    Ok(text.extend_from_slice(format!(in alloc; "dropped {count}\n")?.as_bytes())?)
}

/// Gives the rows the numbers from 1 on, and appends the line of the result.
pub(crate) fn renumber(cell: &mut TableCell, text: &mut Vec<u8>) -> Result<(), Memory>
    ensures { OnOk result ((r : Result (Unit {0}) RenumberError) × Renumbers cell.old r cell.new × Adds (renumbered r) text.old.items text.new.items) }
{
    match cell.renumber() {
        Ok(()) => push_line(text, "ok"),
        Err(error) => push_refusal(text, renumber_refusal(error)),
    }
}

/// Compares `batch` with the latest one of a session, and appends the line of the result.
pub(crate) fn settle(
    cell: &TableCell,
    text: &mut Vec<u8>,
    session: u32,
    batch: &Batch,
) -> Result<(), Memory>
    ensures { OnOk result ((r : Result (Unit {0}) StrangeBatch) × Settles cell.now session batch.now r × Adds (settled r) text.old.items text.new.items) }
{
    match cell.settle(session, batch) {
        Ok(()) => Ok(push_line(text, "ok")?),
        Err(_) => Ok(push_line(text, "StrangeBatch")?),
    }
}
