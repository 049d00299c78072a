//! Replies of a table.
ghost use Rattle.std.specs.Prelude.{◌≡◌, ◌++◌, OnOk, option_copied};
ghost use Rattle.node_text.specs.Replies.{event_key, event_reply_text, reply_text, row_reply_text, settled_name};

use crate::numbers::push_word_and_number;
use crate::rows::push_stored_row;
use std::alloc::AllocError;
use table_cell::{CellEvent, CellReply, Reply};
use table_types::{Key, Settled, TableDef};

/// Appends the reply to a change, or to an update that the table learned: `reply` and the row, whose key is `key`.
pub fn push_reply(
    text: &mut Vec<u8>,
    table: &TableDef,
    key: &Key,
    reply: &Reply,
) -> Result<(), AllocError>
    ensures { OnOk result (text.new.items ≡ text.old.items ++ reply_text table.now key.now reply.now) }
{
    text.extend_from_slice(b"reply ")?;
    push_stored_row(text, table, key, &reply.row)
}

/// Appends the reply to `event`. Of a batch it prints the number of updates only.
pub fn push_event_reply(
    text: &mut Vec<u8>,
    table: &TableDef,
    event: &CellEvent,
    reply: &CellReply,
) -> Result<(), AllocError>
    ensures { OnOk result (text.new.items ≡ text.old.items ++ event_reply_text table.now event.now reply.now) }
{
    match reply {
        CellReply::Track(reply) | CellReply::Learn(reply) => {
            push_row_reply(text, table, event_key(event), reply)
        }
        CellReply::Copy(batch) => {
            let count = batch.updates().len();
            push_word_and_number(text, "batch ", count as u64)
        }
        CellReply::Ack(settled) => text.extend_from_slice(settled_name(*settled).as_bytes()),
        CellReply::Open | CellReply::Close => text.extend_from_slice(b"ok"),
        CellReply::Purge(count) => push_word_and_number(text, "purged ", *count as u64),
    }
}

/// Appends the reply to an event of `key`, or nothing if the event has no key.
fn push_row_reply(
    text: &mut Vec<u8>,
    table: &TableDef,
    key: Option<&Key>,
    reply: &Reply,
) -> Result<(), AllocError>
    ensures { OnOk result (text.new.items ≡ text.old.items ++ row_reply_text table.now (option_copied key.entry) reply.now) }
{
    match key {
        Some(key) => push_reply(text, table, key, reply),
        None => Ok(()),
    }
}

/// Returns the key of the row that an event stores.
fn event_key(event: &CellEvent) -> Option<&Key>
    ensures { option_copied result ≡ event_key event.now }
{
    match event {
        CellEvent::Track { key, .. } => Some(key),
        CellEvent::Learn { update, .. } => Some(&update.key),
        _ => None,
    }
}

/// Returns the word for what an acknowledgement settled.
pub fn settled_name(settled: Settled) -> &'static str
    ensures { result.now ≡ settled_name settled }
{
    match settled {
        Settled::All => "all",
        Settled::Some => "some",
        Settled::Older => "older",
    }
}
