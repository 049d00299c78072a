//! Events of a table, as a script has the calls that make them.
ghost use Rattle.std.specs.Prelude.{◌≡◌, ◌++◌, OnOk};
ghost use Rattle.node_text.specs.Events.{call_head, event_text, learn_text, open_text, track_text};

use crate::acks::push_ack;
use crate::changes::push_change;
use crate::copies::push_copy;
use crate::keys::push_key;
use crate::numbers::{push_spaced, push_word_and_number};
use crate::updates::push_update_text;
use std::alloc::AllocError;
use table_cell::CellEvent;
use table_types::{Change, Key, Moment, TableDef, Update, Version};

/// Appends an event of a table: the line of the call that made it, without its LF. A name that isn't plain text is in
/// hexadecimal, which a script would read as another name.
pub fn push_event(text: &mut Vec<u8>, table: &TableDef, event: &CellEvent) -> Result<(), AllocError>
    ensures { OnOk result (text.new.items ≡ text.old.items ++ event_text table.now event.now) }
{
    match event {
        CellEvent::Track {
            seat,
            key,
            change,
            moment,
        } => push_track(text, *seat, *moment, key, change),
        CellEvent::Learn {
            session,
            update,
            moment,
        } => push_learn(text, table, *session, *moment, update),
        CellEvent::Copy {
            session,
            kind,
            limit,
            moment,
        } => push_copy(text, *session, *kind, *limit, moment.milliseconds()),
        CellEvent::Ack { session, number } => push_ack(text, u64::from(*session), *number),
        CellEvent::Open { session, version } => push_open(text, *session, *version),
        CellEvent::Close { session } => {
            push_word_and_number(text, "close ", u64::from(*session))
        }
        CellEvent::Purge { moment } => push_word_and_number(text, "purge ", moment.milliseconds()),
    }
}

/// Appends the call of a change: `track`, the seat, the moment, the key, and the change.
fn push_track(
    text: &mut Vec<u8>,
    seat: u32,
    moment: Moment,
    key: &Key,
    change: &Change,
) -> Result<(), AllocError>
    ensures { OnOk result (text.new.items ≡ text.old.items ++ track_text seat moment key.now change.now) }
{
    push_head(text, "track ", seat, moment.milliseconds())?;
    push_key(text, key)?;
    push_change(text, change)
}

/// Appends the call of an update that the table learns: `learn`, the session, the moment, and the update.
fn push_learn(
    text: &mut Vec<u8>,
    table: &TableDef,
    session: u32,
    moment: Moment,
    update: &Update,
) -> Result<(), AllocError>
    ensures { OnOk result (text.new.items ≡ text.old.items ++ learn_text table.now session moment update.now) }
{
    push_head(text, "learn ", session, moment.milliseconds())?;
    push_update_text(text, table, update)
}

/// Appends the call that opens a session: `open`, the session, and the version if it is 2.0.
fn push_open(text: &mut Vec<u8>, session: u32, version: Version) -> Result<(), AllocError>
    ensures { OnOk result (text.new.items ≡ text.old.items ++ open_text session version) }
{
    push_word_and_number(text, "open ", u64::from(session))?;
    match version {
        Version::V20 => text.extend_from_slice(b" 2.0"),
        Version::V21 => Ok(()),
    }
}

/// Appends `word`, which ends with its space, the seat or the session `id`, the moment in milliseconds, and a space.
fn push_head(text: &mut Vec<u8>, word: &str, id: u32, moment: u64) -> Result<(), AllocError>
    ensures { OnOk result (text.new.items ≡ text.old.items ++ call_head word.now id moment) }
{
    push_word_and_number(text, word, u64::from(id))?;
    push_spaced(text, moment)?;
    text.push(b' ')?;
    Ok(())
}
