//! The calls of a script, as they are read. `events` prints them.
ghost use Rattle.std.specs.Prelude.{◌≡◌, Err, IfOk, IfSome, None, Some};
ghost use Rattle.node_text.specs.Calls.{IsCall, any_key_of};

use crate::changes::change_of;
use crate::copies::copy_of;
use crate::error::LineError;
use crate::keys::key_of;
use crate::numbers::{moment, number, number32};
use crate::updates::update_with;
use crate::versions::version_of;
use std::alloc::Global;
use table_types::{Change, CopyKind, Key, KeyKind, Moment, TableDef, Update, Version};

/// A call of a script's table.
#[derive(Debug, Drop)]
pub enum Call {
    /// Opens a session.
    Open {
        /// The session.
        session: u32,
        /// The version of the protocol that it speaks.
        version: Version,
    },
    /// Closes the session.
    Close(u32),
    /// Changes the row of a key, which may be of another kind than the table's.
    Track {
        /// The seat that makes the change.
        seat: u32,
        /// The row's key.
        key: Key,
        /// The change.
        change: Change,
        /// When it is made.
        moment: Moment,
    },
    /// Learns an update in a session. Its key may be of another kind than the table's, and its life any.
    Learn {
        /// The session.
        session: u32,
        /// The update.
        update: Update,
        /// When it is learned.
        moment: Moment,
    },
    /// Copies rows for a session.
    Copy {
        /// The session.
        session: u32,
        /// Which rows the batch is to have.
        kind: CopyKind,
        /// The greatest number of rows: 1 to 4,096.
        limit: usize,
        /// When they are copied.
        moment: Moment,
    },
    /// Compares the latest batch of a session with a batch that the script got before.
    Settle {
        /// The session.
        session: u32,
        /// The place, from 1, of the other batch among all that the script got.
        batch: u64,
    },
    /// Acknowledges a number in a session.
    Ack {
        /// The session.
        session: u32,
        /// The number.
        number: u32,
    },
    /// Removes the rows that have ended by the moment.
    Purge(Moment),
    /// Lets the history begin anew with the present state.
    Checkpoint,
    /// Drops the history, and keeps the latest batch of each open session.
    Slide,
    /// Gives the rows the numbers from 1 on, with which the history begins anew.
    Renumber,
    /// Reads the number of events, and how many more may come.
    Events,
    /// Reads the event at a place below 2^63.
    Event(u64),
    /// Reads all rows.
    Rows,
}

/// Reads the call of a line, from its first word and those after it.
pub(crate) fn call_of(
    alloc: Global,
    table: &TableDef,
    kind: &[u8],
    words: &[&[u8]],
) -> Result<Call, LineError>
    ensures { IfOk result IsCall }
{
    match kind {
        b"open" => open_of(words).ok_or(LineError::Refused),
        b"track" => track_of(alloc, table, words),
        b"learn" => learn_of(alloc, table, words),
        b"copy" => copy_of(words).ok_or(LineError::Refused),
        _ => match words {
            [] => bare_call(kind).ok_or(LineError::Refused),
            [word] => call_with_word(kind, word).ok_or(LineError::Refused),
            [session, word] => { call_with_session(kind, session, word).ok_or(LineError::Refused) }
            _ => Err(LineError::Refused),
        },
    }
}

/// Reads a call `open SESSION` or `open SESSION VERSION`, from the words after the first. The version is 2.1 without a word for
/// it.
fn open_of(words: &[&[u8]]) -> Option<Call>
    ensures { IfSome result IsCall }
{
    let (session, version) = match words {
        [session] => (session, Version::V21),
        [session, version] => (session, version_of(version)?),
        _ => return None,
    };
    Some(Call::Open {
        session: number32(session)?,
        version,
    })
}

/// Reads a call `checkpoint`, `slide`, `renumber`, `events` or `rows`.
fn bare_call(kind: &[u8]) -> Option<Call>
    ensures { IfSome result IsCall }
{
    match kind {
        b"checkpoint" => Some(Call::Checkpoint),
        b"slide" => Some(Call::Slide),
        b"renumber" => Some(Call::Renumber),
        b"events" => Some(Call::Events),
        b"rows" => Some(Call::Rows),
        _ => None,
    }
}

/// Reads a call `close SESSION`, `purge MOMENT` or `event PLACE`.
fn call_with_word(kind: &[u8], word: &[u8]) -> Option<Call>
    ensures { IfSome result IsCall }
{
    match kind {
        b"close" => Some(Call::Close(number32(word)?)),
        b"purge" => Some(Call::Purge(moment(word)?)),
        b"event" => Some(Call::Event(number(word, (1 << 63) - 1)?)),
        _ => None,
    }
}

/// Reads a call `ack SESSION NUMBER` or `settle SESSION PLACE`.
fn call_with_session(kind: &[u8], session: &[u8], word: &[u8]) -> Option<Call>
    ensures { IfSome result IsCall }
{
    let session = number32(session)?;
    match kind {
        b"ack" => Some(Call::Ack {
            session,
            number: number32(word)?,
        }),
        b"settle" => Some(Call::Settle {
            session,
            batch: number(word, u64::MAX)?,
        }),
        _ => None,
    }
}

/// Reads a call `track SEAT MOMENT KEY` and a change, from the words after the first.
fn track_of(alloc: Global, table: &TableDef, words: &[&[u8]]) -> Result<Call, LineError>
    ensures { IfOk result IsCall }
{
    let [seat, words @ ..] = words else {
        return Err(LineError::Refused);
    };
    let (moment, key, change) = tracked_of(alloc, table.kind(), words)?;
    Ok(Call::Track {
        seat: number32(seat).ok_or(LineError::Refused)?,
        key,
        change,
        moment,
    })
}

/// Reads `MOMENT KEY` and a change. The key may be of another kind than `kind`.
pub(crate) fn tracked_of(
    alloc: Global,
    kind: KeyKind,
    words: &[&[u8]],
) -> Result<(Moment, Key, Change), LineError> {
    let [word, key, change @ ..] = words else {
        return Err(LineError::Refused);
    };
    Ok((
        moment(word).ok_or(LineError::Refused)?,
        any_key_of(alloc, kind, key)?,
        change_of(alloc, change)?,
    ))
}

/// Reads a call `learn SESSION MOMENT NUMBER LIFE KEY VALUES.. NAME`, from the words after the first.
fn learn_of(alloc: Global, table: &TableDef, words: &[&[u8]]) -> Result<Call, LineError>
    ensures { IfOk result IsCall }
{
    let [session, words @ ..] = words else {
        return Err(LineError::Refused);
    };
    let (moment, update) = learned_of(alloc, table, words)?;
    Ok(Call::Learn {
        session: number32(session).ok_or(LineError::Refused)?,
        update,
        moment,
    })
}

/// Reads `MOMENT NUMBER LIFE KEY VALUES.. NAME`: an update, and when it is learned. Its key may be of another kind than the
/// table's.
pub(crate) fn learned_of(
    alloc: Global,
    table: &TableDef,
    words: &[&[u8]],
) -> Result<(Moment, Update), LineError> {
    let [word, number, life, key, values @ ..] = words else {
        return Err(LineError::Refused);
    };
    let key = any_key_of(alloc, table.kind(), key)?;
    Ok((
        moment(word).ok_or(LineError::Refused)?,
        update_with(alloc, table, number, life, key, values)?,
    ))
}

/// Reads a key of `kind`, or else a string or an integer, so that a script can use a key of another kind than its table's.
pub fn any_key_of(alloc: Global, kind: KeyKind, word: &[u8]) -> Result<Key, LineError>
    ensures written { IfOk result (λ key. any_key_of kind word.now ≡ Some key) }
    ensures refused { result ≡ Err LineError.Refused → any_key_of kind word.now ≡ None }
{
    match key_of(alloc, kind, word) {
        Err(LineError::Refused) => {}
        read => return read,
    }
    match key_of(alloc, KeyKind::String, word) {
        Err(LineError::Refused) => key_of(alloc, KeyKind::Integer, word),
        read => read,
    }
}
