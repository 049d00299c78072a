//! Answers of one word, and the lines of rows.
ghost use Rattle.std.specs.Prelude.{◌≡◌, ◌++◌, OnOk, Err, None, flat_map, option_copied};
ghost use Rattle.table_cell.specs.declared.errors.TrackError.{TrackError};
ghost use Rattle.node_text.specs.Refusals.{track_refusal};
ghost use Rattle.node_text.specs.Rows.{row_line};
ghost use Rattle.admin_port.specs.Answers.{answer_line, answer_word, found_text, is_show, refused_text, too_many_text, tracked_text};

use crate::http_requests::begins_http;
use crate::lines::{push_line_end, push_words};
use crate::pages::push_too_many_clients;
use node_text::{cut, push_reply, push_row, track_refusal};
use std::alloc::AllocError;
use table_cell::{Reply, TrackError};
use table_rows::is_live;
use table_types::{Key, Memory, Moment, Row, TableDef, is_same_name};

/// An answer of one word.
#[derive(Clone, Copy, Debug, PartialEq, Eq)]
pub enum Answer {
    /// What was asked for is done.
    Done,
    /// The table has no live row of the key.
    Nothing,
    /// There is no such table.
    NoTable,
    /// The key is of another kind or length than the table's.
    WrongKey,
    /// The line isn't a request.
    Refused,
    /// There are too many connections.
    Busy,
    /// A listing ends.
    End,
}

impl Answer {
    /// Returns the answer's word.
    pub fn word(self) -> &'static str
        ensures { result.now ≡ answer_word self }
    {
        match self {
            Answer::Done => "ok",
            Answer::Nothing => "none",
            Answer::NoTable => "NoTable",
            Answer::WrongKey => "WrongKey",
            Answer::Refused => "refused",
            Answer::Busy => "busy",
            Answer::End => ".",
        }
    }
}

/// Appends the line of an answer.
pub fn push_answer(text: &mut Vec<u8>, answer: Answer) -> Result<(), AllocError>
    ensures { OnOk result (text.new.items ≡ text.old.items ++ answer_line answer) }
{
    push_words(text, answer.word())?;
    push_line_end(text)
}

/// Appends the answer to a line that isn't a request. A listing is ended even then.
pub fn push_refused(text: &mut Vec<u8>, line: &[u8]) -> Result<(), AllocError>
    ensures { OnOk result (text.new.items ≡ text.old.items ++ refused_text line.now) }
{
    push_answer(text, Answer::Refused)?;
    if is_show(line) {
        push_answer(text, Answer::End)
    } else {
        Ok(())
    }
}

/// Returns whether the first word of `line` is `show`.
#[tactic(auto, using(crate::proofs::LineWords::cut_off, crate::proofs::LineWords::last_word))]
fn is_show(line: &[u8]) -> bool
    ensures { result ≡ is_show line.now }
{
    match cut(line, b' ') {
        Some((word, _)) => is_same_name(word, b"show"),
        None => is_same_name(line, b"show"),
    }
}

/// Appends the answer to a client that is too many: `busy`, or 503 if what it has sent so far, `begun`, has the first line of an HTTP
/// request. The connection is closed behind it.
pub fn push_too_many(text: &mut Vec<u8>, begun: &[u8]) -> Result<(), AllocError>
    ensures { OnOk result (text.new.items ≡ text.old.items ++ too_many_text begun.now) }
{
    if begins_http(begun) {
        push_too_many_clients(text)
    } else {
        push_answer(text, Answer::Busy)
    }
}

/// Appends the answer to a change of the row of `key`: the row that the change stored, or the name of the refusal. Returns `Memory` if
/// the change was refused for want of memory, which is no answer.
pub fn push_tracked(
    text: &mut Vec<u8>,
    table: &TableDef,
    key: &Key,
    tracked: &Result<Reply, TrackError>,
) -> Result<(), Memory>
    ensures answer { OnOk result (text.new.items ≡ text.old.items ++ tracked_text table.now key.now tracked.now) }
    ensures unanswered { (error : TrackError) → tracked.now ≡ Err error → track_refusal error ≡ None → OnOk result ⊥ }
{
    match tracked {
        Ok(reply) => push_reply(text, table, key, reply)?,
        Err(error) => match track_refusal(*error) {
            Some(name) => push_words(text, name)?,
            None => return Err(Memory),
        },
    }
    Ok(push_line_end(text)?)
}

/// Appends the answer to a request for the row of `key`, if `row` is what the table has there: its line if it is live at `moment`.
pub fn push_found(
    text: &mut Vec<u8>,
    table: &TableDef,
    key: &Key,
    row: Option<&Row>,
    moment: Moment,
) -> Result<(), AllocError>
    ensures { OnOk result (text.new.items ≡ text.old.items ++ found_text table.now key.now (option_copied row.entry) moment) }
{
    if !key.fits(table.kind(), table.key_length()) {
        return push_answer(text, Answer::WrongKey);
    }
    match row {
        Some(row) if is_live(row, moment) => push_row(text, table, key, row),
        _ => push_answer(text, Answer::Nothing),
    }
}

/// Appends the line of each of `rows`, in order.
pub fn push_rows(
    text: &mut Vec<u8>,
    table: &TableDef,
    rows: &[(Key, Row)],
) -> Result<(), AllocError>
    ensures { OnOk result (text.new.items ≡ text.old.items ++ flat_map (row_line table.now) rows.now) }
{
    for (key, row) in rows {
        push_row(text, table, key, row)?;
    }
    Ok(())
}
