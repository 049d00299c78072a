//! Learners: the rows, the acknowledgement and the known state that a stream leaves.

use crate::parts::{TableParts, alone, is_called};
use learner::{Fault, Learner};
use peers_msg::Message;
use std::alloc::Global;
use table_types::{Key, Moment, Row};

/// A stream, and what it leaves in a learner of one table.
pub struct Stream {
    pub table: TableParts,
    /// Parts of the stream, and how many rows each puts, or its fault.
    pub parts: &'static [(&'static [u8], Result<usize, Fault>)],
    /// The keys and numbers of the rows that are there then.
    pub rows: &'static [(u8, u32)],
    /// How many bytes of an unfinished message wait.
    pub waiting: usize,
    /// The table and the number of the acknowledgement that is due.
    pub ack: Option<(u64, u32)>,
    /// The table selected in the known state, and the last number of the learner's table there.
    pub known: (Option<u64>, Option<u32>),
}

/// Feeds `piece` at 2^32 ms.
fn feed(learner: &mut Learner, piece: &[u8]) -> Result<usize, Fault> {
    match Moment::new(1 << 32) {
        Some(moment) => learner.feed(piece, moment),
        None => Err(Fault::Closed),
    }
}

/// Feeds `part` in pieces of `length` bytes, and returns how many rows were put.
fn feed_pieces(learner: &mut Learner, part: &[u8], length: usize) -> Result<usize, Fault> {
    let mut rows: usize = 0;
    for piece in part.chunks(length.max(1)) {
        rows = rows.saturating_add(feed(learner, piece)?);
    }
    Ok(rows)
}

fn are_answered(learner: &mut Learner, stream: &Stream, length: usize) -> bool {
    for (part, answer) in stream.parts {
        if feed_pieces(learner, *part, length) != *answer {
            return false;
        }
    }
    true
}

/// Returns whether the row has `number`, and was learned at 2^32 ms with a life of 30,000 ms.
fn is_learned(row: &Row, number: u32) -> bool {
    match row.ends() {
        Some(end) => end.milliseconds() == 4_294_997_296
            && row.number() == number
            && row.is_learned(),
        None => false,
    }
}

/// Returns whether the row is that of the integer `key`, or of the letter `key` with the name `s1`.
fn is_row(entry: &(Key, Row), key: u8, number: u32) -> bool {
    let named = match &entry.0 {
        Key::Int(value) => *value == u32::from(key) && entry.1.name().is_none(),
        Key::Str(text) => text.as_slice() == [key].as_slice() && is_called(entry.1.name(), b"s1"),
        _ => false,
    };
    named && is_learned(&entry.1, number)
}

/// Returns whether the row of `key` has `number`, or there is none if `number` is `None`.
fn has_row(learner: &Learner, id: u64, key: &Key, number: Option<u32>) -> bool {
    match learner.row(id, key) {
        Some(row) => number == Some(row.number()),
        None => number.is_none(),
    }
}

fn are_rows(learner: &Learner, id: u64, entries: &[(Key, Row)], rows: &[(u8, u32)]) -> bool {
    for (entry, row) in entries.iter().zip(rows) {
        if !is_row(entry, row.0, row.1) || !has_row(learner, id, &entry.0, Some(row.1)) {
            return false;
        }
    }
    entries.len() == rows.len() && has_row(learner, id, &Key::Int(9), None)
}

/// Returns whether the rows of table `id` are those of these keys and numbers, learned at 2^32 ms with a life of 30,000 ms.
pub fn has_rows(learner: &Learner, id: u64, rows: &[(u8, u32)]) -> Option<bool> {
    let entries = learner.rows(id).ok()?;
    Some(are_rows(learner, id, entries.as_slice(), rows))
}

/// Returns whether the acknowledgement `expected` is due and no other, or none is.
fn acknowledges(learner: &mut Learner, expected: Option<(u64, u32)>) -> Option<bool> {
    let acks = learner.acks().ok()?;
    Some(match acks.as_slice().first() {
        Some(Message::Ack { table, number }) => acks.len() == 1
            && expected == Some((*table, *number)),
        Some(_) => false,
        None => expected.is_none(),
    })
}

fn is_known(learner: &Learner, stream: &Stream) -> Option<bool> {
    let known = learner.known(learner.roster()).ok()?;
    Some(
        (
            known.received().selected(),
            known.last_numbers().last(stream.table.id),
        ) == stream.known,
    )
}

/// Returns whether the stream, fed in pieces of `length` bytes, leaves what it is to leave, and its acknowledgement is due once.
fn makes(learner: &mut Learner, stream: &Stream, length: usize) -> Option<bool> {
    Some(
        are_answered(learner, stream, length)
            && learner.waiting() == stream.waiting
            && has_rows(learner, stream.table.id, stream.rows)?
            && is_known(learner, stream)?
            && acknowledges(learner, stream.ack)?
            && acknowledges(learner, None)?,
    )
}

fn is_made(alloc: Global, stream: &Stream, length: usize) -> Option<bool> {
    let mut learner = Learner::new(alloc, alone(alloc, &stream.table)?).ok()?;
    makes(&mut learner, stream, length)
}

/// Returns the index of the first stream that leaves something else, and the length of its pieces.
pub fn first_failing(
    alloc: Global,
    streams: &[Stream],
    lengths: &[usize],
) -> Option<(usize, usize)> {
    for (place, stream) in streams.iter().enumerate() {
        for length in lengths {
            if is_made(alloc, stream, *length) != Some(true) {
                return Some((place, *length));
            }
        }
    }
    None
}
