//! Turns of one side; the bytes of the other are data.

use crate::sides::{Side, rows};
use crate::tables::{Role, Tables};
use crate::waiting::Waiting;
use crate::whole::Whole;
use peers_devices::{Counting, Faults};
use peers_engine::{AlwaysOpen, EngineError, Turned};
use session_core::State;
use std::alloc::Global;
use std::io::Read;
use std::sync::Wait;
use table_shards::Shards;
use table_types::{Cell, Key, Row};

/// A turn: the bytes that have come before it, those that the side sends in it, and how it ends.
#[derive(Drop)]
pub struct Exchange {
    pub comes: &'static [u8],
    pub sends: &'static [u8],
    pub ends: Result<Turned, EngineError>,
}

/// A side, its turns in two parts, and the session's state and the keys and counts of the rows of `t1` after them.
#[derive(Drop)]
pub struct Story {
    pub tables: Tables,
    pub role: Role,
    pub opening: &'static [Exchange],
    pub turns: &'static [Exchange],
    pub state: State,
    pub rows: &'static [(u32, u64)],
}

/// Returns whether a turn over `input` sends and ends as `turn` says.
pub(crate) fn goes_so<H: Wait, R: Read + Faults>(
    rt: &H,
    alloc: Global,
    side: &mut Side,
    input: &mut R,
    turn: &Exchange,
) -> bool {
    let mut output = Counting::new(Vec::new(alloc));
    let turned = side.take_turn(rt, alloc, input, &mut output, &AlwaysOpen);
    turned == turn.ends && output.into_inner().as_slice() == turn.sends
}

/// Returns whether a turn goes as it says.
pub(crate) fn is_so<H: Wait>(rt: &H, alloc: Global, side: &mut Side, turn: &Exchange) -> bool {
    goes_so(rt, alloc, side, &mut Waiting::new(turn.comes), turn)
}

/// Takes the first turn of a side, which finds nothing to read. Returns whether the side makes just one write, of `length` bytes.
pub fn writes_once<H: Wait>(
    rt: &H,
    alloc: Global,
    tables: &Tables,
    role: Role,
    length: usize,
) -> bool {
    let Some(mut side) = tables.side(alloc, role) else {
        return false;
    };
    let mut input = Waiting::new(b"");
    let mut output = Counting::new(Whole::new());
    let turned = side.take_turn(rt, alloc, &mut input, &mut output, &AlwaysOpen);
    let whole = output.into_inner();
    turned == Ok(Turned::Going) && whole.writes == 1 && whole.bytes == length
}

/// Returns whether turns go as they say.
pub(crate) fn are_so<H: Wait>(rt: &H, alloc: Global, side: &mut Side, turns: &[Exchange]) -> bool {
    for turn in turns {
        if !is_so(rt, alloc, side, turn) {
            return false;
        }
    }
    true
}

/// Returns whether the only cell of a row is the count `expected`.
fn has_count(row: &Row, expected: u64) -> bool {
    match row.cells() {
        [Cell::Count(count)] => *count == expected,
        _ => false,
    }
}

/// Returns whether these are rows of these keys and counts, and no others.
fn are_rows(rows: &[(Key, Row)], expected: &[(u32, u64)]) -> bool {
    if rows.len() != expected.len() {
        return false;
    }
    for ((key, row), (number, count)) in rows.iter().zip(expected.iter()) {
        if !key.is_same(&Key::Int(*number)) || !has_count(row, *count) {
            return false;
        }
    }
    true
}

/// Returns whether `t1` has such rows. It has none if there is no lock for it.
pub(crate) fn has_rows<H: Wait>(rt: &H, shards: &Shards, expected: &[(u32, u64)]) -> Option<bool> {
    if shards.cell(1).is_none() {
        return Some(expected.is_empty());
    }
    let rows = rows(rt, shards, 1)?;
    Some(are_rows(rows.as_slice(), expected))
}

/// Returns whether a story goes as it says with this side.
pub(crate) fn is_lived<H: Wait>(
    rt: &H,
    alloc: Global,
    side: &mut Side,
    story: &Story,
) -> Option<bool> {
    let went = are_so(rt, alloc, side, story.opening) && are_so(rt, alloc, side, story.turns);
    let has_rows = has_rows(rt, &side.shards, story.rows)?;
    Some(went && side.worker.session.state() == story.state && has_rows)
}

/// Returns what `is_lived` does, with a new side.
fn comes_true<H: Wait>(rt: &H, alloc: Global, story: &Story) -> Option<bool> {
    let mut side = story.tables.side(alloc, story.role)?;
    is_lived(rt, alloc, &mut side, story)
}

/// Plays each story with a new side. Returns the index of the first that fails.
pub fn first_failing<H: Wait>(rt: &H, alloc: Global, stories: &[Story]) -> Option<usize> {
    for (place, story) in stories.iter().enumerate() {
        if comes_true(rt, alloc, story) != Some(true) {
            return Some(place);
        }
    }
    None
}
