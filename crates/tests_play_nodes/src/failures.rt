//! Turns of one side over a device that fails.

use crate::lasting::Lasting;
use crate::sides::Side;
use crate::tables::{Role, Tables};
use crate::turns::{Exchange, Story, are_so, goes_so, has_rows, is_lived, is_so};
use crate::waiting::Waiting;
use peers_devices::Counting;
use peers_engine::{AlwaysOpen, EngineError, Fused, Turned};
use session_core::State;
use std::alloc::Global;
use std::sync::Wait;

/// A turn of a session, and whether it reads.
pub struct Leg {
    pub reads: bool,
    pub turn: Exchange,
}

/// A side, the turns of its session over one reader that lasts, and the session's state and the rows of `t1` after them; and a turn of the
/// session once it is over.
pub struct Passage {
    pub tables: Tables,
    pub role: Role,
    pub legs: &'static [Leg],
    pub state: State,
    pub rows: &'static [(u32, u64)],
    pub over: Exchange,
}

/// Returns whether the turn goes as it says over a writer that takes `room` bytes and then fails.
fn writes_so<H: Wait>(
    rt: &H,
    alloc: Global,
    side: &mut Side,
    turn: &Exchange,
    room: usize,
) -> bool {
    let mut input = Waiting::new(turn.comes);
    let mut output = Counting::new(Fused::new(Vec::new(alloc), room));
    let turned = side.take_turn(rt, alloc, &mut input, &mut output, &AlwaysOpen);
    let written = output.into_inner().into_inner();
    turned == turn.ends && written.as_slice() == turn.sends
}

/// Returns whether the session has ended, and the turn after that says so.
fn is_over<H: Wait>(rt: &H, alloc: Global, side: &mut Side, after: &Exchange) -> bool {
    side.worker.session.state() == State::Ended && is_so(rt, alloc, side, after)
}

/// Returns whether the turn goes as it says over the reader, which has then been called `calls` times.
fn reads_so<H: Wait>(
    rt: &H,
    alloc: Global,
    side: &mut Side,
    input: &mut Lasting,
    turn: &Exchange,
    calls: usize,
) -> bool {
    input.comes(turn.comes);
    goes_so(rt, alloc, side, input, turn) && input.calls == calls
}

/// Returns whether the session ends in this turn, whose read is call number `calls` and fails, and whether `over`, the turn after it,
/// doesn't read.
fn breaks<H: Wait>(
    rt: &H,
    alloc: Global,
    side: &mut Side,
    input: &mut Lasting,
    turn: &Exchange,
    over: &Exchange,
    calls: usize,
) -> bool {
    let failed = Exchange {
        comes: turn.comes,
        sends: b"",
        ends: Err(EngineError::Read),
    };
    reads_so(rt, alloc, side, input, &failed, calls)
        && side.worker.session.state() == State::Ended
        && reads_so(rt, alloc, side, input, over, calls)
}

/// Returns whether the session goes as it says over a reader that fails after `reads` calls: up to the turn in which the reader fails, which
/// ends it, or up to the last turn if the reader doesn't fail before.
fn goes_on<H: Wait>(
    rt: &H,
    alloc: Global,
    side: &mut Side,
    passage: &Passage,
    reads: usize,
) -> Option<bool> {
    let mut input = Lasting::new(reads);
    let mut calls: usize = 0;
    for leg in passage.legs {
        if leg.reads {
            calls = calls.saturating_add(1);
            if calls > reads {
                let over = &passage.over;
                return Some(breaks(rt, alloc, side, &mut input, &leg.turn, over, calls));
            }
        }
        if !reads_so(rt, alloc, side, &mut input, &leg.turn, calls) {
            return Some(false);
        }
    }
    let has_rows = has_rows(rt, &side.shards, passage.rows)?;
    Some(has_rows && side.worker.session.state() == passage.state)
}

/// Plays the session with a new side.
fn comes_true<H: Wait>(rt: &H, alloc: Global, passage: &Passage, reads: usize) -> Option<bool> {
    let mut side = passage.tables.side(alloc, passage.role)?;
    goes_on(rt, alloc, &mut side, passage, reads)
}

/// Returns how many turns read.
fn count_reads(legs: &[Leg]) -> usize {
    let mut count: usize = 0;
    for leg in legs {
        if leg.reads {
            count = count.saturating_add(1);
        }
    }
    count
}

/// Plays the session over readers that fail at one of its reads, at each in turn, and over one that lasts. Returns the number of calls after
/// which the reader fails with which the session goes otherwise.
fn first_broken_otherwise<H: Wait>(rt: &H, alloc: Global, passage: &Passage) -> Option<usize> {
    for reads in 0..=count_reads(passage.legs) {
        if comes_true(rt, alloc, passage, reads) != Some(true) {
            return Some(reads);
        }
    }
    None
}

/// Plays the sessions. Returns the index of the first that goes otherwise, and the number of calls after which its reader fails.
pub fn first_failing<H: Wait>(
    rt: &H,
    alloc: Global,
    passages: &[Passage],
) -> Option<(usize, usize)> {
    for (place, passage) in passages.iter().enumerate() {
        if let Some(reads) = first_broken_otherwise(rt, alloc, passage) {
            return Some((place, reads));
        }
    }
    None
}

/// A side that is about to teach a lesson, the lesson, and the turn of a session that is over.
pub struct Lesson {
    pub story: Story,
    pub bytes: &'static [u8],
    pub over: Exchange,
}

/// Returns whether a new session of the side, which is asked for all rows anew, teaches the lesson.
fn teaches_anew<H: Wait>(rt: &H, alloc: Global, side: &mut Side, lesson: &Lesson) -> Option<bool> {
    side.worker.session = lesson.story.tables.session(alloc, lesson.story.role)?;
    let turn = Exchange {
        comes: b"",
        sends: lesson.bytes,
        ends: Ok(Turned::Going),
    };
    Some(are_so(rt, alloc, side, lesson.story.opening) && is_so(rt, alloc, side, &turn))
}

/// Returns whether a writer that takes `room` bytes of the lesson and then fails ends the session, and a new session teaches it.
fn is_cut_off<H: Wait>(
    rt: &H,
    alloc: Global,
    side: &mut Side,
    lesson: &Lesson,
    room: usize,
) -> Option<bool> {
    let turn = Exchange {
        comes: b"",
        sends: lesson.bytes.get(..room)?,
        ends: Err(EngineError::Write { sent: room }),
    };
    let was_lived = is_lived(rt, alloc, side, &lesson.story)?;
    let failed = writes_so(rt, alloc, side, &turn, room) && is_over(rt, alloc, side, &lesson.over);
    Some(was_lived && failed && teaches_anew(rt, alloc, side, lesson)?)
}

/// Cuts the lesson off with a new side.
fn ends_at<H: Wait>(rt: &H, alloc: Global, lesson: &Lesson, room: usize) -> Option<bool> {
    let mut side = lesson.story.tables.side(alloc, lesson.story.role)?;
    is_cut_off(rt, alloc, &mut side, lesson, room)
}

/// Cuts the lesson off before each of its bytes. Returns how many bytes the writer takes when something else happens.
pub fn first_cut_otherwise<H: Wait>(rt: &H, alloc: Global, lesson: &Lesson) -> Option<usize> {
    for room in 0..lesson.bytes.len() {
        if ends_at(rt, alloc, lesson, room) != Some(true) {
            return Some(room);
        }
    }
    None
}
