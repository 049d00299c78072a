//! Sessions at the gate.

use crate::sides::Side;
use crate::turns::{Story, is_lived};
use crate::waiting::Waiting;
use peers_devices::{Counting, Faults, Writes};
use peers_engine::{EngineError, Gate, Stage, Turned, Worker};
use std::alloc::Global;
use std::io::Write;
use std::sync::Wait;
use std::sync::atomic::{AtomicBool, Ordering};
use std::thread;
use std::thread::Threads;
use std::time::Clock;
use table_shards::{Seat, Shards};
use table_types::Moment;
use tests_play_tables::{comes, track};

/// A gate that holds a session at `stage` until another thread releases it, at most about 10 s.
#[derive(Drop)]
pub struct Held<'a, C> {
    pub clock: &'a C,
    pub stage: Stage,
    /// Whether the session has reached the stage.
    pub came: &'a AtomicBool,
    /// Whether it may continue.
    pub let_go: &'a AtomicBool,
    /// Whether it continued although nobody let it go.
    pub gave_up: &'a AtomicBool,
}

impl<C: Clock> Gate for Held<'_, C> {
    fn at<R: Wait>(&self, _: &R, stage: Stage) {
        if stage == self.stage {
            self.came.store(true, Ordering::SeqCst);
            if !comes(self.clock, self.let_go) {
                self.gave_up.store(true, Ordering::SeqCst);
            }
        }
    }
}

/// How a turn at a gate ended, and the number of bytes that it sent.
#[derive(Clone, Copy)]
struct Outcome {
    turned: Result<Turned, EngineError>,
    sent: usize,
}

/// Takes a turn at the least moment that finds nothing to read.
fn teaches<H: Wait, W: Write + Faults, G: Gate>(
    rt: &H,
    alloc: Global,
    worker: &mut Worker,
    output: &mut W,
    gate: &G,
    shards: &Shards,
) -> Result<Turned, EngineError> {
    let mut input = Waiting::new(b"");
    let mut writes = Writes::none();
    let now = Moment::least();
    let outcome = worker.turn(
        rt,
        alloc,
        &mut input,
        output,
        &mut writes,
        gate,
        shards,
        now,
    )?;
    Ok(outcome.turned())
}

/// Takes such a turn, and returns its outcome.
fn taught<H: Wait, G: Gate>(
    rt: &H,
    alloc: Global,
    worker: &mut Worker,
    gate: &G,
    shards: &Shards,
) -> Outcome {
    let mut output = Counting::new(Vec::new(alloc));
    let turned = teaches(rt, alloc, worker, &mut output, gate, shards);
    let sent = output.into_inner().len();
    Outcome { turned, sent }
}

/// Waits for the session to reach the gate, tracks key 9, and releases the session. Returns whether all of it succeeded.
fn lets_go<R: Wait + Clock>(
    rt: &R,
    shards: &Shards,
    seat: &mut Option<Seat>,
    came: &AtomicBool,
    let_go: &AtomicBool,
) -> bool {
    let has_come = comes(rt, came);
    let counted = track(rt, shards, seat, 1, 9);
    let_go.store(true, Ordering::SeqCst);
    has_come && counted == Some(1)
}

/// Takes a turn that the gate holds at `stage`, and returns its outcome, or `None` if nobody let it go.
fn held_over<H: Threads + Wait + Clock + Sync>(
    rt: &H,
    alloc: Global,
    side: &mut Side,
    stage: Stage,
) -> Option<Outcome> {
    let (came, let_go, gave_up) = (
        AtomicBool::new(false),
        AtomicBool::new(false),
        AtomicBool::new(false),
    );
    let gate = Held {
        clock: rt,
        stage,
        came: &came,
        let_go: &let_go,
        gave_up: &gave_up,
    };
    let Side {
        worker,
        shards,
        other,
    } = side;
    let shards = &*shards;
    let (was_answered, outcome) = thread::join(
        rt,
        || lets_go(rt, shards, other, &came, &let_go),
        || taught(rt, alloc, worker, &gate, shards),
    );
    if was_answered && !gave_up.load(Ordering::SeqCst) {
        Some(outcome)
    } else {
        None
    }
}

/// Returns whether the turn of a side after a story sends this many bytes, though it is held at `stage`.
fn is_held_after<H: Threads + Wait + Clock + Sync>(
    rt: &H,
    alloc: Global,
    side: &mut Side,
    story: &Story,
    stage: Stage,
    sends: usize,
) -> Option<bool> {
    let was_lived = is_lived(rt, alloc, side, story)?;
    let outcome = held_over(rt, alloc, side, stage)?;
    Some(was_lived && outcome.turned == Ok(Turned::Going) && outcome.sent == sends)
}

/// Returns what `is_held_after` does, with a new side.
fn is_held_so<H: Threads + Wait + Clock + Sync>(
    rt: &H,
    alloc: Global,
    story: &Story,
    stage: Stage,
    sends: usize,
) -> Option<bool> {
    let mut side = story.tables.side(alloc, story.role)?;
    is_held_after(rt, alloc, &mut side, story, stage, sends)
}

/// Holds the turn after the story, which sends this many bytes, at each stage, until another thread has tracked a key of its table. Returns
/// the index of the first stage at which it can't, or at which the turn goes otherwise.
pub fn first_failing<H: Threads + Wait + Clock + Sync>(
    rt: &H,
    alloc: Global,
    story: &Story,
    stages: &[Stage],
    sends: usize,
) -> Option<usize> {
    for (place, stage) in stages.iter().enumerate() {
        if is_held_so(rt, alloc, story, *stage, sends) != Some(true) {
            return Some(place);
        }
    }
    None
}
