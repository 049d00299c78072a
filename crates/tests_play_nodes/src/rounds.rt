//! The worker of a round's session at the gate: the lock of its table is free there. All threads of a round at theirs: none waits
//! for another to end.

use crate::gates::Held;
use crate::sides::SESSION;
use known_state::Known;
use node_commands::{RoundSize, StartGate, gated_round, work};
use peers_devices::Counting;
use peers_engine::Stage;
use std::alloc::Global;
use std::sync::Wait;
use std::sync::atomic::{AtomicBool, AtomicU32, Ordering};
use std::thread;
use std::thread::Threads;
use std::time::{Clock, Duration};
use table_shards::held::lent;
use table_shards::{Seat, Shards};
use table_types::Version;
use tests_play_data::parts::{T1, alone};
use tests_play_tables::{TwoSeats, comes, track};
use text_commands::Ending;

/// Opens the worker's session in `t1`. Returns whether it is open.
fn opens<R: Wait>(rt: &R, shards: &Shards, seat: &mut Option<Seat>) -> Option<bool> {
    let seat = seat.as_mut()?;
    let mut locked = shards.cell(1)?.lock(rt);
    let answer = lent::open_session(&mut locked, seat, 1, SESSION, Version::V21);
    Some(answer.is_ok())
}

/// Calls `opens`, and tracks key 7. Returns whether both succeeded.
fn is_begun<R: Wait>(rt: &R, shards: &Shards, seat: &mut Option<Seat>) -> Option<bool> {
    let opened = opens(rt, shards, seat)?;
    let counted = track(rt, shards, seat, 1, 7);
    Some(opened && counted == Some(1))
}

/// Changes the table when the worker has reached the gate. Returns whether it has, and the change was made.
fn changes<R: Wait + Clock>(
    rt: &R,
    shards: &Shards,
    seat: &mut Option<Seat>,
    came: &AtomicBool,
    changed: &AtomicBool,
) -> bool {
    let ready = comes(rt, came);
    let counted = track(rt, shards, seat, 1, 8);
    changed.store(true, Ordering::SeqCst);
    ready && counted == Some(1)
}

/// Has the worker wait at `stage` while another thread changes the table from `seat`, and then continue until there is nothing to
/// copy. Returns whether the change was made before the gate gave up.
fn is_held<R: Threads + Wait + Clock + Sync>(
    rt: &R,
    alloc: Global,
    shards: &Shards,
    own: &mut Seat,
    known: &mut Known,
    seat: &mut Option<Seat>,
    stage: Stage,
) -> bool {
    let (came, changed, gave_up) = (
        AtomicBool::new(false),
        AtomicBool::new(false),
        AtomicBool::new(false),
    );
    let gate = Held {
        clock: rt,
        stage,
        came: &came,
        let_go: &changed,
        gave_up: &gave_up,
    };
    let (is_changed, ended) = thread::join(
        rt,
        || changes(rt, shards, seat, &came, &changed),
        || work(rt, alloc, &gate, shards, own, known),
    );
    is_changed && ended == Ok(()) && !gave_up.load(Ordering::SeqCst)
}

/// Makes the state of a learner of `t1` that has received nothing.
fn fresh(alloc: Global) -> Option<Known> {
    Known::fresh(alloc, alone(alloc, &T1)?).ok()
}

/// Returns whether a worker with the second seat is held at `stage` while the table is changed from the first.
fn holds<R: Threads + Wait + Clock + Sync>(
    rt: &R,
    alloc: Global,
    two: &mut TwoSeats,
    stage: Stage,
) -> Option<bool> {
    let TwoSeats {
        shards,
        first,
        second,
    } = two;
    let was_begun = is_begun(rt, &*shards, first)?;
    let mut known = fresh(alloc)?;
    let own = second.as_mut()?;
    Some(was_begun && is_held(rt, alloc, &*shards, own, &mut known, first, stage))
}

/// Returns whether an audit of the table with both seats finds no fault.
fn is_audited(alloc: Global, two: TwoSeats) -> Option<bool> {
    let (table, seats) = two.unlock(alloc)?;
    Some(table.audit(seats).is_ok())
}

/// Returns whether a worker that is held at `stage` lets another thread change its table, and an audit then finds no fault.
fn is_held_at<R: Threads + Wait + Clock + Sync>(
    rt: &R,
    alloc: Global,
    stage: Stage,
) -> Option<bool> {
    let mut two = TwoSeats::new(alloc)?;
    let was_held = holds(rt, alloc, &mut two, stage);
    let audited = is_audited(alloc, two);
    Some(was_held == Some(true) && audited == Some(true))
}

/// Holds a worker at each stage. Returns the index of the first at which another thread can't change its table, or an audit finds a
/// fault.
pub fn first_locked<R: Threads + Wait + Clock + Sync>(
    rt: &R,
    alloc: Global,
    stages: &[Stage],
) -> Option<usize> {
    for (place, stage) in stages.iter().enumerate() {
        if is_held_at(rt, alloc, *stage) != Some(true) {
            return Some(place);
        }
    }
    None
}

/// How often a thread at the gate looks whether the others have come, 1 ms apart.
const TURNS: u32 = 10_000;

/// A gate that holds each thread until `threads` of them have come, at most about 10 s.
#[derive(Drop)]
struct Meeting<'a, C> {
    clock: &'a C,
    threads: u32,
    /// The number of threads that have come.
    came: AtomicU32,
    /// Whether one went on before all had come.
    gave_up: AtomicBool,
}

/// Waits until `threads` threads have come, at most about 10 s. Returns whether they have.
fn all_come<C: Clock>(clock: &C, came: &AtomicU32, threads: u32) -> bool {
    for _ in 0..TURNS {
        if came.load(Ordering::SeqCst) >= threads {
            return true;
        }
        thread::sleep(clock, Duration::from_millis(1));
    }
    false
}

impl<C: Clock> StartGate for Meeting<'_, C> {
    fn at_start<R: Wait>(&self, _: &R) {
        self.came.fetch_add(1, Ordering::SeqCst);
        if !all_come(self.clock, &self.came, self.threads) {
            self.gave_up.store(true, Ordering::SeqCst);
        }
    }
}

/// Runs rounds. Each thread of the first one, the worker's too, waits at the gate until all have started. Returns whether they did, and
/// the rounds ended well and printed `text`.
pub fn runs_at_once<R: Threads + Wait + Clock + Sync>(
    rt: &R,
    alloc: Global,
    size: RoundSize,
    text: &[u8],
) -> bool {
    if size.threads > 8 || size.rounds == 0 {
        return false;
    }
    let gate = Meeting {
        clock: rt,
        threads: size.threads + 1,
        came: AtomicU32::new(0),
        gave_up: AtomicBool::new(false),
    };
    let mut output = Counting::new(Vec::new(alloc));
    let mut errors = Counting::new(Vec::new(alloc));
    let ended = gated_round(rt, alloc, &gate, size, &mut output, &mut errors);
    let all_came = !gate.gave_up.load(Ordering::SeqCst);
    ended == Ending::Done && all_came && output.into_inner().as_slice() == text
}
