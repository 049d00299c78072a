//! Worlds of `t1` and one session: what steps leave in the lists of the session, on its way, at its learner, and in what the teacher
//! knows of that.

ghost use Rattle.std.specs.Prelude.{◌≡◌, IfSome, length};

use interleave_core::{Step, Way, World, run};
use learner::Learner;
use std::alloc::Global;
use table_cell::TableCell;
use table_types::{
    Batch, Cell, Change, CopyKind, DataType, Key, Moment, Row, Update, Value, Version,
};
use tests_play_data::known_states::{are_same, known_of_t1};
use tests_play_data::parts::{T1, UpdateParts, definition, update};

/// The number of the session.
const SESSION: u32 = 1;

/// A step of `t1` and session 1 at the least moment.
#[derive(Clone, Copy)]
pub enum Short {
    /// The teacher adds to the count of a key.
    Track(u32, u64),
    /// The teacher's table learns an update.
    Learn(&'static UpdateParts),
    Copy(CopyKind),
    Teach,
    /// This many bytes arrive at the learner.
    ToLearner(usize),
    /// This many bytes arrive at the teacher.
    ToTeacher(usize),
    Ack,
    /// The connection of this session breaks.
    Break(u32),
    Reopen,
}

/// An update of `t1`: its number, its life, its key and its count.
pub type Told = (u32, Option<u32>, u32, u64);

/// What there is of session 1 and of `t1`.
#[derive(Clone, Copy, Debug)]
pub struct Seen {
    /// The batches that wait to be taught.
    pub copied: &'static [&'static [Told]],
    pub taught: &'static [Told],
    pub applied: &'static [Told],
    pub to_learner: &'static [u8],
    pub to_teacher: &'static [u8],
    /// The learner's rows: their keys, numbers and counts. Each ends 30 s after the least moment.
    pub rows: &'static [(u32, u32, u64)],
    /// How many bytes of an unfinished message the learner has.
    pub waiting: usize,
    /// The last number of `t1` that the teacher knows of, which is then defined and selected. It knows nothing if there is none.
    pub known: Option<u32>,
    /// How many events the teacher's table has had.
    pub events: u64,
}

/// Steps, and what there is after them.
pub type Part = (&'static [Short], Seen);

/// Steps in parts, in a new world.
pub struct Story {
    /// The version of the session.
    pub version: Version,
    /// How often 1 was added to key 1 before the session was opened.
    pub added: u32,
    pub parts: &'static [Part],
}

/// Makes the step that delivers bytes.
fn deliver(way: Way, count: usize) -> Step {
    Step::Deliver {
        session: SESSION,
        way,
        count,
        moment: Moment::least(),
    }
}

/// Makes a step.
fn step_of(alloc: Global, short: Short) -> Option<Step> {
    let (session, moment) = (SESSION, Moment::least());
    Some(match short {
        Short::Track(key, more) => Step::Track {
            table: T1.id,
            key: Key::Int(key),
            change: Change::Add(DataType::Gpc0, more),
            moment,
        },
        Short::Learn(parts) => Step::Learn {
            session,
            update: update(alloc, parts)?,
            moment,
        },
        Short::Copy(kind) => Step::Copy {
            session,
            table: T1.id,
            kind,
            limit: 512,
            moment,
        },
        Short::Teach => Step::Teach { session },
        Short::ToLearner(count) => deliver(Way::ToLearner, count),
        Short::ToTeacher(count) => deliver(Way::ToTeacher, count),
        Short::Ack => Step::Ack { session },
        Short::Break(session) => Step::Break { session },
        Short::Reopen => Step::Reopen { session },
    })
}

/// Makes the steps one after another.
fn after(alloc: Global, world: World, steps: &[Short]) -> Option<World> {
    let mut world = world;
    for short in steps {
        let step = step_of(alloc, *short)?;
        world = run(world, &[step]).ok()?;
    }
    Some(world)
}

fn is_told(update: &Update, told: &Told) -> bool {
    let has_count = match update.values.as_slice() {
        [Value::Count(count)] => *count == told.3,
        _ => false,
    };
    has_count
        && (update.table, update.number, update.life) == (T1.id, told.0, told.1)
        && update.key.is_same(&Key::Int(told.2))
}

fn are_told(updates: &[Update], told: &[Told]) -> bool {
    for (update, told) in updates.iter().zip(told) {
        if !is_told(update, told) {
            return false;
        }
    }
    updates.len() == told.len()
}

fn are_batches(batches: &[Batch], copied: &[&[Told]]) -> bool {
    for (batch, told) in batches.iter().zip(copied) {
        if !are_told(batch.updates(), *told) {
            return false;
        }
    }
    batches.len() == copied.len()
}

/// Returns whether a row has this number and this count, was learned, and ends 30 s after the least moment.
fn is_row(row: &Row, number: u32, count: u64) -> bool {
    let has_count = match row.cells() {
        [Cell::Count(found)] => *found == count,
        _ => false,
    };
    let ends = match row.ends() {
        Some(end) => end.milliseconds() == 4_294_997_296,
        None => false,
    };
    has_count && ends && row.number() == number && row.is_learned()
}

fn has_rows(learner: &Learner, rows: &[(u32, u32, u64)]) -> Option<bool> {
    let list = learner.rows(T1.id).ok()?;
    for ((key, row), (wanted, number, count)) in list.iter().zip(rows) {
        if !key.is_same(&Key::Int(*wanted)) || !is_row(row, *number, *count) {
            return Some(false);
        }
    }
    Some(list.len() == rows.len())
}

/// Returns whether the lists of the session have these updates.
fn are_listed(world: &World, seen: &Seen) -> Option<bool> {
    let (copied, taught) = (world.copied(SESSION)?, world.taught(SESSION)?);
    Some(
        are_batches(copied, seen.copied)
            && are_told(taught, seen.taught)
            && are_told(world.applied(SESSION)?, seen.applied),
    )
}

/// Returns whether these bytes are on their way.
fn are_sent(world: &World, seen: &Seen) -> Option<bool> {
    let to_learner = world.pipe(SESSION, Way::ToLearner)?;
    let to_teacher = world.pipe(SESSION, Way::ToTeacher)?;
    Some(to_learner == seen.to_learner && to_teacher == seen.to_teacher)
}

/// Returns whether the learner has these rows, and this many bytes of an unfinished message.
fn has_learned(world: &World, seen: &Seen) -> Option<bool> {
    let learner = world.learner(SESSION)?;
    Some(has_rows(learner, seen.rows)? && learner.waiting() == seen.waiting)
}

/// Returns whether the teacher knows what it should of the learner. If nothing is on its way to the learner, that is what is so.
fn is_known(alloc: Global, world: &World, seen: &Seen) -> Option<bool> {
    let (known, learner) = (world.known(SESSION)?, world.learner(SESSION)?);
    let is_so = learner.known(known.roster()).ok()?;
    let has_arrived = seen.to_learner.is_empty();
    Some(
        are_same(known, &known_of_t1(alloc, seen.known)?)
            && (!has_arrived || are_same(known, &is_so)),
    )
}

fn is_seen(alloc: Global, world: &World, seen: &Seen) -> Option<bool> {
    Some(
        are_listed(world, seen)?
            && are_sent(world, seen)?
            && has_learned(world, seen)?
            && is_known(alloc, world, seen)?
            && world.cell(T1.id)?.events() == seen.events,
    )
}

/// Adds 1 to key 1 of `t1`.
fn add_one(cell: &mut TableCell) -> Option<()>
    ensures { IfSome result (λ done. length cell.new.state.sessions ≡ length cell.old.state.sessions) }
{
    let change = Change::Add(DataType::Gpc0, 1);
    let _reply = cell.track(0, Key::Int(1), change, Moment::least()).ok()?;
    Some(())
}

/// Makes `t1`, and adds 1 to its key 1 this often.
fn cell_after(alloc: Global, added: u32) -> Option<TableCell>
    ensures { IfSome result (λ cell. length cell.state.sessions ≡ 0) }
{
    let mut cell = TableCell::new(alloc, definition(alloc, &T1)?, 1_000_000, false, 1).ok()?;
    for _ in 0..added {
        add_one(&mut cell)?;
    }
    Some(cell)
}

/// Makes the world of a story, before its steps.
fn world(alloc: Global, story: &Story) -> Option<World> {
    let cell = cell_after(alloc, story.added)?;
    if cell.room() < 1 {
        return None;
    }
    let cells = vec![in alloc; cell].ok()?;
    World::new(alloc, cells, vec![in alloc; story.version].ok()?).ok()
}

/// Returns the index of the first part after which something else is there; `None` if memory runs out.
fn failing_part(alloc: Global, story: &Story) -> Option<Option<usize>> {
    let mut world = world(alloc, story)?;
    for (place, (steps, seen)) in story.parts.iter().enumerate() {
        world = after(alloc, world, *steps)?;
        if !is_seen(alloc, &world, seen)? {
            return Some(Some(place));
        }
    }
    Some(None)
}

/// Plays each story in a new world. Returns the index of the first that fails, and that of its part.
pub fn first_failing(alloc: Global, stories: &[Story]) -> Option<(usize, Option<usize>)> {
    for (place, story) in stories.iter().enumerate() {
        let failing = failing_part(alloc, story);
        if failing != Some(None) {
            return Some((place, failing.flatten()));
        }
    }
    None
}
