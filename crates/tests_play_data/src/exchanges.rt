//! A teacher and its learner: a batch is taught, and the learner is fed the lesson in pieces.

ghost use Rattle.std.specs.Prelude.{◌≡◌, ℕ, List, [], IfErr, IfOk, IfSome, OnOk};
ghost use Rattle.table_types.specs.declared.update.Update.{Update};
ghost use Rattle.table_types.specs.Batches.{IsBatchFor};
ghost use Rattle.known_state.specs.Known.{KnownState, fresh_of};
ghost use Rattle.known_state.specs.Lessons.{IsLessonFor};
ghost use Rattle.learner.specs.declared.fault.Fault.{Fault};
ghost use Rattle.learner.specs.declared.fault.Fault.TheVariants as faults;
ghost use Rattle.learner.specs.Rows.{put_all};
ghost use Rattle.learner.specs.Learning.{HasLearned, IsReadyIn};

use crate::known_states::are_same;
use crate::learners::has_rows;
use crate::parts::{TableParts, UpdateParts, alone, are_held, updates};
use known_state::Known;
use learner::{Fault, Learner};
use std::alloc::Global;
use table_types::{Batch, Moment, Roster};
use teach_writer::{Lesson, teach};

/// Feeds the learner `bytes` at `now`: a piece of each of these lengths, as far as the bytes last, and the rest as one more
/// piece. So the bytes may be cut in any way.
fn feed_in_pieces(
    learner: &mut Learner,
    bytes: &[u8],
    lengths: &[usize],
    now: Moment,
) -> Result<(), Fault>
    requires { learner.old.intake.unread ≡ [] }
    ensures learned { OnOk result ((k after : KnownState) (us : List Update) →
        IsLessonFor k us bytes.now after → IsReadyIn k learner.old → HasLearned now learner.old us after learner.new) }
    ensures memory { IfErr result (λ fault. (k after : KnownState) (us : List Update) →
        IsLessonFor k us bytes.now after → IsReadyIn k learner.old → fault ≡ faults.Memory) }
{
    let mut rest = bytes;
    for length in lengths {
        let (piece, others) = rest.split_at((*length).min(rest.len()));
        learner.feed(piece, now)?;
        rest = others;
    }
    learner.feed(rest, now)?;
    Ok(())
}

/// Teaches the batch to a learner that is in the known state, and feeds it the lesson at `now`, cut into pieces of these
/// lengths and the rest. Returns the lesson, and what a teacher knows of the learner afterwards. The learner then has
/// exactly the rows of the batch, each in place of what stood at its key, and is in the known state that was returned with
/// the lesson. The only fault is out of memory.
pub fn teach_and_learn(
    alloc: Global,
    learner: &mut Learner,
    known: &Known,
    batch: &Batch,
    lengths: &[usize],
    now: Moment,
) -> Result<(Lesson, Known), Fault>
    requires ready { IsReadyIn known.now learner.old }
    requires batch { IsBatchFor known.now.roster batch.now }
    ensures taught { IfOk result (λ taught. IsLessonFor known.now batch.now taught.0.bytes taught.0.known) }
    ensures rows { OnOk result (learner.new.rows ≡ put_all now learner.old.intake.roster batch.now learner.old.rows) }
    ensures known { IfOk result (λ taught. taught.1 ≡ taught.0.known) }
    ensures ready { IfOk result (λ taught. IsReadyIn taught.1 learner.new) }
    ensures memory { IfErr result (λ fault. fault ≡ faults.Memory) }
{
    let Ok(lesson) = teach(alloc, known, batch) else {
        return Err(Fault::Memory);
    };
    feed_in_pieces(learner, lesson.bytes.as_slice(), lengths, now)?;
    match learner.known(learner.roster()) {
        Ok(after) => Ok((lesson, after)),
        Err(_) => Err(Fault::Memory),
    }
}

/// Updates that are taught together, and the bytes of their lesson.
pub type Taught = (&'static [UpdateParts], &'static [u8]);

/// Batches that are taught one after another to a learner of one table that has received nothing, at 2^32 ms, and what is then
/// there: the keys and numbers of its rows, the last number of the table, which is defined and selected, and the slots that
/// hold `s1`.
pub struct Exchange {
    pub table: TableParts,
    pub batches: &'static [Taught],
    pub rows: &'static [(u8, u32)],
    pub last: u32,
    pub held: &'static [u8],
}

/// Returns whether the lesson has these bytes, and came with the known state `after`.
fn is_right(lesson: &Lesson, after: &Known, bytes: &[u8]) -> bool {
    lesson.bytes.as_slice() == bytes && are_same(&lesson.known, after)
}

/// Teaches one batch more, and returns what is known of the learner afterwards; `None` if memory runs out, the lesson has
/// other bytes, or it came with another known state.
fn teach_next(
    alloc: Global,
    learner: &mut Learner,
    known: &Known,
    taught: &Taught,
    lengths: &[usize],
    now: Moment,
) -> Option<Known>
    requires { IsReadyIn known.now learner.old }
    ensures { IfSome result (λ after. IsReadyIn after learner.new) }
{
    let updates = updates(alloc, taught.0)?;
    let batch = Batch::new(alloc, known.roster(), updates).ok()?;
    let (lesson, after) = teach_and_learn(alloc, learner, known, &batch, lengths, now).ok()?;
    if is_right(&lesson, &after, taught.1) {
        Some(after)
    } else {
        None
    }
}

/// Teaches the batches one after another, and returns what is known of the learner afterwards.
fn teach_batches(
    alloc: Global,
    learner: &mut Learner,
    fresh: Known,
    batches: &[Taught],
    lengths: &[usize],
) -> Option<Known>
    requires { IsReadyIn fresh learner.old }
{
    let mut known = fresh;
    let now = Moment::new(1 << 32)?;
    for taught in batches {
        known = teach_next(alloc, learner, &known, taught, lengths, now)?;
    }
    Some(known)
}

fn stands_at(known: &Known, exchange: &Exchange) -> bool {
    let id = exchange.table.id;
    known.received().selected() == Some(id)
        && known.last_numbers().last(id) == Some(exchange.last)
        && are_held(known.slots(), exchange.held)
}

/// Makes the known state of a learner of the roster that has received nothing.
fn fresh(alloc: Global, roster: &Roster) -> Option<Known>
    ensures { IfSome result (λ known. known ≡ fresh_of roster.now) }
{
    Known::fresh(alloc, roster.copy(alloc).ok()?).ok()
}

/// Teaches the batches, and returns whether they leave what they are to leave.
fn teaches(
    alloc: Global,
    learner: &mut Learner,
    fresh: Known,
    exchange: &Exchange,
    lengths: &[usize],
) -> Option<bool>
    requires { IsReadyIn fresh learner.old }
{
    let known = teach_batches(alloc, learner, fresh, exchange.batches, lengths);
    let stands = stands_at(&known?, exchange);
    Some(stands && has_rows(learner, exchange.table.id, exchange.rows)?)
}

/// Returns whether the batches leave what they are to leave, if each lesson is cut into pieces of these lengths and the rest.
fn leaves(alloc: Global, exchange: &Exchange, lengths: &[usize]) -> Option<bool> {
    let roster = alone(alloc, &exchange.table)?;
    let _sound = roster.tables();
    let fresh = fresh(alloc, &roster)?;
    let mut learner = Learner::new(alloc, roster).ok()?;
    teaches(alloc, &mut learner, fresh, exchange, lengths)
}

/// Returns the index of the first exchange that leaves something else, and that of the way to cut its lessons.
pub fn first_failing(
    alloc: Global,
    exchanges: &[Exchange],
    cuts: &[&[usize]],
) -> Option<(usize, usize)> {
    for (place, exchange) in exchanges.iter().enumerate() {
        for (cut, lengths) in cuts.iter().enumerate() {
            if leaves(alloc, exchange, *lengths) != Some(true) {
                return Some((place, cut));
            }
        }
    }
    None
}
