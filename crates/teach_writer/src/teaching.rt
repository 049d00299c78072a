//! Teaching a batch.

ghost use Rattle.std.specs.Prelude.{◌≡◌, ◌+◌, IfOk, List, length};
ghost use Rattle.table_types.specs.Batches.{IsBatchFor};
ghost use Rattle.peers_msg.specs.declared.message.Message.{Message};
ghost use Rattle.peers_msg.specs.Spelling.{stream_of};
ghost use Rattle.known_state.specs.Cost.{full};
ghost use Rattle.known_state.specs.Lessons.{IsLessonFor};
ghost use Rattle.known_state.specs.Shortest.{Shortest};
ghost use Rattle.price_checker.specs.Verdicts.{Says, bound_shown};
ghost use Rattle.price_checker.specs.declared.verdict.Verdict.TheVariants as verdicts;
ghost use Rattle.teach_writer.specs.Lessons.{plan_of};
ghost use Rattle.teach_writer.specs.Pieces.{bytes_left, ends_from, plan_left};
ghost use Rattle.teach_writer.specs.Planning.{IsLessonBy};

use crate::lesson::{Lesson, TeachError};
use crate::pieces::Pieces;
use known_state::Known;
use std::alloc::Global;
use table_types::{Batch, Items, Memory};

/// Joins the messages that are left of a lesson, and says where each ends.
pub fn joined(alloc: Global, mut pieces: Pieces) -> Result<Lesson, Memory>
    ensures parts { IfOk result (λ lesson. (lesson.bytes ≡ bytes_left pieces) × (plan_of lesson ≡ plan_left pieces) × (lesson.known ≡ pieces.known)) }
    ensures ends { IfOk result (λ lesson. (ms : List Message) → bytes_left pieces ≡ stream_of ms → lesson.ends ≡ ends_from 0 ms) }
{
    let mut bytes = Vec::new(alloc);
    let mut ends = Vec::new(alloc);
    while pieces.append_next(&mut bytes)? {
        ends.push(bytes.len())?;
    }
    let Ok((plan, known)) = pieces.end_with_plan() else {
        unreachable!();
    };
    let (keep, prices) = plan.into_parts();
    Ok(Lesson {
        bytes: Items::new(bytes),
        ends: Items::new(ends),
        keep: Items::new(keep),
        prices: Items::new(prices),
        known,
    })
}

/// Returns the lesson that teaches the batch to a learner in the known state. It goes through the batch in order. If an
/// update's table isn't selected, a message that selects it comes first: its definition if it isn't defined yet, and a
/// switch otherwise. An update is sent with its life if it has one, and with its number unless that is one more than its
/// table's last, modulo 2^32. Its name is read if the plan of the batch's requests keeps its request; otherwise it is
/// written to the lowest slot whose present name no later update reads there.
///
/// The batch was made for the roster of the known state. No legal stream that carries the same updates in the same
/// order has fewer bytes, and the lesson's prices, which are the plan's, prove it to any checker. By its plan this is
/// the only lesson, so its bytes are those of all pieces by that plan.
pub fn teach(alloc: Global, known: &Known, batch: &Batch) -> Result<Lesson, TeachError>
    requires batch { IsBatchFor known.now.roster batch.now }
    ensures taught { IfOk result (λ lesson. IsLessonFor known.now batch.now lesson.bytes lesson.known) }
    ensures ends { IfOk result (λ lesson. (ms : List Message) → lesson.bytes ≡ stream_of ms → lesson.ends ≡ ends_from 0 ms) }
    ensures order { IfOk result (λ lesson. IsLessonBy (plan_of lesson) known.now batch.now lesson.bytes lesson.known.state) }
    ensures shortest { IfOk result (λ lesson. (ms : List Message) × (lesson.bytes ≡ stream_of ms) × Shortest known.now batch.now ms) }
    ensures tight { IfOk result (λ lesson. length lesson.bytes + bound_shown known.now batch.now lesson.prices
        ≡ full known.now.roster known.now.state batch.now) }
    ensures said { IfOk result (λ lesson. Says known.now batch.now lesson.bytes lesson.prices (verdicts.Shortest (length lesson.bytes))) }
{
    let pieces = Pieces::new(alloc, known, batch)?;
    let lesson = joined(alloc, pieces)?;
    Ok(lesson)
}
