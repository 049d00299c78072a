//! Lessons message by message.

ghost use Rattle.std.specs.Prelude.{◌≡◌, ◌+◌, ◌++◌, true, false, [], List, None, Some, Ok, IfOk, IfErr, OnErr, length, option_map};
ghost use Rattle.table_types.specs.Batches.{IsBatchFor};
ghost use Rattle.peers_msg.specs.declared.message.Message.{Message};
ghost use Rattle.peers_msg.specs.Spelling.{spelled, stream_of};
ghost use Rattle.known_state.specs.Cost.{full, knowledge_of};
ghost use Rattle.known_state.specs.Lessons.{IsLessonFor};
ghost use Rattle.known_state.specs.Requests.{requests_of};
ghost use Rattle.known_state.specs.Shortest.{Shortest};
ghost use Rattle.price_checker.specs.Verdicts.{Says, bound_shown};
ghost use Rattle.price_checker.specs.declared.verdict.Verdict.TheVariants as verdicts;
ghost use Rattle.teach_writer.specs.Pieces.{IsNext, bytes_left, plan_left};
ghost use Rattle.teach_writer.specs.Planning.{IsLessonBy, IsPlanFor};
ghost use Rattle.teach_writer.specs.Sending.{GoesThrough};

use crate::held_names::names_to_plan;
use crate::lesson::TeachError;
use crate::planned::plan_names;
use crate::planned_name::PlannedName;
use crate::sending::{selected_id, send_next};
use known_state::{Known, Plan, Request};
use retention_flow::plan;
use std::alloc::Global;
use std::marker::Model;
use table_types::{Batch, Memory, SLOT_COUNT};

/// What is left of a lesson. It is written message by message, so the whole of its bytes never needs memory at once. Holds
/// the batch, which it shares, what the learner knows so far, the plan, and two bytes for each update.
#[derive(Debug, Drop)]
pub struct Pieces {
    alloc: Global,
    /// What the learner knows after the messages written so far.
    known: Known,
    /// The id of the table that is selected after them.
    selected: Option<u64>,
    batch: Batch,
    /// How the name of each update is sent.
    names: Vec<PlannedName>,
    /// The index of the next update to send.
    index: usize,
    /// Whether `next` returned `None`, or `append_next` false.
    ended: bool,
    /// The plan that the whole lesson follows.
    plan: Plan,
}

impl Model for Pieces {
    ghost use Rattle.std.specs.Prelude.{◌≡◌, true, [], drop};
    ghost use Rattle.teach_writer.specs.Pieces.{AreSendable, Left, left_of, selected_id};

    ghost Value = { Left };

    ghost view = { λ p. left_of p.known (drop p.index p.batch) (drop p.index p.names.items) p.ended p.plan };

    ghost invariant = { λ p. AreSendable p.known.roster p.known.state (drop p.index p.batch) (drop p.index p.names.items)
        × (p.ended ≡ true → drop p.index p.batch ≡ [])
        × (p.selected ≡ selected_id p.known.state.received) };
}

/// Returns the pieces of the lesson according to a plan of the batch's requests. Whatever the plan, it is a lesson. If
/// the plan is accepted, with 128 slots, then a request that it keeps is read, and any other name is written.
fn pieces_by(
    alloc: Global,
    known: &Known,
    batch: &Batch,
    requests: &[Request],
    plan: Plan,
) -> Result<Pieces, Memory>
    requires batch { IsBatchFor known.now.roster batch.now }
    requires requests { requests.now ≡ requests_of known.now.roster (knowledge_of known.now.state) batch.now }
    requires keep { length plan.keep ≡ length requests.now }
    ensures taught { IfOk result (λ pieces. IsLessonFor known.now batch.now (bytes_left pieces) pieces.known) }
    ensures order { IfOk result (λ pieces. IsPlanFor known.now batch.now plan →
        GoesThrough known.now batch.now plan.keep (bytes_left pieces) pieces.known.state) }
    ensures plan { IfOk result (λ pieces. plan_left pieces ≡ plan) }
    ensures begun { IfOk result (λ pieces. pieces.ended ≡ false) }
{
    let names = plan_names(alloc, known, batch, requests, plan.keep())?;
    Ok(Pieces {
        alloc,
        known: known.copy(alloc)?,
        selected: selected_id(known.received()),
        batch: batch.copy()?,
        names,
        index: 0,
        ended: false,
        plan,
    })
}

impl Pieces {
    /// Plans the lesson that teaches the batch to a learner in the known state, and returns it as pieces, one for each
    /// message. Joined they are the bytes of the one lesson by their plan, so those that `teach` returns by the same plan;
    /// the prices and the known state after it are those of `end`.
    ///
    /// The batch was made for the roster of the known state.
    pub fn new(alloc: Global, known: &Known, batch: &Batch) -> Result<Pieces, TeachError>
        requires batch { IsBatchFor known.now.roster batch.now }
        ensures taught { IfOk result (λ pieces. IsLessonFor known.now batch.now (bytes_left pieces) pieces.known) }
        ensures order { IfOk result (λ pieces. IsLessonBy (plan_left pieces) known.now batch.now (bytes_left pieces) pieces.known.state) }
        ensures shortest { IfOk result (λ pieces. (ms : List Message) × (bytes_left pieces ≡ stream_of ms) × Shortest known.now batch.now ms) }
        ensures tight { IfOk result (λ pieces. length (bytes_left pieces) + bound_shown known.now batch.now pieces.prices
            ≡ full known.now.roster known.now.state batch.now) }
        ensures said { IfOk result (λ pieces. Says known.now batch.now (bytes_left pieces) pieces.prices (verdicts.Shortest (length (bytes_left pieces)))) }
        ensures begun { IfOk result (λ pieces. pieces.ended ≡ false) }
    {
        // These calls serve their clauses alone: they say that the roster is sound and that there are 128 slots.
        let (_tables, _count) = (known.roster().tables(), known.slots().len());
        let requests = known.costs(alloc, batch)?;
        let held = names_to_plan(alloc, known.slots(), requests.as_slice())?;
        let plan = plan(alloc, SLOT_COUNT, held.as_slice(), requests.as_slice())?;
        let pieces = pieces_by(alloc, known, batch, requests.as_slice(), plan)?;
        Ok(pieces)
    }

    /// Returns for each update of the batch that has a name, in order, whether the lesson reads it from a slot.
    pub fn keep(&self) -> &[bool]
        ensures { result.now ≡ self.now.keep }
    {
        self.plan.keep()
    }

    /// Appends the bytes of the next message to `bytes`, and returns whether one was left. After `Memory` the same message is
    /// still the next one; then `bytes` may be anything.
    pub fn append_next(&mut self, bytes: &mut Vec<u8>) -> Result<bool, Memory>
        ensures more { IfOk result (λ more. more ≡ true → (m : Message) × (bytes.new.items ≡ bytes.old.items ++ spelled m)
            × IsNext self.old (Some (spelled m)) self.new) }
        ensures none { IfOk result (λ more. more ≡ false → (bytes.new.items ≡ bytes.old.items) × IsNext self.old None self.new) }
        ensures last { self.old.messages ≡ [] → result ≡ Ok false }
        ensures stays { OnErr result (self.new ≡ self.old) }
    {
        let more = send_next(
            self.alloc,
            &mut self.known,
            &mut self.selected,
            self.batch.updates(),
            self.names.as_slice(),
            &mut self.index,
            bytes,
        )?;
        if !more {
            self.ended = true;
        }
        Ok(more)
    }

    /// Returns the bytes of the next message, or `None` if all were returned; then it returns `None` again. After `Memory`
    /// nothing has changed.
    pub fn next(&mut self) -> Result<Option<Vec<u8>>, Memory>
        ensures next { IfOk result (λ piece. IsNext self.old (option_map (λ bytes. bytes.items) piece) self.new) }
        ensures last { self.old.messages ≡ [] → result ≡ Ok None }
        ensures stays { OnErr result (self.new ≡ self.old) }
    {
        let mut bytes = Vec::new(self.alloc);
        if !self.append_next(&mut bytes)? {
            return Ok(None);
        }
        Ok(Some(bytes))
    }

    /// Returns the lesson's prices and what the learner knows after the lesson, if `next` has returned `None` or
    /// `append_next` false, and the pieces as they are otherwise.
    pub fn end(self) -> Result<(Vec<u64>, Known), Pieces>
        ensures ended { IfOk result (λ end. (self.ended ≡ true) × (self.messages ≡ []) × (end.0.items ≡ self.prices) × (end.1 ≡ self.known)) }
        ensures early { IfErr result (λ pieces. (self.ended ≡ false) × (pieces ≡ self)) }
    {
        let (plan, known) = self.end_with_plan()?;
        let (_keep, prices) = plan.into_parts();
        Ok((prices, known))
    }

    /// Does the same as `end`, but returns the whole plan of the lesson.
    pub(crate) fn end_with_plan(self) -> Result<(Plan, Known), Pieces>
        ensures ended { IfOk result (λ end. (self.ended ≡ true) × (self.messages ≡ []) × (end.0 ≡ plan_left self) × (end.1 ≡ self.known)) }
        ensures early { IfErr result (λ pieces. (self.ended ≡ false) × (pieces ≡ self)) }
    {
        if !self.ended {
            return Err(self);
        }
        Ok((self.plan, self.known))
    }
}
