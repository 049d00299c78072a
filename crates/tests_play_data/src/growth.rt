//! Calls for which memory may run out: a plan and a lesson for 129 names in turn, twice, a plan that adds slots, and a learner. Each
//! function may be run with any one allocation failing, or with none.

ghost use Rattle.table_types.specs.Batches.{IsBatchFor};

use crate::cyclic_names::prepared;
use crate::learners::has_rows;
use crate::outcomes::{Outcome, is_out};
use crate::parts::{ST, alone, text_key};
use crate::plans::{Case, Requested, asked, is_accepted, planned, saved_by};
use known_state::{Known, Plan};
use learner::{Fault, Learner};
use peers_msg::Decoder;
use retention_flow::PlanError;
use std::alloc::Global;
use table_types::{Batch, Key, Moment};
use teach_writer::{TeachError, teach};

/// Teaches the batch, and returns whether the lesson has 3,508 bytes; `None` if memory runs out.
fn is_taught(alloc: Global, known: &Known, batch: &Batch) -> Option<bool>
    requires { IsBatchFor known.now.roster batch.now }
{
    match teach(alloc, known, batch) {
        Ok(lesson) => Some(lesson.bytes.len() == 3_508),
        Err(TeachError::Memory) => None,
    }
}

fn teaches(alloc: Global) -> Option<Outcome> {
    let (known, batch) = prepared(alloc)?;
    Some(match is_taught(alloc, &known, &batch) {
        Some(right) => Outcome::of(right),
        None => Outcome::refused(is_taught(alloc, &known, &batch) == Some(true)),
    })
}

/// Makes the requests of the batch, with no name held.
fn requested(alloc: Global) -> Option<Requested> {
    let (known, batch) = prepared(alloc)?;
    let requests = known.costs(alloc, &batch).ok()?;
    Some(Requested {
        held: Vec::new(alloc),
        requests,
    })
}

/// Plans, and returns whether what the plan keeps saves this many bytes; `None` if memory runs out.
fn is_planned(alloc: Global, slots: usize, requested: &Requested, saved: u64) -> Option<bool> {
    match planned(alloc, slots, requested) {
        Ok(plan) => Some(saved_by(&plan, requested) == saved),
        Err(PlanError::Memory) => None,
    }
}

/// Plans, a second time if memory runs out for the plan. What it keeps should save this many bytes.
fn plans(alloc: Global, slots: usize, requested: &Requested, saved: u64) -> Outcome {
    match is_planned(alloc, slots, requested, saved) {
        Some(right) => Outcome::of(right),
        None => Outcome::refused(is_planned(alloc, slots, requested, saved) == Some(true)),
    }
}

/// Requests for six names in turn, twice, with three slots. To keep all links takes six slots, three too many, so `plan` adds slots. Two
/// links may be kept over each place. The first and the last have one of the two places in the middle inside, and the others both. So
/// one of the others is kept beside these two, the fourth: 9 + 7 + 5 bytes. Two of the others alone save less.
static SIX_NAMES_TWICE: Case = Case {
    slots: 3,
    held: b"",
    asked: &[
        (b'A', 29),
        (b'B', 24),
        (b'C', 23),
        (b'D', 27),
        (b'E', 26),
        (b'F', 25),
        (b'A', 29),
        (b'B', 24),
        (b'C', 23),
        (b'D', 27),
        (b'E', 26),
        (b'F', 25),
    ],
};

/// `st`'s definition, a row `a` that writes `s1` to slot 1, and a row `b` that reads it.
const ONE_NAME_TWICE: &[u8] =
    b"\x0A\x82\x0D\x03\x02st\x06\x21\xF0\xF1\xFE\x00\xF0\xC4\x0D\x0A\x85\x0F\x00\x00\x00\x01\x00\x00\x75\x30\x01a\x04\x01\x02s1\x0A\x86\x08\x00\x00\x75\x30\x01b\x01\x01";

/// Its rows: their keys and numbers.
const ROWS: &[(u8, u32)] = &[(b'a', 1), (b'b', 2)];

/// Returns whether the learner has the first `count` of the rows and no other. It asks a second time if memory runs out for the answer.
fn has_first(learner: &Learner, count: usize) -> bool {
    let rows = &ROWS[..count.min(ROWS.len())];
    match has_rows(learner, 3, rows) {
        Some(has) => has,
        None => has_rows(learner, 3, rows) == Some(true),
    }
}

/// Returns whether the learner is closed, and has the rows of the first whole messages, none in part.
fn is_closed(learner: &mut Learner) -> bool {
    learner.feed(b"\x00\x04", Moment::least()) == Err(Fault::Closed)
        && (has_first(learner, 0) || has_first(learner, 1) || has_first(learner, 2))
}

fn fresh(alloc: Global) -> Option<Learner> {
    Learner::new(alloc, alone(alloc, &ST)?).ok()
}

fn feeds(alloc: Global) -> Option<Outcome> {
    let mut learner = fresh(alloc)?;
    Some(match learner.feed(ONE_NAME_TWICE, Moment::least()) {
        Ok(count) => Outcome::of(count == 2 && has_first(&learner, 2)),
        Err(Fault::Memory) => Outcome::refused(is_closed(&mut learner)),
        Err(_) => Outcome::Wrong,
    })
}

/// A call of this module.
#[derive(Clone, Copy, Debug, PartialEq, Eq)]
pub enum Call {
    /// Teaches 258 updates that name 129 servers in turn, twice.
    Teach,
    /// Plans for them, and takes a slot away.
    Plan,
    /// Plans for six names in turn, twice, and adds slots.
    PlanByAdding,
    /// Feeds a learner two updates that name one server.
    Feed,
}

fn made(alloc: Global, call: Call) -> Option<Outcome> {
    match call {
        Call::Teach => teaches(alloc),
        Call::Plan => Some(plans(alloc, 128, &requested(alloc)?, 640)),
        Call::PlanByAdding => {
            let asked = asked(alloc, &SIX_NAMES_TWICE)?;
            Some(plans(alloc, SIX_NAMES_TWICE.slots, &asked, 21))
        }
        Call::Feed => feeds(alloc),
    }
}

/// Returns how the call went, prepared a second time if memory ran out before it.
pub fn outcome(alloc: Global, call: Call) -> Outcome {
    match made(alloc, call) {
        Some(outcome) => outcome,
        None => made(alloc, call).unwrap_or(Outcome::Unready),
    }
}

/// What calls that don't allocate need: a learner with both rows, the key of the first, a new decoder and one of which a message
/// waits, and two requests for a name with a plan.
#[derive(Drop)]
struct Ready {
    learner: Learner,
    key: Key,
    new: Decoder,
    begun: Decoder,
    requested: Requested,
    plan: Plan,
}

/// Two requests for `A`, with one slot.
static TWICE: Case = Case {
    slots: 1,
    held: b"",
    asked: &[(b'A', 30), (b'A', 30)],
};

fn fed(alloc: Global) -> Option<Learner> {
    let mut learner = fresh(alloc)?;
    match learner.feed(ONE_NAME_TWICE, Moment::least()) {
        Ok(_) => Some(learner),
        Err(_) => None,
    }
}

/// Makes a decoder of which a message waits.
fn begun(alloc: Global) -> Option<Decoder> {
    let mut decoder = Decoder::new(alloc);
    decoder.feed(ONE_NAME_TWICE).ok()?;
    Some(decoder)
}

/// Makes the requests of `TWICE`, and a plan for them.
fn requested_and_planned(alloc: Global) -> Option<(Requested, Plan)> {
    let requested = asked(alloc, &TWICE)?;
    let plan = planned(alloc, TWICE.slots, &requested).ok()?;
    Some((requested, plan))
}

fn make_ready(alloc: Global) -> Option<Ready> {
    let learned = fed(alloc).zip(text_key(alloc, b"a"));
    let waiting = begun(alloc).zip(requested_and_planned(alloc));
    let ((learner, key), (begun, (requested, plan))) = learned.zip(waiting)?;
    Some(Ready {
        learner,
        key,
        new: Decoder::new(alloc),
        begun,
        requested,
        plan,
    })
}

/// Returns whether `Learner::row`, `Decoder::feed` of nothing and `check_plan` return what they should.
fn answers(ready: &mut Ready) -> bool {
    ready.learner.row(3, &ready.key).is_some()
        && ready.new.feed(&[]) == Ok(())
        && ready.begun.feed(&[]) == Ok(())
        && is_accepted(TWICE.slots, &ready.requested, &ready.plan) == Some(true)
}

fn needs_none(alloc: Global) -> Option<Outcome> {
    let mut ready = make_ready(alloc)?;
    let is_out = is_out(alloc);
    let right = answers(&mut ready);
    Some(if is_out {
        Outcome::refused(right)
    } else {
        Outcome::of(right)
    })
}

/// Returns how calls went that don't allocate; `Refused` if there was no memory meanwhile, and they returned what they should. They
/// count as made if there is no memory to prepare them.
pub fn outcome_without_memory(alloc: Global) -> Outcome {
    match needs_none(alloc) {
        Some(outcome) => outcome,
        None => {
            if is_out(alloc) {
                Outcome::Made
            } else {
                needs_none(alloc).unwrap_or(Outcome::Unready)
            }
        }
    }
}
