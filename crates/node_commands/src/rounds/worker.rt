//! The worker of a round's session. It plans a lesson for each change, but writes none: the round has no other node.

ghost use Rattle.std.specs.Prelude.{◌≡◌, OnOk};
ghost use Rattle.node_commands.specs.Tracks.{GainsWork};

use crate::rounds::table::{SESSION, TABLE};
use known_state::Known;
use peers_engine::{Context, EngineError, Gate, Stage, acknowledge, copy_batch, plan, settle};
use session_core::Event;
use std::alloc::Global;
use std::sync::Wait;
use table_cell::TableCell;
use table_shards::{Seat, Shards};
use table_types::{Batch, CopyKind, Moment};
use teach_writer::joined;
use text_commands::Ending;

/// Returns how a round ends if a step of its worker fails with `error`: with `Memory` if memory ran out, and with `Device` otherwise.
fn stopped(error: EngineError) -> Ending {
    match error {
        EngineError::Memory => Ending::Memory,
        _ => Ending::Device,
    }
}

/// Copies the updates that session 1 hasn't been taught yet, and stops at the gate. Returns `None` if there are none.
#[tactic(auto, using(crate::proofs::TrackLaws::copied_worked))]
fn copy<R: Wait, G: Gate>(
    context: &Context<'_, R, G>,
    seat: &mut Seat,
) -> Result<Option<Batch>, Ending>
    requires { context.now.number ≡ 1 }
    ensures { OnOk result (GainsWork seat.old seat.new) }
{
    match copy_batch(context, seat, TABLE, CopyKind::Push, false) {
        Ok(Event::Copied(_, batch)) => Ok(Some(batch)),
        Ok(Event::Nothing(_)) => Ok(None),
        Ok(_) => Err(Ending::Device),
        Err(error) => Err(stopped(error)),
    }
}

/// Acknowledges the last number of the batch.
#[tactic(auto, using(crate::proofs::TrackLaws::taken_worked))]
fn acknowledge_last<R: Wait, G: Gate>(
    context: &Context<'_, R, G>,
    seat: &mut Seat,
    batch: &Batch,
) -> Result<(), Ending>
    requires { context.now.number ≡ 1 }
    ensures { OnOk result (GainsWork seat.old seat.new) }
{
    let Some(last) = batch.updates().last() else {
        return Err(Ending::Device);
    };
    match acknowledge(context, seat, TABLE, last.number) {
        Ok(Event::Settled(_, _)) => Ok(()),
        Ok(_) => Err(Ending::Device),
        Err(error) => Err(stopped(error)),
    }
}

/// Plans a lesson for the batch, stops at the gate, and settles and acknowledges the batch.
#[tactic(auto, using(crate::proofs::TrackLaws::settled_worked, crate::proofs::TrackLaws::more_worked))]
fn teach_batch<R: Wait, G: Gate>(
    context: &Context<'_, R, G>,
    seat: &mut Seat,
    known: &mut Known,
    batch: &Batch,
) -> Result<(), Ending>
    requires { context.now.number ≡ 1 }
    ensures { OnOk result (GainsWork seat.old seat.new) }
{
    let pieces = plan(context, known, batch).map_err(stopped)?;
    let lesson = joined(context.alloc, pieces)?;
    *known = lesson.known;
    context.gate.at(context.rt, Stage::Planned);
    settle(context, seat, batch).map_err(stopped)?;
    acknowledge_last(context, seat, batch)
}

/// Copies, plans, settles and acknowledges what session 1 of table 1 of `shards` hasn't been taught yet, until there is nothing to
/// copy. `known` is the state of a learner that has received all lessons so far. Writes nothing. Holds the lock for one call of the
/// table at a time, and no lock while it plans or is at the gate. Stops at the first call that is refused: with `Memory` if memory
/// ran out, and with `Device` otherwise.
///
/// Each copy is an event of the table, so `work` makes at most as many as a history holds.
#[tactic(auto, using(crate::proofs::TrackLaws::none_worked, crate::proofs::TrackLaws::more_worked))]
pub fn work<R: Wait, G: Gate>(
    rt: &R,
    alloc: Global,
    gate: &G,
    shards: &Shards,
    seat: &mut Seat,
    known: &mut Known,
) -> Result<(), Ending>
    ensures { OnOk result (GainsWork seat.old seat.new) }
{
    let context = Context {
        rt,
        alloc,
        gate,
        shards,
        number: SESSION,
        moment: Moment::least(),
        failures: 0,
    };
    for _ in 0..TableCell::MOST_EVENTS {
        let Some(batch) = copy(&context, seat)? else {
            return Ok(());
        };
        teach_batch(&context, seat, known, &batch)?;
    }
    Err(Ending::Device)
}
