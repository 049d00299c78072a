//! What each thread of a round does, and the gate at which it stops when it has started.

ghost use Rattle.std.specs.Prelude.{◌≡◌, ◌<◌, ◌≤◌, [], IfOk, IsTrue};
ghost use Rattle.table_shards.specs.Receipts.{receipts_of};
ghost use Rattle.node_commands.specs.Tracks.{HasDoneItsPart};

use crate::rounds::RoundSize;
use crate::rounds::table::TABLE;
use crate::rounds::tracking::track_all;
use crate::rounds::worker::work;
use known_state::Known;
use peers_engine::AlwaysOpen;
use std::alloc::Global;
use std::sync::Wait;
use table_shards::{Seat, Shards};
use text_commands::Ending;

/// A gate at which each thread of a round stops once it has started, before its first call of the table.
pub trait StartGate {
    /// Stops the thread that calls it; it goes on once the call returns.
    fn at_start<R: Wait>(&self, rt: &R);
}

impl StartGate for AlwaysOpen {
    fn at_start<R: Wait>(&self, _: &R) {}
}

/// Returns whether the seat is a thread's, and has no receipts of the table yet.
fn may_track(asked: RoundSize, seat: &Seat) -> bool
    ensures { IsTrue result → (seat.now.number ≤ asked.threads) × (receipts_of 1 seat.now ≡ []) }
{
    seat.number() <= asked.threads && seat.receipts(TABLE).is_empty()
}

/// Returns whether the seat is no thread's, and has no receipts of the table yet.
fn may_work(asked: RoundSize, seat: &Seat) -> bool
    ensures { IsTrue result → (asked.threads < seat.now.number) × (receipts_of 1 seat.now ≡ []) }
{
    seat.number() > asked.threads && seat.receipts(TABLE).is_empty()
}

/// Takes the last of `seats`, from which the worker's work can be done. Fails with `Device` if there is none, or it is a thread's, or
/// was used.
pub(crate) fn last_seat(seats: &mut Vec<Seat>, asked: RoundSize) -> Result<Seat, Ending>
    ensures { IfOk result (λ seat. (asked.threads < seat.number) × (receipts_of 1 seat ≡ [])) }
{
    let Some(seat) = seats.pop() else {
        return Err(Ending::Device);
    };
    if may_work(asked, &seat) {
        Ok(seat)
    } else {
        Err(Ending::Device)
    }
}

/// Stops at the gate, changes the key that is the seat's number, as `track_all` does, and returns the seat. Fails with `Device`
/// unless the seat is a thread's, and unused.
#[tactic(auto, using(crate::proofs::TrackLaws::tracked_part))]
pub(crate) fn track_from_gate<R: Wait, G: StartGate>(
    rt: &R,
    gate: &G,
    shards: &Shards,
    mut seat: Seat,
    asked: RoundSize,
) -> Result<Seat, Ending>
    ensures { IfOk result (HasDoneItsPart asked.threads asked.tracks) }
{
    gate.at_start(rt);
    if !may_track(asked, &seat) {
        return Err(Ending::Device);
    }
    let key = seat.number();
    track_all(rt, shards, &mut seat, key, asked.tracks)?;
    Ok(seat)
}

/// Stops at the gate, calls `work`, which stops at no gate, and returns the seat. Fails with `Device` if the seat is a thread's, or
/// was used.
#[tactic(auto, using(crate::proofs::TrackLaws::worked_part))]
pub(crate) fn work_from_gate<R: Wait, G: StartGate>(
    rt: &R,
    alloc: Global,
    gate: &G,
    shards: &Shards,
    mut seat: Seat,
    known: &mut Known,
    asked: RoundSize,
) -> Result<Seat, Ending>
    ensures { IfOk result (HasDoneItsPart asked.threads asked.tracks) }
{
    gate.at_start(rt);
    if !may_work(asked, &seat) {
        return Err(Ending::Device);
    }
    work(rt, alloc, &AlwaysOpen, shards, &mut seat, known)?;
    Ok(seat)
}
