//! Turns of the function `turn`, which takes a seat and returns it.

use crate::sides::{SESSION, Side};
use crate::turns::{Exchange, Story};
use crate::waiting::Waiting;
use peers_devices::Counting;
use peers_engine::{AlwaysOpen, turn};
use std::alloc::Global;
use std::sync::Wait;
use table_shards::Seat;
use table_types::Moment;

/// Takes a turn of the side's session at the least moment, from a seat that it returns. Returns whether the turn goes as it says.
fn handed<H: Wait>(
    rt: &H,
    alloc: Global,
    side: &mut Side,
    seat: Seat,
    exchange: &Exchange,
) -> (Seat, bool) {
    let mut input = Waiting::new(exchange.comes);
    let mut output = Counting::new(Vec::new(alloc));
    let (seat, turned) = turn(
        rt,
        alloc,
        &mut side.worker.session,
        &mut input,
        &mut output,
        &AlwaysOpen,
        &side.shards,
        seat,
        SESSION,
        Moment::least(),
    );
    let goes_so = turned == exchange.ends && output.into_inner().as_slice() == exchange.sends;
    (seat, goes_so)
}

/// Takes turns from the side's other seat. Returns whether they go as they say.
fn are_handed<H: Wait>(rt: &H, alloc: Global, side: &mut Side, turns: &[Exchange]) -> Option<bool> {
    for exchange in turns {
        let taken = side.other.take()?;
        let (seat, goes_so) = handed(rt, alloc, side, taken, exchange);
        side.other = Some(seat);
        if !goes_so {
            return Some(false);
        }
    }
    Some(true)
}

/// Returns the number of receipts of `t1` that the seat has after the turns of a story, each taken by the function `turn`, or `None`
/// if they don't go as they say.
pub fn receipts_of_turns<H: Wait>(rt: &H, alloc: Global, story: &Story) -> Option<usize> {
    let mut side = story.tables.side(alloc, story.role)?;
    if are_handed(rt, alloc, &mut side, story.opening)?
        && are_handed(rt, alloc, &mut side, story.turns)?
    {
        Some(side.other.as_ref()?.receipts(1).len())
    } else {
        None
    }
}
