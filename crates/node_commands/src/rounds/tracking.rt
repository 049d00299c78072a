//! The threads of a round that change the table.

ghost use Rattle.std.specs.Prelude.{OnOk};
ghost use Rattle.node_commands.specs.Tracks.{GainsTracks};

use crate::locks::{lock, refused};
use crate::rounds::table::TABLE;
use std::sync::Wait;
use table_cell::TrackError;
use table_shards::held::lent;
use table_shards::{Seat, Shards};
use table_types::{Change, DataType, Key, Moment};
use text_commands::Ending;

/// Adds 1 to gpc0 of `key` at the least moment, while it holds the table's lock.
#[tactic(auto, using(crate::proofs::TrackLaws::one_tracked))]
fn track_once<R: Wait>(rt: &R, shards: &Shards, seat: &mut Seat, key: u32) -> Result<(), Ending>
    ensures { OnOk result (GainsTracks key 1 seat.old seat.new) }
{
    let change = Change::Add(DataType::Gpc0, 1);
    let mut locked = lock(rt, shards, TABLE)?;
    let now = Moment::least();
    match lent::track(&mut locked, seat, TABLE, Key::Int(key), change, now) {
        Ok(()) => Ok(()),
        Err(error) => Err(refused(error, TrackError::Memory)),
    }
}

/// Adds 1 to gpc0 of `key` in table 1 of `shards`, `tracks` times, and takes the table's lock anew each time. Stops at
/// the first change that is refused, and fails with `Memory` if memory ran out, and with `Device` otherwise. The seat keeps the
/// receipts of the changes before it.
#[tactic(auto, using(crate::proofs::TrackLaws::none_tracked, crate::proofs::TrackLaws::one_more_tracked))]
pub fn track_all<R: Wait>(
    rt: &R,
    shards: &Shards,
    seat: &mut Seat,
    key: u32,
    tracks: u32,
) -> Result<(), Ending>
    ensures { OnOk result (GainsTracks key tracks seat.old seat.new) }
{
    for done in 0..tracks {
        track_once(rt, shards, seat, key)?;
    }
    Ok(())
}
