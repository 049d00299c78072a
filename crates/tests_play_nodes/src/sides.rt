//! A session with its tables.

use peers_devices::{Faults, Writes};
use peers_engine::{EngineError, Gate, Turned, Worker};
use std::alloc::Global;
use std::io::{Read, Write};
use std::sync::Wait;
use table_shards::{Seat, Shards};
use table_types::{Key, Moment, Row};

/// The number of the session in the tables of its side.
pub(crate) const SESSION: u32 = 1;

/// One side of a session: the session at work, its tables under their locks, and a seat for another thread, which is `None` while a
/// call uses it.
#[derive(Drop)]
pub(crate) struct Side {
    pub worker: Worker,
    pub shards: Shards,
    pub other: Option<Seat>,
}

impl Side {
    /// Takes a turn at the least moment.
    pub(crate) fn take_turn<H: Wait, R: Read + Faults, W: Write + Faults, G: Gate>(
        &mut self,
        rt: &H,
        alloc: Global,
        input: &mut R,
        output: &mut W,
        gate: &G,
    ) -> Result<Turned, EngineError> {
        let mut writes = Writes::none();
        let outcome = self.worker.turn(
            rt,
            alloc,
            input,
            output,
            &mut writes,
            gate,
            &self.shards,
            Moment::least(),
        )?;
        Ok(outcome.turned())
    }
}

/// Returns the rows of a table.
pub(crate) fn rows<H: Wait>(rt: &H, shards: &Shards, table: u64) -> Option<Vec<(Key, Row)>> {
    let locked = shards.cell(table)?.lock(rt);
    locked.cell().rows().ok()
}
