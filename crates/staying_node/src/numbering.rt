//! Since when the numbers of the tables are assigned, for the threads that it concerns.

use crate::node::Node;
use crate::tables::lock;
use node_core::NumberTimes;
use std::alloc::{AllocError, Global};
use std::sync::{Mutex, Wait};
use std::time::Clock;

/// Since when the numbers of each table are assigned, by the table's index.
#[derive(Drop)]
pub(crate) struct Numbering {
    times: Mutex<Vec<NumberTimes>>,
}

impl Numbering {
    /// Returns what is known of `tables` tables before the first look at their numbers.
    pub(crate) fn new(alloc: Global, tables: usize) -> Result<Numbering, AllocError> {
        let mut times = Vec::with_capacity(alloc, tables)?;
        for _ in 0..tables {
            times.push(NumberTimes::new(alloc))?;
        }
        Ok(Numbering {
            times: Mutex::new(times),
        })
    }

    /// Notes the next number of a table. If memory runs out, it is forgotten.
    fn note<R: Wait>(&self, rt: &R, table: usize, now: u64, next: u64) {
        let mut times = self.times.lock(rt);
        if let Some(times) = times.get_mut(table) {
            let _noted = times.note(now, next);
        }
    }

    /// Returns since when a number of a table is assigned at least, in milliseconds since the node began; `None` if it hasn't been
    /// looked at since.
    pub(crate) fn since<R: Wait>(&self, rt: &R, table: usize, number: u32) -> Option<u64> {
        let times = self.times.lock(rt);
        times.get(table)?.since(number)
    }
}

/// Looks at the next number of each table.
pub(crate) fn look_at_numbers<R: Wait + Clock>(rt: &R, node: &Node) {
    for (index, table) in node.roster.tables().iter().enumerate() {
        if let Some(locked) = lock(rt, node, table.id()) {
            let next = locked.cell().next_number();
            drop(locked);
            node.numbering
                .note(rt, index, node.clock.milliseconds(rt), next);
        }
    }
}
