//! Batches of updates of `t1`, and what they are refused for.

use crate::parts::{T1, UpdateParts, definition, updates};
use std::alloc::Global;
use table_types::{Batch, BatchError, TableDef, Update};

/// Updates, how often the list of them is repeated, and what a batch is refused for, if it is.
pub type Parts = (&'static [UpdateParts], u32, Option<BatchError>);

fn repeated(alloc: Global, given: &[UpdateParts], times: u32) -> Option<Vec<Update>> {
    let mut repeated = Vec::new(alloc);
    for _ in 0..times {
        let mut more = updates(alloc, given)?;
        repeated.append(&mut more).ok()?;
    }
    Some(repeated)
}

/// Returns whether the updates are refused for their fault as a batch of the table, or accepted if they have none.
fn is_right_for_table(alloc: Global, table: &TableDef, parts: &Parts) -> Option<bool> {
    let (given, times, fault) = parts;
    let batch = Batch::of_table(alloc, table, repeated(alloc, *given, *times)?);
    Some(batch.err() == *fault)
}

fn is_right(alloc: Global, parts: &Parts) -> Option<bool> {
    is_right_for_table(alloc, &definition(alloc, &T1)?, parts)
}

/// Returns the index of the first batch that is refused for another fault, or accepted though it has one.
pub fn first_failing(alloc: Global, all: &[Parts]) -> Option<usize> {
    for (place, parts) in all.iter().enumerate() {
        if is_right(alloc, parts) != Some(true) {
            return Some(place);
        }
    }
    None
}
