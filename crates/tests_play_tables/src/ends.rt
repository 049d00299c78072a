//! Moments, and rows that end at them.

use std::alloc::Global;
use table_types::{Cell, Memory, Moment, Row, ShortList};

/// Returns the moment `later` ms after the least one.
pub(crate) fn moment(later: u32) -> Option<Moment> {
    Moment::new((1 << 32) + u64::from(later))
}

/// Makes a row that ends `end` ms after the least moment, if it ends. Its count is its number.
pub(crate) fn row(alloc: Global, number: u32, end: Option<u32>) -> Result<Row, Memory> {
    let cells = ShortList::from_slice(alloc, &[Cell::Count(u64::from(number))])?;
    let ends = match end {
        Some(end) => moment(end),
        None => None,
    };
    Ok(Row::learned_with(number, ends, cells, None))
}
