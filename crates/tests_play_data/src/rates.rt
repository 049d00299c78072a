//! The periods of a rate.

use table_types::{Cell, Moment, read_rate, rotate};

/// When the rate's current period begins, in ms.
pub const START: u64 = 1 << 32;

const PERIOD: u32 = 10_000;

/// A rate whose current count is 2.
pub const RATE: Cell = Cell::Rate {
    start: START,
    current: 2,
    previous: 0,
};

/// Ms after the rate began, what it is then, and what is read of it.
pub type Turned = (u64, Cell, u64);

fn is_turned(later: u64, cell: Cell, read: u64) -> Option<bool> {
    let moment = Moment::new(START.checked_add(later)?)?;
    Some(rotate(RATE, PERIOD, moment) == cell && read_rate(RATE, PERIOD, moment) == read)
}

/// Returns the index of the first moment at which `RATE`, with periods of 10,000 ms, is another cell, or reads as another number.
pub fn first_failing(moments: &[Turned]) -> Option<usize> {
    for (place, (later, cell, read)) in moments.iter().enumerate() {
        if is_turned(*later, *cell, *read) != Some(true) {
            return Some(place);
        }
    }
    None
}
