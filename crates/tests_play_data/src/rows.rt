//! The rows that updates teach.

use crate::parts::{KeyParts, UpdateParts, is_called, update};
use std::alloc::Global;
use table_types::{Cell, Key, Moment, Row, Value};

/// An update of key 7 with a count and a rate.
static TAUGHT: UpdateParts = UpdateParts {
    table: 1,
    number: 9,
    life: None,
    key: KeyParts::Int(7),
    values: &[
        Value::Count(5),
        Value::Rate {
            elapsed: u32::MAX,
            current: 2,
            previous: 3,
        },
    ],
    name: b"s1",
};

/// The life that an update carries, if any, the table's expire and the moment, all in ms; when the row then ends, if it does, and
/// when its rate began.
pub struct Learned {
    pub life: Option<u32>,
    pub expire: u32,
    pub moment: u64,
    pub end: Option<u64>,
    pub start: u64,
}

fn ends_at(row: &Row, end: Option<u64>) -> bool {
    match row.ends() {
        Some(moment) => end == Some(moment.milliseconds()),
        None => end.is_none(),
    }
}

fn is_learned(row: &Row, learned: &Learned) -> bool {
    let rate = Cell::Rate {
        start: learned.start,
        current: 2,
        previous: 3,
    };
    row.number() == 9
        && ends_at(row, learned.end)
        && row.cells() == [Cell::Count(5), rate].as_slice()
        && is_called(row.name(), b"s1")
        && row.is_learned()
}

fn are_learned(alloc: Global, learned: &Learned) -> Option<bool> {
    let moment = Moment::new(learned.moment)?;
    let mut taught = update(alloc, &TAUGHT)?;
    taught.life = learned.life;
    let (key, row) = Row::learned(alloc, taught, learned.expire, moment).ok()?;
    Some(key.is_same(&Key::Int(7)) && is_learned(&row, learned))
}

/// Returns the index of the first row that is learned differently.
pub fn first_mislearned(alloc: Global, rows: &[Learned]) -> Option<usize> {
    for (place, learned) in rows.iter().enumerate() {
        if are_learned(alloc, learned) != Some(true) {
            return Some(place);
        }
    }
    None
}
