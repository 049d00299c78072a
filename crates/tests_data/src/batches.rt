//! Batches of one table, and what they are refused for.

use table_types::{BatchError, Value};
use tests_play_data::batches::{Parts, first_failing};
use tests_play_data::parts::{KeyParts, UpdateParts};

/// An update of key 7 with the longest life that `t1` allows.
const FITS: UpdateParts = UpdateParts {
    table: 1,
    number: 1,
    life: Some(30_000),
    key: KeyParts::Int(7),
    values: &[Value::Count(5)],
    name: b"",
};

const SHORTEST: UpdateParts = UpdateParts {
    table: 1,
    number: 2,
    life: Some(1),
    key: KeyParts::Int(7),
    values: &[Value::Count(5)],
    name: b"",
};

const DEAD: UpdateParts = UpdateParts {
    table: 1,
    number: 1,
    life: Some(0),
    key: KeyParts::Int(7),
    values: &[Value::Count(5)],
    name: b"",
};

const TOO_LONG: UpdateParts = UpdateParts {
    table: 1,
    number: 1,
    life: Some(30_001),
    key: KeyParts::Int(7),
    values: &[Value::Count(5)],
    name: b"",
};

const UNTIMED: UpdateParts = UpdateParts {
    table: 1,
    number: 1,
    life: None,
    key: KeyParts::Int(7),
    values: &[Value::Count(5)],
    name: b"",
};

const NOWHERE: UpdateParts = UpdateParts {
    table: 9,
    number: 1,
    life: Some(30_000),
    key: KeyParts::Int(7),
    values: &[Value::Count(5)],
    name: b"",
};

static BATCHES: [Parts; 8] = [
    (&[], 1, None),
    (&[SHORTEST, FITS], 1, None),
    (&[UNTIMED], 1, None),
    (&[NOWHERE], 1, Some(BatchError::NoTable(0))),
    (&[DEAD], 1, Some(BatchError::Misfit(0))),
    (&[FITS, TOO_LONG, NOWHERE], 1, Some(BatchError::Misfit(1))),
    (&[FITS], 4_096, None),
    (&[FITS], 4_097, Some(BatchError::TooMany)),
];

#[test]
fn batches_are_refused(rt: HostRuntime) {
    assert_eq!(rt; first_failing(rt.alloc(), &BATCHES), None);
}
