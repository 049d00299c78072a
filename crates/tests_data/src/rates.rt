//! The periods of a rate.

use table_types::Cell;
use tests_play_data::rates::{RATE, START, Turned, first_failing};

static MOMENTS: [Turned; 5] = [
    (0, RATE, 2),
    (9_999, RATE, 2),
    (
        10_000,
        Cell::Rate {
            start: START + 10_000,
            current: 0,
            previous: 2,
        },
        2,
    ),
    (
        15_000,
        Cell::Rate {
            start: START + 10_000,
            current: 0,
            previous: 2,
        },
        1,
    ),
    (
        20_000,
        Cell::Rate {
            start: START + 20_000,
            current: 0,
            previous: 0,
        },
        0,
    ),
];

#[test]
fn periods_turn(rt: HostRuntime) {
    assert_eq!(rt; first_failing(&MOMENTS), None);
}
