//! Numbers of updates, and their keys.

use tests_play_tables::numbers::{Call, Story, first_failing};
use update_numbers::NumberError;

static GIVEN: [Story; 3] = [
    // A key that is given another number drops its first.
    (
        1,
        &[
            Call::Give(1, Ok(1)),
            Call::Give(2, Ok(2)),
            Call::Give(1, Ok(3)),
            Call::Above(0, 512, &[(2, 2), (3, 1)]),
            Call::Above(2, 512, &[(3, 1)]),
            Call::Above(0, 1, &[(2, 2)]),
            Call::DropKey(9, false),
        ],
    ),
    // A key is dropped.
    (
        7,
        &[
            Call::Give(1, Ok(7)),
            Call::Give(2, Ok(8)),
            Call::DropKey(1, true),
            Call::Above(0, 512, &[(8, 2)]),
            Call::Above(8, 512, &[]),
        ],
    ),
    // The last number is spent.
    (
        u32::MAX,
        &[
            Call::Give(1, Ok(u32::MAX)),
            Call::Give(1, Err(NumberError::Spent)),
            Call::Above(0, 512, &[(u32::MAX, 1)]),
        ],
    ),
];

#[test]
fn numbers_given(rt: HostRuntime) {
    assert_eq!(rt; first_failing(rt.alloc(), &GIVEN), None);
}
