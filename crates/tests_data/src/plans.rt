//! Plans: which are accepted and at which prices, and which requests `plan` and `plan_by_cycles` keep.

use tests_play_data::plans::{Case, Story, first_failing};

static STORIES: [Story; 4] = [
    // `A`, `B`, `C`, `B` and `A`, with two slots that are empty at the start.
    Story {
        case: Case {
            slots: 2,
            held: b"",
            asked: &[(b'A', 30), (b'B', 22), (b'C', 22), (b'B', 22), (b'A', 30)],
        },
        plans: &[
            (5, &[5], &[0, 0, 10, 0, 0], true),
            (5, &[5], &[0, 0, 2, 0, 0], true),
            (5, &[5], &[0, 0, 1, 0, 0], false),
            (5, &[4], &[0, 0, 10, 0, 0], false),
            (5, &[4], &[0, 0, 1, 0, 0], false),
            (5, &[4, 5], &[0, 0, 0, 0, 0], false),
            (4, &[], &[0, 0, 10, 0, 0], false),
            (5, &[5], &[0, 0, 10, 0], false),
            (5, &[5], &[0, 0, 4_294_967_296, 0, 0], false),
        ],
        kept: &[5],
    },
    // `A` twice, `B` and `A`, with one empty slot.
    Story {
        case: Case {
            slots: 1,
            held: b"",
            asked: &[(b'A', 30), (b'A', 30), (b'B', 30), (b'A', 30)],
        },
        plans: &[
            (4, &[2], &[0, 0, 10, 0], true),
            (4, &[2], &[0, 0, 9, 0], false),
            (4, &[2], &[0, 0, 4_294_967_296, 0], true),
            (4, &[2], &[0, 0, 4_294_967_297, 0], false),
            (4, &[1, 2], &[0, 0, 10, 0], false),
            (4, &[2, 4], &[0, 0, 10, 0], false),
        ],
        kept: &[2],
    },
    // `B` and `A`, with two slots, one of which holds `A`.
    Story {
        case: Case {
            slots: 2,
            held: b"A",
            asked: &[(b'B', 30), (b'A', 30)],
        },
        plans: &[(2, &[2], &[0, 0], true), (2, &[], &[0, 0], false)],
        kept: &[2],
    },
    // The same with one slot, which holds `A`.
    Story {
        case: Case {
            slots: 1,
            held: b"A",
            asked: &[(b'B', 30), (b'A', 30)],
        },
        plans: &[
            (2, &[2], &[10, 0], false),
            (2, &[], &[10, 0], true),
            (2, &[], &[9, 0], false),
        ],
        kept: &[],
    },
];

#[test]
fn plans(rt: HostRuntime) {
    assert_eq!(rt; first_failing(rt.alloc(), &STORIES), None);
}
