//! Calls for which memory may run out: such a call changes nothing, and returns what it should when it is made again. Each test may
//! be run with any one allocation failing, and the last with all failing from any one on; each prints for which call memory ran out.

use tests_play_tables::growth::{
    Call, Shared, Story, first_failing, outcome, outcome_without_memory,
};

const OPEN: Call = Call::Open(1);

const TRACK: Call = Call::Track(7, 5, 1, 5);

/// The letters `a` and `b`, keys of the table with string keys, and a change that names the server in the row of `a`.
const A: u32 = 0x61;

const B: u32 = 0x62;

const NAME_A: Call = Call::Track(A, 0, 1, 0);

static STORIES: [Story; 16] = [
    Story {
        name: "track",
        is_wide: false,
        is_narrow: false,
        before: &[OPEN],
        rows: &[],
        call: TRACK,
        rows_after: &[(7, 5)],
    },
    Story {
        name: "track of a row that is there",
        is_wide: false,
        is_narrow: false,
        before: &[OPEN, TRACK],
        rows: &[(7, 5)],
        call: Call::Track(7, 2, 2, 7),
        rows_after: &[(7, 7)],
    },
    Story {
        name: "track in a full table",
        is_wide: false,
        is_narrow: true,
        before: &[OPEN, TRACK],
        rows: &[(7, 5)],
        call: Call::Track(8, 2, 2, 2),
        rows_after: &[(8, 2)],
    },
    Story {
        name: "learn",
        is_wide: false,
        is_narrow: false,
        before: &[OPEN, Call::Track(7, 4, 1, 4)],
        rows: &[(7, 4)],
        call: Call::Learn(2),
        rows_after: &[(7, 5)],
    },
    Story {
        name: "copy",
        is_wide: false,
        is_narrow: false,
        before: &[OPEN, TRACK],
        rows: &[(7, 5)],
        call: Call::Copy(1, 5),
        rows_after: &[(7, 5)],
    },
    Story {
        name: "ack",
        is_wide: false,
        is_narrow: false,
        before: &[OPEN, TRACK, Call::Copy(1, 5)],
        rows: &[(7, 5)],
        call: Call::Ack(1),
        rows_after: &[(7, 5)],
    },
    Story {
        name: "open",
        is_wide: false,
        is_narrow: false,
        before: &[OPEN, TRACK],
        rows: &[(7, 5)],
        call: Call::Open(2),
        rows_after: &[(7, 5)],
    },
    Story {
        name: "close",
        is_wide: false,
        is_narrow: false,
        before: &[OPEN, TRACK],
        rows: &[(7, 5)],
        call: Call::Close(1),
        rows_after: &[(7, 5)],
    },
    Story {
        name: "purge",
        is_wide: false,
        is_narrow: false,
        before: &[OPEN, TRACK],
        rows: &[(7, 5)],
        call: Call::Purge(1),
        rows_after: &[],
    },
    // The fifth event of a table with string keys, two counts and the server's name: its history grows.
    Story {
        name: "track of a wide row",
        is_wide: true,
        is_narrow: false,
        before: &[OPEN, Call::Open(2), Call::Open(3), Call::Open(4)],
        rows: &[],
        call: NAME_A,
        rows_after: &[(A, 0)],
    },
    Story {
        name: "track of a wide row that is there",
        is_wide: true,
        is_narrow: false,
        before: &[OPEN, Call::Open(2), Call::Open(3), NAME_A],
        rows: &[(A, 0)],
        call: Call::Track(A, 3, 2, 3),
        rows_after: &[(A, 3)],
    },
    Story {
        name: "track in a full table of wide rows",
        is_wide: true,
        is_narrow: true,
        before: &[OPEN, Call::Open(2), Call::Open(3), NAME_A],
        rows: &[(A, 0)],
        call: Call::Track(B, 0, 2, 0),
        rows_after: &[(B, 0)],
    },
    Story {
        name: "learn of a wide row",
        is_wide: true,
        is_narrow: false,
        before: &[OPEN, Call::Open(2), Call::Open(3), Call::Open(4)],
        rows: &[],
        call: Call::Learn(1),
        rows_after: &[(A, 5)],
    },
    Story {
        name: "copy of a wide row",
        is_wide: true,
        is_narrow: false,
        before: &[OPEN, Call::Open(2), Call::Open(3), NAME_A],
        rows: &[(A, 0)],
        call: Call::Copy(1, 0),
        rows_after: &[(A, 0)],
    },
    Story {
        name: "ack of a wide row",
        is_wide: true,
        is_narrow: false,
        before: &[OPEN, Call::Open(2), NAME_A, Call::Copy(1, 0)],
        rows: &[(A, 0)],
        call: Call::Ack(1),
        rows_after: &[(A, 0)],
    },
    Story {
        name: "open of a fifth session",
        is_wide: true,
        is_narrow: false,
        before: &[OPEN, Call::Open(2), Call::Open(3), Call::Open(4)],
        rows: &[],
        call: Call::Open(5),
        rows_after: &[],
    },
];

#[test]
fn calls_again(rt: HostRuntime) {
    assert_eq!(rt; first_failing(&rt, rt.alloc(), &STORIES), None);
}

#[test]
fn tracks_from_a_seat_again(rt: HostRuntime) {
    assert!(rt; outcome(&rt, rt.alloc(), Shared::Track).is_right(&rt, "held::track"));
}

#[test]
fn copies_from_a_seat_again(rt: HostRuntime) {
    assert!(rt; outcome(&rt, rt.alloc(), Shared::Copy).is_right(&rt, "held::copy"));
}

#[test]
fn unlocks_again(rt: HostRuntime) {
    assert!(rt; outcome(&rt, rt.alloc(), Shared::Unlock).is_right(&rt, "unlock"));
}

#[test]
fn begins_another_round_again(rt: HostRuntime) {
    assert!(rt; outcome(&rt, rt.alloc(), Shared::NextRound).is_right(&rt, "next_round"));
}

#[test]
fn answers_without_memory(rt: HostRuntime) {
    assert!(rt;
        outcome_without_memory(&rt, rt.alloc()).is_right(
            &rt,
            "settle, track, slide, checkpoint, held::begin_anew and take all the same"
        )
    );
}
