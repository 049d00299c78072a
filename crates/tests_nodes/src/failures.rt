//! Turns over a device that fails.

use crate::turns::{ASKS, EMPTY, FILLED, IS_ASKED, LESSON, OVER, SENDS_HELLO, TAKEN};
use peers_engine::Turned;
use session_core::State;
use tests_play_nodes::failures::{Leg, Lesson, Passage, first_cut_otherwise, first_failing};
use tests_play_nodes::tables::Role;
use tests_play_nodes::turns::Exchange;

/// The turn of `a` that opens its session doesn't read. Then it learns two rows, and confirms that it has all.
const LEARNS: &[Leg] = &[
    Leg {
        reads: false,
        turn: SENDS_HELLO,
    },
    Leg {
        reads: true,
        turn: Exchange {
            comes: b"200\n",
            sends: b"\x00\x00",
            ends: Ok(Turned::Going),
        },
    },
    Leg {
        reads: true,
        turn: Exchange {
            comes: LESSON,
            sends: TAKEN,
            ends: Ok(Turned::Going),
        },
    },
    // This read finds nothing.
    Leg {
        reads: true,
        turn: Exchange {
            comes: b"",
            sends: b"",
            ends: Ok(Turned::Going),
        },
    },
    Leg {
        reads: true,
        turn: Exchange {
            comes: b"\x00\x01",
            sends: b"\x00\x03",
            ends: Ok(Turned::Going),
        },
    },
    // A heartbeat.
    Leg {
        reads: true,
        turn: Exchange {
            comes: b"\x00\x04",
            sends: b"",
            ends: Ok(Turned::Going),
        },
    },
];

/// `b` is asked for its rows. It doesn't read in the turn that teaches them, nor in the one that finds no more.
const TEACHES: &[Leg] = &[
    Leg {
        reads: true,
        turn: ASKS,
    },
    Leg {
        reads: false,
        turn: Exchange {
            comes: b"",
            sends: LESSON,
            ends: Ok(Turned::Going),
        },
    },
    Leg {
        reads: true,
        turn: Exchange {
            comes: TAKEN,
            sends: b"",
            ends: Ok(Turned::Going),
        },
    },
    Leg {
        reads: false,
        turn: Exchange {
            comes: b"",
            sends: b"\x00\x01",
            ends: Ok(Turned::Going),
        },
    },
    Leg {
        reads: true,
        turn: Exchange {
            comes: b"\x00\x03",
            sends: b"",
            ends: Ok(Turned::Going),
        },
    },
    // This read finds nothing.
    Leg {
        reads: true,
        turn: Exchange {
            comes: b"",
            sends: b"",
            ends: Ok(Turned::Going),
        },
    },
];

static PASSAGES: [Passage; 2] = [
    Passage {
        tables: EMPTY,
        role: Role::Connects,
        legs: LEARNS,
        state: State::Ready,
        rows: &[(7, 5), (8, 240)],
        over: OVER,
    },
    Passage {
        tables: FILLED,
        role: Role::Accepts,
        legs: TEACHES,
        state: State::Ready,
        rows: &[(7, 5), (8, 240)],
        over: OVER,
    },
];

#[test]
fn readers_that_fail(rt: HostRuntime) {
    assert_eq!(rt; first_failing(&rt, rt.alloc(), &PASSAGES), None);
}

static CUT_OFF: Lesson = Lesson {
    story: IS_ASKED,
    bytes: LESSON,
    over: OVER,
};

#[test]
fn writers_that_fail(rt: HostRuntime) {
    assert_eq!(rt; first_cut_otherwise(&rt, rt.alloc(), &CUT_OFF), None);
}
