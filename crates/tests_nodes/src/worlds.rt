//! Worlds of `t1` and one session: what steps leave in the lists of the session, on its way, at its learner, and in what the teacher
//! knows of that.

use table_types::{CopyKind, Value, Version};
use tests_play_data::parts::{KeyParts, UpdateParts};
use tests_play_nodes::worlds::{Part, Seen, Short, Story, Told, first_failing};

/// A new world, and one in which a connection broke and nothing was copied since.
const NOTHING: Seen = Seen {
    copied: &[],
    taught: &[],
    applied: &[],
    to_learner: &[],
    to_teacher: &[],
    rows: &[],
    waiting: 0,
    known: None,
    events: 1,
};

/// The row of key 7 with 5, as the teacher's table copies it.
const SEVEN: Told = (1, Some(30_000), 7, 5);

/// A lesson of that row to a learner that has received nothing: 29 bytes.
const TAUGHT: &[u8] = &[
    0x0A, 0x82, 0x0A, 1, 2, 0x74, 0x31, 2, 4, 4, 0xF0, 0xC4, 0x0D, 0x0A, 0x85, 0x0D, 0, 0, 0, 1, 0,
    0, 0x75, 0x30, 0, 0, 0, 7, 5,
];

/// The row is on its way.
const ON_ITS_WAY: Seen = Seen {
    taught: &[SEVEN],
    to_learner: TAUGHT,
    known: Some(1),
    events: 3,
    ..NOTHING
};

/// The learner has the row.
const ARRIVED: Seen = Seen {
    applied: &[SEVEN],
    to_learner: &[],
    rows: &[(7, 1, 5)],
    ..ON_ITS_WAY
};

/// A row is tracked, pushed and taught.
const BEGUN: Part = (
    &[
        Short::Track(7, 5),
        Short::Copy(CopyKind::Push),
        Short::Teach,
    ],
    ON_ITS_WAY,
);

/// All but one byte of the lesson arrives: the definition, and 15 bytes of the update.
const CUT: Part = (
    &[Short::ToLearner(28)],
    Seen {
        to_learner: &[5],
        waiting: 15,
        ..ON_ITS_WAY
    },
);

/// The last byte arrives.
const WHOLE: Part = (&[Short::ToLearner(1)], ARRIVED);

/// The learner acknowledges the row.
const ANSWERED: Part = (
    &[Short::Ack],
    Seen {
        to_teacher: &[0x0A, 0x84, 5, 1, 0, 0, 0, 1],
        ..ARRIVED
    },
);

/// The acknowledgement arrives, and nothing is left to push.
const SETTLED: Part = (
    &[Short::ToTeacher(8), Short::Copy(CopyKind::Push)],
    Seen {
        events: 4,
        ..ARRIVED
    },
);

/// An update of key 9 with 3, which the teacher's table learns.
const LEARNED: UpdateParts = UpdateParts {
    table: 1,
    number: 9,
    life: Some(30_000),
    key: KeyParts::Int(9),
    values: &[Value::Count(3)],
    name: b"",
};

/// The row that it learned, as the table copies it.
const NINE: Told = (1, Some(30_000), 9, 3);

/// That row is on its way.
const NINE_ON_ITS_WAY: Seen = Seen {
    taught: &[NINE],
    to_learner: &[
        0x0A, 0x82, 0x0A, 1, 2, 0x74, 0x31, 2, 4, 4, 0xF0, 0xC4, 0x0D, 0x0A, 0x85, 0x0D, 0, 0, 0,
        1, 0, 0, 0x75, 0x30, 0, 0, 0, 9, 3,
    ],
    known: Some(1),
    events: 3,
    ..NOTHING
};

/// The row of key 7 is taught anew to a learner that has it: 16 bytes.
const TAUGHT_ANEW: Seen = Seen {
    taught: &[SEVEN, SEVEN],
    to_learner: &[
        0x0A, 0x85, 0x0D, 0, 0, 0, 1, 0, 0, 0x75, 0x30, 0, 0, 0, 7, 5,
    ],
    events: 7,
    ..ARRIVED
};

/// The row of key 7 without a life.
const UNTIMED: Told = (1, None, 7, 5);

/// That row is on its way: 25 bytes.
const UNTIMED_ON_ITS_WAY: Seen = Seen {
    taught: &[UNTIMED],
    to_learner: &[
        0x0A, 0x82, 0x0A, 1, 2, 0x74, 0x31, 2, 4, 4, 0xF0, 0xC4, 0x0D, 0x0A, 0x80, 9, 0, 0, 0, 1,
        0, 0, 0, 7, 5,
    ],
    known: Some(1),
    events: 3,
    ..NOTHING
};

/// The table has room for one event more.
const NEARLY_FULL: Seen = Seen {
    events: 999_999,
    ..NOTHING
};

/// The row of key 1 after 999,998 changes.
const LAST: Told = (999_998, Some(30_000), 1, 999_998);

/// That row is on its way, in 32 bytes, and the table is full.
const FULL: Seen = Seen {
    taught: &[LAST],
    to_learner: &[
        0x0A, 0x82, 0x0A, 1, 2, 0x74, 0x31, 2, 4, 4, 0xF0, 0xC4, 0x0D, 0x0A, 0x85, 0x10, 0, 0x0F,
        0x42, 0x3E, 0, 0, 0x75, 0x30, 0, 0, 0, 1, 0xFE, 0x94, 0xE7, 2,
    ],
    known: Some(999_998),
    events: 1_000_000,
    ..NOTHING
};

/// The learner has the row, and its acknowledgement is on its way.
const FULL_AND_ANSWERED: Seen = Seen {
    applied: &[LAST],
    to_learner: &[],
    to_teacher: &[0x0A, 0x84, 5, 1, 0, 0x0F, 0x42, 0x3E],
    rows: &[(1, 999_998, 999_998)],
    ..FULL
};

static STORIES: [Story; 8] = [
    // A row is pushed, taught and delivered in two parts, and its acknowledgement arrives.
    Story {
        version: Version::V21,
        added: 0,
        parts: &[
            (
                &[Short::Track(7, 5), Short::Copy(CopyKind::Push)],
                Seen {
                    copied: &[&[SEVEN]],
                    events: 3,
                    ..NOTHING
                },
            ),
            (&[Short::Teach], ON_ITS_WAY),
            CUT,
            WHOLE,
            ANSWERED,
            SETTLED,
        ],
    },
    // The connection breaks in the middle of the lesson, and the row is taught again.
    Story {
        version: Version::V21,
        added: 0,
        parts: &[
            BEGUN,
            (
                &[Short::ToLearner(20)],
                Seen {
                    to_learner: &[0, 0, 0x75, 0x30, 0, 0, 0, 7, 5],
                    waiting: 7,
                    ..ON_ITS_WAY
                },
            ),
            (
                &[Short::Break(1)],
                Seen {
                    events: 5,
                    ..NOTHING
                },
            ),
            (
                &[Short::Copy(CopyKind::Push), Short::Teach],
                Seen {
                    events: 6,
                    ..ON_ITS_WAY
                },
            ),
            (
                &[Short::ToLearner(29)],
                Seen {
                    events: 6,
                    ..ARRIVED
                },
            ),
        ],
    },
    // Steps that can't be made, or that have nothing to do, leave the world as it was.
    Story {
        version: Version::V21,
        added: 0,
        parts: &[
            BEGUN,
            (&[Short::Teach], ON_ITS_WAY),
            (&[Short::ToLearner(0), Short::ToTeacher(0)], ON_ITS_WAY),
            (&[Short::Ack], ON_ITS_WAY),
            (&[Short::Break(9)], ON_ITS_WAY),
            (&[Short::ToLearner(30), Short::Reopen], ON_ITS_WAY),
        ],
    },
    // After a break a resync brings the row, with its number. Once that is acknowledged, another has nothing to copy.
    Story {
        version: Version::V21,
        added: 0,
        parts: &[
            BEGUN,
            (
                &[Short::Break(1), Short::Copy(CopyKind::Resync), Short::Teach],
                Seen {
                    events: 6,
                    ..ON_ITS_WAY
                },
            ),
            (
                &[Short::ToLearner(29), Short::Ack, Short::ToTeacher(8)],
                Seen {
                    events: 7,
                    ..ARRIVED
                },
            ),
            (
                &[Short::Copy(CopyKind::Resync)],
                Seen {
                    events: 7,
                    ..ARRIVED
                },
            ),
        ],
    },
    // A row that the teacher's table learned: a push copies none, and a resync copies it.
    Story {
        version: Version::V21,
        added: 0,
        parts: &[
            (
                &[Short::Learn(&LEARNED)],
                Seen {
                    events: 2,
                    ..NOTHING
                },
            ),
            (
                &[Short::Copy(CopyKind::Push)],
                Seen {
                    events: 2,
                    ..NOTHING
                },
            ),
            (
                &[Short::Copy(CopyKind::Resync)],
                Seen {
                    copied: &[&[NINE]],
                    events: 3,
                    ..NOTHING
                },
            ),
            (&[Short::Teach], NINE_ON_ITS_WAY),
            (
                &[Short::ToLearner(29)],
                Seen {
                    applied: &[NINE],
                    to_learner: &[],
                    rows: &[(9, 1, 3)],
                    ..NINE_ON_ITS_WAY
                },
            ),
        ],
    },
    // A session that is opened anew is taught all rows again, by what is known of the learner. While they are out, it isn't opened
    // anew.
    Story {
        version: Version::V21,
        added: 0,
        parts: &[
            BEGUN,
            CUT,
            WHOLE,
            ANSWERED,
            SETTLED,
            (
                &[Short::Reopen, Short::Copy(CopyKind::Resync), Short::Teach],
                TAUGHT_ANEW,
            ),
            (&[Short::Reopen], TAUGHT_ANEW),
            (
                &[Short::ToLearner(16)],
                Seen {
                    applied: &[SEVEN, SEVEN],
                    to_learner: &[],
                    ..TAUGHT_ANEW
                },
            ),
        ],
    },
    // A session of 2.0 is taught without lives, also after a break; the row ends after the table's expire.
    Story {
        version: Version::V20,
        added: 0,
        parts: &[
            (
                &[Short::Track(7, 5), Short::Copy(CopyKind::Push)],
                Seen {
                    copied: &[&[UNTIMED]],
                    events: 3,
                    ..NOTHING
                },
            ),
            (&[Short::Teach], UNTIMED_ON_ITS_WAY),
            (
                &[Short::Break(1), Short::Copy(CopyKind::Push), Short::Teach],
                Seen {
                    events: 6,
                    ..UNTIMED_ON_ITS_WAY
                },
            ),
            (
                &[Short::ToLearner(25)],
                Seen {
                    applied: &[UNTIMED],
                    to_learner: &[],
                    rows: &[(7, 1, 5)],
                    events: 6,
                    ..UNTIMED_ON_ITS_WAY
                },
            ),
        ],
    },
    // The table has had 999,998 events. To break the connection, or to open the session anew, takes two events, so it changes nothing
    // with room for one; nor does it in a full history, in which no acknowledgement arrives either.
    Story {
        version: Version::V21,
        added: 999_998,
        parts: &[
            (&[], NEARLY_FULL),
            (&[Short::Break(1)], NEARLY_FULL),
            (&[Short::Reopen], NEARLY_FULL),
            (
                &[Short::Copy(CopyKind::Push)],
                Seen {
                    copied: &[&[LAST]],
                    events: 1_000_000,
                    ..NOTHING
                },
            ),
            (&[Short::Teach], FULL),
            (&[Short::Break(1)], FULL),
            (&[Short::ToLearner(32), Short::Ack], FULL_AND_ANSWERED),
            (&[Short::ToTeacher(8)], FULL_AND_ANSWERED),
            (&[Short::Break(1)], FULL_AND_ANSWERED),
        ],
    },
];

#[test]
fn worlds_of_one_session(rt: HostRuntime) {
    assert_eq!(rt; first_failing(rt.alloc(), &STORIES), None);
}
