//! Lessons, the known state in which each ends, and what names cost.

use crate::bytes::TWO_UPDATES;
use table_types::{DataType, KeyKind, Value};
use tests_play_data::lessons::{Costly, Taught, first_failing, goes_on_after_end, names_cost};
use tests_play_data::parts::{KeyParts, KnownParts, ST, T1, TableParts, UpdateParts};

const LIFE: Option<u32> = Some(30_000);

static TAUGHT: [Taught; 4] = [
    Taught {
        from: KnownParts {
            table: T1,
            selected: Some(1),
            defined: &[1],
            last: &[(1, 5)],
            held: &[],
        },
        updates: &[],
        bytes: &[],
        prices: &[],
        last: 5,
        held: &[],
    },
    Taught {
        from: KnownParts {
            table: T1,
            selected: None,
            defined: &[],
            last: &[],
            held: &[],
        },
        updates: &[
            UpdateParts {
                table: 1,
                number: 1,
                life: LIFE,
                key: KeyParts::Int(7),
                values: &[Value::Count(5)],
                name: b"",
            },
            UpdateParts {
                table: 1,
                number: 2,
                life: LIFE,
                key: KeyParts::Int(8),
                values: &[Value::Count(240)],
                name: b"",
            },
        ],
        bytes: TWO_UPDATES,
        prices: &[],
        last: 2,
        held: &[],
    },
    Taught {
        from: KnownParts {
            table: ST,
            selected: None,
            defined: &[],
            last: &[],
            held: &[],
        },
        updates: &[
            UpdateParts {
                table: 3,
                number: 1,
                life: LIFE,
                key: KeyParts::Str(b"a"),
                values: &[],
                name: b"s1",
            },
            UpdateParts {
                table: 3,
                number: 2,
                life: LIFE,
                key: KeyParts::Str(b"b"),
                values: &[],
                name: b"s1",
            },
        ],
        bytes: &[
            0x0A, 0x82, 0x0D, 3, 2, 0x73, 0x74, 6, 0x21, 0xF0, 0xF1, 0xFE, 0, 0xF0, 0xC4, 0x0D,
            0x0A, 0x85, 0x0F, 0, 0, 0, 1, 0, 0, 0x75, 0x30, 1, 0x61, 4, 1, 2, 0x73, 0x31, 0x0A,
            0x86, 8, 0, 0, 0x75, 0x30, 1, 0x62, 1, 1,
        ],
        prices: &[0, 0],
        last: 2,
        held: &[1],
    },
    Taught {
        from: KnownParts {
            table: ST,
            selected: Some(3),
            defined: &[3],
            last: &[(3, 5)],
            held: &[1, 2],
        },
        updates: &[UpdateParts {
            table: 3,
            number: 6,
            life: LIFE,
            key: KeyParts::Str(b"a"),
            values: &[],
            name: b"s1",
        }],
        bytes: &[0x0A, 0x86, 8, 0, 0, 0x75, 0x30, 1, 0x61, 1, 1],
        prices: &[0],
        last: 6,
        held: &[1, 2],
    },
];

/// Each is taught from copies of its known state and its batch.
#[test]
fn lessons(rt: HostRuntime) {
    assert_eq!(rt; first_failing(rt.alloc(), &TAUGHT), None);
}

/// `end` is called after the first piece, and hands the pieces back.
#[test]
fn a_lesson_goes_on_after_an_early_end(rt: HostRuntime) {
    assert_eq!(rt;
        goes_on_after_end(rt.alloc(), &TAUGHT[2], &[16, 18, 11]),
        Some(true)
    );
}

#[test]
fn an_empty_lesson_comes_in_none(rt: HostRuntime) {
    assert_eq!(rt; goes_on_after_end(rt.alloc(), &TAUGHT[0], &[]), Some(true));
}

/// Updates of `lt`, which is like `st` with keys of up to 255 bytes, and of which nothing is known.
static LONG_KEYS: Costly = Costly {
    from: KnownParts {
        table: TableParts {
            id: 4,
            name: b"lt",
            kind: KeyKind::String,
            key_length: 256,
            expire: 30_000,
            types: &[(DataType::ServerKey, None)],
        },
        selected: None,
        defined: &[],
        last: &[],
        held: &[],
    },
    updates: &[
        UpdateParts {
            table: 4,
            number: 1,
            life: LIFE,
            key: KeyParts::Str(b"a"),
            values: &[],
            name: b"s1",
        },
        UpdateParts {
            table: 4,
            number: 3,
            life: LIFE,
            key: KeyParts::Str(&[b'a'; 228]),
            values: &[],
            name: b"s1",
        },
        UpdateParts {
            table: 4,
            number: 4,
            life: LIFE,
            key: KeyParts::Str(b"a"),
            values: &[],
            name: b"s1",
        },
    ],
    costs: &[(15, 18), (242, 246), (11, 14)],
};

#[test]
fn costs_of_names(rt: HostRuntime) {
    assert!(rt; names_cost(rt.alloc(), &LONG_KEYS) == Some(true));
}
