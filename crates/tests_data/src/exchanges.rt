//! A teacher and its learner: lessons that are taught and learned.

use crate::bytes::{READS, TWO_UPDATES};
use table_types::Value;
use tests_play_data::exchanges::{Exchange, first_failing};
use tests_play_data::parts::{KeyParts, ST, T1, UpdateParts};

static EXCHANGES: [Exchange; 2] = [
    // The updates of two-updates.
    Exchange {
        table: T1,
        batches: &[(
            &[
                UpdateParts {
                    table: 1,
                    number: 1,
                    life: Some(30_000),
                    key: KeyParts::Int(7),
                    values: &[Value::Count(5)],
                    name: b"",
                },
                UpdateParts {
                    table: 1,
                    number: 2,
                    life: Some(30_000),
                    key: KeyParts::Int(8),
                    values: &[Value::Count(240)],
                    name: b"",
                },
            ],
            TWO_UPDATES,
        )],
        rows: &[(7, 1), (8, 2)],
        last: 2,
        held: &[],
    },
    // The updates of one-name-twice, in two batches. The second lesson reads the name from the slot that the first one wrote.
    Exchange {
        table: ST,
        batches: &[
            (
                &[UpdateParts {
                    table: 3,
                    number: 1,
                    life: Some(30_000),
                    key: KeyParts::Str(b"a"),
                    values: &[],
                    name: b"s1",
                }],
                &[
                    0x0A, 0x82, 0x0D, 3, 2, 0x73, 0x74, 6, 0x21, 0xF0, 0xF1, 0xFE, 0, 0xF0, 0xC4,
                    0x0D, 0x0A, 0x85, 0x0F, 0, 0, 0, 1, 0, 0, 0x75, 0x30, 1, 0x61, 4, 1, 2, 0x73,
                    0x31,
                ],
            ),
            (
                &[UpdateParts {
                    table: 3,
                    number: 2,
                    life: Some(30_000),
                    key: KeyParts::Str(b"b"),
                    values: &[],
                    name: b"s1",
                }],
                READS,
            ),
        ],
        rows: &[(b'a', 1), (b'b', 2)],
        last: 2,
        held: &[1],
    },
];

#[test]
fn lessons_are_learned(rt: HostRuntime) {
    let cuts: &[&[usize]] = &[&[], &[1, 1, 1, 1, 1], &[16, 0, 5]];
    assert_eq!(rt; first_failing(rt.alloc(), &EXCHANGES, cuts), None);
}
