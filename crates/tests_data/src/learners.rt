//! Learners: the rows, the acknowledgement and the known state that a stream leaves.

use crate::bytes::{READS, READS_SLOT_5, ST_DEFINED, T1_DEFINED, TWO_UPDATES, WRITES};
use learner::Fault;
use tests_play_data::learners::{Stream, first_failing};
use tests_play_data::parts::{ST, T1};

/// Defines `st` under id 9.
const UNDER_9: &[u8] = &[
    0x0A, 0x82, 0x0D, 9, 2, 0x73, 0x74, 6, 0x21, 0xF0, 0xF1, 0xFE, 0, 0xF0, 0xC4, 0x0D,
];

static STREAMS: [Stream; 6] = [
    Stream {
        table: T1,
        parts: &[(TWO_UPDATES, Ok(2))],
        rows: &[(7, 1), (8, 2)],
        waiting: 0,
        ack: Some((1, 2)),
        known: (Some(1), Some(2)),
    },
    // Without lives the rows end after the table's expire.
    Stream {
        table: T1,
        parts: &[
            (T1_DEFINED, Ok(0)),
            (&[0x0A, 0x80, 9, 0, 0, 0, 1, 0, 0, 0, 7, 5], Ok(1)),
            (&[0x0A, 0x81, 6, 0, 0, 0, 8, 0xF0, 0], Ok(1)),
        ],
        rows: &[(7, 1), (8, 2)],
        waiting: 0,
        ack: Some((1, 2)),
        known: (Some(1), Some(2)),
    },
    // A row without its last byte isn't there yet.
    Stream {
        table: ST,
        parts: &[
            (ST_DEFINED, Ok(0)),
            (WRITES, Ok(1)),
            (&[0x0A, 0x86, 8, 0, 0, 0x75, 0x30, 1, 0x62, 1], Ok(0)),
        ],
        rows: &[(b'a', 1)],
        waiting: 10,
        ack: Some((3, 1)),
        known: (Some(3), Some(1)),
    },
    // The id of a table loses its last number if the table is defined under another id.
    Stream {
        table: ST,
        parts: &[
            (ST_DEFINED, Ok(0)),
            (WRITES, Ok(1)),
            (READS, Ok(1)),
            (UNDER_9, Ok(0)),
        ],
        rows: &[(b'a', 1), (b'b', 2)],
        waiting: 0,
        ack: None,
        known: (None, None),
    },
    // Slot 5 is empty.
    Stream {
        table: ST,
        parts: &[
            (ST_DEFINED, Ok(0)),
            (WRITES, Ok(1)),
            (READS_SLOT_5, Err(Fault::EmptySlot)),
            (WRITES, Err(Fault::Closed)),
        ],
        rows: &[(b'a', 1)],
        waiting: 0,
        ack: Some((3, 1)),
        known: (Some(3), Some(1)),
    },
    // An update has no number, and none came before.
    Stream {
        table: T1,
        parts: &[
            (T1_DEFINED, Ok(0)),
            (
                &[0x0A, 0x86, 9, 0, 0, 0x75, 0x30, 0, 0, 0, 7, 5],
                Err(Fault::NoNumber),
            ),
            (TWO_UPDATES, Err(Fault::Closed)),
        ],
        rows: &[],
        waiting: 0,
        ack: None,
        known: (Some(1), None),
    },
];

#[test]
fn streams(rt: HostRuntime) {
    assert_eq!(rt; first_failing(rt.alloc(), &STREAMS, &[1, 7, 45]), None);
}
