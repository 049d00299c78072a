//! Streams of messages, cut anywhere, and how a decoder reads them.

use crate::bytes::{READS, READS_SLOT_5, ST_DEFINED, T1_DEFINED, TWO_UPDATES, WRITES};
use peers_msg::{Breach, Fault};
use tests_play_data::decoders::{Stream, first_failing};

static STREAMS: [Stream; 15] = [
    // Two rows of `t1`, message by message.
    Stream {
        resumed: false,
        parts: &[
            (T1_DEFINED, Ok(1)),
            (
                &[
                    0x0A, 0x85, 0x0D, 0, 0, 0, 1, 0, 0, 0x75, 0x30, 0, 0, 0, 7, 5,
                ],
                Ok(1),
            ),
            (
                &[0x0A, 0x86, 0x0A, 0, 0, 0x75, 0x30, 0, 0, 0, 8, 0xF0, 0],
                Ok(1),
            ),
        ],
        waiting: 0,
    },
    // The same at once.
    Stream {
        resumed: false,
        parts: &[(TWO_UPDATES, Ok(3))],
        waiting: 0,
    },
    // The same without the last byte.
    Stream {
        resumed: false,
        parts: &[(
            &[
                0x0A, 0x82, 0x0A, 1, 2, 0x74, 0x31, 2, 4, 4, 0xF0, 0xC4, 0x0D, 0x0A, 0x85, 0x0D, 0,
                0, 0, 1, 0, 0, 0x75, 0x30, 0, 0, 0, 7, 5, 0x0A, 0x86, 0x0A, 0, 0, 0x75, 0x30, 0, 0,
                0, 8, 0xF0,
            ],
            Ok(2),
        )],
        waiting: 12,
    },
    // Two rows of `st`, of which the second reads the name that the first writes.
    Stream {
        resumed: false,
        parts: &[(ST_DEFINED, Ok(1)), (WRITES, Ok(1)), (READS, Ok(1))],
        waiting: 0,
    },
    // The decoder doesn't look whether a name was written to the slot.
    Stream {
        resumed: false,
        parts: &[(ST_DEFINED, Ok(1)), (READS_SLOT_5, Ok(1))],
        waiting: 0,
    },
    // A header that announces 16,384 bytes of data.
    Stream {
        resumed: false,
        parts: &[(T1_DEFINED, Ok(1)), (&[0x0A, 0x85, 0xF0, 0xF1, 6], Ok(0))],
        waiting: 5,
    },
    Stream {
        resumed: true,
        parts: &[(&[0x0A, 0x86, 9, 0, 0, 0x75, 0x30, 0, 0, 0, 7, 5], Ok(1))],
        waiting: 0,
    },
    // A fault of the header, and one of the data: a byte after the value.
    Stream {
        resumed: true,
        parts: &[(
            &[0x0A, 0x85, 0xF1, 0xF1, 6],
            Err(Fault::Breach(Breach::SizeLimit)),
        )],
        waiting: 0,
    },
    Stream {
        resumed: true,
        parts: &[(
            &[
                0x0A, 0x85, 0x0E, 0, 0, 0, 1, 0, 0, 0x75, 0x30, 0, 0, 0, 7, 5, 0,
            ],
            Err(Fault::Breach(Breach::Trailing)),
        )],
        waiting: 0,
    },
    // A length of 2^64 or more.
    Stream {
        resumed: true,
        parts: &[(
            &[
                0x0A, 0x85, 0xFF, 0xF0, 0xFE, 0xFE, 0xFE, 0xFE, 0xFE, 0xFE, 0xFE, 0x0F,
            ],
            Err(Fault::Breach(Breach::BadInteger)),
        )],
        waiting: 0,
    },
    // Integer keys of 5 bytes.
    Stream {
        resumed: true,
        parts: &[(
            &[
                0x0A, 0x82, 0x0A, 1, 2, 0x74, 0x31, 2, 5, 4, 0xF0, 0xC4, 0x0D,
            ],
            Err(Fault::Breach(Breach::BadDefinition)),
        )],
        waiting: 0,
    },
    // A switch to a table that wasn't defined.
    Stream {
        resumed: true,
        parts: &[(&[0x0A, 0x83, 1, 9], Err(Fault::Breach(Breach::NoTable)))],
        waiting: 0,
    },
    // One byte of a key.
    Stream {
        resumed: true,
        parts: &[(
            &[0x0A, 0x85, 9, 0, 0, 0, 1, 0, 0, 0x75, 0x30, 0],
            Err(Fault::Breach(Breach::BadKey)),
        )],
        waiting: 0,
    },
    // A value of 2^32.
    Stream {
        resumed: true,
        parts: &[(
            &[
                0x0A, 0x85, 0x11, 0, 0, 0, 1, 0, 0, 0x75, 0x30, 0, 0, 0, 7, 0xF0, 0xF1, 0xFE, 0xFE,
                0x7E,
            ],
            Err(Fault::Breach(Breach::BadValue)),
        )],
        waiting: 0,
    },
    // Slot 129.
    Stream {
        resumed: false,
        parts: &[
            (ST_DEFINED, Ok(1)),
            (
                &[
                    0x0A, 0x85, 0x0C, 0, 0, 0, 1, 0, 0, 0x75, 0x30, 1, 0x61, 1, 0x81,
                ],
                Err(Fault::Breach(Breach::BadValue)),
            ),
        ],
        waiting: 0,
    },
];

#[test]
fn streams(rt: HostRuntime) {
    assert_eq!(rt; first_failing(rt.alloc(), &STREAMS, 45), None);
}
