//! Messages that no lesson has, and their bytes.

use tests_play_data::messages::{Short, first_failing};

static MESSAGES: [(Short, &[u8]); 6] = [
    (Short::Heartbeat, &[0, 4]),
    (Short::ProtocolError, &[1, 0]),
    (Short::Ack(1, 2), &[0x0A, 0x84, 5, 1, 0, 0, 0, 2]),
    (Short::Other(10, 135, &[1, 2]), &[0x0A, 0x87, 2, 1, 2]),
    (
        Short::Untimed(Some(1), 7, 5),
        &[0x0A, 0x80, 9, 0, 0, 0, 1, 0, 0, 0, 7, 5],
    ),
    (
        Short::Untimed(None, 8, 240),
        &[0x0A, 0x81, 6, 0, 0, 0, 8, 0xF0, 0],
    ),
];

#[test]
fn spellings(rt: HostRuntime) {
    assert_eq!(rt; first_failing(rt.alloc(), &MESSAGES), None);
}
