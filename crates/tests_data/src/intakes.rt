//! Intakes: what they return of a stream, message by message.

use crate::bytes::TWO_UPDATES;
use peers_msg::Control;
use tests_play_data::intakes::{Given, Stream, first_failing};

static STREAMS: [Stream; 1] = [Stream {
    parts: &[TWO_UPDATES, b"\x00\x04"],
    given: &[
        Given::Passed,
        Given::Counted(1, 7, 5),
        Given::Counted(2, 8, 240),
        Given::Said(Control::Heartbeat),
    ],
    ack: Some((1, 2)),
}];

#[test]
fn streams(rt: HostRuntime) {
    assert_eq!(rt; first_failing(rt.alloc(), &STREAMS, &[1, 7, 64]), None);
}
