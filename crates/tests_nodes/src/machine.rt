//! Sessions between the peers `a` and `b` that share table `t1`, event by event: a table of stories.

use learner::Fault;
use peers_msg::{Breach, ErrorKind};
use session_core::State;
use table_types::{CopyKind, Version};
use tests_play_nodes::machine::{After, Asked, Given, Peer, Step, Story, first_failing};

/// `b` accepts the hello of `a`, and teaches a resync of no rows; then the connection ends.
const ACCEPTOR_RESYNC: &[Step] = &[
    (
        Given::Bytes(b"HAProxyS 2.1\nb\na 1 1\n\x00\x00"),
        &[Asked::Send(b"200\n"), Asked::Reopen(1)],
        State::Teaching,
    ),
    (
        Given::Turn,
        &[Asked::Copy(1, CopyKind::Resync)],
        State::Teaching,
    ),
    (Given::Nothing(1), &[Asked::Send(b"\x00\x01")], State::Ready),
    (Given::Bytes(b"\x00\x03"), &[], State::Ready),
    (Given::End, &[Asked::Close], State::Ended),
];

/// The same resync if `b` isn't up to date.
const ACCEPTOR_PARTIAL: &[Step] = &[
    (
        Given::Bytes(b"HAProxyS 2.1\nb\na 1 1\n\x00\x00"),
        &[Asked::Send(b"200\n"), Asked::Reopen(1)],
        State::Teaching,
    ),
    (
        Given::Turn,
        &[Asked::Copy(1, CopyKind::Resync)],
        State::Teaching,
    ),
    (Given::Nothing(1), &[Asked::Send(b"\x00\x02")], State::Ready),
];

/// `b` accepts a hello of version 2.0, and reopens its table.
const ACCEPTED_OLDER: &[Step] = &[(
    Given::Bytes(b"HAProxyS 2.0\nb\na 1 1\n"),
    &[Asked::Send(b"200\n"), Asked::Reopen(1)],
    State::Ready,
)];

/// `a` connects, and its hello is accepted. The status comes in two pieces.
const CONNECTED: &[Step] = &[
    (Given::Turn, &[], State::New),
    (
        Given::Opened,
        &[Asked::Send(b"HAProxyS 2.1\nb\na 1 1\n")],
        State::Hello,
    ),
    (Given::Bytes(b"20"), &[], State::Hello),
    (
        Given::Bytes(b"0\n"),
        &[Asked::Send(b"\x00\x00")],
        State::Ready,
    ),
];

/// A definition and two updates are learned and acknowledged. Then the resync ends.
const LEARNING: &[Step] = &[
    (
        Given::Bytes(
            b"\x0A\x82\x0A\x01\x02t1\x02\x04\x04\xF0\xC4\x0D\x0A\x85\x0D\x00\x00\x00\x01\x00\x00\x75\x30\x00\x00\x00\x07\x05\x0A\x86\x0A\x00\x00\x75\x30\x00\x00\x00\x08\xF0\x00",
        ),
        &[
            Asked::Learn(1, 1),
            Asked::Learn(1, 2),
            Asked::Send(b"\x0A\x84\x05\x01\x00\x00\x00\x02"),
        ],
        State::Ready,
    ),
    (
        Given::Bytes(b"\x00\x01"),
        &[Asked::Send(b"\x00\x03")],
        State::Ready,
    ),
];

/// A switch to a table that wasn't defined.
const FAULTY: &[Step] = &[(
    Given::Bytes(b"\x0A\x83\x01\x09"),
    &[Asked::Part(ErrorKind::Protocol)],
    State::Ended,
)];

static RUNS: [Story; 6] = [
    Story {
        name: "acceptor's resync",
        peer: Peer::Acceptor { up_to_date: true },
        runs: &[ACCEPTOR_RESYNC],
        after: &[After::Over],
    },
    Story {
        name: "acceptor's partial resync",
        peer: Peer::Acceptor { up_to_date: false },
        runs: &[ACCEPTOR_PARTIAL],
        after: &[After::Plain],
    },
    Story {
        name: "a hello of 2.0",
        peer: Peer::Acceptor { up_to_date: true },
        runs: &[ACCEPTED_OLDER],
        after: &[After::Speaks(Version::V20)],
    },
    Story {
        name: "learning",
        peer: Peer::Connector,
        runs: &[CONNECTED, LEARNING],
        after: &[After::Confirmed],
    },
    Story {
        name: "a fault",
        peer: Peer::Connector,
        runs: &[CONNECTED, FAULTY],
        after: &[After::Fault(Fault::Breach(Breach::NoTable))],
    },
    Story {
        name: "unasked",
        peer: Peer::Connector,
        runs: &[CONNECTED],
        after: &[After::Unasked(Given::Nothing(1))],
    },
];

#[test]
fn runs(rt: HostRuntime) {
    assert_eq!(rt; first_failing(rt.alloc(), &RUNS), None);
}
