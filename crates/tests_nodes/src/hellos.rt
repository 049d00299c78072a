//! Hellos and statuses, at the peer `b`, which knows the peer `a`: the bytes that each takes, which no far side sees.

use peers_hello::Status;
use table_types::Version;
use tests_play_nodes::hellos::{Answered, first_misread, first_other_status};

static HELLOS: [(&[u8], Answered); 9] = [
    (b"HAProxyS 2.2\nc\na 1 1\n", Answered::Refused(502, 21)),
    (b"HAProxyS 2.0\nc\na 1 1\n", Answered::Refused(503, 21)),
    (b"HAProxyS 2.1\nc\na 1 1\n", Answered::Refused(503, 21)),
    (b"HAProxyS 2.1\nb\nz 1 1\n", Answered::Refused(504, 21)),
    (b"HAProxyX 2.1\nb\na 1 1\n", Answered::Refused(501, 21)),
    (
        b"HAProxyS 2.1\nb\na 1 1\n",
        Answered::Accepted(Version::V21, 21),
    ),
    (
        b"HAProxyS 2.0\nb\na 1 1\n",
        Answered::Accepted(Version::V20, 21),
    ),
    // Messages follow.
    (
        b"HAProxyS 2.1\nb\na 1 1\n\x00\x00",
        Answered::Accepted(Version::V21, 21),
    ),
    // Cut in the second line.
    (b"HAProxyS 2.1\nb", Answered::More),
];

#[test]
fn hellos(rt: HostRuntime) {
    assert_eq!(rt; first_misread(rt.alloc(), &HELLOS), None);
}

static STATUSES: [(&[u8], Status); 4] = [
    (b"200\n", Status::Code(200, 4)),
    (b"502\r\n", Status::Code(502, 5)),
    (b"505\n", Status::Other(4)),
    (b"200", Status::More),
];

#[test]
fn statuses(rt: HostRuntime) {
    assert_eq!(rt; first_other_status(&STATUSES), None);
}
