//! Hellos and statuses, at the peer `b`, which knows the peer `a`.

use peers_hello::{Answer, Hello, Status, read_status};
use std::alloc::Global;
use table_types::Version;
use tests_play_data::parts::named;

/// The answer expected to a hello, with the number of its bytes. The peer accepted is `a`, with a version.
pub enum Answered {
    Accepted(Version, usize),
    Refused(u16, usize),
    More,
}

fn answer(alloc: Global, bytes: &[u8]) -> Option<Answer> {
    let own = named(alloc, b"b")?;
    let mut peers = Vec::new(alloc);
    peers.push(named(alloc, b"a")?).ok()?;
    Hello::read(alloc, bytes, &own, peers.as_slice()).ok()
}

fn is_answered(alloc: Global, bytes: &[u8], answered: &Answered) -> bool {
    match (answer(alloc, bytes), answered) {
        (Some(Answer::Accepted(name, version, used)), Answered::Accepted(expected, length)) => {
            name.as_slice() == b"a".as_slice() && version == *expected && used == *length
        }
        (Some(Answer::Refused(code, used)), Answered::Refused(expected, length)) => {
            code == *expected && used == *length
        }
        (Some(Answer::More), Answered::More) => true,
        _ => false,
    }
}

/// Reads the hellos. Returns the index of the first that gets another answer.
pub fn first_misread(alloc: Global, hellos: &[(&[u8], Answered)]) -> Option<usize> {
    for (place, (bytes, answered)) in hellos.iter().enumerate() {
        if !is_answered(alloc, *bytes, answered) {
            return Some(place);
        }
    }
    None
}

/// Reads the statuses. Returns the index of the first that is another.
pub fn first_other_status(statuses: &[(&[u8], Status)]) -> Option<usize> {
    for (place, (bytes, status)) in statuses.iter().enumerate() {
        if read_status(*bytes) != *status {
            return Some(place);
        }
    }
    None
}
