//! What a peer that was asked for all rows brings on its session.

use node_core::Brought;
use session_core::{Controls, Progress, Session};

/// Returns how many control messages these are.
fn messages(controls: Controls) -> u64 {
    (controls.requests)
        .saturating_add(controls.finished)
        .saturating_add(controls.partial)
        .saturating_add(controls.confirmed)
        .saturating_add(controls.heartbeats)
}

/// Returns the sum of the numbers that the peer has acknowledged.
fn acknowledged(tables: &[Progress]) -> u64 {
    let mut sum = 0u64;
    for table in tables {
        sum = sum.saturating_add(u64::from(table.acknowledged.unwrap_or(0)));
    }
    sum
}

/// Returns what has come on a session that has read this many bytes.
pub(crate) fn brought_on(session: &Session, read: u64) -> Brought {
    let passed_over = session.passed_over();
    let rows = (session.counts().learned)
        .saturating_add(passed_over.value)
        .saturating_add(passed_over.slot);
    let controls = messages(session.controls());
    Brought::of(rows, read, controls, acknowledged(session.progress()))
}
