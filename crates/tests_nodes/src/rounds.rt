//! The worker of a round's session at the gate, and a round whose threads meet.

use node_commands::RoundSize;
use peers_engine::Stage;
use tests_play_nodes::rounds::{first_locked, runs_at_once};

/// The stages before its lesson is planned, and after.
static STAGES: [Stage; 2] = [Stage::Copied, Stage::Planned];

#[test]
fn a_table_is_changed_while_its_worker_is_at_the_gate(rt: HostRuntime) {
    assert_eq!(rt; first_locked(&rt, rt.alloc(), &STAGES), None);
}

/// What a round prints of three threads that track twice each.
const TEXT: &[u8] = b"audit ok\nrow 1 - 1 2\nrow 1 - 2 2\nrow 1 - 3 2\n";

#[test]
fn the_threads_of_a_round_run_at_once(rt: HostRuntime) {
    let size = RoundSize {
        threads: 3,
        tracks: 2,
        rounds: 1,
    };
    assert!(rt; runs_at_once(&rt, rt.alloc(), size, TEXT));
}
