//! Tables under their locks, what a seat has seen, and what an audit finds.

use tests_play_tables::audits::wants_its_own_seats;
use tests_play_tables::calls::come_back;
use tests_play_tables::locks::are_apart;
use tests_play_tables::next_rounds::{begins_another, comes_back};

#[test]
fn a_table_is_changed_while_another_is_locked(rt: HostRuntime) {
    assert!(rt; are_apart(&rt, rt.alloc()) == Some(true));
}

#[test]
fn an_audit_needs_its_own_seats(rt: HostRuntime) {
    assert!(rt; wants_its_own_seats(&rt, rt.alloc()) == Some(true));
}

#[test]
fn another_round_begins(rt: HostRuntime) {
    assert!(rt; begins_another(&rt, rt.alloc()) == Some(true));
}

#[test]
fn a_seat_comes_back_from_each_call(rt: HostRuntime) {
    assert!(rt; come_back(&rt, rt.alloc()) == Some(true));
}

#[test]
fn a_seat_comes_back_from_calls_that_drop_events(rt: HostRuntime) {
    assert!(rt; comes_back(&rt, rt.alloc()) == Some(true));
}
