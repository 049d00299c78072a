//! Calls for which memory may run out: each is refused and changes nothing, or closes the learner, and returns what it should when it
//! is made again. Each test may be run with any one allocation failing, and the last with all failing from any one on; it prints
//! for which call memory ran out.

use tests_play_data::growth::{Call, outcome, outcome_without_memory};

#[test]
fn plans_again(rt: HostRuntime) {
    assert!(rt; outcome(rt.alloc(), Call::Plan).is_right(&rt, "plan"));
}

#[test]
fn plans_by_adding_again(rt: HostRuntime) {
    assert!(rt; outcome(rt.alloc(), Call::PlanByAdding).is_right(&rt, "plan by adding"));
}

#[test]
fn teaches_again(rt: HostRuntime) {
    assert!(rt; outcome(rt.alloc(), Call::Teach).is_right(&rt, "teach"));
}

#[test]
fn closes_a_learner(rt: HostRuntime) {
    assert!(rt; outcome(rt.alloc(), Call::Feed).is_right(&rt, "feed"));
}

#[test]
fn answers_without_memory(rt: HostRuntime) {
    assert!(rt;
        outcome_without_memory(rt.alloc()).is_right(&rt, "row, feed and check_plan all the same")
    );
}
