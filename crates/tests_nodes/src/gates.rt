//! A session at the gate.

use crate::turns::{IS_ASKED, LESSON};
use peers_engine::Stage;
use tests_play_nodes::gates::first_failing;
use tests_play_nodes::turns::Story;

static STORY: Story = IS_ASKED;

/// The stages before its lesson is planned, before it is written, and after.
static STAGES: [Stage; 3] = [Stage::Copied, Stage::Planned, Stage::Written];

#[test]
fn a_table_is_used_while_its_session_is_at_the_gate(rt: HostRuntime) {
    assert_eq!(rt;
        first_failing(&rt, rt.alloc(), &STORY, &STAGES, LESSON.len()),
        None
    );
}
