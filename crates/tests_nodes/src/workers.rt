//! A session that teaches its rows, by turns of the function `turn`.

use crate::turns::{ASKING, FILLED, LESSON};
use peers_engine::Turned;
use session_core::State;
use tests_play_nodes::tables::Role;
use tests_play_nodes::turns::{Exchange, Story};
use tests_play_nodes::workers::receipts_of_turns;

/// `b` is asked for its rows, and teaches them.
static TEACHES: Story = Story {
    tables: FILLED,
    role: Role::Accepts,
    opening: ASKING,
    turns: &[Exchange {
        comes: b"",
        sends: LESSON,
        ends: Ok(Turned::Going),
    }],
    state: State::Teaching,
    rows: &[(7, 5), (8, 240)],
};

/// The receipts of its seat: the request closes the session in the table and opens it again, and the lesson copies the rows.
const RECEIPTS: Option<usize> = Some(3);

#[test]
fn a_turn_returns_its_seat(rt: HostRuntime) {
    assert_eq!(rt; receipts_of_turns(&rt, rt.alloc(), &TEACHES), RECEIPTS);
}
