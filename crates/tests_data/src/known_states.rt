//! Known states: which messages one accepts.

use known_state::StepError;
use table_types::{DataType, KeyKind};
use tests_play_data::known_states::{Sent, Story, first_failing};
use tests_play_data::parts::{KnownParts, T1, T2, TableParts};

/// `t1` with another expire.
const LONGER: TableParts = TableParts {
    id: 1,
    name: b"t1",
    kind: KeyKind::Integer,
    key_length: 4,
    expire: 30_001,
    types: &[(DataType::Gpc0, None)],
};

static STORIES: [Story; 2] = [
    (
        KnownParts {
            table: T1,
            selected: None,
            defined: &[],
            last: &[],
            held: &[],
        },
        &[
            (Sent::Count(Some(1)), Some(StepError::NoTable), None, None),
            (Sent::Switch(1), Some(StepError::NotDefined), None, None),
            (Sent::Switch(9), Some(StepError::Foreign), None, None),
            (Sent::Define(T2), Some(StepError::Foreign), None, None),
            (Sent::Define(LONGER), Some(StepError::Foreign), None, None),
            (Sent::Define(T1), None, Some(1), None),
            (Sent::Count(Some(u32::MAX)), None, Some(1), Some(u32::MAX)),
            (Sent::Count(None), None, Some(1), Some(0)),
            (Sent::Switch(1), None, Some(1), Some(0)),
        ],
    ),
    (
        KnownParts {
            table: T1,
            selected: Some(1),
            defined: &[1],
            last: &[],
            held: &[],
        },
        &[(Sent::Count(None), Some(StepError::NoNumber), Some(1), None)],
    ),
];

#[test]
fn messages_are_refused(rt: HostRuntime) {
    assert_eq!(rt; first_failing(rt.alloc(), &STORIES), None);
}
