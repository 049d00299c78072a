//! The rows that updates teach.

use tests_play_data::rows::{Learned, first_mislearned};

const LEAST: u64 = 1 << 32;

const GREATEST: u64 = (1 << 63) - 1;

static LEARNED: [Learned; 8] = [
    Learned {
        life: Some(20_000),
        expire: 30_000,
        moment: LEAST,
        end: Some(LEAST + 20_000),
        start: 1,
    },
    Learned {
        life: Some(30_001),
        expire: 30_000,
        moment: LEAST,
        end: Some(LEAST + 30_000),
        start: 1,
    },
    Learned {
        life: Some(0),
        expire: 30_000,
        moment: LEAST,
        end: Some(LEAST),
        start: 1,
    },
    Learned {
        life: None,
        expire: 30_000,
        moment: LEAST,
        end: Some(LEAST + 30_000),
        start: 1,
    },
    Learned {
        life: Some(20_000),
        expire: 0,
        moment: LEAST,
        end: None,
        start: 1,
    },
    Learned {
        life: None,
        expire: 0,
        moment: LEAST,
        end: None,
        start: 1,
    },
    Learned {
        life: None,
        expire: 30_000,
        moment: GREATEST,
        end: Some(GREATEST),
        start: GREATEST - LEAST + 1,
    },
    Learned {
        life: Some(5),
        expire: 30_000,
        moment: GREATEST - 5,
        end: Some(GREATEST),
        start: GREATEST - LEAST - 4,
    },
];

#[test]
fn rows_are_learned(rt: HostRuntime) {
    assert_eq!(rt; first_mislearned(rt.alloc(), &LEARNED), None);
}
