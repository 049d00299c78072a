//! Turns of one side whose table is full, or in whose table its session isn't open; and what other turns begin with.

use peers_engine::{EngineError, Turned};
use session_core::{SessionError, State};
use table_types::Value;
use tests_play_data::parts::{KeyParts, T1, TableParts, UpdateParts};
use tests_play_nodes::tables::{Role, Tables};
use tests_play_nodes::turns::{Exchange, Story, first_failing, writes_once};

/// The hello of `a` to `b`.
const HELLO: &[u8] = b"HAProxyS 2.1\nb\na 1 1\n";

/// The hello, and a request for all rows.
const HELLO_AND_REQUEST: &[u8] = b"HAProxyS 2.1\nb\na 1 1\n\x00\x00";

/// The lesson of two updates: 5 for key 7, and 240 for key 8.
pub const LESSON: &[u8] =
    b"\x0A\x82\x0A\x01\x02t1\x02\x04\x04\xF0\xC4\x0D\x0A\x85\x0D\x00\x00\x00\x01\x00\x00\x75\x30\x00\x00\x00\x07\x05\x0A\x86\x0A\x00\x00\x75\x30\x00\x00\x00\x08\xF0\x00";

/// An acknowledgement of its second update.
pub const TAKEN: &[u8] = b"\x0A\x84\x05\x01\x00\x00\x00\x02";

/// The rows that it teaches.
const ROWS: &[UpdateParts] = &[
    UpdateParts {
        table: 1,
        number: 1,
        life: Some(30_000),
        key: KeyParts::Int(7),
        values: &[Value::Count(5)],
        name: b"",
    },
    UpdateParts {
        table: 1,
        number: 2,
        life: Some(30_000),
        key: KeyParts::Int(8),
        values: &[Value::Count(240)],
        name: b"",
    },
];

const TABLE: &[TableParts] = &[T1];

/// `t1` without rows, in which the session is open.
pub const EMPTY: Tables = Tables {
    roster: TABLE,
    tables: TABLE,
    rows: &[],
    are_full: false,
    are_open: true,
};

/// `t1` with the two rows.
pub const FILLED: Tables = Tables {
    roster: TABLE,
    tables: TABLE,
    rows: ROWS,
    are_full: false,
    are_open: true,
};

/// `t1` with room for one row.
const NARROW: Tables = Tables {
    roster: TABLE,
    tables: TABLE,
    rows: &[],
    are_full: true,
    are_open: true,
};

/// `t1`, in which the session isn't open.
const UNOPENED: Tables = Tables {
    roster: TABLE,
    tables: TABLE,
    rows: &[],
    are_full: false,
    are_open: false,
};

/// `a` connects.
pub const SENDS_HELLO: Exchange = Exchange {
    comes: b"",
    sends: HELLO,
    ends: Ok(Turned::Going),
};

/// `a` connects, and asks for all rows.
const OPENING: &[Exchange] = &[
    SENDS_HELLO,
    Exchange {
        comes: b"200\n",
        sends: b"\x00\x00",
        ends: Ok(Turned::Going),
    },
];

/// It learns the rows of a lesson that its table has room for, and acknowledges all.
const LEARNING: &[Exchange] = &[Exchange {
    comes: LESSON,
    sends: TAKEN,
    ends: Ok(Turned::Going),
}];

/// `b` accepts the hello, and is asked for its rows.
pub const ASKS: Exchange = Exchange {
    comes: HELLO_AND_REQUEST,
    sends: b"200\n",
    ends: Ok(Turned::Going),
};

/// The same turn, alone.
pub const ASKING: &[Exchange] = &[ASKS];

/// A turn of a session that is over.
pub const OVER: Exchange = Exchange {
    comes: LESSON,
    sends: b"",
    ends: Err(EngineError::Session(SessionError::Ended)),
};

/// A turn in which a table refuses what its session asks for.
const STRANGE: Exchange = Exchange {
    comes: b"",
    sends: b"",
    ends: Err(EngineError::Strange),
};

/// The stories, each with its reason.
static STORIES: [Story; 2] = [
    // The second row finds no room and is passed over.
    Story {
        tables: NARROW,
        role: Role::Connects,
        opening: OPENING,
        turns: LEARNING,
        state: State::Ready,
        rows: &[(7, 5)],
    },
    // The session isn't open in the table from which the turn would copy.
    Story {
        tables: UNOPENED,
        role: Role::Connects,
        opening: OPENING,
        turns: &[STRANGE, OVER],
        state: State::Ended,
        rows: &[],
    },
];

#[test]
fn tables_that_do_not_fit(rt: HostRuntime) {
    assert_eq!(rt; first_failing(&rt, rt.alloc(), &STORIES), None);
}

/// A HAProxy that gets a hello in pieces doesn't take its version, so it goes out in one write.
#[test]
fn hello_at_once(rt: HostRuntime) {
    assert!(rt; writes_once(&rt, rt.alloc(), &EMPTY, Role::Connects, HELLO.len()));
}

/// `b` accepts the hello and the request, and is about to teach its rows.
pub const IS_ASKED: Story = Story {
    tables: FILLED,
    role: Role::Accepts,
    opening: ASKING,
    turns: &[],
    state: State::Teaching,
    rows: &[(7, 5), (8, 240)],
};
