//! Devices that fail at a given call, stop or go on for ever.

use peers_devices::{MOST_READS, ReadError, WriteError};
use peers_engine::{PiecesError, WriteFault};
use table_types::{DataType, KeyKind, Value};
use tests_play_data::parts::{KeyParts, KnownParts, T1, TableParts, UpdateParts};
use tests_play_nodes::devices::{
    Device, Reading, Writing, breaks_off, first_misread, first_miswritten,
};
use tests_play_nodes::fused::{InPieces, Written};
use tests_play_nodes::{Then, fused};

static READINGS: [Reading; 4] = [
    (Device::Counted(5, Then::Stops), Ok(5), 6),
    (Device::Counted(5, Then::Fails), Err(ReadError::Failed), 6),
    // A read whose failure isn't counted is made again.
    (Device::Uncounted(5, Then::Stops), Ok(5), 11),
    // A million reads and no more.
    (
        Device::Counted(u32::MAX, Then::Stops),
        Err(ReadError::Endless),
        MOST_READS,
    ),
];

#[test]
fn reading_to_the_end(rt: HostRuntime) {
    assert_eq!(rt; first_misread(rt.alloc(), &READINGS), None);
}

static WRITINGS: [Writing; 6] = [
    (Device::Counted(3, Then::Fails), Ok(()), 3),
    (
        Device::Counted(2, Then::Fails),
        Err(WriteError::Failed { sent: 2 }),
        3,
    ),
    (
        Device::Counted(2, Then::Stops),
        Err(WriteError::Stuck { sent: 2 }),
        3,
    ),
    (
        Device::Counted(0, Then::Stops),
        Err(WriteError::Stuck { sent: 0 }),
        1,
    ),
    // A write whose failure isn't counted is made again, a million times.
    (Device::Uncounted(3, Then::Stops), Ok(()), 5),
    (
        Device::Uncounted(0, Then::Fails),
        Err(WriteError::Stuck { sent: 0 }),
        1_000_001,
    ),
];

#[test]
fn writing_all(rt: HostRuntime) {
    assert_eq!(rt; first_miswritten(&WRITINGS), None);
}

/// A scene of two updates.
const TWO_UPDATES: &str = "table 1 t1 integer 4 30000 gpc0
update 1 1 30000 7 5
update 1 2 30000 8 240
";

/// The output fails, or takes nothing any more.
#[test]
fn an_output_that_breaks_off(rt: HostRuntime) {
    for then in [Then::Fails, Then::Stops] {
        assert!(rt; breaks_off(rt.alloc(), TWO_UPDATES, 20, then));
    }
}

/// The lesson of these updates, 42 bytes, and its first 20 bytes.
const LESSON: &[u8] =
    b"\x0A\x82\x0A\x01\x02t1\x02\x04\x04\xF0\xC4\x0D\x0A\x85\x0D\x00\x00\x00\x01\x00\x00\x75\x30\x00\x00\x00\x07\x05\x0A\x86\x0A\x00\x00\x75\x30\x00\x00\x00\x08\xF0\x00";

const FIRST: &[u8] = b"\x0A\x82\x0A\x01\x02t1\x02\x04\x04\xF0\xC4\x0D\x0A\x85\x0D\x00\x00\x00\x01";

static WRITTEN: [Written; 2] = [
    Written {
        lesson: LESSON,
        room: 20,
        ends: Err(WriteFault { sent: 20 }),
        written: FIRST,
    },
    Written {
        lesson: LESSON,
        room: 42,
        ends: Ok(()),
        written: LESSON,
    },
];

#[test]
fn a_lesson_over_a_writer_that_fails(rt: HostRuntime) {
    assert_eq!(rt; fused::first_miswritten(rt.alloc(), &WRITTEN), None);
}

const NEW: KnownParts = KnownParts {
    table: T1,
    selected: None,
    defined: &[],
    last: &[],
    held: &[],
};

/// The updates of `LESSON`.
const UPDATES: &[UpdateParts] = &[
    UpdateParts {
        table: 1,
        number: 1,
        life: Some(30_000),
        key: KeyParts::Int(7),
        values: &[Value::Count(5)],
        name: b"",
    },
    UpdateParts {
        table: 1,
        number: 2,
        life: Some(30_000),
        key: KeyParts::Int(8),
        values: &[Value::Count(240)],
        name: b"",
    },
];

const LONG_KEYS: KnownParts = KnownParts {
    table: TableParts {
        id: 1,
        name: b"bt",
        kind: KeyKind::Binary,
        key_length: 8_192,
        expire: 30_000,
        types: &[(DataType::Gpc0, None)],
    },
    selected: Some(1),
    defined: &[1],
    last: &[(1, 0)],
    held: &[],
};

const LONG_KEY: &[u8] = &[7; 8_192];

/// Their lesson has three messages of 5 + 4 + 8,192 + 1 bytes, 24,606 in all: header, life, key and value, and no number.
const LONG_UPDATES: &[UpdateParts] = &[
    UpdateParts {
        table: 1,
        number: 1,
        life: Some(30_000),
        key: KeyParts::Bin(LONG_KEY),
        values: &[Value::Count(5)],
        name: b"",
    },
    UpdateParts {
        table: 1,
        number: 2,
        life: Some(30_000),
        key: KeyParts::Bin(LONG_KEY),
        values: &[Value::Count(5)],
        name: b"",
    },
    UpdateParts {
        table: 1,
        number: 3,
        life: Some(30_000),
        key: KeyParts::Bin(LONG_KEY),
        values: &[Value::Count(5)],
        name: b"",
    },
];

/// The beginning of that lesson: an incremental update with a life and 8,197 bytes of data, and its life.
const LONG_FIRST: &[u8] = b"\x0A\x86\xF5\xF1\x02\x00\x00\x75\x30\x07";

static IN_PIECES: [InPieces; 4] = [
    InPieces {
        from: NEW,
        updates: UPDATES,
        room: 20,
        error: Some(PiecesError::Write { sent: 20 }),
        count: 20,
        first: FIRST,
    },
    InPieces {
        from: NEW,
        updates: UPDATES,
        room: 42,
        error: None,
        count: 42,
        first: LESSON,
    },
    // The first two messages have more than 16,384 bytes, so the third is written by itself.
    InPieces {
        from: LONG_KEYS,
        updates: LONG_UPDATES,
        room: 20_000,
        error: Some(PiecesError::Write { sent: 20_000 }),
        count: 20_000,
        first: LONG_FIRST,
    },
    InPieces {
        from: LONG_KEYS,
        updates: LONG_UPDATES,
        room: 30_000,
        error: None,
        count: 24_606,
        first: LONG_FIRST,
    },
];

#[test]
fn a_lesson_in_pieces_over_a_writer_that_fails(rt: HostRuntime) {
    assert_eq!(rt;
        fused::first_miswritten_in_pieces(rt.alloc(), &IN_PIECES),
        None
    );
}
