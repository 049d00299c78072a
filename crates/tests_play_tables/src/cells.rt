//! Tables with their history: what is made, called and compared.

ghost use Rattle.std.specs.Prelude.{◌≤◌};

use std::alloc::Global;
use table_cell::TableCell;
use table_types::{Batch, Cell, DataType, Key, KeyKind, Row, Update, Value};
use tests_play_data::parts::{
    KeyParts, TableParts, UpdateParts, definition, is_called, text_key, update,
};

/// Table 4 `wide`: string keys, two counts and the server's name.
pub(crate) static WIDE: TableParts = TableParts {
    id: 4,
    name: b"wide",
    kind: KeyKind::String,
    key_length: 33,
    expire: 30_000,
    types: &[
        (DataType::Gpc0, None),
        (DataType::Gpc1, None),
        (DataType::ServerKey, None),
    ],
};

/// The name in the rows of `wide`.
pub(crate) const SERVER: &[u8] = b"a-server-of-a-longer-name";

/// Makes a new table with room for `size` rows.
pub(crate) fn cell(alloc: Global, table: &TableParts, size: usize) -> Option<TableCell>
    requires { (1 ≤ size) × (size ≤ 1000000) }
{
    TableCell::new(alloc, definition(alloc, table)?, size, false, 1).ok()
}

/// Returns whether the table has string keys.
pub(crate) fn is_wide(cell: &TableCell) -> bool {
    cell.definition().kind() == KeyKind::String
}

/// Makes the key of this number, or that of this letter in a table of string keys.
pub(crate) fn key_of(alloc: Global, is_wide: bool, key: u32) -> Option<Key> {
    if is_wide {
        text_key(alloc, &[u8::try_from(key).ok()?])
    } else {
        Some(Key::Int(key))
    }
}

/// Returns whether a key is this number, or this letter.
fn is_key(key: &Key, wanted: u32) -> bool {
    match key {
        Key::Int(number) => *number == wanted,
        Key::Str(text) => matches!(text.as_slice(), [letter] if u32::from(*letter) == wanted),
        _ => false,
    }
}

/// Returns the count of a row that has just one, or the first one of a row of `wide`, whose second one is 0.
pub(crate) fn count(row: &Row) -> Option<u64> {
    match row.cells() {
        [Cell::Count(count)] => Some(*count),
        [Cell::Count(count), Cell::Count(0)] if is_called(row.name(), SERVER) => Some(*count),
        _ => None,
    }
}

/// Returns such a count of an update.
fn told(update: &Update) -> Option<u64> {
    match update.values.as_slice() {
        [Value::Count(count)] => Some(*count),
        [Value::Count(count), Value::Count(0)] if is_called(update.name.as_ref(), SERVER) => {
            Some(*count)
        }
        _ => None,
    }
}

/// Returns the number, the life and the count of the only update of a batch.
pub(crate) fn only(batch: &Batch) -> Option<(u32, u32, u64)> {
    let [update] = batch.updates() else {
        return None;
    };
    Some((update.number, update.life?, told(update)?))
}

/// Returns whether the rows of a table have these keys and counts, in this order.
pub(crate) fn has(cell: &TableCell, rows: &[(u32, u64)]) -> Option<bool> {
    let list = cell.rows().ok()?;
    if list.len() != rows.len() {
        return Some(false);
    }
    for ((key, row), (wanted, counted)) in list.iter().zip(rows) {
        if !is_key(key, *wanted) || count(row)? != *counted {
            return Some(false);
        }
    }
    Some(true)
}

/// An update that a peer numbered 9: key 7 of `t1` has 5.
static RECEIVED: UpdateParts = UpdateParts {
    table: 1,
    number: 9,
    life: Some(10_000),
    key: KeyParts::Int(7),
    values: &[Value::Count(5)],
    name: b"",
};

/// Another one: key `a` of `wide` has 5.
static RECEIVED_WIDE: UpdateParts = UpdateParts {
    table: 4,
    number: 9,
    life: Some(10_000),
    key: KeyParts::Str(b"a"),
    values: &[Value::Count(5), Value::Count(0)],
    name: SERVER,
};

/// Makes the update of `wide` that a peer numbered 9, or that of `t1`.
pub(crate) fn received(alloc: Global, is_wide: bool) -> Option<Update> {
    if is_wide {
        update(alloc, &RECEIVED_WIDE)
    } else {
        update(alloc, &RECEIVED)
    }
}
