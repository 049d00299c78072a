//! Rows.
ghost use Rattle.std.specs.Prelude.{◌≡◌, ◌++◌, OnOk};
ghost use Rattle.node_text.specs.Rows.{kind_text, row_line, row_text, stored_row_text};

use crate::keys::push_key;
use crate::names::push_stored_name;
use crate::numbers::{push_number, push_number_or_dash, push_word_and_number};
use crate::values::push_cells;
use std::alloc::AllocError;
use table_types::{Key, Row, TableDef};

/// Appends the line of a row of a table: `row`, the table's id, and the row.
pub fn push_row(
    text: &mut Vec<u8>,
    table: &TableDef,
    key: &Key,
    row: &Row,
) -> Result<(), AllocError>
    ensures { OnOk result (text.new.items ≡ text.old.items ++ row_line table.now (key.now, row.now)) }
{
    push_word_and_number(text, "row ", table.id())?;
    text.push(b' ')?;
    push_row_text(text, table, key, row)?;
    text.push(b'\n')?;
    Ok(())
}

/// Appends a row with its number and its origin: the number, the row, and `local` or `learned`.
pub fn push_stored_row(
    text: &mut Vec<u8>,
    table: &TableDef,
    key: &Key,
    row: &Row,
) -> Result<(), AllocError>
    ensures { OnOk result (text.new.items ≡ text.old.items ++ stored_row_text table.now (key.now, row.now)) }
{
    push_number(text, u64::from(row.number()))?;
    text.push(b' ')?;
    push_row_text(text, table, key, row)?;
    push_kind(text, row.is_learned())
}

/// Appends a row: the moment at which it ends, in milliseconds, or `-` if it never does, its key, its values, and its name if
/// the table stores one.
fn push_row_text(
    text: &mut Vec<u8>,
    table: &TableDef,
    key: &Key,
    row: &Row,
) -> Result<(), AllocError>
    ensures { OnOk result (text.new.items ≡ text.old.items ++ row_text table.now (key.now, row.now)) }
{
    push_number_or_dash(text, row.ends().map(|moment| moment.milliseconds()))?;
    text.push(b' ')?;
    push_key(text, key)?;
    push_cells(text, row.cells())?;
    push_stored_name(text, table.stores_name(), row.name())
}

/// Appends a space and the origin of a row: this node's own, or learned from a peer.
fn push_kind(text: &mut Vec<u8>, learned: bool) -> Result<(), AllocError>
    ensures { OnOk result (text.new.items ≡ text.old.items ++ kind_text learned) }
{
    if learned {
        text.extend_from_slice(b" learned")
    } else {
        text.extend_from_slice(b" local")
    }
}
