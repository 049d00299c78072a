//! Values of updates, and of rows.
ghost use Rattle.std.specs.Prelude.{◌≡◌, ◌++◌, OnOk, flat_map};
ghost use Rattle.node_text.specs.Values.{cell_text, rate_text, value_text};

use crate::error::LineError;
use crate::numbers::{number, number32, push_number, push_spaced};
use crate::words::cut;
use std::alloc::{AllocError, Global};
use table_types::{Cell, DataType, Shape, ShortList, Value};

/// Reads the values of an update: one word for each of `types`.
pub(crate) fn values_of(
    alloc: Global,
    types: &[(DataType, Option<u32>)],
    words: &[&[u8]],
) -> Result<ShortList<Value>, LineError> {
    if types.len() != words.len() {
        return Err(LineError::Refused);
    }
    let mut values = ShortList::new();
    for (entry, word) in types.iter().zip(words) {
        values = values.with(
            alloc,
            value_of(entry.0.shape(), word).ok_or(LineError::Refused)?,
        )?;
    }
    Ok(values)
}

/// Reads a value of `shape`: a number, or `elapsed/current/previous` for a rate.
fn value_of(shape: Shape, word: &[u8]) -> Option<Value> {
    match shape {
        Shape::Count => Some(Value::Count(u64::from(number32(word)?))),
        Shape::LongCount => Some(Value::Count(number(word, u64::MAX)?)),
        Shape::Rate => {
            let (elapsed, counts) = cut(word, b'/')?;
            let (current, previous) = cut(counts, b'/')?;
            Some(Value::Rate {
                elapsed: number32(elapsed)?,
                current: number32(current)?,
                previous: number32(previous)?,
            })
        }
        Shape::Name => None,
    }
}

/// Appends the values of an update, each after a space.
pub(crate) fn push_values(text: &mut Vec<u8>, values: &[Value]) -> Result<(), AllocError>
    ensures { OnOk result (text.new.items ≡ text.old.items ++ flat_map value_text values.now) }
{
    for value in values {
        push_value(text, *value)?;
    }
    Ok(())
}

/// Appends a space and `value`: a count, or a rate as `elapsed/current/previous`.
fn push_value(text: &mut Vec<u8>, value: Value) -> Result<(), AllocError>
    ensures { OnOk result (text.new.items ≡ text.old.items ++ value_text value) }
{
    match value {
        Value::Count(count) => push_spaced(text, count),
        Value::Rate {
            elapsed,
            current,
            previous,
        } => push_rate(text, u64::from(elapsed), current, previous),
    }
}

/// Appends the values of a row, each after a space.
pub(crate) fn push_cells(text: &mut Vec<u8>, cells: &[Cell]) -> Result<(), AllocError>
    ensures { OnOk result (text.new.items ≡ text.old.items ++ flat_map cell_text cells.now) }
{
    for cell in cells {
        push_cell(text, *cell)?;
    }
    Ok(())
}

/// Appends a space and `cell`: a count, or a rate as `start/current/previous`.
fn push_cell(text: &mut Vec<u8>, cell: Cell) -> Result<(), AllocError>
    ensures { OnOk result (text.new.items ≡ text.old.items ++ cell_text cell) }
{
    match cell {
        Cell::Count(count) => push_spaced(text, count),
        Cell::Rate {
            start,
            current,
            previous,
        } => push_rate(text, start, current, previous),
    }
}

/// Appends a space and the three numbers of a rate, with `/` between them. `first` is in milliseconds: a moment or a time.
fn push_rate(text: &mut Vec<u8>, first: u64, current: u32, previous: u32) -> Result<(), AllocError>
    ensures { OnOk result (text.new.items ≡ text.old.items ++ rate_text first current previous) }
{
    push_spaced(text, first)?;
    text.push(b'/')?;
    push_number(text, u64::from(current))?;
    text.push(b'/')?;
    push_number(text, u64::from(previous))
}
