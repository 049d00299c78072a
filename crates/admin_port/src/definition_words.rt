//! How a table is defined, in HAProxy's words, as far as two definitions of it differ.
ghost use Rattle.std.specs.Prelude.{◌≡◌, ◌++◌, OnOk};
ghost use Rattle.admin_port.specs.DefinitionWords.{further_text, in_units, key_length_text, kind_text, length_text, side_text, stored_text, string_text, told_period, type_text, types_text, unknown_text};

use crate::lines::push_words;
use crate::shown_tables::shown_kind;
use node_core::{Difference, TableShape};
use node_text::{push_number, push_word_and_number};
use std::alloc::{AllocError, Global};
use table_types::{DataType, KeyKind};

/// The number of the kind of strings.
const STRING: u64 = 6;

/// The number of the kind of binary keys.
const BINARY: u64 = 7;

/// Returns how many of HAProxy's units a time has, and the largest unit of which it has a whole number.
fn in_units(milliseconds: u32) -> (u32, &'static str)
    ensures count { result.0 ≡ (in_units milliseconds).0 }
    ensures unit { result.1.now ≡ (in_units milliseconds).1 }
{
    if milliseconds % 86_400_000 == 0 {
        (milliseconds / 86_400_000, "d")
    } else if milliseconds % 3_600_000 == 0 {
        (milliseconds / 3_600_000, "h")
    } else if milliseconds % 60_000 == 0 {
        (milliseconds / 60_000, "m")
    } else if milliseconds % 1_000 == 0 {
        (milliseconds / 1_000, "s")
    } else {
        (milliseconds, "ms")
    }
}

/// Appends a period, or `?` if it isn't known.
fn push_period(text: &mut Vec<u8>, period: Option<u32>) -> Result<(), AllocError>
    ensures { OnOk result (text.new.items ≡ text.old.items ++ told_period period) }
{
    match period {
        Some(milliseconds) => {
            let (count, unit) = in_units(milliseconds);
            push_number(text, u64::from(count))?;
            push_words(text, unit)
        }
        None => push_words(text, "?"),
    }
}

/// Appends a data type, with its period if it is a rate.
#[tactic(auto, unfolding(crate::specs::DefinitionWords::type_text))]
fn push_type(text: &mut Vec<u8>, entry: &(DataType, Option<u32>)) -> Result<(), AllocError>
    ensures { OnOk result (text.new.items ≡ text.old.items ++ type_text entry.now) }
{
    push_words(text, entry.0.name())?;
    if !entry.0.is_rate() {
        return Ok(());
    }
    push_words(text, "(")?;
    push_period(text, entry.1)?;
    push_words(text, ")")
}

/// Appends data types, with commas between them.
fn push_types(text: &mut Vec<u8>, types: &[(DataType, Option<u32>)]) -> Result<(), AllocError>
    ensures { OnOk result (text.new.items ≡ text.old.items ++ types_text types.now) }
{
    let Some((first, others)) = types.split_first() else {
        return Ok(());
    };
    push_type(text, first)?;
    for entry in others {
        text.push(b',')?;
        push_type(text, entry)?;
    }
    Ok(())
}

/// Appends the kind of keys with this number.
fn push_kind(text: &mut Vec<u8>, number: u64) -> Result<(), AllocError>
    ensures { OnOk result (text.new.items ≡ text.old.items ++ kind_text number) }
{
    match KeyKind::from_number(number) {
        Some(kind) => {
            push_words(text, "type ")?;
            push_words(text, shown_kind(kind))
        }
        None => push_word_and_number(text, "type number ", number),
    }
}

/// Appends a key length, in brackets.
fn push_key_length(text: &mut Vec<u8>, key_length: u64) -> Result<(), AllocError>
    ensures { OnOk result (text.new.items ≡ text.old.items ++ key_length_text key_length) }
{
    push_words(text, " (key length ")?;
    push_number(text, key_length)?;
    push_words(text, ")")?;
    Ok(())
}

/// Appends the length of strings, which HAProxy's configuration gives as one less.
fn push_string_length(text: &mut Vec<u8>, key_length: u64) -> Result<(), AllocError>
    ensures { OnOk result (text.new.items ≡ text.old.items ++ string_text key_length) }
{
    push_words(text, "type string len ")?;
    push_number(text, key_length.saturating_sub(1))?;
    push_key_length(text, key_length)?;
    Ok(())
}

/// Appends the length of keys of the kind with this number.
fn push_length(text: &mut Vec<u8>, kind: u64, key_length: u64) -> Result<(), AllocError>
    ensures { OnOk result (text.new.items ≡ text.old.items ++ length_text kind key_length) }
{
    if kind == STRING && key_length >= 1 {
        push_string_length(text, key_length)
    } else if kind == BINARY {
        push_word_and_number(text, "type binary len ", key_length)
    } else {
        push_word_and_number(text, "key length ", key_length)
    }
}

/// Appends that there are data types from 20 up, if there are.
fn push_further(text: &mut Vec<u8>, further: bool) -> Result<(), AllocError>
    ensures { OnOk result (text.new.items ≡ text.old.items ++ further_text further) }
{
    if further {
        push_words(text, " and data types from 20 up")
    } else {
        Ok(())
    }
}

/// Appends what a table without data types below 20 stores.
fn push_unknown(text: &mut Vec<u8>, further: bool) -> Result<(), AllocError>
    ensures { OnOk result (text.new.items ≡ text.old.items ++ unknown_text further) }
{
    if further {
        push_words(text, "data types from 20 up")
    } else {
        push_words(text, "no data types")
    }
}

/// Appends what a table stores.
fn push_stored(text: &mut Vec<u8>, shape: &TableShape<'_>) -> Result<(), AllocError>
    ensures { OnOk result (text.new.items ≡ text.old.items ++ stored_text shape.now.types shape.now.further) }
{
    if shape.types().is_empty() {
        return push_unknown(text, shape.has_further_types());
    }
    push_words(text, "store ")?;
    push_types(text, shape.types())?;
    push_further(text, shape.has_further_types())
}

/// Appends how a table is defined on one side, as far as `difference` goes, given how it is on the other side.
pub fn push_side(
    alloc: Global,
    text: &mut Vec<u8>,
    difference: Difference,
    shape: &TableShape<'_>,
    other: &TableShape<'_>,
) -> Result<(), AllocError>
    ensures { OnOk result (text.new.items ≡ text.old.items ++ side_text difference shape.now other.now) }
{
    match difference {
        Difference::Kind => push_kind(text, shape.kind()),
        Difference::Length => push_length(text, shape.kind(), shape.key_length()),
        Difference::Types => push_stored(text, shape),
        Difference::Period => {
            let rates = shape.differing_rates(alloc, other)?;
            push_types(text, rates.as_slice())
        }
    }
}
