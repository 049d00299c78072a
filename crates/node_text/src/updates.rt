//! Updates.
ghost use Rattle.std.specs.Prelude.{◌≡◌, ◌++◌, true, IfOk, OnOk, Some};
ghost use Rattle.table_types.specs.Updates.{fits};
ghost use Rattle.node_text.specs.Updates.{life_of, update_line, update_text};

use crate::error::LineError;
use crate::keys::{key_of, push_key};
use crate::names::{name_or_none, push_stored_name};
use crate::numbers::{number32, push_number, push_number_or_dash, push_word_and_number};
use crate::values::{push_values, values_of};
use std::alloc::{AllocError, Global};
use table_types::{Key, TableDef, Update};

/// Reads the update of a line `update ID NUMBER LIFE KEY VALUES.. NAME`, from the words after the table's id. It fits the
/// table.
///
/// The last word is the server's name, or `-` for none, if the table stores a name; else it is a value.
pub(crate) fn update_of(
    alloc: Global,
    table: &TableDef,
    words: &[&[u8]],
) -> Result<Update, LineError>
    ensures { IfOk result (λ update. (update.table ≡ table.now.id) × (fits table.now update ≡ true)) }
{
    let [number, life, key, rest @ ..] = words else {
        return Err(LineError::Refused);
    };
    let key = key_of(alloc, table.kind(), key)?;
    let update = update_with(alloc, table, number, life, key, rest)?;
    if table.fits(&update) {
        Ok(update)
    } else {
        Err(LineError::Refused)
    }
}

/// Reads an update of `key` from the words of its number and its life, and those after its key: the values, and the name if
/// the table stores one. The update may have a key of another kind than the table's.
pub(crate) fn update_with(
    alloc: Global,
    table: &TableDef,
    number: &[u8],
    life: &[u8],
    key: Key,
    rest: &[&[u8]],
) -> Result<Update, LineError>
    ensures update { IfOk result (λ update. (update.table ≡ table.now.id) × (update.key ≡ key)) }
    ensures life { IfOk result (λ update. life_of life.now ≡ Some update.life) }
{
    let (types, values, name) = if table.stores_name() {
        let (_, types) = table.types().split_last().ok_or(LineError::Refused)?;
        let (name, values) = rest.split_last().ok_or(LineError::Refused)?;
        (types, values, name_or_none(alloc, name)?)
    } else {
        (table.types(), rest, None)
    };
    Ok(Update {
        table: table.id(),
        number: number32(number).ok_or(LineError::Refused)?,
        life: life_of(life).ok_or(LineError::Refused)?,
        key,
        values: values_of(alloc, types, values)?,
        name,
    })
}

/// Reads a life in milliseconds, or `-` for none.
fn life_of(word: &[u8]) -> Option<Option<u32>>
    ensures { result ≡ life_of word.now }
{
    match word {
        [b'-'] => Some(None),
        _ => Some(Some(number32(word)?)),
    }
}

/// Appends the line of an update: `update`, the table's id, and the update, as a scene has it.
pub fn push_update(text: &mut Vec<u8>, table: &TableDef, update: &Update) -> Result<(), AllocError>
    ensures { OnOk result (text.new.items ≡ text.old.items ++ update_line table.now update.now) }
{
    push_word_and_number(text, "update ", update.table)?;
    text.push(b' ')?;
    push_update_text(text, table, update)?;
    text.push(b'\n')?;
    Ok(())
}

/// Appends an update: its number, its life in milliseconds or `-`, its key, its values, and its name if the table stores one.
pub(crate) fn push_update_text(
    text: &mut Vec<u8>,
    table: &TableDef,
    update: &Update,
) -> Result<(), AllocError>
    ensures { OnOk result (text.new.items ≡ text.old.items ++ update_text table.now update.now) }
{
    push_number(text, u64::from(update.number))?;
    text.push(b' ')?;
    push_number_or_dash(text, update.life.map(u64::from))?;
    text.push(b' ')?;
    push_key(text, &update.key)?;
    push_values(text, update.values.as_slice())?;
    push_stored_name(text, table.stores_name(), update.name.as_ref())
}
