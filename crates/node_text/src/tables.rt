//! Definitions of tables.
ghost use Rattle.std.specs.Prelude.{◌≡◌, IfOk, IfSome, Some, true};
ghost use Rattle.table_types.specs.DataTypes.{name_of};
ghost use Rattle.table_types.specs.declared.data_type.DataType.{DataType};
ghost use Rattle.node_text.specs.Names.{may_name};
ghost use Rattle.node_text.specs.Worlds.{are_alike};

use crate::error::LineError;
use crate::keys::kind_named;
use crate::names::may_name;
use crate::numbers::{number, number32};
use crate::words::cut;
use std::alloc::Global;
use table_types::{DataType, TableDef, is_same_name};

/// Reads the table of a line `table ID NAME KIND L EXPIRE TYPES..`, from the words after the first.
pub fn table_of(alloc: Global, words: &[&[u8]]) -> Result<TableDef, LineError>
    ensures { IfOk result (λ table. may_name table.name ≡ true) }
{
    let [id, name, kind, key_length, expire, types @ ..] = words else {
        return Err(LineError::Refused);
    };
    let id = number(id, u64::MAX).ok_or(LineError::Refused)?;
    let kind = kind_named(kind).ok_or(LineError::Refused)?;
    let key_length = number(key_length, u64::MAX).ok_or(LineError::Refused)?;
    let expire = number32(expire).ok_or(LineError::Refused)?;
    if !may_name(name) {
        return Err(LineError::Refused);
    }
    let name = Vec::from_slice(alloc, name)?;
    let types = types_of(alloc, types)?;
    Ok(TableDef::new(alloc, id, name, kind, key_length, expire, types)?)
}

/// Returns whether two tables have one id or one name.
pub fn are_alike(one: &TableDef, other: &TableDef) -> bool
    ensures { result ≡ are_alike one.now other.now }
{
    one.id() == other.id() || is_same_name(one.name(), other.name())
}

/// Reads data types, one from each word.
fn types_of(alloc: Global, words: &[&[u8]]) -> Result<Vec<(DataType, Option<u32>)>, LineError> {
    let mut types = Vec::new(alloc);
    if words.len() > DataType::ALL.len() {
        return Err(LineError::Refused);
    }
    for word in words {
        types.push(type_of(word).ok_or(LineError::Refused)?)?;
    }
    Ok(types)
}

/// Reads a data type `name`, or `name:period` for one with a period in milliseconds.
fn type_of(word: &[u8]) -> Option<(DataType, Option<u32>)> {
    match cut(word, b':') {
        Some((name, period)) => Some((type_named(name)?, Some(number32(period)?))),
        None => Some((type_named(word)?, None)),
    }
}

/// Returns the data type of this name.
pub(crate) fn type_named(name: &[u8]) -> Option<DataType>
    ensures name { IfSome result (λ data_type. name_of data_type ≡ name.now) }
    ensures exactly { (data_type : DataType) → name_of data_type ≡ name.now → result ≡ Some data_type }
{
    match str::from_utf8(name) {
        Ok(name) => DataType::from_name(name),
        Err(_) => None,
    }
}
