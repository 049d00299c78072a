//! The line of a table.
ghost use Rattle.std.specs.Prelude.{◌≡◌, ◌↔◌, IsTrue, None, Ok, map};
ghost use Rattle.admin_text.specs.Outcomes.{Gives};
ghost use Rattle.admin_text.specs.Statements.{said_by};
ghost use Rattle.admin_text.specs.TableLines.{definition_with, expire_at, id_at, if_fits, keys_at, many_fault, parts_at, place_fault, table_at, taken_id, taken_name};
ghost use Rattle.admin_text.specs.declared.settings.Setting.TheVariants as settings;
ghost use Rattle.table_types.specs.Tables.{fault_of};

use crate::before::{count_of, line_with};
use crate::faults::{Fault, TableFault};
use crate::line_kinds::LineKind;
use crate::line_refusals::LineRefusal;
use crate::named::keys_named;
use crate::names::fault_at;
use crate::settings::Setting;
use crate::statements::Statement;
use crate::type_words::read_types;
use node_text::{number, number_from_one};
use std::alloc::Global;
use table_types::{DataType, DefError, Items, KeyKind, Roster, TableDef};

/// The last id of a table in a configuration: other nodes may keep ids in 32 bits with a sign.
const LAST_ID: u32 = (1 << 31) - 1;

/// What a table has but a name and data types.
#[derive(Clone, Copy)]
pub(crate) struct TableParts {
    id: u32,
    kind: KeyKind,
    key_length: u64,
    expire: u32,
}

/// Reads a table, from the words behind `table`.
#[tactic(auto, unfolding(crate::specs::TableLines::table_at))]
pub(crate) fn read_table(
    alloc: Global,
    before: &[Statement<'_>],
    words: &[&[u8]],
) -> Result<Setting, LineRefusal>
    ensures { Gives (λ outcome. outcome ≡ table_at (map said_by before.now) (map (λ word. word.now) words.now)) result }
{
    let [id, name, keys, length, expire, types @ ..] = words else {
        return Err(LineRefusal::Fault(Fault::Form(LineKind::Table)));
    };
    let parts = parts_at(id, name, keys, length, expire)?;
    let types = read_types(alloc, types)?;
    match place_fault(before, id, name) {
        Some(fault) => Err(LineRefusal::Fault(fault)),
        None => table_of(alloc, &parts, name, types),
    }
}

/// Returns the table that has these parts, which may be one.
fn table_of(
    alloc: Global,
    parts: &TableParts,
    name: &[u8],
    types: Items<(DataType, Option<u32>)>,
) -> Result<Setting, LineRefusal>
    requires { fault_of parts.now.id name.now parts.now.kind parts.now.key_length types ≡ None }
    ensures { Gives (λ outcome. outcome ≡ Ok (settings.Table (definition_with parts.now name.now types))) result }
{
    let name = Vec::from_slice(alloc, name)?;
    let (id, kind, key_length, expire) = (
        u64::from(parts.id),
        parts.kind,
        parts.key_length,
        parts.expire,
    );
    match TableDef::new(alloc, id, name, kind, key_length, expire, types.into_vec()) {
        Ok(definition) => Ok(Setting::Table(definition)),
        Err(error) if is_memory(error) => Err(LineRefusal::Memory),
        Err(_) => unreachable!(),
    }
}

/// Returns whether memory ran out.
fn is_memory(error: DefError) -> bool
    ensures { IsTrue result ↔ (error ≡ DefError.Memory) }
{
    error == DefError::Memory
}

/// Reads a table's id, the kind and the length of its keys, and how long its rows live, if its name is one.
fn parts_at(
    id: &[u8],
    name: &[u8],
    keys: &[u8],
    length: &[u8],
    expire: &[u8],
) -> Result<TableParts, Fault>
    ensures { result ≡ parts_at id.now name.now keys.now length.now expire.now }
{
    let id = id_at(id)?;
    if let Some(fault) = fault_at(2, name) {
        return Err(fault);
    }
    let (kind, key_length) = keys_at(keys, length)?;
    let expire = expire_at(expire)?;
    Ok(TableParts {
        id,
        kind,
        key_length,
        expire,
    })
}

/// Reads the id of a table.
fn id_at(word: &[u8]) -> Result<u32, Fault>
    ensures { result ≡ id_at word.now }
{
    number_from_one(word, LAST_ID).ok_or(Fault::Table(TableFault::Id))
}

/// Reads a kind of keys and a length that they have.
fn keys_at(word: &[u8], length: &[u8]) -> Result<(KeyKind, u64), Fault>
    ensures { result ≡ keys_at word.now length.now }
{
    let kind = keys_named(word).ok_or(Fault::Table(TableFault::Keys))?;
    match if_fits(kind, number(length, u64::MAX)) {
        Some(length) => Ok((kind, length)),
        None => Err(Fault::Table(TableFault::Length(kind))),
    }
}

/// Returns the length if keys of this kind have it.
fn if_fits(kind: KeyKind, length: Option<u64>) -> Option<u64>
    ensures { result ≡ if_fits kind length }
{
    match length {
        Some(length) if kind.fits_length(length) => Some(length),
        _ => None,
    }
}

/// Reads how long a row lives, in milliseconds.
fn expire_at(word: &[u8]) -> Result<u32, Fault>
    ensures { result ≡ expire_at word.now }
{
    match number(word, u64::from(u32::MAX)) {
        Some(expire) => Ok(expire as u32),
        None => Err(Fault::Table(TableFault::Expire)),
    }
}

/// Returns that an earlier table has the id or the name, or that there are tables enough.
#[tactic(auto, unfolding(crate::specs::TableLines::place_fault))]
fn place_fault(before: &[Statement<'_>], id: &[u8], name: &[u8]) -> Option<Fault>
    ensures { result ≡ place_fault (map said_by before.now) id.now name.now }
{
    taken_id(line_with(before, LineKind::Table, 1, id))
        .or(taken_name(line_with(before, LineKind::Table, 2, name)))
        .or(many_fault(before))
}

/// Returns that a line gives the id to a table, if one does.
fn taken_id(line: Option<usize>) -> Option<Fault>
    ensures { result ≡ taken_id line }
{
    Some(Fault::Table(TableFault::TakenId(line?)))
}

/// Returns that a line gives the name to a table, if one does.
fn taken_name(line: Option<usize>) -> Option<Fault>
    ensures { result ≡ taken_name line }
{
    Some(Fault::Table(TableFault::TakenName(line?)))
}

/// Returns that there are tables enough, if there are.
fn many_fault(before: &[Statement<'_>]) -> Option<Fault>
    ensures { result ≡ many_fault (map said_by before.now) }
{
    if count_of(before, LineKind::Table) >= Roster::MOST {
        Some(Fault::Table(TableFault::Many))
    } else {
        None
    }
}
