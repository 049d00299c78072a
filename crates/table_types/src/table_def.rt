//! Definitions of tables.

ghost use Rattle.std.specs.Prelude.{◌≡◌, true, Some, None, Ok, IfOk, MatchResult, List, ℕ, ◌≢◌, ◌≤◌, length, ◌↔◌};
ghost use Rattle.std.specs.List.{list_all};
ghost use Rattle.table_types.specs.declared.table_def.DefError.{DefError};
ghost use Rattle.table_types.specs.declared.table_def.DefError.TheVariants.{Memory as OutOfMemory};
ghost use Rattle.table_types.specs.Tables.{Definition, is_definition, is_id, has_its_period, stores, repeats, fault_of, entry_of, in_rising_id};

use crate::data_type::DataType;
use crate::items::Items;
use crate::key::KeyKind;
use crate::memory::Memory;
use crate::name::is_name;
use std::alloc::Global;
use std::marker::Model;
use thiserror::Error;

/// Why a definition was refused: the first of these that applies, in this order.
#[derive(Clone, Copy, Debug, PartialEq, Eq, Error)]
pub enum DefError {
    /// The id is 0 or above 2^32 - 1.
    #[error("a table's id is 1 to 4294967295")]
    Id,
    /// The name is empty, longer than 255 bytes, or contains a NUL.
    #[error("a table's name has 1 to 255 bytes and no NUL")]
    Name,
    /// Keys of this kind can't have this length.
    #[error("keys of this kind can't have that length")]
    KeyLength,
    /// A rate's period is 0 or absent, or another type has a period.
    #[error("a rate needs a period above 0, and no other type has one")]
    Period,
    /// A data type occurs twice.
    #[error("a data type is given twice")]
    RepeatedType,
    /// Memory ran out.
    #[error("memory")]
    Memory,
}

impl From<Memory> for DefError {
    ghost from_gives = { λ _ e. e ≡ OutOfMemory };

    fn from(_refused: Memory) -> DefError {
        DefError::Memory
    }
}

/// The definition of a stick table: what a definition message carries (HAProxy, doc/peers-v2.0.txt, "Table Definition
/// Message").
#[derive(Debug, Drop)]
pub struct TableDef {
    id: u64,
    name: Items<u8>,
    kind: KeyKind,
    key_length: u64,
    expire: u32,
    types: Items<(DataType, Option<u32>)>,
}

impl Model for TableDef {
    ghost use Rattle.std.specs.Prelude.{◌≡◌, true};
    ghost use Rattle.table_types.specs.Tables.{Definition, is_definition};

    ghost Value = { Definition };

    ghost view = { λ d. record { id = d.id; name = d.name; kind = d.kind; key_length = d.key_length; expire = d.expire; types = d.types } };

    ghost invariant = { λ d. is_definition (record { id = d.id; name = d.name; kind = d.kind; key_length = d.key_length; expire = d.expire; types = d.types }) ≡ true };
}

fn is_id(id: u64) -> bool
    ensures { result ≡ is_id id }
{
    1 <= id && id < 1 << 32
}

fn has_its_period(entry: &(DataType, Option<u32>)) -> bool
    ensures { result ≡ has_its_period entry.now }
{
    match entry.1 {
        Some(period) => entry.0.is_rate() && 1 <= period,
        None => !entry.0.is_rate(),
    }
}

fn have_periods(types: &[(DataType, Option<u32>)]) -> bool
    ensures { result ≡ list_all has_its_period types.now }
{
    for entry in types {
        if !has_its_period(entry) {
            return false;
        }
    }
    true
}

pub(crate) fn stores(types: &[(DataType, Option<u32>)], wanted: DataType) -> bool
    ensures { result ≡ stores wanted types.now }
{
    for entry in types {
        if wanted.id() == entry.0.id() {
            return true;
        }
    }
    false
}

/// Returns whether a data type occurs twice. Stops after 20 entries, since 21 entries always repeat one of the 20
/// types.
fn repeats(types: &[(DataType, Option<u32>)]) -> bool
    ensures { result ≡ repeats types.now }
{
    for (index, entry) in types.iter().enumerate() {
        if stores(&types[index + 1..], entry.0) {
            return true;
        }
    }
    false
}

fn entry_of(types: &[(DataType, Option<u32>)], wanted: DataType) -> Option<(DataType, Option<u32>)>
    ensures { result ≡ entry_of types.now wanted }
{
    for entry in types {
        if wanted.id() == entry.0.id() {
            return Some(*entry);
        }
    }
    None
}

fn in_rising_id(
    alloc: Global,
    types: &[(DataType, Option<u32>)],
) -> Result<Vec<(DataType, Option<u32>)>, Memory>
    ensures { IfOk result (λ sorted. sorted.items ≡ in_rising_id types.now) }
{
    let entries = DataType::ALL
        .iter()
        .filter_map(|data_type| entry_of(types, *data_type));
    Ok(entries.collect(alloc)?)
}

impl TableDef {
    /// Makes a definition of its parts, or returns the first thing that is wrong with them. The types may come in any
    /// order, each rate with its period in milliseconds; the definition has them in ascending order of id.
    ///
    /// * `id`: 1 to 2^32 - 1, the table's id in messages;
    /// * `name`: 1 to 255 bytes without NUL;
    /// * `key_length`: in bytes, within the bounds of `KeyKind::fits_length`;
    /// * `expire`: how long a row lives after its last update, in milliseconds; 0 means forever.
    pub fn new(
        alloc: Global,
        id: u64,
        name: Vec<u8>,
        kind: KeyKind,
        key_length: u64,
        expire: u32,
        types: Vec<(DataType, Option<u32>)>,
    ) -> Result<TableDef, DefError>
        ensures made { IfOk result (λ d. d ≡ record { id = id; name = name.items; kind = kind; key_length = key_length; expire = expire; types = in_rising_id types.items }) }
        ensures refused { (e : DefError) → e ≢ DefError.Memory →
            (result ≡ Err e) ↔ (fault_of id name.items kind key_length types.items ≡ Some e) }
    {
        if !is_id(id) {
            return Err(DefError::Id);
        }
        if !is_name(name.as_slice()) {
            return Err(DefError::Name);
        }
        if !kind.fits_length(key_length) {
            return Err(DefError::KeyLength);
        }
        if !have_periods(types.as_slice()) {
            return Err(DefError::Period);
        }
        if repeats(types.as_slice()) {
            return Err(DefError::RepeatedType);
        }
        let types = in_rising_id(alloc, types.as_slice())?;
        Ok(TableDef {
            id,
            name: Items::new(name),
            kind,
            key_length,
            expire,
            types: Items::new(types),
        })
    }

    /// Returns the table's id in messages: 1 to 2^32 - 1.
    pub fn id(&self) -> u64
        ensures value { result ≡ self.now.id }
        ensures defined { is_definition self.now ≡ true }
    {
        self.id
    }

    /// Returns the table's name.
    pub fn name(&self) -> &[u8]
        ensures { result.now ≡ self.now.name }
    {
        self.name.as_slice()
    }

    /// Returns the kind of the table's keys.
    pub fn kind(&self) -> KeyKind
        ensures { result ≡ self.now.kind }
    {
        self.kind
    }

    /// Returns the key length in bytes.
    pub fn key_length(&self) -> u64
        ensures { result ≡ self.now.key_length }
    {
        self.key_length
    }

    /// Returns how long a row lives after its last update, in milliseconds; 0 means forever.
    pub fn expire(&self) -> u32
        ensures { result ≡ self.now.expire }
    {
        self.expire
    }

    /// Returns the data types that the table stores, in ascending order of id, each rate with its period in
    /// milliseconds.
    pub fn types(&self) -> &[(DataType, Option<u32>)]
        ensures { result.now ≡ self.now.types }
    {
        self.types.as_slice()
    }

    /// Returns an equal copy. Fails if memory runs out.
    pub fn copy(&self, alloc: Global) -> Result<TableDef, Memory>
        ensures { IfOk result (λ copy. copy ≡ self.now) }
    {
        Ok(TableDef {
            id: self.id,
            name: self.name.copy(alloc)?,
            kind: self.kind,
            key_length: self.key_length,
            expire: self.expire,
            types: self.types.copy(alloc)?,
        })
    }
}
