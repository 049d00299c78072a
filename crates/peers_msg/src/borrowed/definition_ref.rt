//! Definitions of tables, borrowed.

ghost use Rattle.std.specs.Prelude.{◌≡◌, ◌↔◌, true, IsTrue, IfOk};
ghost use Rattle.table_types.specs.declared.table_def.DefError.{DefError};
ghost use Rattle.table_types.specs.Tables.{is_definition};
ghost use Rattle.table_types.specs.DataTypes.{all_types};
ghost use Rattle.peers_msg.specs.Borrowed.{is_read, list_read};
ghost use Rattle.peers_msg.specs.Reading.{types_at};

use crate::reading::period_at;
use std::alloc::Global;
use std::marker::Model;
use table_types::{DataType, DefError, KeyKind, Memory, TableDef};

/// The definition of a table, borrowed from the bytes of the message (HAProxy, doc/peers-v2.0.txt, "Table Definition
/// Message").
#[derive(Debug, Drop)]
pub struct DefinitionRef<'a> {
    id: u64,
    name: &'a [u8],
    kind: KeyKind,
    key_length: u64,
    expire: u32,
    /// The bits of the types that the table stores.
    stored: u64,
    /// The bytes that begin with the periods of these types, as reading has checked.
    periods: &'a [u8],
}

impl<'a> Model for DefinitionRef<'a> {
    ghost use Rattle.std.specs.Prelude.{◌≡◌, true};
    ghost use Rattle.table_types.specs.DataTypes.{all_types};
    ghost use Rattle.table_types.specs.Tables.{Definition, is_definition};
    ghost use Rattle.peers_msg.specs.Borrowed.{is_read, list_read};
    ghost use Rattle.peers_msg.specs.Reading.{types_at};

    ghost Value = { Definition };

    ghost view = { λ d. record { id = d.id; name = d.name.now; kind = d.kind; key_length = d.key_length; expire = d.expire; types = list_read (types_at all_types d.stored d.periods.now) } };

    ghost invariant = { λ d. (is_read (types_at all_types d.stored d.periods.now) ≡ true) × (is_definition (record { id = d.id; name = d.name.now; kind = d.kind; key_length = d.key_length; expire = d.expire; types = list_read (types_at all_types d.stored d.periods.now) }) ≡ true) };
}

/// Returns the types whose bits are set, with their periods, which are at the front of `periods`.
fn types_of(
    alloc: Global,
    stored: u64,
    periods: &[u8],
) -> Result<Vec<(DataType, Option<u32>)>, Memory>
    requires { is_read (types_at all_types stored periods.now) ≡ true }
    ensures { IfOk result (λ types. types.items ≡ list_read (types_at all_types stored periods.now)) }
{
    let mut types = Vec::new(alloc);
    let mut left = stored;
    let mut rest = periods;
    for data_type in DataType::ALL.iter() {
        let bit = left % 2;
        left /= 2;
        if bit == 0 {
            continue;
        }
        match period_at(*data_type, rest) {
            Ok((period, after)) => {
                types.push((*data_type, period))?;
                rest = after;
            }
            Err(_) => unreachable!(),
        }
    }
    Ok(types)
}

fn is_memory(error: DefError) -> bool
    ensures { IsTrue result ↔ (error ≡ DefError.Memory) }
{
    error == DefError::Memory
}

/// Makes the definition of parts that reading has checked.
fn table_of(
    alloc: Global,
    id: u64,
    name: &[u8],
    kind: KeyKind,
    key_length: u64,
    expire: u32,
    types: Vec<(DataType, Option<u32>)>,
) -> Result<TableDef, Memory>
    requires { is_definition (record { id = id; name = name.now; kind = kind; key_length = key_length; expire = expire; types = types.items }) ≡ true }
    ensures { IfOk result (λ table. table ≡ record { id = id; name = name.now; kind = kind; key_length = key_length; expire = expire; types = types.items }) }
{
    let name = Vec::from_slice(alloc, name)?;
    match TableDef::new(alloc, id, name, kind, key_length, expire, types) {
        Ok(table) => Ok(table),
        Err(error) if is_memory(error) => Err(Memory),
        Err(_) => unreachable!(),
    }
}

impl<'a> DefinitionRef<'a> {
    /// Makes a definition of its parts.
    pub(crate) fn new(
        id: u64,
        name: &'a [u8],
        kind: KeyKind,
        key_length: u64,
        expire: u32,
        stored: u64,
        periods: &'a [u8],
    ) -> DefinitionRef<'a>
        requires read { is_read (types_at all_types stored periods.now) ≡ true }
        requires defined { is_definition (record { id = id; name = name.now; kind = kind; key_length = key_length; expire = expire; types = list_read (types_at all_types stored periods.now) }) ≡ true }
        ensures { result ≡ record { id = id; name = name.now; kind = kind; key_length = key_length; expire = expire; types = list_read (types_at all_types stored periods.now) } }
    {
        DefinitionRef {
            id,
            name,
            kind,
            key_length,
            expire,
            stored,
            periods,
        }
    }

    /// Returns the id that the sender of the updates gives the table, 1 to 2^32 - 1.
    pub fn id(&self) -> u64
        ensures value { result ≡ self.now.id }
        ensures defined { is_definition self.now ≡ true }
    {
        self.id
    }

    /// Returns the table's name: 1 to 255 bytes, none of them NUL.
    pub fn name(&self) -> &'a [u8]
        ensures { result.now ≡ self.now.name }
    {
        self.name
    }

    /// Returns the kind of the table's keys.
    pub fn kind(&self) -> KeyKind
        ensures { result ≡ self.now.kind }
    {
        self.kind
    }

    /// Returns the key length in bytes; for strings, one more than the longest key.
    pub fn key_length(&self) -> u64
        ensures { result ≡ self.now.key_length }
    {
        self.key_length
    }

    /// Returns how long a row lives after its last update, in milliseconds; 0 means forever.
    pub fn expire(&self) -> u32
        ensures { result ≡ self.now.expire }
    {
        self.expire
    }

    /// Returns an equal owned definition. Fails if memory runs out.
    pub fn to_owned(&self, alloc: Global) -> Result<TableDef, Memory>
        ensures { IfOk result (λ table. table ≡ self.now) }
    {
        let types = types_of(alloc, self.stored, self.periods)?;
        table_of(
            alloc,
            self.id,
            self.name,
            self.kind,
            self.key_length,
            self.expire,
            types,
        )
    }
}
