//! Definitions outside the profile, and those that stand in for them.

ghost use Rattle.std.specs.Prelude.{◌≡◌, ◌↔◌, true, IfOk, IsTrue};
ghost use Rattle.table_types.specs.declared.table_def.DefError.{DefError};
ghost use Rattle.peers_msg.specs.Borrowed.{Reads};
ghost use Rattle.table_types.specs.Names.{is_name};
ghost use Rattle.table_types.specs.Tables.{is_id};
ghost use Rattle.tolerant_intake.specs.Loose.{loose_definition_at, has_name_type};
ghost use Rattle.tolerant_intake.specs.StandIns.{has_short_keys, other_length, name_type_of, stand_in, has_further, loose_table, cause_of};

use crate::loose_table::{LooseTable, types_stored};
use crate::loose_update::has_name_type;
use crate::passed_over::Cause;
use peers_msg::{Breach, integer_at, named_at};
use std::alloc::Global;
use table_types::{DataType, DefError, KeyKind, Memory, Roster, TableDef, is_same_name};

/// What is read of a definition outside the profile (HAProxy, doc/peers-v2.0.txt, "Table Definition Message").
#[derive(Clone, Copy)]
pub(crate) struct LooseDefinition<'a> {
    pub id: u64,
    pub name: &'a [u8],
    /// The number of the kind of the keys.
    pub kind: u64,
    /// The length of the keys in bytes.
    pub key_length: u64,
    /// One bit for each data type.
    pub bits: u64,
    /// The bytes that follow the expire, which begin with the periods of rates.
    pub periods: &'a [u8],
}

/// Reads a definition up to its expire, each field of any size but the id and the name; what follows is kept as it is.
#[tactic(auto, unfolding(crate::specs::Loose::loose_definition_at))]
pub(crate) fn loose_definition_at(bytes: &[u8]) -> Result<LooseDefinition<'_>, Breach>
    ensures read { Reads (λ d. record { id = d.id; name = d.name.now; kind = d.kind; key_length = d.key_length; bits = d.bits; periods = d.periods.now }) result (loose_definition_at bytes.now) }
    ensures id { IfOk result (λ d. is_id d.id ≡ true) }
    ensures name { IfOk result (λ d. is_name d.name.now ≡ true) }
{
    let ((id, name), rest) = named_at(bytes)?;
    let (kind, rest) = integer_at(Breach::BadDefinition, rest)?;
    let (key_length, rest) = integer_at(Breach::BadDefinition, rest)?;
    let (bits, rest) = integer_at(Breach::BadDefinition, rest)?;
    let (_expire, periods) = integer_at(Breach::BadDefinition, rest)?;
    Ok(LooseDefinition {
        id,
        name,
        kind,
        key_length,
        bits,
        periods,
    })
}

/// Returns whether the roster has a table of this name whose keys have the length 1.
fn has_short_keys(roster: &[TableDef], name: &[u8]) -> bool
    ensures { result ≡ has_short_keys roster.now name.now }
{
    for table in roster {
        if is_same_name(table.name(), name) && table.key_length() == 1 {
            return true;
        }
    }
    false
}

/// Returns another key length than that of the roster's table of the name, 1 or 2.
fn other_length(roster: &[TableDef], name: &[u8]) -> u64
    ensures { result ≡ other_length roster.now name.now }
{
    if has_short_keys(roster, name) { 2 } else { 1 }
}

/// Returns the server's name alone, if it is among the types.
fn name_type_of(
    alloc: Global,
    types: &[(DataType, Option<u32>)],
) -> Result<Vec<(DataType, Option<u32>)>, Memory>
    ensures { IfOk result (λ kept. kept.items ≡ name_type_of types.now) }
{
    let mut kept = Vec::new(alloc);
    if has_name_type(types) {
        kept.push((DataType::ServerKey, None))?;
    }
    Ok(kept)
}

fn is_memory(error: DefError) -> bool
    ensures { IsTrue result ↔ (error ≡ DefError.Memory) }
{
    error == DefError::Memory
}

impl<'a> LooseDefinition<'a> {
    /// Returns whether there are data types from 20 up.
    fn has_further(self) -> bool
        ensures { result ≡ has_further (record { id = self.entry.id; name = self.entry.name.now; kind = self.entry.kind; key_length = self.entry.key_length; bits = self.entry.bits; periods = self.entry.periods.now }) }
    {
        self.bits >= 1 << 20
    }

    /// Returns what is kept of the table.
    pub(crate) fn table(self, alloc: Global) -> Result<LooseTable, Memory>
        ensures { IfOk result (λ table. table ≡ loose_table (record { id = self.entry.id; name = self.entry.name.now; kind = self.entry.kind; key_length = self.entry.key_length; bits = self.entry.bits; periods = self.entry.periods.now })) }
    {
        Ok(LooseTable {
            kind: self.kind,
            key_length: self.key_length,
            types: types_stored(alloc, self.bits, self.periods)?,
            further: self.has_further(),
        })
    }

    /// Returns the definition that stands in for this one: no table of the roster has its shape.
    pub(crate) fn stand_in(
        self,
        alloc: Global,
        roster: &Roster,
        types: &[(DataType, Option<u32>)],
    ) -> Result<TableDef, Memory>
        requires id { is_id self.id ≡ true }
        requires name { is_name self.name.now ≡ true }
        requires types { types.now ≡ (loose_table (record { id = self.id; name = self.name.now; kind = self.kind; key_length = self.key_length; bits = self.bits; periods = self.periods.now })).types }
        ensures { IfOk result (λ table. table ≡ stand_in roster.now (record { id = self.entry.id; name = self.entry.name.now; kind = self.entry.kind; key_length = self.entry.key_length; bits = self.entry.bits; periods = self.entry.periods.now })) }
    {
        let length = other_length(roster.tables(), self.name);
        let name = Vec::from_slice(alloc, self.name)?;
        let types = name_type_of(alloc, types)?;
        match TableDef::new(alloc, self.id, name, KeyKind::String, length, 0, types) {
            Ok(table) => Ok(table),
            Err(error) if is_memory(error) => Err(Memory),
            Err(_) => unreachable!(),
        }
    }

    /// Returns why the definition is outside the profile.
    pub(crate) fn cause(self) -> Cause
        ensures { result ≡ cause_of (record { id = self.entry.id; name = self.entry.name.now; kind = self.entry.kind; key_length = self.entry.key_length; bits = self.entry.bits; periods = self.entry.periods.now }) }
    {
        if self.has_further() {
            Cause::DataType
        } else {
            Cause::Definition
        }
    }
}
