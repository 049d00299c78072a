//! The parts of tables, keys, updates, slots and known states, and what is made of them. `None` comes if memory runs out or
//! the parts are refused, so that a test of what is made of them fails.

use dict_slots::Slots;
use known_state::Known;
use std::alloc::Global;
use table_types::{
    DataType, Items, Key, KeyKind, Name, Roster, ShortList, TableDef, Update, Value,
};

/// The parts of a definition.
#[derive(Drop)]
pub struct TableParts {
    pub id: u64,
    pub name: &'static [u8],
    pub kind: KeyKind,
    pub key_length: u64,
    pub expire: u32,
    pub types: &'static [(DataType, Option<u32>)],
}

/// Table 1 `t1`: integer keys, gpc0, rows of 30 s.
pub const T1: TableParts = TableParts {
    id: 1,
    name: b"t1",
    kind: KeyKind::Integer,
    key_length: 4,
    expire: 30_000,
    types: &[(DataType::Gpc0, None)],
};

/// Table 2 `t2`, otherwise like `t1`.
pub const T2: TableParts = TableParts {
    id: 2,
    name: b"t2",
    kind: KeyKind::Integer,
    key_length: 4,
    expire: 30_000,
    types: &[(DataType::Gpc0, None)],
};

/// Table 3 `st`: string keys, server_key, rows of 30 s.
pub const ST: TableParts = TableParts {
    id: 3,
    name: b"st",
    kind: KeyKind::String,
    key_length: 33,
    expire: 30_000,
    types: &[(DataType::ServerKey, None)],
};

/// Makes the definition of these parts.
pub fn definition(alloc: Global, table: &TableParts) -> Option<TableDef> {
    let name = Vec::from_slice(alloc, table.name).ok()?;
    let types = Vec::from_slice(alloc, table.types).ok()?;
    let (kind, key_length, expire) = (table.kind, table.key_length, table.expire);
    TableDef::new(alloc, table.id, name, kind, key_length, expire, types).ok()
}

/// Makes a roster of `table` alone.
pub fn alone(alloc: Global, table: &TableParts) -> Option<Roster> {
    let mut tables = Vec::new(alloc);
    tables.push(definition(alloc, table)?).ok()?;
    Roster::new(tables).ok()
}

/// Makes the name of these bytes.
pub fn named(alloc: Global, bytes: &[u8]) -> Option<Name> {
    Name::new(Vec::from_slice(alloc, bytes).ok()?)
}

/// The parts of a key.
pub enum KeyParts {
    Int(u32),
    Ip4([u8; 4]),
    Ip6([u8; 16]),
    Str(&'static [u8]),
    Bin(&'static [u8]),
}

fn items(alloc: Global, bytes: &[u8]) -> Option<Items<u8>> {
    Some(Items::new(Vec::from_slice(alloc, bytes).ok()?))
}

/// Makes the string key of these bytes.
pub fn text_key(alloc: Global, bytes: &[u8]) -> Option<Key> {
    Some(Key::Str(items(alloc, bytes)?))
}

/// Makes the key of these parts.
pub fn key(alloc: Global, key: &KeyParts) -> Option<Key> {
    match key {
        KeyParts::Int(number) => Some(Key::Int(*number)),
        KeyParts::Ip4(address) => Some(Key::Ip4(*address)),
        KeyParts::Ip6(address) => Some(Key::Ip6(*address)),
        KeyParts::Str(text) => text_key(alloc, *text),
        KeyParts::Bin(bytes) => Some(Key::Bin(items(alloc, *bytes)?)),
    }
}

/// The parts of an update. An empty `name` stands for none.
pub struct UpdateParts {
    pub table: u64,
    pub number: u32,
    pub life: Option<u32>,
    pub key: KeyParts,
    pub values: &'static [Value],
    pub name: &'static [u8],
}

/// Makes the name of these bytes, or none of no bytes.
pub fn name_or_none(alloc: Global, name: &[u8]) -> Option<Option<Name>> {
    if name.is_empty() {
        return Some(None);
    }
    Some(Some(named(alloc, name)?))
}

/// Makes the update of these parts.
pub fn update(alloc: Global, parts: &UpdateParts) -> Option<Update> {
    let values = ShortList::from_slice(alloc, parts.values).ok()?;
    let name = name_or_none(alloc, parts.name)?;
    Some(Update {
        table: parts.table,
        number: parts.number,
        life: parts.life,
        key: key(alloc, &parts.key)?,
        values,
        name,
    })
}

/// Makes the updates of these parts.
pub fn updates(alloc: Global, given: &[UpdateParts]) -> Option<Vec<Update>> {
    let mut updates = Vec::new(alloc);
    for parts in given {
        updates.push(update(alloc, parts)?).ok()?;
    }
    Some(updates)
}

/// Makes slots, of which those of `held` hold `s1`, written in this order.
pub fn slots(alloc: Global, held: &[u8]) -> Option<Slots> {
    let mut slots = Slots::new(alloc);
    for id in held {
        if 1 <= *id && *id <= Slots::COUNT {
            let _empty = slots.write(*id, named(alloc, b"s1")?);
        }
    }
    Some(slots)
}

/// Returns whether `slot` has this name, or none if `name` is empty.
pub fn is_called(slot: Option<&Name>, name: &[u8]) -> bool {
    match slot {
        Some(held) => held.as_slice() == name,
        None => name.is_empty(),
    }
}

/// Returns whether the slots of `held` hold `s1`, and no other slot holds a name.
pub fn are_held(slots: &Slots, held: &[u8]) -> bool {
    for id in 1..=Slots::COUNT {
        let name = if held.contains(&id) {
            b"s1".as_slice()
        } else {
            b"".as_slice()
        };
        if !is_called(slots.name(id), name) {
            return false;
        }
    }
    true
}

/// The parts of a known state of one table.
pub struct KnownParts {
    pub table: TableParts,
    pub selected: Option<u64>,
    pub defined: &'static [u64],
    pub last: &'static [(u64, u32)],
    /// The slots that hold `s1`.
    pub held: &'static [u8],
}

/// Makes the known state of these parts.
pub fn known(alloc: Global, state: &KnownParts) -> Option<Known> {
    let roster = alone(alloc, &state.table)?;
    let defined = Vec::from_slice(alloc, state.defined).ok()?;
    let last = Vec::from_slice(alloc, state.last).ok()?;
    let slots = slots(alloc, state.held)?;
    Known::build(alloc, roster, state.selected, defined, last, slots).ok()
}
