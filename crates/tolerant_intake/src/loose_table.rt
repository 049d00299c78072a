//! Tables outside the profile.

ghost use Rattle.std.specs.Prelude.{◌≡◌, ◌==◌, ◌||◌, not, ℕ, List, filter, IfOk};
ghost use Rattle.std.specs.BTreeMap.{insert_entry, is_at};
ghost use Rattle.std.specs.List.Sorted.{IsStrictlySortedBy};
ghost use Rattle.std.specs.Map.{keys_of, lookup};
ghost use Rattle.std.specs.Ordering.{nat_cmp};
ghost use Rattle.table_types.specs.DataTypes.{all_types};
ghost use Rattle.tolerant_intake.specs.Loose.{period_or_none, types_stored};
ghost use Rattle.peers_msg.specs.Reading.{period_at};
ghost use Rattle.peers_msg.specs.ReceivedIndex.{is_id};
ghost use Rattle.tolerant_intake.specs.declared.loose_table.LooseTable.{LooseTable};
ghost use Rattle.tolerant_intake.specs.Tolerance.{outlasting};

use peers_msg::{Received, period_at};
use std::alloc::Global;
use std::collections::BTreeMap;
use table_types::{DataType, Items, Memory, TableDef};

/// A table outside the profile (HAProxy, doc/peers-v2.0.txt, "Table Definition Message"): what has to be known of it to read its
/// updates up to the server's name, and how it differs from a table of this node.
#[derive(Debug, Drop)]
pub struct LooseTable {
    /// The number of the kind of its keys, of this project's kinds or not.
    pub kind: u64,
    /// The length of its keys in bytes.
    pub key_length: u64,
    /// The data types below 20 that it stores, in ascending order of id, each rate with its period. A rate whose period isn't in its
    /// place, or isn't 1 to 2^32 - 1, has none, nor has any rate behind it.
    pub types: Items<(DataType, Option<u32>)>,
    /// Whether it stores data types from 20 up.
    pub further: bool,
}

/// Removes the table of an id.
fn remove(tables: &mut BTreeMap<u64, LooseTable>, id: u64)
    ensures { tables.new.entries ≡ filter (λ l. not (l.0 == id)) tables.old.entries }
{
    // The ids ascend.
    let _count = tables.len();
    tables.remove(&id);
}

/// Returns the ids of the tables that a definition replaces, given what was received before it: its own, and the one that
/// stands for its name.
pub(crate) fn replaced_ids(new: &TableDef, received: &Received) -> (u64, Option<u64>)
    ensures own { result.0 ≡ new.now.id }
    ensures both { (ls : List (ℕ × LooseTable)) → filter (λ l. not (l.0 == result.0 || is_id result.1 l.0)) ls ≡ outlasting new.now received.now.tables ls }
{
    match received.named(new.name()) {
        Some(named) => (new.id(), Some(named.id())),
        None => (new.id(), None),
    }
}

/// Removes the tables of these ids.
pub(crate) fn remove_replaced(tables: &mut BTreeMap<u64, LooseTable>, ids: (u64, Option<u64>))
    ensures { tables.new.entries ≡ filter (λ l. not (l.0 == ids.0 || is_id ids.1 l.0)) tables.old.entries }
{
    remove(tables, ids.0);
    if let Some(named) = ids.1 {
        remove(tables, named);
    }
}

/// Removes the table of the second id, unless that is the first.
pub(crate) fn remove_other(tables: &mut BTreeMap<u64, LooseTable>, ids: (u64, Option<u64>))
    ensures { tables.new.entries ≡ filter (λ l. l.0 == ids.0 || not (is_id ids.1 l.0)) tables.old.entries }
{
    let Some(named) = ids.1 else {
        return;
    };
    if named != ids.0 {
        remove(tables, named);
    }
}

/// Puts back what stood for an id before it was inserted.
pub(crate) fn put_back(tables: &mut BTreeMap<u64, LooseTable>, id: u64, before: Option<LooseTable>)
    ensures { (ls : List (ℕ × LooseTable)) (table : LooseTable) → IsStrictlySortedBy nat_cmp (keys_of ls) → before ≡ lookup (is_at (nat_cmp id)) ls →
        tables.old.entries ≡ insert_entry nat_cmp ls id table → tables.new.entries ≡ ls }
{
    match before {
        Some(table) => {
            let _ = tables.insert(id, table);
        }
        None => remove(tables, id),
    }
}

/// Reads the period of a rate, and returns it with the bytes after it. Behind one that can't be read, none can.
fn period_or_none(data_type: DataType, bytes: &[u8]) -> (Option<u32>, &[u8])
    ensures period { result.0 ≡ (period_or_none (period_at data_type bytes.now)).0 }
    ensures rest { result.1.now ≡ (period_or_none (period_at data_type bytes.now)).1 }
{
    match period_at(data_type, bytes) {
        Ok(read) => read,
        Err(_) => (None, &[]),
    }
}

/// Returns the data types below 20 whose bits are set, each rate with its period, if that can be read of `periods`.
pub(crate) fn types_stored(
    alloc: Global,
    bits: u64,
    periods: &[u8],
) -> Result<Items<(DataType, Option<u32>)>, Memory>
    ensures { IfOk result (λ types. types ≡ types_stored all_types bits periods.now) }
{
    let mut types = Vec::new(alloc);
    let mut left = bits;
    let mut rest = periods;
    for data_type in DataType::ALL.iter() {
        let bit = left % 2;
        left /= 2;
        if bit == 0 {
            continue;
        }
        let (period, after) = period_or_none(*data_type, rest);
        types.push((*data_type, period))?;
        rest = after;
    }
    Ok(Items::new(types))
}
