//! Updates of rows, and the values that they carry.

ghost use Rattle.std.specs.Prelude.{◌≡◌, ◌↔◌, IfOk, IsTrue};
ghost use Rattle.std.specs.List.{list_any};
ghost use Rattle.table_types.specs.Updates.{value_fits, is_name_type, values_fit, stores_name, may_be_named, row_fits, life_fits, fits};

use crate::data_type::{DataType, Shape};
use crate::key::Key;
use crate::memory::Memory;
use crate::name::Name;
use crate::short_list::ShortList;
use crate::table_def::TableDef;
use std::alloc::Global;

/// The value of a data type (HAProxy, doc/peers-v2.0.txt, "Update Messages", data types encoding).
#[derive(Clone, Copy, Debug, PartialEq, Eq)]
pub enum Value {
    /// A count.
    Count(u64),
    /// A rate.
    Rate {
        /// Milliseconds since the current period began.
        elapsed: u32,
        /// The count of the current period.
        current: u32,
        /// The count of the previous period.
        previous: u32,
    },
}

impl Value {
    /// Returns whether the value is one of this shape. A name is not a value.
    pub fn fits(self, shape: Shape) -> bool
        ensures { result ≡ value_fits shape self }
    {
        match (shape, self) {
            (Shape::Count, Value::Count(count)) => count < 1 << 32,
            (Shape::LongCount, Value::Count(_)) => true,
            (Shape::Rate, Value::Rate { .. }) => true,
            _ => false,
        }
    }
}

/// One row of a table as it is taught: the table's id, the update's number, and the row's contents.
#[derive(Debug, Drop)]
pub struct Update {
    /// The id of the row's table.
    pub table: u64,
    /// The number that the sender gave the update.
    pub number: u32,
    /// The row's remaining life in milliseconds, 0 in a table whose rows live forever; `None` if not given.
    pub life: Option<u32>,
    /// The row's key.
    pub key: Key,
    /// The values in ascending order of id, without the server's name.
    pub values: ShortList<Value>,
    /// The server's name, in a table that stores one.
    pub name: Option<Name>,
}

/// Returns whether both are the same values, one for one.
pub fn are_same_values(one: &[Value], other: &[Value]) -> bool
    ensures { IsTrue result ↔ (one.now ≡ other.now) }
{
    one == other
}

/// Returns whether both are the same updates, one for one.
pub fn are_same_updates(one: &[Update], other: &[Update]) -> bool
    ensures { IsTrue result ↔ (one.now ≡ other.now) }
{
    let mut rest = other;
    for update in one {
        let Some((first, others)) = rest.split_first() else {
            return false;
        };
        if !update.is_same(first) {
            return false;
        }
        rest = others;
    }
    rest.is_empty()
}

impl Update {
    /// Returns whether both are the same update, part for part.
    pub fn is_same(&self, other: &Update) -> bool
        ensures { IsTrue result ↔ (self.now ≡ other.now) }
    {
        self.table == other.table
            && self.number == other.number
            && self.life == other.life
            && self.key.is_same(&other.key)
            && are_same_values(self.values.as_slice(), other.values.as_slice())
            && Name::are_same(&self.name, &other.name)
    }

    /// Returns an equal copy. Fails if memory runs out.
    pub fn copy(&self, alloc: Global) -> Result<Update, Memory>
        ensures { IfOk result (λ copy. copy ≡ self.now) }
    {
        let name = Name::copy_of(alloc, &self.name)?;
        Ok(Update {
            table: self.table,
            number: self.number,
            life: self.life,
            key: self.key.copy(alloc)?,
            values: self.values.copy(alloc)?,
            name,
        })
    }
}

/// Returns whether there is one value in its range for each type except the server's name, in the order of the types.
fn values_fit(types: &[(DataType, Option<u32>)], values: &[Value]) -> bool
    ensures { result ≡ values_fit types.now values.now }
{
    let mut rest = values;
    for entry in types {
        let shape = entry.0.shape();
        if shape == Shape::Name {
            continue;
        }
        match rest.split_first() {
            Some((value, others)) if value.fits(shape) => rest = others,
            _ => return false,
        }
    }
    rest.is_empty()
}

fn store_name(types: &[(DataType, Option<u32>)]) -> bool
    ensures { result ≡ list_any (λ t. is_name_type t.0) types.now }
{
    for entry in types {
        if entry.0.shape() == Shape::Name {
            return true;
        }
    }
    false
}

impl TableDef {
    /// Returns whether the values fit this table: one in its range for each type except the server's name, in ascending
    /// order of id.
    pub fn values_fit(&self, values: &[Value]) -> bool
        ensures { result ≡ values_fit self.now.types values.now }
    {
        values_fit(self.types(), values)
    }

    /// Returns whether this table stores the server's name.
    pub fn stores_name(&self) -> bool
        ensures { result ≡ stores_name self.now }
    {
        store_name(self.types())
    }

    /// Returns whether key and values have the table's shape and ranges.
    pub fn row_fits(&self, key: &Key, values: &[Value]) -> bool
        ensures { result ≡ row_fits self.now key.now values.now }
    {
        key.fits(self.kind(), self.key_length()) && self.values_fit(values)
    }

    /// Returns whether a row of this table may have this name.
    pub fn may_be_named(&self, name: &Option<Name>) -> bool
        ensures { result ≡ may_be_named self.now name.now }
    {
        match name {
            // A name is never empty: reading its bytes only shows the contract that it is a name.
            Some(name) => self.stores_name() && !name.as_slice().is_empty(),
            None => true,
        }
    }

    /// Returns whether a row of this table may have this remaining life.
    pub fn life_fits(&self, life: Option<u32>) -> bool
        ensures { result ≡ life_fits self.now life }
    {
        match (life, self.expire()) {
            (None, _) => true,
            (Some(life), 0) => life == 0,
            (Some(life), expire) => 1 <= life && life <= expire,
        }
    }

    /// Returns whether an update fits this table: its key, values, name and life have the table's shape and ranges.
    pub fn fits(&self, update: &Update) -> bool
        ensures { result ≡ fits self.now update.now }
    {
        self.row_fits(&update.key, update.values.as_slice())
            && self.may_be_named(&update.name)
            && self.life_fits(update.life)
    }
}
