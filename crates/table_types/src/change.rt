//! Changes of rows by this node.

ghost use Rattle.std.specs.Prelude.{◌≡◌, ◌↔◌, IfOk, IsTrue};
ghost use Rattle.table_types.specs.Changes.{is_count, change_fits};

use crate::data_type::{DataType, Shape};
use crate::memory::Memory;
use crate::name::Name;
use crate::table_def::{TableDef, stores};
use std::alloc::Global;

/// A change of a row by this node.
#[derive(Debug, Drop)]
pub enum Change {
    /// Adds to a count, which stops at the greatest value of its data type.
    Add(DataType, u64),
    /// Subtracts from a count, which stops at 0.
    Take(DataType, u64),
    /// Sets a count, or the greatest value of its data type if the number is above that.
    Put(DataType, u64),
    /// Adds to the current count of a rate, after rotating its periods. The count stops at 2^32 - 1.
    AddRate(DataType, u32),
    /// Sets the server's name, or removes it.
    SetName(Option<Name>),
}

impl Change {
    /// Returns whether both are the same change.
    pub fn is_same(&self, other: &Change) -> bool
        ensures { IsTrue result ↔ (self.now ≡ other.now) }
    {
        match (self, other) {
            (Change::Add(one, left), Change::Add(other, right)) => {
                one.is_same(*other) && *left == *right
            }
            (Change::Take(one, left), Change::Take(other, right)) => {
                one.is_same(*other) && *left == *right
            }
            (Change::Put(one, left), Change::Put(other, right)) => {
                one.is_same(*other) && *left == *right
            }
            (Change::AddRate(one, left), Change::AddRate(other, right)) => {
                one.is_same(*other) && *left == *right
            }
            (Change::SetName(one), Change::SetName(other)) => Name::are_same(one, other),
            _ => false,
        }
    }

    /// Returns an equal copy. Fails if memory runs out.
    pub fn copy(&self, alloc: Global) -> Result<Change, Memory>
        ensures { IfOk result (λ copy. copy ≡ self.now) }
    {
        Ok(match self {
            Change::Add(data_type, count) => Change::Add(*data_type, *count),
            Change::Take(data_type, count) => Change::Take(*data_type, *count),
            Change::Put(data_type, count) => Change::Put(*data_type, *count),
            Change::AddRate(data_type, count) => Change::AddRate(*data_type, *count),
            Change::SetName(name) => Change::SetName(Name::copy_of(alloc, name)?),
        })
    }
}

fn is_count(data_type: DataType) -> bool
    ensures { result ≡ is_count data_type }
{
    matches!(data_type.shape(), Shape::Count | Shape::LongCount)
}

impl TableDef {
    /// Returns whether rows of this table can be changed this way: the table stores the count or rate, or, for a change
    /// of the name, the server's name.
    pub fn change_fits(&self, change: &Change) -> bool
        ensures { result ≡ change_fits self.now change.now }
    {
        match change {
            Change::Add(data_type, _) | Change::Take(data_type, _) | Change::Put(data_type, _) => {
                is_count(*data_type) && stores(self.types(), *data_type)
            }
            Change::AddRate(data_type, _) => {
                data_type.is_rate() && stores(self.types(), *data_type)
            }
            Change::SetName(name) => self.stores_name() && self.may_be_named(name),
        }
    }
}
