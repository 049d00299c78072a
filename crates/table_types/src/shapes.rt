//! When two definitions are the same, and when they have the same shape.

ghost use Rattle.std.specs.Prelude.{◌≡◌, ◌&&◌, ◌↔◌, IsTrue};
ghost use Rattle.table_types.specs.DataTypes.{is_same_type};
ghost use Rattle.table_types.specs.Shapes.{is_same_period, are_same_types, is_shape_of, is_same_definition};

use crate::data_type::DataType;
use crate::roster::is_same_name;
use crate::table_def::TableDef;

fn is_same_period(one: Option<u32>, other: Option<u32>) -> bool
    ensures { result ≡ is_same_period one other }
{
    match (one, other) {
        (Some(one), Some(other)) => one == other,
        (None, None) => true,
        _ => false,
    }
}

fn is_same_entry(one: &(DataType, Option<u32>), other: &(DataType, Option<u32>)) -> bool
    ensures { result ≡ (is_same_type one.now.0 other.now.0 && is_same_period one.now.1 other.now.1) }
{
    one.0.id() == other.0.id() && is_same_period(one.1, other.1)
}

fn are_same_types(one: &[(DataType, Option<u32>)], other: &[(DataType, Option<u32>)]) -> bool
    ensures { result ≡ are_same_types one.now other.now }
{
    let mut rest = other;
    for entry in one {
        let Some((first, others)) = rest.split_first() else {
            return false;
        };
        if !is_same_entry(entry, first) {
            return false;
        }
        rest = others;
    }
    rest.is_empty()
}

fn is_shape_of(one: &TableDef, other: &TableDef) -> bool
    ensures { result ≡ is_shape_of one.now other.now }
{
    is_same_name(one.name(), other.name())
        && one.kind().number() == other.kind().number()
        && one.key_length() == other.key_length()
        && are_same_types(one.types(), other.types())
}

fn is_same_definition(one: &TableDef, other: &TableDef) -> bool
    ensures { result ≡ is_same_definition one.now other.now }
{
    one.id() == other.id() && one.expire() == other.expire() && is_shape_of(one, other)
}

impl TableDef {
    /// Returns whether both have the same shape: name, kind of keys, key length, data types and periods. Id and expire
    /// may differ.
    pub fn is_shape_of(&self, other: &TableDef) -> bool
        ensures shape { result ≡ is_shape_of self.now other.now }
        ensures equal { IsTrue result ↔ (self.now ≡ record other.now { id = self.now.id; expire = self.now.expire }) }
    {
        is_shape_of(self, other)
    }

    /// Returns whether both are the same definition, part for part.
    pub fn is_same(&self, other: &TableDef) -> bool
        ensures same { result ≡ is_same_definition self.now other.now }
        ensures equal { IsTrue result ↔ (self.now ≡ other.now) }
    {
        is_same_definition(self, other)
    }
}
