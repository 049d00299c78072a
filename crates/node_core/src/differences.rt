//! What differs between two definitions of a table.

ghost use Rattle.std.specs.Prelude.{◌≡◌, IfOk};
ghost use Rattle.table_types.specs.Shapes.{is_same_period};
ghost use Rattle.node_core.specs.Differences.{defined_shape, difference, differing_rates, have_same_periods, have_same_types};

use std::alloc::{AllocError, Global};
use std::marker::Model;
use table_types::{DataType, TableDef};

/// What differs first between the node's definition of a table and a peer's.
#[derive(Clone, Copy, Debug, PartialEq, Eq)]
pub enum Difference {
    /// The kinds of the keys.
    Kind,
    /// The lengths of the keys.
    Length,
    /// The data types, those from 20 up included.
    Types,
    /// The period of a rate.
    Period,
}

/// What has to be the same in two definitions of a table for its rows to be shared.
#[derive(Debug, Drop)]
pub struct TableShape<'a> {
    kind: u64,
    key_length: u64,
    types: &'a [(DataType, Option<u32>)],
    further: bool,
}

impl<'a> Model for TableShape<'a> {
    ghost use Rattle.node_core.specs.Differences.{Shape};

    ghost Value = { Shape };

    ghost view = { λ s. record { kind = s.kind; key_length = s.key_length; types = s.types.now; further = s.further } };
}

impl<'a> TableShape<'a> {
    /// Returns the shape of a table with keys of the kind with this number and of this length in bytes. `types` are its data types
    /// below 20, in ascending order of id, each rate with its period if that is known; `further` says whether it has types from 20 up.
    pub fn new(
        kind: u64,
        key_length: u64,
        types: &'a [(DataType, Option<u32>)],
        further: bool,
    ) -> TableShape<'a>
        ensures { result ≡ record { kind = kind; key_length = key_length; types = types.now; further = further } }
    {
        TableShape {
            kind,
            key_length,
            types,
            further,
        }
    }

    /// Returns the shape of a table that this node can keep.
    pub fn of(table: &'a TableDef) -> TableShape<'a>
        ensures { result ≡ defined_shape table.now }
    {
        TableShape::new(
            u64::from(table.kind().number()),
            table.key_length(),
            table.types(),
            false,
        )
    }

    /// Returns the number of the kind of the keys.
    pub fn kind(&self) -> u64
        ensures { result ≡ self.now.kind }
    {
        self.kind
    }

    /// Returns the length of the keys in bytes.
    pub fn key_length(&self) -> u64
        ensures { result ≡ self.now.key_length }
    {
        self.key_length
    }

    /// Returns the data types below 20, each rate with its period if that is known.
    pub fn types(&self) -> &'a [(DataType, Option<u32>)]
        ensures { result.now ≡ self.now.types }
    {
        self.types
    }

    /// Returns whether there are data types from 20 up.
    pub fn has_further_types(&self) -> bool
        ensures { result ≡ self.now.further }
    {
        self.further
    }

    /// Returns the data types that have another period in `other`, which has the same data types.
    pub fn differing_rates(
        &self,
        alloc: Global,
        other: &TableShape<'_>,
    ) -> Result<Vec<(DataType, Option<u32>)>, AllocError>
        ensures { IfOk result (λ rates. rates.items ≡ differing_rates self.now.types other.now.types) }
    {
        let mut rates = Vec::new(alloc);
        let mut rest = other.types;
        for entry in self.types {
            let Some((first, others)) = rest.split_first() else {
                return Ok(rates);
            };
            if !is_same_period(entry.1, first.1) {
                rates.push(*entry)?;
            }
            rest = others;
        }
        Ok(rates)
    }

    /// Returns what differs first between the node's table, which this is, and a peer's, or `None` if nothing does.
    pub fn difference(&self, theirs: &TableShape<'_>) -> Option<Difference>
        ensures { result ≡ difference self.now theirs.now }
    {
        if self.kind != theirs.kind {
            Some(Difference::Kind)
        } else if self.key_length != theirs.key_length {
            Some(Difference::Length)
        } else if self.further || theirs.further || !have_same_types(self.types, theirs.types) {
            Some(Difference::Types)
        } else if !have_same_periods(self.types, theirs.types) {
            Some(Difference::Period)
        } else {
            None
        }
    }
}

/// Returns whether both are the same data types.
fn have_same_types(own: &[(DataType, Option<u32>)], theirs: &[(DataType, Option<u32>)]) -> bool
    ensures { result ≡ have_same_types own.now theirs.now }
{
    let mut rest = theirs;
    for entry in own {
        let Some((first, others)) = rest.split_first() else {
            return false;
        };
        if !entry.0.is_same(first.0) {
            return false;
        }
        rest = others;
    }
    rest.is_empty()
}

/// Returns whether both are the same period, or none.
fn is_same_period(own: Option<u32>, theirs: Option<u32>) -> bool
    ensures { result ≡ is_same_period own theirs }
{
    match (own, theirs) {
        (Some(own), Some(theirs)) => own == theirs,
        (None, None) => true,
        _ => false,
    }
}

/// Returns whether the data types have the same periods, one after another.
fn have_same_periods(own: &[(DataType, Option<u32>)], theirs: &[(DataType, Option<u32>)]) -> bool
    ensures { result ≡ have_same_periods own.now theirs.now }
{
    let mut rest = theirs;
    for entry in own {
        let Some((first, others)) = rest.split_first() else {
            return false;
        };
        if !is_same_period(entry.1, first.1) {
            return false;
        }
        rest = others;
    }
    rest.is_empty()
}
