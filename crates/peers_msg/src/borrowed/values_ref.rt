//! The values of an update, borrowed.

ghost use Rattle.std.specs.Prelude.{◌≡◌, ℕ, true, List, [], ◌∷◌, None, Ok, IfOk, IfSome, length};
ghost use Rattle.peers_msg.specs.Borrowed.{is_read, list_read, value_count, with_values};
ghost use Rattle.peers_msg.specs.Reading.{value_at, values_at};

use crate::reading::{is_name_shape, value_at};
use std::alloc::Global;
use std::marker::Model;
use table_types::{DataType, Memory, Shape, ShortList, Value};

/// The values of an update, one for each of the table's types except the server's name, borrowed from its bytes.
#[derive(Debug, Drop)]
pub struct ValuesRef<'a> {
    types: &'a [(DataType, Option<u32>)],
    /// The bytes from the first value on.
    bytes: &'a [u8],
}

impl<'a> Model for ValuesRef<'a> {
    ghost use Rattle.std.specs.Prelude.{◌≡◌, true, List};
    ghost use Rattle.table_types.specs.declared.update.Value.{Value as RowValue};
    ghost use Rattle.peers_msg.specs.Borrowed.{is_read, list_read};
    ghost use Rattle.peers_msg.specs.Reading.{values_at};

    ghost Value = { List RowValue };

    ghost view = { λ v. list_read (values_at v.types.now v.bytes.now) };

    ghost invariant = { λ v. is_read (values_at v.types.now v.bytes.now) ≡ true };
}

/// Returns how many types have a value: all except the server's name.
#[inline(always)]
fn value_count(types: &[(DataType, Option<u32>)]) -> usize
    ensures { result ≡ value_count types.now }
{
    let mut count = 0;
    for entry in types {
        if !is_name_shape(entry.0.shape()) {
            count += 1;
        }
    }
    count
}

/// Returns the values at the front of `bytes`, one for each type except the server's name.
fn values_of(
    alloc: Global,
    types: &[(DataType, Option<u32>)],
    bytes: &[u8],
) -> Result<ShortList<Value>, Memory>
    requires { is_read (values_at types.now bytes.now) ≡ true }
    ensures { IfOk result (λ values. values ≡ list_read (values_at types.now bytes.now)) }
{
    let mut values = ShortList::with_capacity(alloc, value_count(types))?;
    let mut rest = bytes;
    for entry in types {
        let shape = entry.0.shape();
        if is_name_shape(shape) {
            continue;
        }
        match value_at(shape, rest) {
            Ok((value, after)) => {
                values = values.with(alloc, value)?;
                rest = after;
            }
            Err(_) => unreachable!(),
        }
    }
    Ok(values)
}

/// Returns the shape of the first value and the types after it, or `None` if no type has a value.
fn first_shape(types: &[(DataType, Option<u32>)]) -> Option<(Shape, &[(DataType, Option<u32>)])>
    ensures first { IfSome result (λ x. (bytes : List ℕ) → values_at types.now bytes ≡ with_values x.1.now (value_at x.0 bytes)) }
    ensures none { result ≡ None → (bytes : List ℕ) → values_at types.now bytes ≡ Ok ([], bytes) }
{
    for (index, entry) in types.iter().enumerate() {
        let shape = entry.0.shape();
        if !is_name_shape(shape) {
            return Some((shape, &types[index + 1..]));
        }
    }
    None
}

impl<'a> ValuesRef<'a> {
    /// Makes a reference to the values of `types` at the front of `bytes`.
    #[inline(always)]
    pub(crate) fn new(types: &'a [(DataType, Option<u32>)], bytes: &'a [u8]) -> ValuesRef<'a>
        requires { is_read (values_at types.now bytes.now) ≡ true }
        ensures { result ≡ list_read (values_at types.now bytes.now) }
    {
        ValuesRef { types, bytes }
    }

    /// Returns another reference to the same values.
    #[inline(always)]
    pub fn again(&self) -> ValuesRef<'a>
        ensures { result ≡ self.now }
    {
        ValuesRef {
            types: self.types,
            bytes: self.bytes,
        }
    }

    /// Returns the number of values.
    pub fn len(&self) -> usize
        ensures { result ≡ length self.now }
    {
        value_count(self.types)
    }

    /// Removes and returns the first value, in ascending order of id, or returns `None` if no value is left. Doesn't
    /// allocate.
    pub fn next(&mut self) -> Option<Value>
        ensures value { IfSome result (λ value. self.old ≡ value ∷ self.new) }
        ensures none { result ≡ None → (self.old ≡ []) × (self.new ≡ []) }
    {
        match first_shape(self.types) {
            Some((shape, others)) => match value_at(shape, self.bytes) {
                Ok((value, rest)) => {
                    self.types = others;
                    self.bytes = rest;
                    Some(value)
                }
                Err(_) => unreachable!(),
            },
            None => None,
        }
    }

    /// Returns the values, in ascending order of id, in a list of their own. Fails if memory runs out.
    pub fn to_owned(&self, alloc: Global) -> Result<ShortList<Value>, Memory>
        ensures { IfOk result (λ values. values ≡ self.now) }
    {
        values_of(alloc, self.types, self.bytes)
    }
}
