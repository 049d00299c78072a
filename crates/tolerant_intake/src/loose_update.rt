//! Updates read up to their name field, whatever their values.

ghost use Rattle.std.specs.Prelude.{◌≡◌, true, IfOk};
ghost use Rattle.table_types.specs.Updates.{is_name_shape};
ghost use Rattle.peers_msg.specs.Borrowed.{Reads, owned_name, is_named};
ghost use Rattle.tolerant_intake.specs.Loose.{LooseUpdate, counted_after, key_after, integer_after, value_after, values_after, has_name_type, loose_update_at};

use peers_msg::{Breach, NameFieldRef, bytes_at, integer_at, name_at, optional_at};
use table_types::{DataType, Shape};

/// What is read of an update whose values may be of any size (HAProxy, doc/peers-v2.0.txt, "Update Messages").
#[derive(Clone, Copy)]
pub(crate) struct LooseUpdateRef<'a> {
    pub number: Option<u32>,
    pub name: NameFieldRef<'a>,
    /// The bytes after the name field.
    pub rest: &'a [u8],
}

/// Returns the bytes after an encoded length and that many bytes.
#[tactic(auto, unfolding(crate::specs::Loose::counted_after))]
fn counted_after(bytes: &[u8]) -> Result<&[u8], Breach>
    ensures { Reads (λ rest. rest.now) result (counted_after bytes.now) }
{
    let (count, rest) = integer_at(Breach::BadKey, bytes)?;
    let (_text, rest) = bytes_at(Breach::BadKey, count, rest)?;
    Ok(rest)
}

/// Returns the bytes after a key.
#[tactic(auto, unfolding(crate::specs::Loose::key_after))]
fn key_after(kind: u64, key_length: u64, bytes: &[u8]) -> Result<&[u8], Breach>
    ensures { Reads (λ rest. rest.now) result (key_after kind key_length bytes.now) }
{
    if kind == 6 {
        return counted_after(bytes);
    }
    let count = if kind == 2 { 4 } else { key_length };
    let (_key, rest) = bytes_at(Breach::BadKey, count, bytes)?;
    Ok(rest)
}

/// Returns the bytes after an encoded integer.
#[tactic(auto, unfolding(crate::specs::Loose::integer_after))]
fn integer_after(bytes: &[u8]) -> Result<&[u8], Breach>
    ensures { Reads (λ rest. rest.now) result (integer_after bytes.now) }
{
    let (_number, rest) = integer_at(Breach::BadValue, bytes)?;
    Ok(rest)
}

/// Returns the bytes after a value.
#[tactic(auto, unfolding(crate::specs::Loose::value_after))]
fn value_after(shape: Shape, bytes: &[u8]) -> Result<&[u8], Breach>
    ensures { Reads (λ rest. rest.now) result (value_after shape bytes.now) }
{
    match shape {
        Shape::Count | Shape::LongCount => integer_after(bytes),
        Shape::Rate => {
            let rest = integer_after(bytes)?;
            let rest = integer_after(rest)?;
            integer_after(rest)
        }
        Shape::Name => Ok(bytes),
    }
}

/// Returns the bytes after one value for each type.
fn values_after<'a>(types: &[(DataType, Option<u32>)], bytes: &'a [u8]) -> Result<&'a [u8], Breach>
    ensures { Reads (λ rest. rest.now) result (values_after types.now bytes.now) }
{
    let mut rest = bytes;
    for entry in types {
        rest = value_after(entry.0.shape(), rest)?;
    }
    Ok(rest)
}

/// Returns whether the server's name is among the types.
pub(crate) fn has_name_type(types: &[(DataType, Option<u32>)]) -> bool
    ensures { result ≡ has_name_type types.now }
{
    for entry in types {
        if matches!(entry.0.shape(), Shape::Name) {
            return true;
        }
    }
    false
}

/// Reads an update up to its name field, with a number if `numbered` and with a life if `timed`. The keys of its table
/// are of the kind with the number `kind`, and have `key_length` bytes.
#[tactic(auto, unfolding(crate::specs::Loose::loose_update_at))]
pub(crate) fn loose_update_at<'a>(
    kind: u64,
    key_length: u64,
    types: &[(DataType, Option<u32>)],
    numbered: bool,
    timed: bool,
    bytes: &'a [u8],
) -> Result<LooseUpdateRef<'a>, Breach>
    ensures read { Reads (λ u. record { number = u.number; name = owned_name u.name; rest = u.rest.now }) result (loose_update_at kind key_length types.now numbered timed bytes.now) }
    ensures named { IfOk result (λ u. is_named (owned_name u.name) ≡ true) }
{
    let (number, rest) = optional_at(numbered, bytes)?;
    let (_life, rest) = optional_at(timed, rest)?;
    let rest = key_after(kind, key_length, rest)?;
    let rest = values_after(types, rest)?;
    let (name, rest) = name_at(has_name_type(types), rest)?;
    Ok(LooseUpdateRef { number, name, rest })
}
