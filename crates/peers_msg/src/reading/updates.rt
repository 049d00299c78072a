//! Reading the data of updates.

ghost use Rattle.std.specs.Prelude.{◌≡◌, true, IfOk};
ghost use Rattle.table_types.specs.Updates.{is_name_shape};
ghost use Rattle.peers_msg.specs.Borrowed.{Reads, list_read, owned_key, owned_name, is_named};
ghost use Rattle.peers_msg.specs.Reading.{optional_at, key_at, count_at, value_at, values_at, slot_holds, field_of, name_at, update_at};

use super::fields::{bytes_at, ended, integer_at, wanted, word_at};
use crate::borrowed::{KeyRef, UpdateRef, ValuesRef};
use crate::fault::Breach;
use crate::name_field_ref::NameFieldRef;
use table_types::{DataType, KeyKind, Shape, TableDef, Value, is_name, is_slot};

/// Reads an update's number or its life, four bytes in big-endian order, if it stands there. Returns it with the bytes
/// after it, and `BadKey` if there are fewer bytes.
#[inline(always)]
#[tactic(auto, unfolding(crate::specs::Reading::optional_at))]
pub fn optional_at(stands: bool, bytes: &[u8]) -> Result<(Option<u32>, &[u8]), Breach>
    ensures { Reads (λ x. (x.0, x.1.now)) result (optional_at stands bytes.now) }
{
    if !stands {
        return Ok((None, bytes));
    }
    let (number, rest) = word_at(Breach::BadKey, bytes)?;
    Ok((Some(number), rest))
}

#[inline(always)]
#[tactic(auto, unfolding(crate::specs::Reading::key_at, crate::specs::Reading::bytes_at))]
fn key_at(kind: KeyKind, key_length: u64, bytes: &[u8]) -> Result<(KeyRef<'_>, &[u8]), Breach>
    ensures { Reads (λ x. (owned_key x.0, x.1.now)) result (key_at kind key_length bytes.now) }
{
    match kind {
        KeyKind::Integer => {
            let (number, rest) = word_at(Breach::BadKey, bytes)?;
            Ok((KeyRef::Int(number), rest))
        }
        KeyKind::Ip4 => match bytes.split_first_chunk::<4>() {
            Some((address, rest)) => Ok((KeyRef::Ip4(address), rest)),
            None => Err(Breach::BadKey),
        },
        KeyKind::Ip6 => match bytes.split_first_chunk::<16>() {
            Some((address, rest)) => Ok((KeyRef::Ip6(address), rest)),
            None => Err(Breach::BadKey),
        },
        KeyKind::String => {
            let (count, rest) = integer_at(Breach::BadKey, bytes)?;
            wanted(count < key_length, Breach::BadKey)?;
            let (text, rest) = bytes_at(Breach::BadKey, count, rest)?;
            Ok((KeyRef::Str(text), rest))
        }
        KeyKind::Binary => {
            let (key, rest) = bytes_at(Breach::BadKey, key_length, bytes)?;
            Ok((KeyRef::Bin(key), rest))
        }
    }
}

/// Reads a count below 2^32.
#[inline(always)]
#[tactic(auto, unfolding(crate::specs::Reading::count_at))]
fn count_at(bytes: &[u8]) -> Result<(u32, &[u8]), Breach>
    ensures { Reads (λ x. (x.0, x.1.now)) result (count_at bytes.now) }
{
    let (count, rest) = integer_at(Breach::BadValue, bytes)?;
    wanted(count < 1 << 32, Breach::BadValue)?;
    Ok((count as u32, rest))
}

#[inline(always)]
#[tactic(auto, unfolding(crate::specs::Reading::value_at))]
pub(crate) fn value_at(shape: Shape, bytes: &[u8]) -> Result<(Value, &[u8]), Breach>
    ensures { Reads (λ x. (x.0, x.1.now)) result (value_at shape bytes.now) }
{
    match shape {
        Shape::Count => {
            let (count, rest) = count_at(bytes)?;
            Ok((Value::Count(u64::from(count)), rest))
        }
        Shape::LongCount => {
            let (count, rest) = integer_at(Breach::BadValue, bytes)?;
            Ok((Value::Count(count), rest))
        }
        Shape::Rate => {
            let (elapsed, rest) = count_at(bytes)?;
            let (current, rest) = count_at(rest)?;
            let (previous, rest) = count_at(rest)?;
            let rate = Value::Rate {
                elapsed,
                current,
                previous,
            };
            Ok((rate, rest))
        }
        Shape::Name => Err(Breach::BadValue),
    }
}

#[inline(always)]
pub(crate) fn is_name_shape(shape: Shape) -> bool
    ensures { result ≡ is_name_shape shape }
{
    matches!(shape, Shape::Name)
}

/// Returns the bytes after one value for each type except the server's name.
#[inline(always)]
fn values_end<'a>(types: &[(DataType, Option<u32>)], bytes: &'a [u8]) -> Result<&'a [u8], Breach>
    ensures { Reads (λ rest. (list_read (values_at types.now bytes.now), rest.now)) result (values_at types.now bytes.now) }
{
    let mut rest = bytes;
    for entry in types {
        let shape = entry.0.shape();
        if is_name_shape(shape) {
            continue;
        }
        let (value, after) = value_at(shape, rest)?;
        let _ = value;
        rest = after;
    }
    Ok(rest)
}

/// Reads what follows the slot in a name field.
#[inline(always)]
#[tactic(auto, unfolding(crate::specs::Reading::slot_holds))]
fn slot_holds(slot: u8, bytes: &[u8]) -> Result<NameFieldRef<'_>, Breach>
    ensures field { Reads (λ field. owned_name field) result (slot_holds slot bytes.now) }
    ensures named { IfOk result (λ field. is_named (owned_name field) ≡ true) }
{
    if bytes.is_empty() {
        return Ok(NameFieldRef::Held(slot));
    }
    let (count, name) = integer_at(Breach::BadValue, bytes)?;
    wanted(
        count == name.len() as u64 && is_name(name),
        Breach::BadValue,
    )?;
    Ok(NameFieldRef::Written(slot, name))
}

/// Reads what is within the length of a name field.
#[inline(always)]
#[tactic(auto, unfolding(crate::specs::Reading::field_of))]
fn field_of(bytes: &[u8]) -> Result<NameFieldRef<'_>, Breach>
    ensures field { Reads (λ field. owned_name field) result (field_of bytes.now) }
    ensures named { IfOk result (λ field. is_named (owned_name field) ≡ true) }
{
    if bytes.is_empty() {
        return Ok(NameFieldRef::NoName);
    }
    let (slot, rest) = integer_at(Breach::BadValue, bytes)?;
    wanted(is_slot(slot), Breach::BadValue)?;
    slot_holds(slot as u8, rest)
}

/// Reads the name field of an update, if it stands there: if the table stores the server's name. Returns it with the bytes
/// after it. Returns `BadValue` if it is malformed, unless an integer of 2^64 or more comes before.
#[inline(always)]
#[tactic(auto, unfolding(crate::specs::Reading::name_at))]
pub fn name_at(stands: bool, bytes: &[u8]) -> Result<(NameFieldRef<'_>, &[u8]), Breach>
    ensures field { Reads (λ x. (owned_name x.0, x.1.now)) result (name_at stands bytes.now) }
    ensures named { IfOk result (λ x. is_named (owned_name x.0) ≡ true) }
{
    if !stands {
        return Ok((NameFieldRef::NotStored, bytes));
    }
    let (count, rest) = integer_at(Breach::BadValue, bytes)?;
    let (inner, rest) = bytes_at(Breach::BadValue, count, rest)?;
    let field = field_of(inner)?;
    Ok((field, rest))
}

/// Reads an update of `table`, with a number if `numbered` and with a life if `timed`.
#[inline(always)]
#[tactic(auto, unfolding(crate::specs::Reading::update_at))]
pub(crate) fn update_at<'a>(
    table: &'a TableDef,
    numbered: bool,
    timed: bool,
    bytes: &'a [u8],
) -> Result<UpdateRef<'a>, Breach>
    ensures { Reads (λ update. update) result (update_at table.now numbered timed bytes.now) }
{
    // Reading the id only shows the contract that the table is a definition.
    let _ = table.id();
    let (number, rest) = optional_at(numbered, bytes)?;
    let (life, rest) = optional_at(timed, rest)?;
    let (key, values) = key_at(table.kind(), table.key_length(), rest)?;
    let types = table.types();
    let rest = values_end(types, values)?;
    let (name, rest) = name_at(table.stores_name(), rest)?;
    ended(rest)?;
    let values = ValuesRef::new(types, values);
    Ok(UpdateRef::new(number, life, key, values, name))
}
