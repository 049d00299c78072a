//! Reading the data of definitions.

ghost use Rattle.std.specs.Prelude.{◌≡◌, true, IfOk};
ghost use Rattle.table_types.specs.DataTypes.{all_types};
ghost use Rattle.table_types.specs.Names.{is_name};
ghost use Rattle.table_types.specs.Tables.{is_id};
ghost use Rattle.peers_msg.specs.Borrowed.{Reads, is_read, list_read};
ghost use Rattle.peers_msg.specs.Reading.{kind_of, period_at, types_at, named_at, keyed_at, stored_at, definition_at};

use super::fields::{bytes_at, ended, integer_at, wanted};
use crate::borrowed::DefinitionRef;
use crate::fault::Breach;
use table_types::{DataType, KeyKind, is_name};

fn kind_of(number: u64) -> Result<KeyKind, Breach>
    ensures { Reads (λ kind. kind) result (kind_of number) }
{
    match KeyKind::from_number(number) {
        Some(kind) => Ok(kind),
        None => Err(Breach::BadDefinition),
    }
}

/// Reads a rate's id and period, and returns the period with the bytes after it. Reads nothing for another type. Returns `BadDefinition`
/// for another id, or a period that is cut short or out of range, unless an integer of 2^64 or more comes before.
#[tactic(auto, unfolding(crate::specs::Reading::period_at))]
pub fn period_at(data_type: DataType, bytes: &[u8]) -> Result<(Option<u32>, &[u8]), Breach>
    ensures { Reads (λ x. (x.0, x.1.now)) result (period_at data_type bytes.now) }
{
    if !data_type.is_rate() {
        return Ok((None, bytes));
    }
    let (id, rest) = integer_at(Breach::BadDefinition, bytes)?;
    wanted(id == u64::from(data_type.id()), Breach::BadDefinition)?;
    let (period, rest) = integer_at(Breach::BadDefinition, rest)?;
    wanted(1 <= period && period < 1 << 32, Breach::BadDefinition)?;
    Ok((Some(period as u32), rest))
}

/// Returns the bytes after the periods of the types whose bits are set.
fn types_end(bits: u64, bytes: &[u8]) -> Result<&[u8], Breach>
    ensures { Reads (λ rest. (list_read (types_at all_types bits bytes.now), rest.now)) result (types_at all_types bits bytes.now) }
{
    let mut left = bits;
    let mut rest = bytes;
    for data_type in DataType::ALL.iter() {
        let bit = left % 2;
        left /= 2;
        if bit == 0 {
            continue;
        }
        let (period, after) = period_at(*data_type, rest)?;
        let _ = period;
        rest = after;
    }
    Ok(rest)
}

/// Reads the id and the name of a table, with which its definition begins, and returns them with the bytes after them.
/// Returns `BadDefinition` if one of them is cut short or out of range, unless an integer of 2^64 or more comes before.
#[tactic(auto, unfolding(crate::specs::Reading::named_at))]
pub fn named_at(bytes: &[u8]) -> Result<((u64, &[u8]), &[u8]), Breach>
    ensures named { Reads (λ x. ((x.0.0, x.0.1.now), x.1.now)) result (named_at bytes.now) }
    ensures id { IfOk result (λ x. is_id x.0.0 ≡ true) }
    ensures name { IfOk result (λ x. is_name x.0.1.now ≡ true) }
{
    let (id, rest) = integer_at(Breach::BadDefinition, bytes)?;
    wanted(1 <= id && id < 1 << 32, Breach::BadDefinition)?;
    let (count, rest) = integer_at(Breach::BadDefinition, rest)?;
    let (name, rest) = bytes_at(Breach::BadDefinition, count, rest)?;
    wanted(is_name(name), Breach::BadDefinition)?;
    Ok(((id, name), rest))
}

/// Reads the kind of a table's keys and their length.
#[tactic(auto, unfolding(crate::specs::Reading::keyed_at))]
fn keyed_at(bytes: &[u8]) -> Result<((KeyKind, u64), &[u8]), Breach>
    ensures { Reads (λ x. (x.0, x.1.now)) result (keyed_at bytes.now) }
{
    let (number, rest) = integer_at(Breach::BadDefinition, bytes)?;
    let kind = kind_of(number)?;
    let (key_length, rest) = integer_at(Breach::BadDefinition, rest)?;
    wanted(kind.fits_length(key_length), Breach::BadDefinition)?;
    Ok(((kind, key_length), rest))
}

/// Reads a table's expire and the bits of its data types, and returns them with the bytes that begin with the periods.
#[tactic(auto, unfolding(crate::specs::Reading::stored_at))]
fn stored_at(bytes: &[u8]) -> Result<((u32, u64, &[u8]), &[u8]), Breach>
    ensures stored { Reads (λ x. ((x.0.0, list_read (types_at all_types x.0.1 x.0.2.now)), x.1.now)) result (stored_at bytes.now) }
    ensures read { IfOk result (λ x. is_read (types_at all_types x.0.1 x.0.2.now) ≡ true) }
{
    let (bits, periods) = integer_at(Breach::BadDefinition, bytes)?;
    wanted(bits < 1 << 20, Breach::UnknownDataType)?;
    let (expire, periods) = integer_at(Breach::BadDefinition, periods)?;
    wanted(expire < 1 << 32, Breach::BadDefinition)?;
    let rest = types_end(bits, periods)?;
    Ok(((expire as u32, bits, periods), rest))
}

/// Reads a definition.
#[tactic(auto, unfolding(crate::specs::Reading::definition_at))]
pub(crate) fn definition_at(bytes: &[u8]) -> Result<DefinitionRef<'_>, Breach>
    ensures { Reads (λ table. table) result (definition_at bytes.now) }
{
    let ((id, name), rest) = named_at(bytes)?;
    let ((kind, key_length), rest) = keyed_at(rest)?;
    let ((expire, bits, periods), rest) = stored_at(rest)?;
    ended(rest)?;
    Ok(DefinitionRef::new(id, name, kind, key_length, expire, bits, periods))
}
