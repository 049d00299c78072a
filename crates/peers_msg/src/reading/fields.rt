//! Reading the fields of data.

ghost use Rattle.std.specs.Prelude.{◌≡◌, ◌==◌, true, length};
ghost use Rattle.peers_msg.specs.Borrowed.{Reads};
ghost use Rattle.peers_msg.specs.Reading.{wanted, ended, integer_at, word_at, bytes_at};

use crate::fault::Breach;
use peers_encint::{Read, get};

/// Returns `breach` unless `holds`.
#[inline(always)]
pub(crate) fn wanted(holds: bool, breach: Breach) -> Result<(), Breach>
    ensures { Reads (λ _. true) result (wanted holds breach) }
{
    if holds { Ok(()) } else { Err(breach) }
}

/// Returns a breach unless the data end with their last field.
#[inline(always)]
pub(crate) fn ended(rest: &[u8]) -> Result<(), Breach>
    ensures { Reads (λ _. true) result (ended true rest.now) }
{
    wanted(rest.is_empty(), Breach::Trailing)
}

/// Reads an encoded integer and returns it with the bytes after it. Returns `short` if the bytes end before the integer
/// does, and `BadInteger` for an integer of 2^64 or more.
#[inline(always)]
#[tactic(auto, unfolding(crate::specs::Reading::integer_at))]
pub fn integer_at(short: Breach, bytes: &[u8]) -> Result<(u64, &[u8]), Breach>
    ensures { Reads (λ x. (x.0, x.1.now)) result (integer_at short bytes.now) }
{
    match get(bytes) {
        Read::Value(number, used) => Ok((number, &bytes[used..])),
        Read::Short => Err(short),
        Read::Over => Err(Breach::BadInteger),
    }
}

/// Reads four bytes as a number in big-endian order.
#[inline(always)]
#[tactic(auto, unfolding(crate::specs::Reading::word_at))]
pub(crate) fn word_at(short: Breach, bytes: &[u8]) -> Result<(u32, &[u8]), Breach>
    ensures { Reads (λ x. (x.0, x.1.now)) result (word_at short bytes.now) }
{
    match bytes.split_first_chunk::<4>() {
        Some((word, rest)) => Ok((u32::from_be_bytes(*word), rest)),
        None => Err(short),
    }
}

/// Reads `count` bytes and returns them with the bytes after them. Returns `short` if there are fewer.
#[inline(always)]
#[tactic(auto, unfolding(crate::specs::Reading::bytes_at))]
pub fn bytes_at(short: Breach, count: u64, bytes: &[u8]) -> Result<(&[u8], &[u8]), Breach>
    ensures { Reads (λ x. (x.0.now, x.1.now)) result (bytes_at short count bytes.now) }
{
    if (bytes.len() as u64) < count {
        return Err(short);
    }
    Ok(bytes.split_at(count as usize))
}
