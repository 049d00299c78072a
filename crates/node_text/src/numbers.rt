//! Numbers in decimal, and moments.
ghost use Rattle.std.specs.Prelude.{◌≡◌, ◌≤◌, ◌^◌, ◌-◌, ◌++◌, IfSome, OnOk};
ghost use Rattle.std.specs.Fmt.{decimal};
ghost use Rattle.node_text.specs.Numbers.{from_one, number_of, number_or_dash, spaced};

use itoa::Buffer;
use std::alloc::AllocError;
use table_types::Moment;

/// Returns the number that `word` writes in decimal, with no needless zeros; `None` if it writes none, or one above `most`.
pub fn number(word: &[u8], most: u64) -> Option<u64>
    ensures exactly { result ≡ number_of word.now most }
    ensures most { IfSome result (λ value. value ≤ most) }
{
    let has_needless_zero = word.len() > 1 && word[0] == b'0';
    if word.is_empty() || has_needless_zero {
        return None;
    }
    let mut value = 0u64;
    for byte in word {
        if !byte.is_ascii_digit() {
            return None;
        }
        let next = u128::from(value) * 10 + u128::from(*byte - b'0');
        if next > u128::from(most) {
            return None;
        }
        value = next as u64;
    }
    Some(value)
}

/// Returns the number below 2^32 that `word` writes, as `number` reads it.
pub(crate) fn number32(word: &[u8]) -> Option<u32>
    ensures { result ≡ number_of word.now (2 ^ 32 - 1) }
{
    match number(word, u64::from(u32::MAX)) {
        Some(value) => Some(value as u32),
        None => None,
    }
}

/// Returns the number from 1 to `most` that `word` writes, as `number` reads it.
pub fn number_from_one(word: &[u8], most: u32) -> Option<u32>
    ensures exactly { result ≡ from_one (number_of word.now most) }
    ensures within { IfSome result (λ value. (1 ≤ value) × (value ≤ most)) }
{
    let value = number(word, u64::from(most))?;
    if value == 0 { None } else { Some(value as u32) }
}

/// Returns the moment whose milliseconds `word` writes, as `number` reads them.
pub(crate) fn moment(word: &[u8]) -> Option<Moment> {
    Moment::new(number(word, u64::MAX)?)
}

/// Appends `number` in decimal.
pub fn push_number(text: &mut Vec<u8>, number: u64) -> Result<(), AllocError>
    ensures { OnOk result (text.new.items ≡ text.old.items ++ decimal number) }
{
    let mut digits = Buffer::new();
    text.extend_from_slice(digits.format(number).as_bytes())
}

/// Appends a space and `number`.
pub(crate) fn push_spaced(text: &mut Vec<u8>, number: u64) -> Result<(), AllocError>
    ensures { OnOk result (text.new.items ≡ text.old.items ++ spaced number) }
{
    text.push(b' ')?;
    push_number(text, number)
}

/// Appends `word`, which ends with its space, and `number`.
pub fn push_word_and_number(text: &mut Vec<u8>, word: &str, number: u64) -> Result<(), AllocError>
    ensures { OnOk result (text.new.items ≡ text.old.items ++ (word.now ++ decimal number)) }
{
    text.extend_from_slice(word.as_bytes())?;
    push_number(text, number)
}

/// Appends `number`, or `-` for none.
pub(crate) fn push_number_or_dash(text: &mut Vec<u8>, number: Option<u64>) -> Result<(), AllocError>
    ensures { OnOk result (text.new.items ≡ text.old.items ++ number_or_dash number) }
{
    match number {
        Some(number) => push_number(text, number),
        None => text.extend_from_slice(b"-"),
    }
}
