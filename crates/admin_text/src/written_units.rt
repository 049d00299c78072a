//! Numbers with HAProxy's units, as sentences explain them.

use node_text::number;

/// The greatest number that has a unit.
const MOST: u64 = (1 << 32) - 1;

/// The most milliseconds that HAProxy has in a time.
pub(crate) const LONGEST_TIME: u64 = (1 << 31) - 1;

/// Returns how many milliseconds HAProxy takes `word` for, with a unit or without one.
pub(crate) fn time_of(word: &[u8]) -> Option<u64> {
    milliseconds(word).or(number(word, u64::MAX))
}

/// Returns how many milliseconds HAProxy takes `word` for, if it is a number with a unit.
fn milliseconds(word: &[u8]) -> Option<u64> {
    let (digits, unit) = match word {
        [digits @ .., b'm', b's'] => (digits, 1),
        [digits @ .., b's'] => (digits, 1_000),
        [digits @ .., b'm'] => (digits, 60_000),
        [digits @ .., b'h'] => (digits, 3_600_000),
        [digits @ .., b'd'] => (digits, 86_400_000),
        _ => return None,
    };
    number(digits, MOST)?.checked_mul(unit)
}

/// Returns how many rows HAProxy takes `word` for, if it is a number with a unit.
pub(crate) fn rows(word: &[u8]) -> Option<u64> {
    let (digits, unit) = match word {
        [digits @ .., b'k' | b'K'] => (digits, 1_024),
        [digits @ .., b'm' | b'M'] => (digits, 1_048_576),
        _ => return None,
    };
    number(digits, MOST)?.checked_mul(unit)
}
