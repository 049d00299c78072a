//! The order of bytes.

ghost use Rattle.std.specs.Prelude.{◌≡◌, ◌+◌, ◌*◌, ◌≤◌, ◌<◌, drop, length};
ghost use Rattle.std.specs.Ordering.{nat_cmp};
ghost use Rattle.std.specs.Cmp.Lexicographic.{slice_cmp};
ghost use Rattle.std.specs.Int.{w64, from_be_bytes};

use std::cmp::Ordering;

/// Compares bytes by the first that differs, or by their count if one is a prefix of the other.
///
/// Compares eight bytes at a time, as one number.
pub(crate) fn compare_bytes(left: &[u8], right: &[u8]) -> Ordering
    ensures { result ≡ slice_cmp nat_cmp left.now right.now }
{
    let words = left.len().min(right.len()) / 8;
    for word in 0..words {
        let (one, other) = (word_at(left, word), word_at(right, word));
        if one != other {
            return one.cmp(&other);
        }
    }
    left[8 * words..].cmp(&right[8 * words..])
}

/// Returns the eight bytes from `8 * word` on as a number, the first byte the most significant.
fn word_at(bytes: &[u8], word: usize) -> u64
    requires { 8 * word + 8 ≤ length bytes.now }
    ensures { result ≡ from_be_bytes w64 (drop (8 * word) bytes.now) }
{
    let at = 8 * word;
    u64::from_be_bytes([
        bytes[at],
        bytes[at + 1],
        bytes[at + 2],
        bytes[at + 3],
        bytes[at + 4],
        bytes[at + 5],
        bytes[at + 6],
        bytes[at + 7],
    ])
}
