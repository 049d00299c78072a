ghost use Rattle.std.specs.Prelude.{◌≡◌, ℕ, ◌+◌, ◌*◌, ◌^◌, ◌<◌, Some};
ghost use Rattle.peers_encint.specs.Integers.{Reads, read_of, long_of, whole_of, tail_length};
ghost use Rattle.peers_encint.specs.declared.reading.Read.{Read};

/// The result of reading a number at the front of some bytes.
#[derive(Debug, Clone, Copy, PartialEq, Eq)]
pub enum Read {
    /// The number, and the length of its spelling, 1 to 10 bytes. Other bytes may follow.
    Value(u64, usize),
    /// The bytes end before the number does: more bytes are needed.
    Short,
    /// The number is 2^64 or more: none of its first nine bytes is the last, and the tenth brings it to 2^64 or above.
    Over,
}

/// Reads the number at the front of `b`.
#[inline(always)]
pub fn get(b: &[u8]) -> Read
    ensures read { Reads b.now result }
    // No other result is right.
    ensures only { (r : Read) → Reads b.now r → r ≡ result }
    ensures computes { result ≡ read_of b.now }
{
    answer(b)
}

#[inline(always)]
#[tactic(auto, unfolding(crate::specs::Integers::read_of))]
fn answer(bytes: &[u8]) -> Read
    ensures { result ≡ read_of bytes.now }
{
    match bytes {
        [] => Read::Short,
        [first, ..] if *first < 240 => Read::Value(u64::from(*first), 1),
        [first, later @ ..] => read_long(*first, later),
    }
}

// Reads a number whose first byte, 240 or more, is `first`, and whose later bytes are at the front of `later`.
#[inline(never)]
fn read_long(first: u8, later: &[u8]) -> Read
    ensures { result ≡ long_of first later.now (tail_length 8 later.now) }
{
    let mut sum = u128::from(first);
    for index in 0..later.len().min(9) {
        sum += shifted(later[index], index);
        if later[index] < 128 || index == 8 {
            return whole(sum, index + 2);
        }
    }
    Read::Short
}

// Returns the later byte at `index`, counted from 0, shifted to its weight.
fn shifted(byte: u8, index: usize) -> u128
    requires { index < 9 }
    ensures exact { result ≡ byte * 2 ^ (4 + 7 * index) }
    ensures below { result < 2 ^ 68 }
{
    u128::from(byte) << (4 + 7 * index)
}

// Returns the result for a number of which all bytes were added.
fn whole(sum: u128, used: usize) -> Read
    ensures { result ≡ whole_of sum used }
{
    match u64::try_from(sum) {
        Ok(n) => Read::Value(n, used),
        Err(_) => Read::Over,
    }
}
