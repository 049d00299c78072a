ghost use Rattle.std.specs.Prelude.{◌≡◌, ℕ, ◌≤◌, length, take, drop};
ghost use Rattle.peers_encint.specs.Integers.{SpellsInteger, spelling};

/// Returns the length of the spelling of `n`: 1 to 10 bytes.
pub fn len(n: u64) -> usize
    ensures exact { result ≡ length (spelling n) }
    ensures within { (1 ≤ result) × (result ≤ 10) }
{
    if n < 240 {
        return 1;
    }
    let mut rest = (n - 240) >> 4;
    for used in 2..10 {
        if rest < 128 {
            return used;
        }
        rest = (rest - 128) >> 7;
    }
    10
}

/// Writes the spelling of `n` to the front of `out` and returns its length, 1 to 10 bytes. The other bytes of `out`
/// stay as they are.
pub fn put(n: u64, out: &mut [u8; 10]) -> usize
    ensures spelled { take result out.new ≡ spelling n }
    ensures means { SpellsInteger (take result out.new) n }
    ensures rest { drop result out.new ≡ drop result out.old }
    ensures length { result ≡ length (spelling n) }
    ensures within { (1 ≤ result) × (result ≤ 10) }
{
    write(n, out)
}

fn write(n: u64, out: &mut [u8; 10]) -> usize
    ensures spelled { take result out.new ≡ spelling n }
    ensures rest { drop result out.new ≡ drop result out.old }
    ensures within { (1 ≤ result) × (result ≤ 10) }
{
    if n < 240 {
        out[0] = n as u8;
        return 1;
    }
    out[0] = 240 | (n & 15) as u8;
    let mut rest = (n - 240) >> 4;
    for index in 1..9 {
        if rest < 128 {
            out[index] = rest as u8;
            return index + 1;
        }
        out[index] = (rest & 255) as u8 | 128;
        rest = (rest - 128) >> 7;
    }
    out[9] = rest as u8;
    10
}
