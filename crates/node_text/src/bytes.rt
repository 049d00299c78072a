//! Bytes in hexadecimal: read in either case, printed in upper case.
ghost use Rattle.std.specs.Prelude.{◌≡◌, ◌<◌, ◌++◌, IfOk, IfSome, OnOk, flat_map, option_map};
ghost use Rattle.node_text.specs.Bytes.{bytes_of, digit_for, digit_of, digits_of};

use std::alloc::{AllocError, Global};

/// Returns the bytes that `word` writes in hexadecimal, in either case, or `None` if it isn't two digits for each byte.
pub(crate) fn hexadecimal(alloc: Global, word: &[u8]) -> Result<Option<Vec<u8>>, AllocError>
    ensures { IfOk result (λ written. option_map (λ bytes. bytes.items) written ≡ bytes_of word.now) }
{
    let mut bytes = Vec::new(alloc);
    let mut rest = word;
    while let [high, low, after @ ..] = rest {
        let (Some(high), Some(low)) = (value_of(*high), value_of(*low)) else {
            return Ok(None);
        };
        bytes.push(high * 16 + low)?;
        rest = after;
    }
    Ok(if rest.is_empty() { Some(bytes) } else { None })
}

/// Returns the value of a hexadecimal digit.
fn value_of(digit: u8) -> Option<u8>
    ensures exactly { result ≡ digit_of digit }
    ensures small { IfSome result (λ value. value < 16) }
{
    match digit {
        b'0'..=b'9' => Some(digit - b'0'),
        b'a'..=b'f' => Some(digit - b'a' + 10),
        b'A'..=b'F' => Some(digit - b'A' + 10),
        _ => None,
    }
}

/// Appends `bytes` in hexadecimal, two digits for each.
pub fn push_hexadecimal(text: &mut Vec<u8>, bytes: &[u8]) -> Result<(), AllocError>
    ensures { OnOk result (text.new.items ≡ text.old.items ++ flat_map digits_of bytes.now) }
{
    for byte in bytes {
        text.push(digit(byte / 16))?;
        text.push(digit(byte % 16))?;
    }
    Ok(())
}

/// Returns the hexadecimal digit of `value`, in upper case.
fn digit(value: u8) -> u8
    requires { value < 16 }
    ensures { result ≡ digit_for value }
{
    if value < 10 {
        b'0' + value
    } else {
        b'A' - 10 + value
    }
}
