//! Keys of rows.
ghost use Rattle.std.specs.Prelude.{◌≡◌, ◌++◌, Err, IfOk, None, OnOk, Some};
ghost use Rattle.node_text.specs.Bytes.{bytes_of};
ghost use Rattle.node_text.specs.Keys.{address_of, key_of, key_text, string_text};

use crate::bytes::{hexadecimal, push_hexadecimal};
use crate::error::LineError;
use crate::numbers::{number32, push_number};
use crate::words::is_text;
use std::alloc::{AllocError, Global};
use table_types::{Items, Key, KeyKind};

/// Returns the kind of keys that `word` names.
pub(crate) fn kind_named(word: &[u8]) -> Option<KeyKind> {
    KeyKind::from_name(str::from_utf8(word).ok()?)
}

/// Reads a key of `kind`: an integer in decimal, a string as `=` and its text, and any other key in hexadecimal.
pub(crate) fn key_of(alloc: Global, kind: KeyKind, word: &[u8]) -> Result<Key, LineError>
    ensures written { IfOk result (λ key. key_of kind word.now ≡ Some key) }
    ensures refused { result ≡ Err LineError.Refused → key_of kind word.now ≡ None }
{
    match kind {
        KeyKind::Integer => match number32(word) {
            Some(number) => Ok(Key::Int(number)),
            None => Err(LineError::Refused),
        },
        KeyKind::Ip4 => Ok(Key::Ip4(address_of(alloc, word)?)),
        KeyKind::Ip6 => Ok(Key::Ip6(address_of(alloc, word)?)),
        KeyKind::String => match word {
            [b'=', text @ ..] if is_text(text) => {
                Ok(Key::Str(Items::new(Vec::from_slice(alloc, text)?)))
            }
            _ => Err(LineError::Refused),
        },
        KeyKind::Binary => Ok(Key::Bin(Items::new(bytes_of(alloc, word)?))),
    }
}

/// Reads an address of `N` bytes in hexadecimal.
fn address_of<const N: usize>(alloc: Global, word: &[u8]) -> Result<[u8; N], LineError>
    ensures written { IfOk result (λ address. address_of N word.now ≡ Some address) }
    ensures refused { result ≡ Err LineError.Refused → address_of N word.now ≡ None }
{
    let bytes = bytes_of(alloc, word)?;
    match <[u8; N]>::try_from(bytes.as_slice()) {
        Ok(address) => Ok(address),
        Err(_) => Err(LineError::Refused),
    }
}

/// Reads bytes in hexadecimal.
fn bytes_of(alloc: Global, word: &[u8]) -> Result<Vec<u8>, LineError>
    ensures written { IfOk result (λ bytes. bytes_of word.now ≡ Some bytes.items) }
    ensures refused { result ≡ Err LineError.Refused → bytes_of word.now ≡ None }
{
    match hexadecimal(alloc, word)? {
        Some(bytes) => Ok(bytes),
        None => Err(LineError::Refused),
    }
}

/// Appends `key` as a scene has it.
pub fn push_key(text: &mut Vec<u8>, key: &Key) -> Result<(), AllocError>
    ensures { OnOk result (text.new.items ≡ text.old.items ++ key_text key.now) }
{
    match key {
        Key::Int(number) => push_number(text, u64::from(*number)),
        Key::Ip4(address) => push_hexadecimal(text, address.as_slice()),
        Key::Ip6(address) => push_hexadecimal(text, address.as_slice()),
        Key::Str(string) => push_string(text, string.as_slice()),
        Key::Bin(bytes) => push_hexadecimal(text, bytes.as_slice()),
    }
}

/// Appends `=` and `string` if that is text, or else `~` and its bytes in hexadecimal.
///
/// A peer chooses the keys, so no byte of one may end the line.
fn push_string(text: &mut Vec<u8>, string: &[u8]) -> Result<(), AllocError>
    ensures { OnOk result (text.new.items ≡ text.old.items ++ string_text string.now) }
{
    if is_text(string) {
        text.push(b'=')?;
        text.extend_from_slice(string)
    } else {
        text.push(b'~')?;
        push_hexadecimal(text, string)
    }
}
