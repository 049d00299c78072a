//! Values of keys, and sentences: whatever bytes they are made of, they don't end the line or read as something else.
ghost use Rattle.std.specs.Prelude.{◌≡◌, ◌++◌, OnOk, map};
ghost use Rattle.std.specs.List.{list_all};
ghost use Rattle.node_log.specs.Values.{in_hexadecimal, is_plain, is_plain_byte, is_word, printable, strange_text, word_text};

use node_text::{is_text, push_hexadecimal};
use std::alloc::AllocError;

/// Appends a word that the configuration or the program has: as it is, or in hexadecimal if it would read as something else.
pub(crate) fn push_word(text: &mut Vec<u8>, word: &[u8]) -> Result<(), AllocError>
    ensures { OnOk result (text.new.items ≡ text.old.items ++ word_text word.now) }
{
    if is_word(word) {
        text.extend_from_slice(word)
    } else {
        push_in_hexadecimal(text, word)
    }
}

/// Appends a name that the configuration doesn't have: as it is if it is plain, or in hexadecimal.
pub(crate) fn push_strange(text: &mut Vec<u8>, name: &[u8]) -> Result<(), AllocError>
    ensures { OnOk result (text.new.items ≡ text.old.items ++ strange_text name.now) }
{
    if is_plain(name) {
        text.extend_from_slice(name)
    } else {
        push_in_hexadecimal(text, name)
    }
}

/// Appends `0x` and the bytes in hexadecimal.
fn push_in_hexadecimal(text: &mut Vec<u8>, bytes: &[u8]) -> Result<(), AllocError>
    ensures { OnOk result (text.new.items ≡ text.old.items ++ in_hexadecimal bytes.now) }
{
    text.extend_from_slice(b"0x")?;
    push_hexadecimal(text, bytes)
}

/// Returns whether the bytes are a word as lines have it: printable without a space, and with no colon at the end, which a space would follow.
fn is_word(bytes: &[u8]) -> bool
    ensures { result ≡ is_word bytes.now }
{
    let Some((last, _)) = bytes.split_last() else {
        return false;
    };
    *last != b':' && is_text(bytes)
}

/// Returns whether the name has only letters, digits, `-`, `_`, `.` and `/`, and at least one of them.
fn is_plain(name: &[u8]) -> bool
    ensures { result ≡ is_plain name.now }
{
    !name.is_empty() && are_plain_bytes(name)
}

/// Returns whether each of the bytes is a letter, a digit, `-`, `_`, `.` or `/`.
fn are_plain_bytes(bytes: &[u8]) -> bool
    ensures { result ≡ list_all is_plain_byte bytes.now }
{
    for byte in bytes {
        if !is_plain_byte(*byte) {
            return false;
        }
    }
    true
}

/// Returns whether a byte is a letter, a digit, `-`, `_`, `.` or `/`.
fn is_plain_byte(byte: u8) -> bool
    ensures { result ≡ is_plain_byte byte }
{
    matches!(byte, b'a'..=b'z' | b'A'..=b'Z' | b'0'..=b'9' | b'-' | b'_' | b'.' | b'/')
}

/// Appends the bytes of a sentence, with `?` in the place of one outside 32 to 126.
pub(crate) fn push_sentence(text: &mut Vec<u8>, sentence: &[u8]) -> Result<(), AllocError>
    ensures { OnOk result (text.new.items ≡ text.old.items ++ map printable sentence.now) }
{
    for byte in sentence {
        text.push(printable(*byte))?;
    }
    Ok(())
}

/// Returns `byte`, or `?` if it is outside 32 to 126.
fn printable(byte: u8) -> u8
    ensures { result ≡ printable byte }
{
    match byte {
        b' '..=b'~' => byte,
        _ => b'?',
    }
}
