//! Words of a line.
ghost use Rattle.std.specs.Prelude.{◌≡◌, ◌∷◌, ◌++◌, Contains, MatchOption};
ghost use Rattle.node_text.specs.Words.{is_text};

use crate::error::LineError;
use std::alloc::Global;

/// Returns the bytes before the first `byte` of `text`, and those after it; `None` if `text` has no such byte.
pub fn cut(text: &[u8], byte: u8) -> Option<(&[u8], &[u8])>
    ensures { MatchOption result (Contains text.now byte → ⊥) (λ parts. (text.now ≡ parts.0.now ++ (byte ∷ parts.1.now)) × (Contains parts.0.now byte → ⊥)) }
{
    let end = text.iter().position(|other| *other == byte)?;
    Some((&text[..end], &text[end + 1..]))
}

/// Returns the words of `line`, which one space separates: none if the line is empty or begins with `#`.
///
/// It refuses a line with an empty word.
pub fn words_of<'a>(alloc: Global, line: &'a [u8]) -> Result<Vec<&'a [u8]>, LineError> {
    let mut words = Vec::new(alloc);
    if line.is_empty() || line.starts_with(b"#") {
        return Ok(words);
    }
    for word in line.split(|byte| *byte == b' ') {
        if word.is_empty() {
            return Err(LineError::Refused);
        }
        words.push(word)?;
    }
    Ok(words)
}

/// Returns whether each byte may stand in a name or in a string that is written as text: 33 to 126.
pub fn is_text(word: &[u8]) -> bool
    ensures { result ≡ is_text word.now }
{
    word.iter().all(|byte| byte.is_ascii_graphic())
}
