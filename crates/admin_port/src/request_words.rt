//! The words of a request's line.
ghost use Rattle.std.specs.Prelude.{◌≡◌, Err, IfOk, false, map, true};
ghost use Rattle.std.specs.List.{list_all};
ghost use Rattle.admin_port.specs.RequestWords.{is_word, line_words};

use node_text::{LineError, cut};
use std::alloc::Global;

/// Returns the words of `line`, with one space between them. It refuses a line with an empty word.
pub(crate) fn request_words<'a>(alloc: Global, line: &'a [u8]) -> Result<Vec<&'a [u8]>, LineError>
    ensures words { IfOk result (λ words. map (λ word. word.now) words.items ≡ line_words line.now) }
    ensures each { IfOk result (λ _. list_all is_word (line_words line.now) ≡ true) }
    ensures refused { result ≡ Err LineError.Refused → list_all is_word (line_words line.now) ≡ false }
{
    let mut words = Vec::new(alloc);
    let mut rest = line;
    while let Some((word, after)) = cut(rest, b' ') {
        if word.is_empty() {
            return Err(LineError::Refused);
        }
        words.push(word)?;
        rest = after;
    }
    if rest.is_empty() {
        return Err(LineError::Refused);
    }
    words.push(rest)?;
    Ok(words)
}
