//! What the lines before a line say, whether they are refused or not.
ghost use Rattle.std.specs.Prelude.{◌≡◌, map};
ghost use Rattle.admin_text.specs.Before.{count_of, has_word, line_of, line_with};
ghost use Rattle.admin_text.specs.Statements.{said_by};

use crate::line_kinds::{LineKind, is_word_at};
use crate::statements::Statement;

/// Returns the number of the first line of `kind` that has `word` at `place`.
pub(crate) fn line_with(
    before: &[Statement<'_>],
    kind: LineKind,
    place: usize,
    word: &[u8],
) -> Option<usize>
    ensures { result ≡ line_with kind place word.now (map said_by before.now) }
{
    for statement in before {
        if has_word(statement.words.as_slice(), kind, place, word) {
            return Some(statement.number);
        }
    }
    None
}

/// Returns the number of the first line of `kind`.
pub(crate) fn line_of(before: &[Statement<'_>], kind: LineKind) -> Option<usize>
    ensures { result ≡ line_of kind (map said_by before.now) }
{
    line_with(before, kind, 0, kind.word().as_bytes())
}

/// Returns the number of lines of `kind`.
pub(crate) fn count_of(before: &[Statement<'_>], kind: LineKind) -> usize
    ensures { result ≡ count_of kind (map said_by before.now) }
{
    let mut count = 0;
    for statement in before {
        if kind.has(statement.words.as_slice()) {
            count += 1;
        }
    }
    count
}

/// Returns whether the line with these words is one of `kind` that has `word` at `place`.
fn has_word(words: &[&[u8]], kind: LineKind, place: usize, word: &[u8]) -> bool
    ensures { result ≡ has_word kind place word.now (map (λ word. word.now) words.now) }
{
    kind.has(words) && is_word_at(words, place, word)
}
