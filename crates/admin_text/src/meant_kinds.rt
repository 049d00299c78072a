//! Words with which no line begins, and the kinds of lines that are meant.
ghost use Rattle.std.specs.Prelude.{◌≡◌, map};
ghost use Rattle.admin_text.specs.MeantKinds.{has_meant, has_meant_with, is_alike, is_mark, is_meant, is_mistake, is_one_of, without_mark};
ghost use Rattle.admin_text.specs.Statements.{said_by};

use crate::line_kinds::{LineKind, is_word_at};
use crate::statements::Statement;

/// Returns the kind of line that begins with `word` but for capitals.
pub(crate) fn kind_alike(word: &[u8]) -> Option<LineKind> {
    for kind in LineKind::ALL.iter() {
        if is_alike(word, kind.word().as_bytes()) {
            return Some(*kind);
        }
    }
    None
}

/// Returns the kind of line that begins with `word` but for capitals and the mark that it ends with, and what that is.
pub(crate) fn before_mark(word: &[u8]) -> Option<(LineKind, &'static str)> {
    let mark = match word {
        [.., b':'] => "colon",
        [.., b'='] => "equals sign",
        _ => return None,
    };
    let kind = kind_alike(without_mark(word))?;
    Some((kind, mark))
}

/// Returns the kind of line for whose first word `word` is a common mistake.
pub(crate) fn mistaken_kind(word: &[u8]) -> Option<LineKind> {
    for kind in LineKind::ALL.iter() {
        if is_mistake(*kind, word) {
            return Some(*kind);
        }
    }
    None
}

/// Returns whether one of the lines is plainly meant to be of `kind`.
pub(crate) fn has_meant(lines: &[Statement<'_>], kind: LineKind) -> bool
    ensures { result ≡ has_meant kind (map said_by lines.now) }
{
    for line in lines {
        if is_meant(kind, line.words.as_slice()) {
            return true;
        }
    }
    false
}

/// Returns whether one of the lines is plainly meant to be of `kind`, and has `word` at `place`.
pub(crate) fn has_meant_with(
    lines: &[Statement<'_>],
    kind: LineKind,
    place: usize,
    word: &[u8],
) -> bool
    ensures { result ≡ has_meant_with kind place word.now (map said_by lines.now) }
{
    for line in lines {
        let words = line.words.as_slice();
        if is_meant(kind, words) && is_word_at(words, place, word) {
            return true;
        }
    }
    false
}

/// Returns whether a line with these words is plainly meant to be of `kind`.
pub(crate) fn is_meant(kind: LineKind, words: &[&[u8]]) -> bool
    ensures { result ≡ is_meant kind (map (λ word. word.now) words.now) }
{
    match words {
        [word, ..] => {
            is_alike(without_mark(word), kind.word().as_bytes()) || is_mistake(kind, word)
        }
        [] => false,
    }
}

/// Returns whether both are one word but for capitals.
fn is_alike(word: &[u8], other: &[u8]) -> bool
    ensures { result ≡ is_alike word.now other.now }
{
    word.eq_ignore_ascii_case(other)
}

/// Returns `word` without the `:` or `=` that it may end with.
fn without_mark(word: &[u8]) -> &[u8]
    ensures { result.now ≡ without_mark word.now }
{
    let Some((last, before)) = word.split_last() else {
        return word;
    };
    if is_mark(*last) { before } else { word }
}

/// Returns whether `byte` is `:` or `=`.
fn is_mark(byte: u8) -> bool
    ensures { result ≡ is_mark byte }
{
    byte == b':' || byte == b'='
}

/// Returns whether `word` is a common mistake for the first word of a line of `kind`.
fn is_mistake(kind: LineKind, word: &[u8]) -> bool
    ensures { result ≡ is_mistake kind word.now }
{
    match kind {
        LineKind::Node => is_one_of(word, b"nodes", b"name", b"localpeer"),
        LineKind::Listen => word == b"listener".as_slice(),
        LineKind::Metrics => word == b"metric".as_slice(),
        LineKind::Section => word == b"peers".as_slice(),
        LineKind::Peer => word == b"pear".as_slice() || word == b"server".as_slice(),
        LineKind::Table => is_one_of(word, b"tabel", b"tables", b"stick-table"),
        LineKind::Nopurge => word == b"no-purge".as_slice(),
        LineKind::Admin | LineKind::Socket | LineKind::Size => false,
        LineKind::Log | LineKind::Journal => false,
    }
}

/// Returns whether `word` is one of these three.
fn is_one_of(word: &[u8], first: &[u8], second: &[u8], third: &[u8]) -> bool
    ensures { result ≡ is_one_of word.now first.now second.now third.now }
{
    word == first || word == second || word == third
}
