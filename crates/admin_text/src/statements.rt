//! The lines of a configuration that say something, and their words.
ghost use Rattle.std.specs.Prelude.{◌≡◌, ◌∷◌, ◌++◌, ◌<◌, ◌≤◌, [], IfOk, IfSome, MatchOption, OnOk, drop, false, length, map, take, true};
ghost use Rattle.admin_text.specs.Statements.{begins_blank, is_blank, said_at, said_by, said_in, statements_of, without_return, words_from, words_of};

use node_text::cut;
use std::alloc::Global;
use table_types::Memory;

/// The bytes with which some editors begin a file.
pub(crate) const BYTE_ORDER_MARK: &[u8] = b"\xef\xbb\xbf";

/// The number of its bytes.
const MARK_LENGTH: usize = 3;

/// A line that says something.
#[derive(Debug, Drop)]
pub(crate) struct Statement<'a> {
    /// The number of the line, from 1.
    pub number: usize,
    /// Its words, at least one.
    pub words: Vec<&'a [u8]>,
}

/// Returns what the lines of `text` say, in order. Each ends with LF, before which a CR may stand; the last may lack both. A byte order
/// mark that begins the text counts as a line of its own.
pub(crate) fn statements_of<'a>(alloc: Global, text: &'a [u8]) -> Result<Vec<Statement<'a>>, Memory>
    ensures { IfOk result (λ statements. map said_by statements.items ≡ statements_of text.now) }
{
    let mut statements = Vec::new(alloc);
    if text.starts_with(BYTE_ORDER_MARK) {
        push_statement(alloc, &mut statements, 1, BYTE_ORDER_MARK)?;
        push_lines(alloc, &mut statements, behind_mark(text))?;
    } else {
        push_lines(alloc, &mut statements, text)?;
    }
    Ok(statements)
}

/// Returns `text` without its first three bytes.
fn behind_mark(text: &[u8]) -> &[u8]
    ensures { result.now ≡ drop 3 text.now }
{
    if text.len() < MARK_LENGTH {
        &[]
    } else {
        &text[MARK_LENGTH..]
    }
}

/// Appends what the lines of `text` say.
fn push_lines<'a>(
    alloc: Global,
    statements: &mut Vec<Statement<'a>>,
    text: &'a [u8],
) -> Result<(), Memory>
    ensures { OnOk result (map said_by statements.new.items ≡ map said_by statements.old.items ++ said_in text.now) }
{
    let mut rest = text;
    let mut number = 1;
    while let Some((line, after)) = cut(rest, b'\n') {
        push_statement(alloc, statements, number, without_return(line))?;
        rest = after;
        number += 1;
    }
    push_statement(alloc, statements, number, rest)?;
    Ok(())
}

/// Appends what the line says, unless it has no words.
fn push_statement<'a>(
    alloc: Global,
    statements: &mut Vec<Statement<'a>>,
    number: usize,
    line: &'a [u8],
) -> Result<(), Memory>
    ensures { OnOk result (map said_by statements.new.items ≡ map said_by statements.old.items ++ said_at number (words_of line.now)) }
{
    let words = words_of(alloc, line)?;
    if !words.is_empty() {
        statements.push(Statement { number, words })?;
    }
    Ok(())
}

/// Returns `line` without the CR that it may end with.
fn without_return(line: &[u8]) -> &[u8]
    ensures { result.now ≡ without_return line.now }
{
    let Some((last, before)) = line.split_last() else {
        return line;
    };
    if *last == b'\r' { before } else { line }
}

/// Returns the words of `line`: any spaces and tabs stand between them, and `#` begins a comment where a word could begin.
fn words_of<'a>(alloc: Global, line: &'a [u8]) -> Result<Vec<&'a [u8]>, Memory>
    ensures { IfOk result (λ words. map (λ word. word.now) words.items ≡ words_of line.now) }
{
    let mut words = Vec::new(alloc);
    let mut rest = line;
    while let Some((word, after)) = next_word(rest) {
        words.push(word)?;
        rest = after;
    }
    Ok(words)
}

/// Returns the first word of `text`, and what comes behind it; `None` if `text` has no word.
fn next_word(text: &[u8]) -> Option<(&[u8], &[u8])>
    ensures word { MatchOption result (words_of text.now ≡ []) (λ parts. words_of text.now ≡ parts.0.now ∷ words_of parts.1.now) }
    ensures less { IfSome result (λ parts. length parts.1.now < length text.now) }
{
    let text = without_blanks(text);
    match text {
        [] | [b'#', ..] => None,
        [_, rest @ ..] => Some(text.split_at(1 + end_of_word(rest))),
    }
}

/// Returns `text` from its first byte that is neither a space nor a tab.
fn without_blanks(text: &[u8]) -> &[u8]
    ensures words { words_of result.now ≡ words_of text.now }
    ensures less { length result.now ≤ length text.now }
    ensures word { begins_blank result.now ≡ false }
{
    let mut rest = text;
    while let [b' ' | b'\t', after @ ..] = rest {
        rest = after;
    }
    rest
}

/// Returns the number of bytes before the first space or tab of `text`, which begins inside a word.
fn end_of_word(text: &[u8]) -> usize
    ensures words { words_from true text.now ≡ take result text.now ∷ words_of (drop result text.now) }
    ensures within { result ≤ length text.now }
{
    let mut end = 0;
    while end < text.len() && !is_blank(text[end]) {
        end += 1;
    }
    end
}

/// Returns whether `byte` is a space or a tab.
fn is_blank(byte: u8) -> bool
    ensures { result ≡ is_blank byte }
{
    byte == b' ' || byte == b'\t'
}
