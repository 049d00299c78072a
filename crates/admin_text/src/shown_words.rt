//! Words of a configuration, as sentences about it print them.

use crate::line_kinds::LineKind;
use crate::named::keys_named;
use node_text::is_text;
use std::alloc::{AllocError, Global};
use std::fmt;

/// The most bytes of a word that are printed.
const MOST_SHOWN: usize = 64;

/// What is printed in the place of a word that isn't.
const STRANGE: &str = "a word with bytes outside 33 to 126";

/// A word as it is printed: at most its first 64 bytes, and `...` after them if there are more.
#[derive(Clone, Copy)]
pub(crate) struct Printed<'a> {
    /// What is printed on both sides of it.
    quote: &'static str,
    text: &'a str,
    end: &'static str,
}

impl fmt::Display for Printed<'_> {
    fn fmt<W: fmt::Write>(&self, f: &mut fmt::Formatter<W>) -> fmt::Result {
        f.write_str(self.quote)?;
        f.write_str(self.text)?;
        f.write_str(self.end)?;
        f.write_str(self.quote)
    }
}

/// Returns the word as it is printed, which it only is if all its bytes are 33 to 126.
pub(crate) fn shown_word(word: &[u8]) -> Printed<'_> {
    let end = if word.len() > MOST_SHOWN { "..." } else { "" };
    match str::from_utf8(beginning(word, MOST_SHOWN)) {
        Ok(text) if is_text(word) => Printed {
            quote: "",
            text,
            end,
        },
        _ => Printed {
            quote: "",
            text: STRANGE,
            end: "",
        },
    }
}

/// Returns the word as it is printed, in quotes if all its bytes are 33 to 126.
pub(crate) fn quoted_word(word: &[u8]) -> Printed<'_> {
    let printed = shown_word(word);
    Printed {
        quote: if is_text(word) { "\"" } else { "" },
        text: printed.text,
        end: printed.end,
    }
}

/// Returns whether all of the word is printed.
pub(crate) fn is_shown_whole(word: &[u8]) -> bool {
    is_text(word) && word.len() <= MOST_SHOWN
}

/// Returns the word at `place` as it is printed.
pub(crate) fn shown<'a>(words: &[&'a [u8]], place: usize) -> Printed<'a> {
    shown_word(word_at(words, place))
}

/// Returns the word at `place` as it is printed, in quotes.
pub(crate) fn quoted<'a>(words: &[&'a [u8]], place: usize) -> Printed<'a> {
    quoted_word(word_at(words, place))
}

/// Returns the word at `place`, or an empty one if there is none.
pub(crate) fn word_at<'a>(words: &[&'a [u8]], place: usize) -> &'a [u8] {
    match words.get(place) {
        Some(word) => *word,
        None => &[],
    }
}

/// Returns the text of the word as it is printed, without the dots.
pub(crate) fn text_of(word: &[u8]) -> &str {
    shown_word(word).text
}

/// Returns the word as it is printed, with one space in the place of the commas between two parts.
pub(crate) fn without_commas(alloc: Global, word: &[u8]) -> Result<String, AllocError> {
    let mut parts = String::new(alloc);
    let mut is_after_comma = false;
    for byte in text_of(word).as_bytes() {
        if *byte == b',' {
            is_after_comma = !parts.is_empty();
        } else {
            if is_after_comma {
                parts.push(' ')?;
            }
            parts.push(char::from(*byte))?;
            is_after_comma = false;
        }
    }
    Ok(parts)
}

/// Returns what kind of character a word contains that no word may contain, and where: its first byte outside 33 to 126.
pub(crate) fn strange_character(alloc: Global, word: &[u8]) -> Result<String, AllocError> {
    let (place, byte) = strange_byte(word);
    let kind = if byte.is_ascii() {
        "a control character"
    } else {
        "a non-ASCII character"
    };
    format!(in alloc; "{kind} (byte {place} is 0x{byte:02x})")
}

/// Returns the place of the first byte of `word` outside 33 to 126, counted from 1, and the byte.
fn strange_byte(word: &[u8]) -> (usize, u8) {
    for (index, byte) in word.iter().enumerate() {
        if !byte.is_ascii_graphic() {
            return (index + 1, *byte);
        }
    }
    (0, 0)
}

/// Returns that a number has no leading zeros, if `word` has some.
pub(crate) fn zeros_hint(word: &[u8]) -> &'static str {
    if matches!(word, [b'0', b'0'..=b'9', ..]) {
        " without leading zeros"
    } else {
        ""
    }
}

/// Returns the sentence that says this of the line with these words.
pub(crate) fn about(alloc: Global, words: &[&[u8]], said: &str) -> Result<String, AllocError> {
    let subject = subject(alloc, words)?;
    let subject = subject.as_str();
    format!(in alloc; "{subject}: {said}")
}

/// Returns what the line is about: its first word, and which peer or table it says something of.
fn subject(alloc: Global, words: &[&[u8]]) -> Result<String, AllocError> {
    let kind = shown(words, 0);
    match subject_place(words) {
        Some(place) => {
            let name = shown(words, place);
            format!(in alloc; "{kind} {name}")
        }
        None => format!(in alloc; "{kind}"),
    }
}

/// Returns the place of the name of a peer or of a table, or of the id of a table that the line sets something of.
fn subject_place(words: &[&[u8]]) -> Option<usize> {
    match LineKind::of(words)? {
        LineKind::Peer | LineKind::Size | LineKind::Nopurge if words.len() > 1 => Some(1),
        LineKind::Table if lacks_id(words) || is_of_haproxy(words) => Some(1),
        LineKind::Table if words.len() > 2 => Some(2),
        _ => None,
    }
}

/// Returns whether these are the words of a table without an id: the second one doesn't begin with a digit, and the third is a kind of keys.
pub(crate) fn lacks_id(words: &[&[u8]]) -> bool {
    match words {
        [_, name, keys, ..] => !begins_with_digit(name) && keys_named(keys).is_some(),
        _ => false,
    }
}

/// Returns whether these are the words of a table as HAProxy has them.
pub(crate) fn is_of_haproxy(words: &[&[u8]]) -> bool {
    word_at(words, 1) == b"type".as_slice() || word_at(words, 2) == b"type".as_slice()
}

/// Returns whether the first byte of `word` is a digit.
fn begins_with_digit(word: &[u8]) -> bool {
    matches!(word, [b'0'..=b'9', ..])
}

/// Returns the first `most` bytes of `word`, or all of them if there are fewer.
fn beginning(word: &[u8], most: usize) -> &[u8] {
    if word.len() > most {
        &word[..most]
    } else {
        word
    }
}
