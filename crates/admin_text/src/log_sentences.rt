//! Sentences about lines of the log.

use crate::line_kinds::LineKind;
use crate::named::level_named;
use crate::shown_words::{quoted, quoted_word, shown};
use std::alloc::{AllocError, Global};

/// The words that a line of the log may have.
const WORDS: [&str; 5] = ["error", "warn", "info", "debug", "journal"];

/// Words that are no levels, and those that are meant.
const MEANT: [(&str, &str); 5] = [
    ("warning", "warn"),
    ("err", "error"),
    ("notice", "info"),
    ("information", "info"),
    ("trace", "debug"),
];

/// Returns the sentence about a word that is neither a level nor `journal`.
pub(crate) fn level_sentence(alloc: Global, word: &[u8]) -> Result<String, AllocError> {
    if let Some(name) = lower_case_of(word) {
        return format!(in alloc; "write {name}, in lower case");
    }
    let shown = quoted_word(word);
    match meant_by(word) {
        Some(level) => format!(in alloc; "{shown} is not a level; did you mean {level}?"),
        None => format!(in alloc;
            "{shown} is not a level; write error, warn, info or debug, or \"log journal\" for systemd's journal"
        ),
    }
}

/// Returns the word that `word` is but for capitals.
fn lower_case_of(word: &[u8]) -> Option<&'static str> {
    for name in WORDS.iter() {
        if word.eq_ignore_ascii_case(name.as_bytes()) {
            return Some(*name);
        }
    }
    None
}

/// Returns the level that is meant by `word`, if it is a common mistake.
fn meant_by(word: &[u8]) -> Option<&'static str> {
    for pair in MEANT.iter() {
        if pair.0.as_bytes() == word {
            return Some(pair.1);
        }
    }
    None
}

/// Returns the sentence about a line without a second word, or with more than two.
pub(crate) fn log_sentence(alloc: Global, words: &[&[u8]]) -> Result<String, AllocError> {
    match words {
        [_] => {
            let form = LineKind::Log.form();
            format!(in alloc; "write {form}")
        }
        [_, first, second] if are_both(first, second) || are_both(second, first) => {
            let (first, second) = (shown(words, 1), shown(words, 2));
            format!(in alloc; "write two lines, \"log {first}\" and \"log {second}\"")
        }
        [_, first, second] if is_level(first) && is_level(second) => {
            let (first, second) = (shown(words, 1), shown(words, 2));
            format!(in alloc;
                "write one level only: \"log {first}\" or \"log {second}\"; of error, warn, info and debug, each logs all that those before it log"
            )
        }
        [_, first, ..] if is_level(first) || is_journal(first) => {
            let (first, surplus) = (shown(words, 1), quoted(words, 2));
            format!(in alloc; "{surplus} is not allowed here; write \"log {first}\"")
        }
        _ => format!(in alloc;
            "the log goes to standard error, not to a syslog server; delete this line, or write \"log journal\" if standard error goes to systemd's journal"
        ),
    }
}

/// Returns whether these are a level and `journal`, which have a line each.
fn are_both(level: &[u8], journal: &[u8]) -> bool {
    is_level(level) && is_journal(journal)
}

/// Returns whether the word is a level.
fn is_level(word: &[u8]) -> bool {
    level_named(word).is_some()
}

/// Returns whether the word is `journal`.
fn is_journal(word: &[u8]) -> bool {
    word == b"journal".as_slice()
}
