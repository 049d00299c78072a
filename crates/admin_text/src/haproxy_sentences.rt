//! Sentences about tables in HAProxy's form.

use crate::before::line_with;
use crate::line_kinds::LineKind;
use crate::named::{keys_named, type_named};
use crate::shown_words::{is_shown_whole, shown_word, text_of};
use crate::statements::Statement;
use crate::written_units::{LONGEST_TIME, rows, time_of};
use node_text::{cut, number};
use std::alloc::{AllocError, Global};
use table_types::KeyKind;

/// Ids that are proposed for a table.
const IDS: [&str; 9] = ["1", "2", "3", "4", "5", "6", "7", "8", "9"];

/// The greatest length of keys.
const LONGEST_KEY: u64 = 8_192;

/// The greatest number of rows.
const MOST_ROWS: u64 = 1_000_000;

/// Returns the sentence about a table with these words, which are in HAProxy's form, maybe with an id in front.
pub(crate) fn haproxy_sentence(
    alloc: Global,
    lines: &[Statement<'_>],
    words: &[&[u8]],
) -> Result<String, AllocError> {
    let (id, name, hint) = parts_like(lines, words);
    match table_like(alloc, name, words)? {
        Some(table) => {
            let settings = settings_like(alloc, lines, id, words)?;
            let (table, settings) = (table.as_str(), settings.as_str());
            format!(in alloc;
                "this is HAProxy's form; write \"table {id} {table}\"{hint}{settings}"
            )
        }
        None => match unshared_sentence(alloc, word_behind(words, b"store"))? {
            Some(sentence) => Ok(sentence),
            None => {
                let form = LineKind::Table.form();
                format!(in alloc; "this is HAProxy's form; write {form}")
            }
        },
    }
}

/// Returns the sentence about the data type that `word` begins with, if it is one of HAProxy's that can't be shared.
pub(crate) fn unshared_sentence(alloc: Global, word: &[u8]) -> Result<Option<String>, AllocError> {
    let (name, instead) = match cut(word, b'(') {
        Some((b"gpc", _)) => ("gpc(N)", "gpc0 or gpc1"),
        Some((b"gpt", _)) => ("gpt(N)", "gpt0"),
        Some((b"gpc_rate", behind)) => return Ok(Some(rates_sentence(alloc, behind)?)),
        _ => return Ok(None),
    };
    let sentence = format!(in alloc;
        "this program doesn't share {name}: use {instead} here and in HAProxy's configuration, or leave this table out"
    )?;
    Ok(Some(sentence))
}

/// Returns the sentence about rates that can't be shared, from what comes behind `gpc_rate(`.
fn rates_sentence(alloc: Global, behind: &[u8]) -> Result<String, AllocError> {
    let (time, number) = match rates_period(behind) {
        Some((time, number)) => (text_of(time), number),
        None => ("10s", 10_000),
    };
    format!(in alloc;
        "this program doesn't share gpc_rate(N,TIME): write gpc0_rate:{number} or gpc1_rate:{number} here, and store gpc0_rate({time}) or gpc1_rate({time}) in HAProxy's configuration, or leave this table out"
    )
}

/// Returns what comes behind the first `,` and before `)`, and how many milliseconds HAProxy takes it for, if a rate may have them for a
/// period.
fn rates_period(behind: &[u8]) -> Option<(&[u8], u64)> {
    let (inner, _) = cut(behind, b')')?;
    let (_, time) = cut(inner, b',')?;
    Some((time, period_in(time)?))
}

/// Returns the id and the name of a table with these words, as far as they give them, and a hint about both.
fn parts_like<'a>(
    lines: &[Statement<'_>],
    words: &[&'a [u8]],
) -> (&'a str, &'a [u8], &'static str) {
    match words {
        [_, id, name, keyword, ..] if *keyword == b"type".as_slice() => (text_of(*id), *name, ""),
        [_, name, keyword, ..] if *keyword == b"type".as_slice() => (
            free_id(lines),
            *name,
            " (any id that no other table has will do)",
        ),
        _ => (
            free_id(lines),
            b"".as_slice(),
            " (any id that no other table has will do; NAME is the proxy's name)",
        ),
    }
}

/// Returns the first id that no line gives to a table.
fn free_id(lines: &[Statement<'_>]) -> &'static str {
    for id in IDS.iter() {
        if lacks(lines, LineKind::Table, id) {
            return *id;
        }
    }
    "ID"
}

/// Returns whether no line of `kind` has this id.
fn lacks(lines: &[Statement<'_>], kind: LineKind, id: &str) -> bool {
    line_with(lines, kind, 1, id.as_bytes()).is_none()
}

/// Returns what comes behind the id in the line of a table that HAProxy writes with these words, with `NAME` in the place of an empty name.
fn table_like(alloc: Global, name: &[u8], words: &[&[u8]]) -> Result<Option<String>, AllocError> {
    let keys = keys_like(word_behind(words, b"type"), word_behind(words, b"len"));
    let expire = expire_like(word_behind(words, b"expire"));
    let types = stored_types(alloc, words)?;
    match (keys, expire, types) {
        (Some((kind, length)), Some(expire), Some(types)) if is_shown_whole(name) => {
            let (slash, name) = match name {
                [] => ("", shown_word(b"NAME")),
                _ => ("/", shown_word(without_section(name))),
            };
            let (keys, types) = (kind.name(), types.as_str());
            let table = format!(in alloc; "{slash}{name} {keys} {length} {expire}{types}")?;
            Ok(Some(table))
        }
        _ => Ok(None),
    }
}

/// Returns what comes behind the first `/` of a table's name, or all of it.
fn without_section(name: &[u8]) -> &[u8] {
    match cut(name, b'/') {
        Some((_, table)) => table,
        None => name,
    }
}

/// Returns the kind of keys that HAProxy calls so, and their length if `length` comes behind HAProxy's `len`.
fn keys_like(word: &[u8], length: &[u8]) -> Option<(KeyKind, u64)> {
    let kind = if word == b"ip".as_slice() {
        KeyKind::Ip4
    } else {
        keys_named(word)?
    };
    Some((kind, length_like(kind, length)?))
}

/// Returns the length of keys of this kind, if this comes behind HAProxy's `len`, or nothing does.
fn length_like(kind: KeyKind, word: &[u8]) -> Option<u64> {
    match kind {
        KeyKind::Integer | KeyKind::Ip4 => Some(4),
        KeyKind::Ip6 => Some(16),
        KeyKind::String | KeyKind::Binary if word.is_empty() => Some(32),
        KeyKind::String | KeyKind::Binary if word == b"0".as_slice() => None,
        KeyKind::String => match number(word, LONGEST_KEY - 1) {
            Some(most) if most < LONGEST_KEY => Some(most + 1),
            _ => None,
        },
        KeyKind::Binary => number(word, LONGEST_KEY),
    }
}

/// Returns after how many milliseconds rows expire, if this comes behind HAProxy's `expire`, or nothing does.
fn expire_like(word: &[u8]) -> Option<u64> {
    if word.is_empty() {
        return Some(0);
    }
    match time_of(word) {
        Some(number) if number <= LONGEST_TIME => Some(number),
        _ => None,
    }
}

/// Returns the data types behind each `store` of these words, with a space before each, if all can be shared.
fn stored_types(alloc: Global, words: &[&[u8]]) -> Result<Option<String>, AllocError> {
    let mut types = String::new(alloc);
    let mut is_list = false;
    for word in words {
        if is_list {
            match types_like(alloc, word)? {
                Some(more) => {
                    types.push(' ')?;
                    types.push_str(more.as_str())?;
                }
                None => return Ok(None),
            }
        }
        is_list = *word == b"store".as_slice();
    }
    Ok(Some(types))
}

/// Returns the data types that HAProxy writes with commas between, with spaces between, if all can be shared.
pub(crate) fn types_like(alloc: Global, list: &[u8]) -> Result<Option<String>, AllocError> {
    let mut types = String::new(alloc);
    for word in list.split(|byte| *byte == b',') {
        match type_like(alloc, word)? {
            Some(text) => {
                if !types.is_empty() {
                    types.push(' ')?;
                }
                types.push_str(text.as_str())?;
            }
            None => return Ok(None),
        }
    }
    Ok(Some(types))
}

/// Returns the data type that HAProxy writes so, with the period of a rate in parentheses.
fn type_like(alloc: Global, word: &[u8]) -> Result<Option<String>, AllocError> {
    let (name, period) = match cut(word, b'(') {
        Some((name, behind)) => (name, time_in(behind)),
        None => (word, None),
    };
    match (type_named(name), period) {
        (Some(rate), Some(number)) if rate.is_rate() => {
            let name = rate.name();
            Ok(Some(format!(in alloc; "{name}:{number}")?))
        }
        (Some(other), None) if !other.is_rate() => {
            let name = other.name();
            Ok(Some(format!(in alloc; "{name}")?))
        }
        _ => Ok(None),
    }
}

/// Returns how many milliseconds HAProxy takes a time before `)` for, if a rate may have them for a period.
pub(crate) fn time_in(period: &[u8]) -> Option<u64> {
    match period {
        [time @ .., b')'] => period_in(time),
        _ => None,
    }
}

/// Returns how many milliseconds HAProxy takes `time` for, if a rate may have them for a period.
pub(crate) fn period_in(time: &[u8]) -> Option<u64> {
    match time_of(time) {
        Some(number) if number > 0 && number <= LONGEST_TIME => Some(number),
        _ => None,
    }
}

/// Returns which lines come behind that of the table with this id, for what else HAProxy says of it in these words.
fn settings_like(
    alloc: Global,
    lines: &[Statement<'_>],
    id: &str,
    words: &[&[u8]],
) -> Result<String, AllocError> {
    let size = match rows_like(word_behind(words, b"size")) {
        Some(size) if lacks(lines, LineKind::Size, id) => Some(size),
        _ => None,
    };
    let keeps = has(words, b"nopurge") && lacks(lines, LineKind::Nopurge, id);
    match (size, keeps) {
        (Some(size), false) => format!(in alloc; ", and on the next line \"size {id} {size}\""),
        (Some(size), true) => format!(in alloc;
            ", and on the next lines \"size {id} {size}\" and \"nopurge {id}\""
        ),
        (None, true) => format!(in alloc; ", and on the next line \"nopurge {id}\""),
        (None, false) => Ok(String::new(alloc)),
    }
}

/// Returns how many rows HAProxy takes `word` for, with a unit or without one, if a table may store them.
pub(crate) fn rows_like(word: &[u8]) -> Option<u64> {
    match rows(word).or(number(word, MOST_ROWS)) {
        Some(number) if number > 0 && number <= MOST_ROWS => Some(number),
        _ => None,
    }
}

/// Returns whether one of the words is this one.
fn has(words: &[&[u8]], word: &[u8]) -> bool {
    for other in words {
        if *other == word {
            return true;
        }
    }
    false
}

/// Returns what comes behind the first such word, or nothing.
fn word_behind<'a>(words: &[&'a [u8]], word: &[u8]) -> &'a [u8] {
    let mut is_behind = false;
    for other in words {
        if is_behind {
            return other;
        }
        is_behind = *other == word;
    }
    &[]
}
