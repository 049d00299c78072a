//! Sentences about tables and their settings.

use crate::before::line_with;
use crate::faults::TableFault;
use crate::haproxy_sentences::{haproxy_sentence, rows_like};
use crate::line_kinds::{LineKind, is_word_at};
use crate::shown_words::{
    is_of_haproxy, lacks_id, quoted, quoted_word, shown, shown_word, text_of, word_at, zeros_hint,
};
use crate::statements::Statement;
use crate::type_sentences::type_sentence;
use crate::written_units::{LONGEST_TIME, time_of};
use node_text::number_from_one;
use std::alloc::{AllocError, Global};
use table_types::KeyKind;

/// The last id of a table.
const LAST_ID: u32 = (1 << 31) - 1;

/// The most ids that are named.
const MOST_IDS: usize = 8;

/// Returns the sentence about a line of a table.
pub(crate) fn table_sentence(
    alloc: Global,
    lines: &[Statement<'_>],
    words: &[&[u8]],
    fault: TableFault,
) -> Result<String, AllocError> {
    match fault {
        TableFault::Many => format!(in alloc; "a node has at most 64 tables"),
        TableFault::Id => id_sentence(alloc, lines, words),
        TableFault::TakenId(line) => {
            let id = shown(words, 1);
            format!(in alloc;
                "line {line} already defines table {id}; use an id that no other table has"
            )
        }
        TableFault::TakenName(line) => {
            let name = shown(words, 2);
            format!(in alloc;
                "line {line} already defines {name}; if this is another table, write its own name here; if it is the same one, delete one of the two lines, or merge them into one with all data types and the EXPIRE of HAProxy's table"
            )
        }
        TableFault::Keys if is_word_at(words, 3, b"type") => haproxy_sentence(alloc, lines, words),
        TableFault::Keys => keys_sentence(alloc, word_at(words, 3)),
        TableFault::Length(kind) => length_sentence(alloc, word_at(words, 4), kind),
        TableFault::Expire => expire_sentence(alloc, word_at(words, 5)),
        TableFault::Stored(place, fault) => type_sentence(alloc, words, place, fault),
    }
}

/// Returns the sentence about a word that isn't an id, or about a table without one.
pub(crate) fn id_sentence(
    alloc: Global,
    lines: &[Statement<'_>],
    words: &[&[u8]],
) -> Result<String, AllocError> {
    let id = quoted(words, 1);
    if is_of_haproxy(words) {
        haproxy_sentence(alloc, lines, words)
    } else if lacks_id(words) {
        let (name, keys) = (shown(words, 1), shown(words, 2));
        format!(in alloc;
            "write an id before the name, any number from 1 to 2147483647 that no other table has, as in \"table 1 {name} {keys} ..\""
        )
    } else {
        let zeros = zeros_hint(word_at(words, 1));
        format!(in alloc;
            "{id} is not a valid id; use any number from 1 to 2147483647{zeros} that no other table has"
        )
    }
}

/// Returns the sentence about a word that isn't a kind of keys.
fn keys_sentence(alloc: Global, word: &[u8]) -> Result<String, AllocError> {
    if word == b"ip".as_slice() {
        return format!(in alloc; "write ipv4 for HAProxy's ip");
    }
    let word = quoted_word(word);
    format!(in alloc; "{word} is not a key type; write integer, ipv4, ipv6, string or binary")
}

/// Returns the sentence about a length that keys of this kind don't have.
fn length_sentence(alloc: Global, word: &[u8], kind: KeyKind) -> Result<String, AllocError> {
    let word = shown_word(word);
    match kind {
        KeyKind::Integer => format!(in alloc; "the length of integer keys is 4, not {word}"),
        KeyKind::Ip4 => format!(in alloc; "the length of ipv4 keys is 4, not {word}"),
        KeyKind::Ip6 => format!(in alloc;
            "the length of ipv6 keys is 16, not {word}; for HAProxy's \"ip\" write \"ipv4 4\""
        ),
        KeyKind::String => format!(in alloc;
            "the length of string keys is 1 to 8192, not {word}; for HAProxy's \"string\" write 32, for \"string len N\" write N + 1"
        ),
        KeyKind::Binary => format!(in alloc;
            "the length of binary keys is 1 to 8192, not {word}; for HAProxy's \"binary len N\" write N, for its plain \"binary\" 32"
        ),
    }
}

/// Returns the sentence about a word that isn't a number of milliseconds.
fn expire_sentence(alloc: Global, word: &[u8]) -> Result<String, AllocError> {
    let (expire, zeros) = (shown_word(word), zeros_hint(word));
    match time_of(word) {
        Some(number) if number > LONGEST_TIME => format!(in alloc;
            "{expire} is too long; HAProxy's longest time is 2147483647 ms, some 24 days: write at most that, or 0 for rows that never expire"
        ),
        Some(number) => format!(in alloc;
            "rows expire after a number of milliseconds, 0 (never) to 2147483647, not {expire}; {expire} is {number} ms"
        ),
        None => format!(in alloc;
            "rows expire after a number of milliseconds, 0 (never) to 2147483647{zeros}, not {expire}"
        ),
    }
}

/// Returns the sentence about a word that isn't a number of rows.
pub(crate) fn rows_sentence(alloc: Global, word: &[u8]) -> Result<String, AllocError> {
    let (size, zeros) = (shown_word(word), zeros_hint(word));
    match rows_like(word) {
        Some(number) => format!(in alloc;
            "the number of rows is 1 to 1000000, not {size}; HAProxy's {size} is {number}"
        ),
        None => format!(in alloc;
            "the number of rows is 1 to 1000000{zeros}, not {size}; without this line it is 1000000"
        ),
    }
}

/// Returns the sentence about a setting of a table that no line above defines, by the word for the table's id.
pub(crate) fn no_table_sentence(
    alloc: Global,
    lines: &[Statement<'_>],
    words: &[&[u8]],
) -> Result<String, AllocError> {
    let word = word_at(words, 1);
    let table = shown_word(word);
    if let Some(line) = line_with(lines, LineKind::Table, 1, word) {
        return format!(in alloc;
            "line {line} defines table {table} only after this one; put this line after it"
        );
    }
    if let Some(id) = id_named(lines, word) {
        let id = shown_word(id);
        return format!(in alloc; "{table} is the table's name; write its id, {id}");
    }
    other_sentence(alloc, lines, words)
}

/// Returns the sentence about a setting of a table that no line defines.
fn other_sentence(
    alloc: Global,
    lines: &[Statement<'_>],
    words: &[&[u8]],
) -> Result<String, AllocError> {
    let kind = if LineKind::Size.has(words) {
        LineKind::Size
    } else {
        LineKind::Nopurge
    };
    let (keyword, table, word) = (kind.word(), shown(words, 1), quoted(words, 1));
    let ids = ids_in(alloc, lines, kind, word_at(words, 1))?;
    let ids = ids.as_str();
    match (is_id(word_at(words, 1)), ids.is_empty()) {
        (true, true) => format!(in alloc;
            "no line defines table {table}; define it above this line, or delete this line"
        ),
        (true, false) => format!(in alloc;
            "no line defines table {table}; write the id of a table that has no {keyword} line yet ({ids}), or define table {table} above this line"
        ),
        (false, true) => format!(in alloc;
            "{word} is not a table's id, and no table above is without a {keyword} line; delete this line"
        ),
        (false, false) => format!(in alloc;
            "{word} is not a table's id; write the id of a table that has no {keyword} line yet ({ids}), or delete this line"
        ),
    }
}

/// Returns whether the word may be the id of a table.
fn is_id(word: &[u8]) -> bool {
    number_from_one(word, LAST_ID).is_some()
}

/// Returns the id of the table with this name.
fn id_named<'a>(lines: &[Statement<'a>], name: &[u8]) -> Option<&'a [u8]> {
    for line in lines {
        let words = line.words.as_slice();
        if LineKind::Table.has(words) && is_word_at(words, 2, name) {
            return Some(word_at(words, 1));
        }
    }
    None
}

/// Returns the ids of tables that no line of `kind` sets something of, with commas between, and only the first eight. Their lines stand
/// before the first one of `kind` with this word for an id.
fn ids_in(
    alloc: Global,
    lines: &[Statement<'_>],
    kind: LineKind,
    word: &[u8],
) -> Result<String, AllocError> {
    let here = line_with(lines, kind, 1, word);
    let mut ids = String::new(alloc);
    let mut count = 0;
    for line in lines {
        let id = word_at(line.words.as_slice(), 1);
        if is_free(lines, line, kind) && is_before(line.number, here) && count < MOST_IDS {
            if count > 0 {
                ids.push_str(", ")?;
            }
            ids.push_str(text_of(id))?;
            count += 1;
        }
    }
    Ok(ids)
}

/// Returns whether the line gives an id to a table of which no line of `kind` sets something.
fn is_free(lines: &[Statement<'_>], line: &Statement<'_>, kind: LineKind) -> bool {
    let words = line.words.as_slice();
    let id = word_at(words, 1);
    LineKind::Table.has(words) && is_id(id) && line_with(lines, kind, 1, id).is_none()
}

/// Returns whether the line with this number stands before the other one.
fn is_before(number: usize, other: Option<usize>) -> bool {
    match other {
        Some(other) => number < other,
        None => true,
    }
}
