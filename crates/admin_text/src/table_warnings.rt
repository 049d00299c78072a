//! Tables that are legal, and surely meant otherwise.
ghost use Rattle.std.specs.Prelude.{◌≡◌, drop, map, option_copied};
ghost use Rattle.admin_text.specs.Warnings.{expire_warning, has_type, is_above, is_in_section, is_long, is_round, lacking_type, length_warning, long_period, name_warning, period_warning, server_warning, writes_round};

use crate::line_kinds::{LineKind, is_word_at};
use crate::type_words::period_part;
use crate::warnings::Warning;
use node_text::number;
use table_types::DataType;

/// The greatest length of keys.
const LONGEST_KEY: u64 = 8_192;

/// The most milliseconds that HAProxy has in a time.
const MOST_TIME: u64 = (1 << 31) - 1;

/// The place of the first data type in the line of a table.
const FIRST_TYPE: usize = 6;

/// Returns that a section stands before the table's name, if these are the words of a table and one does.
pub(crate) fn name_warning(words: &[&[u8]]) -> Option<Warning>
    ensures { result ≡ name_warning (map (λ word. word.now) words.now) }
{
    if LineKind::Table.has(words) && is_in_section(words.get(2).copied()) {
        Some(Warning::Section)
    } else {
        None
    }
}

/// Returns that the length of a table's strings is HAProxy's `len`, if these are the words of a table and it seems so.
pub(crate) fn length_warning(words: &[&[u8]]) -> Option<Warning>
    ensures { result ≡ length_warning (map (λ word. word.now) words.now) }
{
    let has_strings = LineKind::Table.has(words) && is_word_at(words, 3, b"string");
    if has_strings && writes_round(words.get(4).copied()) {
        Some(Warning::Length)
    } else {
        None
    }
}

/// Returns that rows live longer than HAProxy's may, if these are the words of a table and they do.
pub(crate) fn expire_warning(words: &[&[u8]]) -> Option<Warning>
    ensures { result ≡ expire_warning (map (λ word. word.now) words.now) }
{
    if LineKind::Table.has(words) && is_long(words.get(5).copied()) {
        Some(Warning::Expire)
    } else {
        None
    }
}

/// Returns that a period is longer than HAProxy's may be, if these are the words of a table and one is.
pub(crate) fn period_warning(words: &[&[u8]]) -> Option<Warning>
    ensures { result ≡ period_warning (map (λ word. word.now) words.now) }
{
    if LineKind::Table.has(words) {
        Some(Warning::Period(long_period(types_in(words))?))
    } else {
        None
    }
}

/// Returns that HAProxy adds server_id and server_key together, if these are the words of a table that stores just one of them.
pub(crate) fn server_warning(words: &[&[u8]]) -> Option<Warning>
    ensures { result ≡ server_warning (map (λ word. word.now) words.now) }
{
    if LineKind::Table.has(words) {
        let types = types_in(words);
        let lacking = lacking_type(
            has_type(types, b"server_id"),
            has_type(types, b"server_key"),
        )?;
        Some(Warning::Lacks(lacking))
    } else {
        None
    }
}

/// Returns which of server_id and server_key lacks, if only the other one is there.
fn lacking_type(has_id: bool, has_key: bool) -> Option<DataType>
    ensures { result ≡ lacking_type has_id has_key }
{
    match (has_id, has_key) {
        (false, true) => Some(DataType::ServerId),
        (true, false) => Some(DataType::ServerKey),
        (true, true) | (false, false) => None,
    }
}

/// Returns whether one of the words is this one.
fn has_type(words: &[&[u8]], word: &[u8]) -> bool
    ensures { result ≡ has_type word.now (map (λ word. word.now) words.now) }
{
    for other in words {
        if *other == word {
            return true;
        }
    }
    false
}

/// Returns the words of a table's data types.
fn types_in<'a, 'b>(words: &'b [&'a [u8]]) -> &'b [&'a [u8]]
    ensures { map (λ word. word.now) result.now ≡ drop 6 (map (λ word. word.now) words.now) }
{
    match words {
        [_, _, _, _, _, _, types @ ..] => types,
        _ => &[],
    }
}

/// Returns the place of the first data type with a period longer than HAProxy's may be.
fn long_period(types: &[&[u8]]) -> Option<usize>
    ensures { result ≡ long_period 6 (map (λ word. word.now) types.now) }
{
    for (index, word) in types.iter().enumerate() {
        if is_long(period_part(word)) {
            return Some(FIRST_TYPE + index);
        }
    }
    None
}

/// Returns whether the word is a name with a section in front: with a `/`, but not as its first byte.
fn is_in_section(name: Option<&[u8]>) -> bool
    ensures { result ≡ is_in_section (option_copied name.entry) }
{
    match name {
        Some([first, rest @ ..]) => *first != b'/' && rest.contains(&b'/'),
        _ => false,
    }
}

/// Returns whether the word is the length of keys, and a multiple of 4 or of 10.
fn writes_round(word: Option<&[u8]>) -> bool
    ensures { result ≡ writes_round (option_copied word.entry) }
{
    match word {
        Some(word) => is_round(number(word, LONGEST_KEY)),
        None => false,
    }
}

/// Returns whether the number is a multiple of 4 or of 10.
fn is_round(number: Option<u64>) -> bool
    ensures { result ≡ is_round number }
{
    match number {
        Some(number) => number % 4 == 0 || number % 10 == 0,
        None => false,
    }
}

/// Returns whether the word is a number of milliseconds above those that HAProxy has.
fn is_long(word: Option<&[u8]>) -> bool
    ensures { result ≡ is_long (option_copied word.entry) }
{
    match word {
        Some(word) => is_above(number(word, u64::from(u32::MAX))),
        None => false,
    }
}

/// Returns whether the number is above those that HAProxy has in a time.
fn is_above(number: Option<u64>) -> bool
    ensures { result ≡ is_above number }
{
    match number {
        Some(number) => number > MOST_TIME,
        None => false,
    }
}
