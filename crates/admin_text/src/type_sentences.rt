//! Sentences about the data types of tables.

use crate::faults::TypeFault;
use crate::haproxy_sentences::{period_in, time_in, types_like, unshared_sentence};
use crate::named::type_named;
use crate::shown_words::{quoted_word, shown_word, without_commas, word_at};
use crate::type_words::{name_part, period_part};
use node_text::cut;
use std::alloc::{AllocError, Global};
use table_types::DataType;

/// Words that are no data types, and those that are meant.
const MEANT: [(&str, &str); 10] = [
    ("gpc", "gpc0 or gpc1"),
    ("gpt", "gpt0"),
    ("gpc_rate", "gpc0_rate or gpc1_rate"),
    ("conn", "conn_cnt"),
    ("conn_count", "conn_cnt"),
    ("sess", "sess_cnt"),
    ("http_req", "http_req_cnt"),
    ("http_err", "http_err_cnt"),
    ("bytes_in", "bytes_in_cnt"),
    ("bytes_out", "bytes_out_cnt"),
];

/// Returns the sentence about the word at `place`, which isn't a data type that the table may store.
pub(crate) fn type_sentence(
    alloc: Global,
    words: &[&[u8]],
    place: usize,
    fault: TypeFault,
) -> Result<String, AllocError> {
    let word = word_at(words, place);
    match fault {
        TypeFault::Unknown => unknown_sentence(alloc, word),
        TypeFault::NoPeriod => no_period_sentence(alloc, word),
        TypeFault::Period => period_sentence(alloc, word),
        TypeFault::Repeated => {
            let name = shown_word(name_part(word));
            format!(in alloc; "{name} is given twice; a table stores each data type once")
        }
    }
}

/// Returns the sentence about a word that begins with the name of no data type.
fn unknown_sentence(alloc: Global, word: &[u8]) -> Result<String, AllocError> {
    if let Some(sentence) = unshared_sentence(alloc, word)? {
        return Ok(sentence);
    }
    if word.contains(&b',') {
        return commas_sentence(alloc, word);
    }
    if let Some((name, period)) = cut(word, b'(') {
        return parentheses_sentence(alloc, word, name, period);
    }
    let name = quoted_word(word);
    match meant_by(name_part(word)) {
        Some(meant) => format!(in alloc; "{name} is not a data type; did you mean {meant}?"),
        None => {
            let names = type_names(alloc)?;
            let names = names.as_str();
            format!(in alloc; "{name} is not a data type; use any of {names}")
        }
    }
}

/// Returns the sentence about data types with commas between.
fn commas_sentence(alloc: Global, word: &[u8]) -> Result<String, AllocError> {
    if let Some(types) = types_like(alloc, word)? {
        let types = types.as_str();
        return format!(in alloc; "separate data types with spaces, not commas: \"{types}\"");
    }
    if word.contains(&b'(') {
        return format!(in alloc;
            "separate data types with spaces, not commas, and write a rate with its period in ms after a colon, as in \"gpc0 http_req_rate:10000\""
        );
    }
    let types = without_commas(alloc, word)?;
    let types = types.as_str();
    format!(in alloc; "separate data types with spaces, not commas: \"{types}\"")
}

/// Returns the sentence about a word with its period in parentheses, from what comes before and after the first one.
fn parentheses_sentence(
    alloc: Global,
    word: &[u8],
    name: &[u8],
    period: &[u8],
) -> Result<String, AllocError> {
    let word = quoted_word(word);
    match (type_named(name), time_in(period)) {
        (Some(rate), Some(number)) if rate.is_rate() => {
            let name = rate.name();
            format!(in alloc;
                "{word} is not a data type; write {name}:{number}, with the period in ms after a colon"
            )
        }
        (Some(other), _) if !other.is_rate() => {
            let name = other.name();
            format!(in alloc; "{word} is not a data type; write {name}, without parentheses")
        }
        _ => format!(in alloc;
            "{word} is not a data type; write a rate with its period in ms after a colon, as in http_req_rate:10000"
        ),
    }
}

/// Returns the data types that are meant by `name`, if it is a common mistake.
fn meant_by(name: &[u8]) -> Option<&'static str> {
    for pair in MEANT.iter() {
        if pair.0.as_bytes() == name {
            return Some(pair.1);
        }
    }
    None
}

/// Returns the sentence about a rate without a period.
fn no_period_sentence(alloc: Global, word: &[u8]) -> Result<String, AllocError> {
    let name = shown_word(name_part(word));
    let time = after_colon(word);
    let period = quoted_word(time);
    match period_in(time) {
        Some(number) => format!(in alloc; "write the period in ms: {name}:{number}"),
        None if time.is_empty() => format!(in alloc;
            "add the period of {name} in ms, 1 to 2147483647, after a colon, as in {name}:10000"
        ),
        None => format!(in alloc;
            "the period is 1 to 2147483647 ms, not {period}; write that of HAProxy's \"store\", as in {name}:10000"
        ),
    }
}

/// Returns the sentence about a data type with a period that isn't a rate.
fn period_sentence(alloc: Global, word: &[u8]) -> Result<String, AllocError> {
    let name = shown_word(name_part(word));
    match rate_of(name_part(word)) {
        Some(rate) => {
            let (rate, period) = (rate.name(), period_like(after_colon(word)));
            format!(in alloc;
                "{name} is a counter and takes no period; write {name} or {rate}:{period}, whichever HAProxy's table stores"
            )
        }
        None => format!(in alloc; "{name} is not a rate and takes no period; write {name}"),
    }
}

/// Returns the period in milliseconds that is meant by `time`, or an example if it is none.
fn period_like(time: &[u8]) -> u64 {
    period_in(time).unwrap_or(10_000)
}

/// Returns what comes after the first `:` of `word`, or nothing.
fn after_colon(word: &[u8]) -> &[u8] {
    match period_part(word) {
        Some(period) => period,
        None => &[],
    }
}

/// Returns the rate of the counter with this name.
fn rate_of(name: &[u8]) -> Option<DataType> {
    match type_named(name)? {
        DataType::Gpc0 => Some(DataType::Gpc0Rate),
        DataType::Gpc1 => Some(DataType::Gpc1Rate),
        DataType::ConnCnt => Some(DataType::ConnRate),
        DataType::SessCnt => Some(DataType::SessRate),
        DataType::HttpReqCnt => Some(DataType::HttpReqRate),
        DataType::HttpErrCnt => Some(DataType::HttpErrRate),
        DataType::BytesInCnt => Some(DataType::BytesInRate),
        DataType::BytesOutCnt => Some(DataType::BytesOutRate),
        _ => None,
    }
}

/// Returns the names of all data types, in ascending order of id.
fn type_names(alloc: Global) -> Result<String, AllocError> {
    let mut names = String::new(alloc);
    for data_type in DataType::ALL.iter() {
        if !names.is_empty() {
            names.push_str(", ")?;
        }
        names.push_str(data_type.name())?;
    }
    Ok(names)
}
