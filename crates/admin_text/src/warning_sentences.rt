//! Sentences about what is legal in a configuration, and surely meant otherwise.

use crate::addresses::address_of;
use crate::shown_words::{about, shown, shown_word, word_at};
use crate::warnings::Warning;
use node_text::{cut, number};
use std::alloc::{AllocError, Global};

/// The greatest length of keys.
const LONGEST_KEY: u64 = 8_192;

/// Returns the sentence about the line with these words, in which this is surely meant otherwise.
pub(crate) fn warning_sentence(
    alloc: Global,
    words: &[&[u8]],
    warning: Warning,
) -> Result<String, AllocError> {
    let said = match warning {
        Warning::Port(line) => format!(in alloc;
            "this is the port of \"listen\" on line {line}, where peers connect; use another port for requests"
        )?,
        Warning::Overlap(line) => format!(in alloc;
            "line {line} listens there too, and only one of the two can; use another port"
        )?,
        Warning::Own(line) => format!(in alloc;
            "this node itself listens there (line {line}); write the peer's address"
        )?,
        Warning::Shared(line) => format!(in alloc;
            "the peer on line {line} has this address too; each peer has its own"
        )?,
        Warning::Outside => outside_sentence(alloc, word_at(words, 2))?,
        Warning::Unused => format!(in alloc;
            "this line has no effect, because no table name begins with \"/\"; write /NAME for the table NAME of a peers section, or delete this line if there is none"
        )?,
        Warning::Length => length_sentence(alloc, word_at(words, 4))?,
        Warning::Section => section_sentence(alloc, word_at(words, 2))?,
        Warning::Expire => {
            let word = shown(words, 5);
            format!(in alloc;
                "HAProxy's longest time is 2147483647 ms, so rows of its tables never expire after {word}; write at most that, or 0 for rows that never expire"
            )?
        }
        Warning::Period(place) => {
            let word = shown(words, place);
            format!(in alloc;
                "HAProxy's longest time is 2147483647 ms, so no table of its own has {word}; write at most that"
            )?
        }
        Warning::Lacks(data_type) => {
            let name = data_type.name();
            format!(in alloc;
                "HAProxy's \"stick\" rules add both server_id and server_key to their table; add {name}"
            )?
        }
    };
    about(alloc, words, said.as_str())
}

/// Returns the sentence about a peer that may not come from its own address.
fn outside_sentence(alloc: Global, word: &[u8]) -> Result<String, AllocError> {
    match address_of(word) {
        Some(address) => {
            let ip = address.ip();
            format!(in alloc;
                "the networks after \"from\" don't contain the peer's own address; add {ip}, unless the peer connects from another address"
            )
        }
        None => format!(in alloc;
            "the networks after \"from\" don't contain the peer's own address; add it, unless the peer connects from another address"
        ),
    }
}

/// Returns the sentence about a length of strings that is HAProxy's `len`, it seems.
fn length_sentence(alloc: Global, word: &[u8]) -> Result<String, AllocError> {
    let length = number(word, LONGEST_KEY).unwrap_or(0);
    let longer = length + 1;
    if length == 32 {
        format!(in alloc;
            "for HAProxy's \"string len 32\" write 33; 32 is right for its plain \"string\""
        )
    } else {
        format!(in alloc;
            "for HAProxy's \"string len {length}\" write {longer}; if you mean length {length}, ignore this"
        )
    }
}

/// Returns the sentence about a table's name with a section in front.
fn section_sentence(alloc: Global, name: &[u8]) -> Result<String, AllocError> {
    match cut(name, b'/') {
        Some((section, table)) => {
            let (section, table) = (shown_word(section), shown_word(table));
            format!(in alloc;
                "for table {table} of the peers section {section} write /{table}, which is its name on the wire"
            )
        }
        None => format!(in alloc; "for table t1 of a peers section write /t1"),
    }
}
