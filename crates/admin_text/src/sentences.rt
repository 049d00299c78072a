//! Sentences that say what is wrong with a configuration, and what to write.

use crate::address_sentences::{address_sentence, local_sentence, path_sentence};
use crate::before::{count_of, line_of};
use crate::faults::{Fault, NameFault};
use crate::keyword_sentences::{form_sentence, repeated_sentence, unknown_sentence};
use crate::line_kinds::LineKind;
use crate::log_sentences::level_sentence;
use crate::network_sentences::network_sentence;
use crate::shown_words::{about, shown, strange_character, word_at};
use crate::statements::Statement;
use crate::table_sentences::{no_table_sentence, rows_sentence, table_sentence};
use std::alloc::{AllocError, Global};

/// Returns the sentence about a missing line of `kind`.
pub(crate) fn lacking_sentence(kind: LineKind) -> &'static str {
    match kind {
        LineKind::Node =>
            "add a line \"node NAME\", with the name by which peers know this node, as in \"node n1\"",
        LineKind::Listen =>
            "add a line \"listen ADDRESS\", with the address at which this node takes connections from peers, as in \"listen 10.0.0.5:10000\"",
        _ =>
            "add a line \"table ID NAME KIND LENGTH EXPIRE [TYPES..]\", as in \"table 1 /t1 integer 4 600000 gpc0 http_req_rate:10000\"; write /t1 for table t1 of a peers section, and t1 for the table of proxy t1; LENGTH is in bytes, and EXPIRE in ms, or 0 for never",
    }
}

/// Returns the sentence about the one of `lines` that has these words and this fault.
pub(crate) fn sentence(
    alloc: Global,
    lines: &[Statement<'_>],
    words: &[&[u8]],
    fault: Fault,
) -> Result<String, AllocError> {
    let said = match fault {
        Fault::Unknown => return unknown_sentence(alloc, lines, words),
        Fault::Form(kind) => form_sentence(alloc, lines, words, kind)?,
        Fault::Repeated(line) => repeated_sentence(alloc, lines, words, line)?,
        Fault::Name(place, fault) => name_sentence(alloc, words, place, fault)?,
        Fault::Taken(line) => taken_sentence(alloc, lines, words, line)?,
        Fault::Peers => {
            let count = count_of(lines, LineKind::Peer);
            format!(in alloc;
                "there are {count} peer lines, and a node has at most 15 peers; delete a peer line"
            )?
        }
        Fault::Address(place) => address_sentence(alloc, words, place)?,
        Fault::Local => local_sentence(alloc, lines, words)?,
        Fault::Path(fault) => path_sentence(alloc, fault)?,
        Fault::Network(place) => network_sentence(alloc, word_at(words, place))?,
        Fault::Level => level_sentence(alloc, word_at(words, 1))?,
        Fault::NoTable => no_table_sentence(alloc, lines, words)?,
        Fault::Rows => rows_sentence(alloc, word_at(words, 2))?,
        Fault::Table(fault) => table_sentence(alloc, lines, words, fault)?,
    };
    about(alloc, words, said.as_str())
}

/// Returns the sentence about a word that isn't a name.
fn name_sentence(
    alloc: Global,
    words: &[&[u8]],
    place: usize,
    fault: NameFault,
) -> Result<String, AllocError> {
    match fault {
        NameFault::Dash => {
            let name = name_hint(words);
            format!(in alloc; "\"-\" is not a name; write {name}")
        }
        NameFault::Bytes => {
            let character = strange_character(alloc, word_at(words, place))?;
            let character = character.as_str();
            format!(in alloc;
                "the name contains {character}; names are printable ASCII without spaces; rename it here and in HAProxy's configuration"
            )
        }
        NameFault::Long(length) => format!(in alloc;
            "a name has at most 255 bytes, not {length}; shorten it here and in HAProxy's configuration"
        ),
    }
}

/// Returns which name the line with these words has.
fn name_hint(words: &[&[u8]]) -> &'static str {
    match LineKind::of(words) {
        Some(LineKind::Node) => "the name by which peers know this node, as in \"node n1\"",
        Some(LineKind::Peer) =>
            "the name by which HAProxy's peers section knows this peer, as in \"peer lb1\"",
        Some(LineKind::Section) => "the name of HAProxy's peers section",
        _ => "one",
    }
}

/// Returns the sentence about a name that this line has already given to the node or to a peer.
fn taken_sentence(
    alloc: Global,
    lines: &[Statement<'_>],
    words: &[&[u8]],
    line: usize,
) -> Result<String, AllocError> {
    let name = shown(words, 1);
    if LineKind::Node.has(words) {
        format!(in alloc;
            "peer {name} on line {line} has this name too; write this node's own name here, or delete line {line} if {name} is this node"
        )
    } else if line_of(lines, LineKind::Node) == Some(line) {
        format!(in alloc;
            "{name} is this node's own name (line {line}); unlike in HAProxy, the node itself gets no peer line: delete this one, or use the other host's name"
        )
    } else {
        format!(in alloc;
            "{name} is already on line {line}, and a peer has one line; delete one of the two, or use this peer's own name"
        )
    }
}
