//! Sentences about the first words of lines, and about which words a line has.

use crate::address_sentences::{joined_address, port_of};
use crate::addresses::address_of;
use crate::before::{line_of, line_with};
use crate::haproxy_sentences::haproxy_sentence;
use crate::line_kinds::LineKind;
use crate::log_sentences::log_sentence;
use crate::meant_kinds::{before_mark, kind_alike, mistaken_kind};
use crate::named::keys_named;
use crate::networks::network_of;
use crate::shown_words::{is_of_haproxy, lacks_id, quoted, shown, shown_word, word_at};
use crate::statements::{BYTE_ORDER_MARK, Statement};
use crate::table_sentences::id_sentence;
use std::alloc::{AllocError, Global};
use table_types::KeyKind;

/// The first words of lines that only scenes and scripts have.
const OF_SCENES: [&str; 10] = [
    "update", "define", "select", "slot", "moment", "first", "last", "stream", "prices", "sessions",
];

/// Returns the sentence about a line that begins with no keyword, or with a byte order mark.
pub(crate) fn unknown_sentence(
    alloc: Global,
    lines: &[Statement<'_>],
    words: &[&[u8]],
) -> Result<String, AllocError> {
    let first = word_at(words, 0);
    let word = quoted(words, 0);
    if first == BYTE_ORDER_MARK {
        format!(in alloc;
            "the file begins with a byte order mark (bytes EF BB BF); save it as UTF-8 without one"
        )
    } else if first.starts_with(BYTE_ORDER_MARK) {
        format!(in alloc; "the line begins with a byte order mark; delete it, the bytes EF BB BF")
    } else if let Some(kind) = kind_alike(first) {
        let keyword = kind.word();
        format!(in alloc; "unknown keyword {word}: keywords are in lower case, so write {keyword}")
    } else if let Some((kind, mark)) = before_mark(first) {
        let keyword = kind.word();
        format!(in alloc; "unknown keyword {word}: write {keyword} without the {mark}")
    } else if let Some(kind) = mistaken_kind(first) {
        mistaken_sentence(alloc, lines, words, kind)
    } else if first == b"bind".as_slice() {
        bind_sentence(alloc, lines, words)
    } else if is_of_scenes(first) {
        format!(in alloc;
            "unknown keyword {word}: a configuration has no such line; delete this one"
        )
    } else {
        format!(in alloc;
            "unknown keyword {word}; a line begins with node, listen, admin, metrics, section, peer, table, size, nopurge or log"
        )
    }
}

/// Returns the sentence about a line that begins with a common mistake for the keyword of `kind`.
fn mistaken_sentence(
    alloc: Global,
    lines: &[Statement<'_>],
    words: &[&[u8]],
    kind: LineKind,
) -> Result<String, AllocError> {
    let (word, keyword) = (quoted(words, 0), kind.word());
    if matches!(kind, LineKind::Table) && is_of_haproxy(words) {
        let said = haproxy_sentence(alloc, lines, words)?;
        let said = said.as_str();
        format!(in alloc; "unknown keyword {word}: {said}")
    } else if is_word_of_haproxy(word_at(words, 0)) {
        format!(in alloc; "unknown keyword {word}: write {keyword} for HAProxy's {word}")
    } else {
        format!(in alloc; "unknown keyword {word}: did you mean {keyword}?")
    }
}

/// Returns whether HAProxy's lines begin with `word`, which is a mistake here.
fn is_word_of_haproxy(word: &[u8]) -> bool {
    matches!(word, b"localpeer" | b"peers" | b"server" | b"stick-table")
}

/// Returns whether only lines of scenes and scripts begin with `word`.
fn is_of_scenes(word: &[u8]) -> bool {
    for other in OF_SCENES.iter() {
        if other.as_bytes() == word {
            return true;
        }
    }
    false
}

/// Returns the sentence about HAProxy's `bind`.
fn bind_sentence(
    alloc: Global,
    lines: &[Statement<'_>],
    words: &[&[u8]],
) -> Result<String, AllocError> {
    let address = shown(words, 1);
    match line_of(lines, LineKind::Listen) {
        Some(line) => format!(in alloc;
            "unknown keyword \"bind\": for HAProxy's \"bind\" write \"listen\"; line {line} has it already, and a node listens at one address only: delete this line"
        ),
        None if address_of(word_at(words, 1)).is_some() => format!(in alloc;
            "unknown keyword \"bind\": write \"listen {address}\""
        ),
        None => format!(in alloc;
            "unknown keyword \"bind\": write \"listen ADDRESS\", as in \"listen 10.0.0.5:10000\""
        ),
    }
}

/// Returns the sentence about a line of `kind` with too few words or too many.
pub(crate) fn form_sentence(
    alloc: Global,
    lines: &[Statement<'_>],
    words: &[&[u8]],
    kind: LineKind,
) -> Result<String, AllocError> {
    if word_at(words, 1) == b"=".as_slice() {
        return equals_sentence(alloc, words, kind);
    }
    match kind {
        LineKind::Listen | LineKind::Admin | LineKind::Metrics => {
            address_form_sentence(alloc, words, kind)
        }
        LineKind::Socket if word_at(words, 1) == b"unix:".as_slice() => {
            let path = shown(words, 2);
            format!(in alloc;
                "write the path right after unix:, without a space: \"admin unix:{path}\""
            )
        }
        LineKind::Peer => peer_form_sentence(alloc, words),
        LineKind::Table => table_form_sentence(alloc, lines, words),
        LineKind::Log | LineKind::Journal => log_sentence(alloc, words),
        LineKind::Node | LineKind::Socket | LineKind::Section => usual_sentence(alloc, words, kind),
        LineKind::Size | LineKind::Nopurge => usual_sentence(alloc, words, kind),
    }
}

/// Returns the sentence about a line of `kind` whose second word is `=`.
fn equals_sentence(alloc: Global, words: &[&[u8]], kind: LineKind) -> Result<String, AllocError> {
    match words {
        [keyword, _, value] => {
            let (keyword, value) = (shown_word(keyword), shown_word(value));
            format!(in alloc; "leave out the =: write \"{keyword} {value}\"")
        }
        _ => {
            let form = kind.form();
            format!(in alloc; "leave out the =: write {form}")
        }
    }
}

/// Returns the sentence about a line of `kind` that has too few words, or words after those of its form.
fn usual_sentence(alloc: Global, words: &[&[u8]], kind: LineKind) -> Result<String, AllocError> {
    let form = kind.form();
    let place = most_words(kind);
    let is_long = words.len() > place;
    let hint = form_hint(kind, is_long);
    if is_long {
        let surplus = quoted(words, place);
        format!(in alloc; "{surplus} is not allowed here; write {form}{hint}")
    } else {
        format!(in alloc; "write {form}{hint}")
    }
}

/// Returns how many words a line of `kind` has that isn't one of a peer or of a table.
fn most_words(kind: LineKind) -> usize {
    match kind {
        LineKind::Size => 3,
        _ => 2,
    }
}

/// Returns what is said after the form of a line of `kind` that is too long, or too short.
fn form_hint(kind: LineKind, is_long: bool) -> &'static str {
    match kind {
        LineKind::Node if is_long =>
            ", with the name by which peers know this node, which has no spaces, not even in quotes",
        LineKind::Section if is_long =>
            ", with one name without spaces, exactly that of HAProxy's peers section",
        LineKind::Node => ", with the name by which peers know this node, as in \"node n1\"",
        LineKind::Section => ", with the name of HAProxy's peers section",
        LineKind::Listen => ", as in \"listen 10.0.0.5:10000\"",
        LineKind::Admin | LineKind::Socket =>
            ", as in \"admin 127.0.0.1:9101\" or \"admin unix:/run/digbaro/admin.sock\"",
        LineKind::Metrics => ", as in \"metrics 10.0.0.5:9102\"",
        LineKind::Size => ", as in \"size 1 100000\"",
        LineKind::Nopurge => ", as in \"nopurge 1\"",
        _ => "",
    }
}

/// Returns the sentence about a line that has no address, or words after it, as a port after a space.
fn address_form_sentence(
    alloc: Global,
    words: &[&[u8]],
    kind: LineKind,
) -> Result<String, AllocError> {
    if let [keyword, host, port] = words
        && let Some(address) = joined_address(alloc, keyword, host, port)?
    {
        let (keyword, address) = (kind.word(), address.as_str());
        return format!(in alloc;
            "put a colon between address and port, and no space: \"{keyword} {address}\""
        );
    }
    usual_sentence(alloc, words, kind)
}

/// Returns the sentence about a line of a peer without a name, with a word after its address that isn't `from`, or without a network
/// after that.
fn peer_form_sentence(alloc: Global, words: &[&[u8]]) -> Result<String, AllocError> {
    if let [keyword, name, host, port] = words
        && let Some(address) = joined_address(alloc, keyword, host, port)?
    {
        let (name, address) = (shown_word(name), address.as_str());
        return format!(in alloc;
            "put a colon between address and port, and no space: \"peer {name} {address}\""
        );
    }
    let form = LineKind::Peer.form();
    let word = word_at(words, 3);
    let surplus = quoted(words, 3);
    if words.len() < 2 {
        format!(in alloc;
            "write {form}, as in \"peer lb1 10.0.0.1:10000\"; a peer without ADDRESS has to connect to this node"
        )
    } else if ends_with_from(words) {
        format!(in alloc;
            "write a network after \"from\", as in \"from 10.0.0.0/24\", or leave \"from\" out to accept the peer from any address"
        )
    } else if network_of(word).is_some() {
        let network = shown(words, 3);
        format!(in alloc; "{surplus} is not allowed here; for a network write \"from {network}\"")
    } else {
        format!(in alloc; "{surplus} is not allowed here; leave it out: the form is {form}")
    }
}

/// Returns whether the last word is `from`.
fn ends_with_from(words: &[&[u8]]) -> bool {
    match words {
        [_, .., last] => *last == b"from".as_slice(),
        _ => false,
    }
}

/// Returns the sentence about a line of a table with too few words.
fn table_form_sentence(
    alloc: Global,
    lines: &[Statement<'_>],
    words: &[&[u8]],
) -> Result<String, AllocError> {
    if lacks_id(words) || is_of_haproxy(words) {
        return id_sentence(alloc, lines, words);
    }
    let missing = match words {
        [_, _, _, word, _] if keys_named(word).is_some() => "EXPIRE is missing; ",
        [_, _, _, word] if keys_named(word).is_some() => "LENGTH and EXPIRE are missing; ",
        [_, _, _] => "KIND, LENGTH and EXPIRE are missing; ",
        _ => "",
    };
    let table = table_like(alloc, words)?;
    let table = table.as_str();
    format!(in alloc;
        "{missing}write \"table ID NAME KIND LENGTH EXPIRE [TYPES..]\", as in \"{table}\"; EXPIRE is in ms, or 0 for never, and TYPES are HAProxy's data types, if the table stores any"
    )
}

/// Returns the line of a table that begins with these words, which are too few.
fn table_like(alloc: Global, words: &[&[u8]]) -> Result<String, AllocError> {
    let (id, name) = (shown(words, 1), shown(words, 2));
    let (keys, length) = (shown(words, 3), shown(words, 4));
    match words {
        [_, _, _, word, _] if keys_named(word).is_some() => format!(in alloc;
            "table {id} {name} {keys} {length} 600000 gpc0"
        ),
        [_, _, _, word] if keys_named(word).is_some() => {
            let length = usual_length(word);
            format!(in alloc; "table {id} {name} {keys} {length} 600000 gpc0")
        }
        [_, _, _] => format!(in alloc; "table {id} {name} integer 4 600000 gpc0"),
        _ => format!(in alloc; "table 1 /t1 integer 4 600000 gpc0"),
    }
}

/// Returns a length that keys of the kind with this name have.
fn usual_length(keys: &[u8]) -> &'static str {
    match keys_named(keys) {
        Some(KeyKind::Ip6) => "16",
        Some(KeyKind::String | KeyKind::Binary) => "33",
        Some(KeyKind::Integer | KeyKind::Ip4) | None => "4",
    }
}

/// Returns the sentence about a line of which there may be one, as this one is.
pub(crate) fn repeated_sentence(
    alloc: Global,
    lines: &[Statement<'_>],
    words: &[&[u8]],
    line: usize,
) -> Result<String, AllocError> {
    let what = match LineKind::of(words) {
        Some(LineKind::Node) => "the node's name",
        Some(LineKind::Listen) => "the address for peers",
        Some(LineKind::Admin) => "the address for requests",
        Some(LineKind::Socket) => "the socket for requests",
        Some(LineKind::Metrics) => "the address for metrics",
        Some(LineKind::Section) => "the section's name",
        Some(LineKind::Size) => "the table's size",
        Some(LineKind::Log) => "the level",
        _ => "this",
    };
    let more = more_sentence(alloc, lines, words)?;
    let more = more.as_str();
    format!(in alloc; "{what} is already given on line {line}; keep one of the two lines{more}")
}

/// Returns how to listen at more than one address, if the line with these words may: at all addresses of the host, or at a socket too.
fn more_sentence(
    alloc: Global,
    lines: &[Statement<'_>],
    words: &[&[u8]],
) -> Result<String, AllocError> {
    match LineKind::of(words) {
        Some(kind) if matches!(kind, LineKind::Listen | LineKind::Metrics) => {
            let port = shown_word(port_of(word_at(words, 1)));
            let all = format!(in alloc; "[::]:{port}")?;
            let all = all.as_str();
            let keyword = kind.word();
            match line_with(lines, kind, 1, all.as_bytes()) {
                Some(line) => format!(in alloc; "; line {line} is for all addresses of the host"),
                None if address_of(all.as_bytes()).is_some() => format!(in alloc;
                    ", or write \"{keyword} {all}\" in their place, for all addresses of the host"
                ),
                None => Ok(String::new(alloc)),
            }
        }
        Some(LineKind::Admin) if line_of(lines, LineKind::Socket).is_none() => {
            String::from_str(
                alloc,
                "; a Unix socket may stand beside an address, as in \"admin unix:/run/digbaro/admin.sock\"",
            )
        }
        _ => Ok(String::new(alloc)),
    }
}
