//! Sentences about addresses with ports, and about the paths of sockets.

use crate::addresses::address_of;
use crate::before::line_of;
use crate::faults::PathFault;
use crate::line_kinds::LineKind;
use crate::names::fault_at;
use crate::networks::network_of;
use crate::shown_words::{quoted_word, shown, shown_word, strange_character, text_of, word_at};
use crate::statements::Statement;
use node_text::{cut, is_text, number, number_from_one};
use std::alloc::{AllocError, Global};
use std::net::{Ipv4Addr, Ipv6Addr};

/// The last port.
const LAST_PORT: u32 = 65_535;

/// Why a word isn't an address with a port, with the parts of it that an address may have.
#[derive(Clone, Copy)]
enum AddressFault<'a> {
    /// It is an address of fe80::/10, maybe with a zone.
    LinkLocal,
    /// It has a zone.
    Zone,
    /// It is a socket or a path.
    Path,
    /// It is a network.
    Network,
    /// It is this port alone, or after `*`.
    PortAlone(&'a [u8]),
    /// It is this address without a port, in brackets if it is an IPv6 address.
    NoPort(&'a [u8]),
    /// It has an address, and after the colon this, which isn't a port.
    Port(&'a [u8], &'a [u8]),
    /// It is an IPv6 address without brackets.
    NoBrackets,
    /// What is in brackets isn't an IPv6 address.
    Brackets,
    /// It has numbers and dots, but no IPv4 address, and this after the colon.
    Numbers(&'a [u8]),
    /// It has this name of a host, and this after the colon.
    Host(&'a [u8], &'a [u8]),
}

/// Returns the sentence about the word at `place`, which isn't an address.
pub(crate) fn address_sentence(
    alloc: Global,
    words: &[&[u8]],
    place: usize,
) -> Result<String, AllocError> {
    let address = word_at(words, place);
    if !is_text(address) {
        let character = strange_character(alloc, address)?;
        let character = character.as_str();
        return format!(in alloc;
            "the address contains {character}; write A.B.C.D:PORT or [IPv6]:PORT"
        );
    }
    if place == 2 && address_of(word_at(words, 1)).is_some() && is_name(address) {
        let (name, first) = (shown_word(address), shown(words, 1));
        return format!(in alloc; "put the name first: \"peer {name} {first}\"");
    }
    fault_sentence(alloc, word_at(words, 0), address)
}

/// Returns whether `word`, which isn't an address, is a name.
fn is_name(word: &[u8]) -> bool {
    matches!(address_fault(word), AddressFault::Host(_, _)) && fault_at(1, word).is_none()
}

/// Returns the sentence about `word`, which isn't an address, in a line that begins with `keyword`.
fn fault_sentence(alloc: Global, keyword: &[u8], word: &[u8]) -> Result<String, AllocError> {
    match address_fault(word) {
        AddressFault::LinkLocal => link_local_sentence(alloc, whose(keyword)),
        AddressFault::Zone => format!(in alloc;
            "leave out the zone, which is % and the name after it"
        ),
        AddressFault::Path => path_instead_sentence(alloc, keyword, word),
        AddressFault::Network => network_instead_sentence(alloc, keyword, word),
        AddressFault::PortAlone(port) => port_alone_sentence(alloc, keyword, word, port),
        AddressFault::NoPort(host) => {
            let said = if takes_loopback(keyword) {
                "write a loopback address and a port"
            } else {
                "add a port"
            };
            example_sentence(alloc, said, keyword, host, b"", "")
        }
        AddressFault::Port(host, port) => port_sentence(alloc, keyword, host, port),
        AddressFault::NoBrackets => brackets_sentence(alloc, keyword, word),
        AddressFault::Brackets => not_ipv6_sentence(alloc, word),
        AddressFault::Numbers(port) => numbers_sentence(alloc, keyword, host_of(word), port),
        AddressFault::Host(host, port) => {
            let said = "host names aren't looked up; write an IP address and a port";
            example_sentence(alloc, said, keyword, loopback_of(host), port, "")
        }
    }
}

/// Returns the sentence about `word`, which is this port alone, or after `*`.
fn port_alone_sentence(
    alloc: Global,
    keyword: &[u8],
    word: &[u8],
    port: &[u8],
) -> Result<String, AllocError> {
    let all = all_hint(keyword);
    if word.starts_with(b"*") && is_port(port) && !all.is_empty() {
        let (word, port) = (shown_word(word), shown_word(port));
        format!(in alloc;
            "for HAProxy's \"{word}\" write 0.0.0.0:{port} (IPv4 only) or [::]:{port} (IPv4 and IPv6)"
        )
    } else {
        let said = "put an IP address before the port";
        example_sentence(alloc, said, keyword, b"", port, all)
    }
}

/// Returns the sentence about `host`, which has numbers and dots, but isn't an IPv4 address, before a colon and `port`.
fn numbers_sentence(
    alloc: Global,
    keyword: &[u8],
    host: &[u8],
    port: &[u8],
) -> Result<String, AllocError> {
    match too_high_in(host) {
        Some(part) => {
            let part = shown_word(part);
            let said = format!(in alloc;
                "{part} is more than 255; write an IP address and a port"
            )?;
            example_sentence(alloc, said.as_str(), keyword, b"", port, "")
        }
        None => {
            let said = "an IPv4 address is four numbers from 0 to 255, without leading zeros";
            example_sentence(alloc, said, keyword, b"", port, "")
        }
    }
}

/// Returns the first of four numbers with dots between that is above 255.
pub(crate) fn too_high_in(host: &[u8]) -> Option<&[u8]> {
    let (first, behind) = cut(host, b'.')?;
    let (second, behind) = cut(behind, b'.')?;
    let (third, fourth) = cut(behind, b'.')?;
    if is_too_high(first) {
        Some(first)
    } else if is_too_high(second) {
        Some(second)
    } else if is_too_high(third) {
        Some(third)
    } else if is_too_high(fourth) {
        Some(fourth)
    } else {
        None
    }
}

/// Returns whether the word is a number above 255.
fn is_too_high(word: &[u8]) -> bool {
    match number(word, u64::MAX) {
        Some(number) => number > 255,
        None => false,
    }
}

/// Returns the sentence about a link-local address of the host or of the peer.
pub(crate) fn link_local_sentence(alloc: Global, whose: &str) -> Result<String, AllocError> {
    format!(in alloc; "link-local addresses aren't supported; use another address of the {whose}")
}

/// Returns whose address a line has that begins with `keyword`.
fn whose(keyword: &[u8]) -> &'static str {
    match keyword {
        [b'p', ..] => "peer",
        _ => "host",
    }
}

/// Returns a sentence with an example behind it: an address with this host and this port, as far as a line that begins with `keyword`
/// may have them.
fn example_sentence(
    alloc: Global,
    said: &str,
    keyword: &[u8],
    host: &[u8],
    port: &[u8],
    more: &str,
) -> Result<String, AllocError> {
    let address = address_like(alloc, keyword, text_of(host), text_of(port))?;
    let address = address.as_str();
    format!(in alloc; "{said}, as in {address}{more}")
}

/// Returns an address for a line that begins with `keyword`, with this host and this port, or an example of what can't be one.
fn address_like(
    alloc: Global,
    keyword: &[u8],
    host: &str,
    port: &str,
) -> Result<String, AllocError> {
    let (usual_host, usual_port) = usual_address(keyword);
    let host = if may_have(alloc, keyword, host, usual_port)? {
        host
    } else {
        usual_host
    };
    let port = if may_have(alloc, keyword, usual_host, port)? {
        port
    } else {
        usual_port
    };
    format!(in alloc; "{host}:{port}")
}

/// Returns whether this host and this port are an address that a line may have which begins with `keyword`.
fn may_have(alloc: Global, keyword: &[u8], host: &str, port: &str) -> Result<bool, AllocError> {
    let word = format!(in alloc; "{host}:{port}")?;
    match address_of(word.as_str().as_bytes()) {
        Some(address) => Ok(!takes_loopback(keyword) || address.ip().is_loopback()),
        None => Ok(false),
    }
}

/// Returns whether an address in a line that begins with `keyword` is a loopback address.
fn takes_loopback(keyword: &[u8]) -> bool {
    keyword == b"admin".as_slice()
}

/// Returns the host and the port of an address for a line that begins with `keyword`.
fn usual_address(keyword: &[u8]) -> (&'static str, &'static str) {
    match keyword {
        [b'a', ..] => ("127.0.0.1", "9101"),
        [b'm', ..] => ("10.0.0.5", "9102"),
        [b'l', ..] => ("10.0.0.5", "10000"),
        _ => ("10.0.0.1", "10000"),
    }
}

/// Returns the address that a line which begins with `keyword` may have, if a colon between these two words makes one.
pub(crate) fn joined_address(
    alloc: Global,
    keyword: &[u8],
    host: &[u8],
    port: &[u8],
) -> Result<Option<String>, AllocError> {
    let (host, port) = (text_of(host), text_of(port));
    if may_have(alloc, keyword, host, port)? {
        Ok(Some(format!(in alloc; "{host}:{port}")?))
    } else {
        Ok(None)
    }
}

/// Returns what stands for all addresses in a line that begins with `keyword`, if it may have them.
fn all_hint(keyword: &[u8]) -> &'static str {
    match keyword {
        [b'l' | b'm', ..] =>
            "; 0.0.0.0 is all IPv4 addresses of the host, and [::] all IPv4 and IPv6 addresses",
        _ => "",
    }
}

/// Returns the address that `host` always is, or nothing.
fn loopback_of(host: &[u8]) -> &'static [u8] {
    if host == b"localhost".as_slice() {
        b"127.0.0.1".as_slice()
    } else {
        &[]
    }
}

/// Returns why `word`, all of whose bytes are 33 to 126, isn't an address.
fn address_fault(word: &[u8]) -> AddressFault<'_> {
    if begins_link_local(word) {
        AddressFault::LinkLocal
    } else if word.contains(&b'%') {
        AddressFault::Zone
    } else if word.starts_with(b"/") || word.starts_with(b"unix:") {
        AddressFault::Path
    } else if word.contains(&b'/') && network_of(word).is_some() {
        AddressFault::Network
    } else if word.starts_with(b"*") {
        AddressFault::PortAlone(port_of(word))
    } else if word.starts_with(b"[") {
        bracket_fault(word)
    } else {
        plain_fault(word)
    }
}

/// Returns whether the word begins with an address of fe80::/10, maybe behind `[`.
pub(crate) fn begins_link_local(word: &[u8]) -> bool {
    let address = match word {
        [b'[', inner @ ..] => inner,
        _ => word,
    };
    matches!(
        address,
        [b'f' | b'F', b'e' | b'E', b'8' | b'9' | b'a' | b'b' | b'A' | b'B', b'0'..=b'9' | b'a'..=b'f' | b'A'..=b'F', b':', ..]
    )
}

/// Returns why a word that begins with `[` isn't an address.
fn bracket_fault(word: &[u8]) -> AddressFault<'_> {
    match cut(word, b']') {
        Some(([b'[', inner @ ..], behind)) if Ipv6Addr::parse_ascii(inner).is_ok() => match behind {
            [] => AddressFault::NoPort(word),
            [b':', port @ ..] => port_fault(host_of(word), port),
            _ => AddressFault::Brackets,
        },
        _ => AddressFault::Brackets,
    }
}

/// Returns why a word without brackets isn't an address.
fn plain_fault(word: &[u8]) -> AddressFault<'_> {
    match cut(word, b':') {
        None if is_number(word) => AddressFault::PortAlone(word),
        None if Ipv4Addr::parse_ascii(word).is_ok() => AddressFault::NoPort(word),
        None => host_fault(word, b""),
        Some((_, port)) if port.contains(&b':') => AddressFault::NoBrackets,
        Some(([], port)) => AddressFault::PortAlone(port),
        Some((host, port)) if Ipv4Addr::parse_ascii(host).is_ok() => port_fault(host, port),
        Some((host, port)) => host_fault(host, port),
    }
}

/// Returns why this isn't a port after an address.
fn port_fault<'a>(host: &'a [u8], port: &'a [u8]) -> AddressFault<'a> {
    if port.is_empty() {
        AddressFault::NoPort(host)
    } else {
        AddressFault::Port(host, port)
    }
}

/// Returns why this isn't an IPv4 address, before a colon and `port`.
fn host_fault<'a>(host: &'a [u8], port: &'a [u8]) -> AddressFault<'a> {
    if is_dotted(host) {
        AddressFault::Numbers(port)
    } else {
        AddressFault::Host(host, port)
    }
}

/// Returns whether each byte is a digit or a dot.
pub(crate) fn is_dotted(word: &[u8]) -> bool {
    word.iter()
        .all(|byte| byte.is_ascii_digit() || *byte == b'.')
}

/// Returns whether each byte is a digit.
fn is_number(word: &[u8]) -> bool {
    word.iter().all(|byte| byte.is_ascii_digit())
}

/// Returns what comes before the last `:` of `word`, or all of it.
fn host_of(word: &[u8]) -> &[u8] {
    match word.iter().rposition(|byte| *byte == b':') {
        Some(end) => &word[..end],
        None => word,
    }
}

/// Returns what comes after the last `:` of `word`, or all of it.
pub(crate) fn port_of(word: &[u8]) -> &[u8] {
    match word.iter().rposition(|byte| *byte == b':') {
        Some(end) => &word[end + 1..],
        None => word,
    }
}

/// Returns the sentence about an address after which this comes in the place of a port.
fn port_sentence(
    alloc: Global,
    keyword: &[u8],
    host: &[u8],
    port: &[u8],
) -> Result<String, AllocError> {
    let number = without_zeros(port);
    let before = before_slash(port);
    if number.len() < port.len() && is_port(number) {
        example_sentence(
            alloc,
            "write the port without leading zeros",
            keyword,
            host,
            number,
            "",
        )
    } else if is_port(before) {
        let path = path_hint(keyword);
        example_sentence(
            alloc,
            "write nothing after the port",
            keyword,
            host,
            before,
            path,
        )
    } else {
        let word = quoted_word(port);
        let said = format!(in alloc; "{word} is not a valid port; use 1 to 65535")?;
        example_sentence(alloc, said.as_str(), keyword, host, b"", "")
    }
}

/// Returns whether the word is a port.
fn is_port(word: &[u8]) -> bool {
    number_from_one(word, LAST_PORT).is_some()
}

/// Returns where the metrics are, for a line of theirs.
fn path_hint(keyword: &[u8]) -> &'static str {
    match keyword {
        [b'm', ..] => "; the path of the metrics is always /metrics",
        _ => "",
    }
}

/// Returns `word` from its first byte that isn't `0`.
pub(crate) fn without_zeros(word: &[u8]) -> &[u8] {
    match word.iter().position(|byte| *byte != b'0') {
        Some(start) => &word[start..],
        None => &[],
    }
}

/// Returns what comes before the first `/` of `word`, or nothing.
fn before_slash(word: &[u8]) -> &[u8] {
    match cut(word, b'/') {
        Some((before, _)) => before,
        None => &[],
    }
}

/// Returns the sentence about an IPv6 address without brackets, after which a colon and a port may come.
fn brackets_sentence(alloc: Global, keyword: &[u8], word: &[u8]) -> Result<String, AllocError> {
    let (_, usual_port) = usual_address(keyword);
    let (host, whole) = (shown_word(host_of(word)), shown_word(word));
    let host = format!(in alloc; "[{host}]")?;
    let whole = format!(in alloc; "[{whole}]")?;
    let has_host = may_have(alloc, keyword, host.as_str(), usual_port)?;
    let (address, port) = if has_host && is_port(port_of(word)) {
        let address = address_like(alloc, keyword, host.as_str(), text_of(port_of(word)))?;
        (address, "")
    } else if may_have(alloc, keyword, whole.as_str(), usual_port)? {
        let address = address_like(alloc, keyword, whole.as_str(), "")?;
        (address, ", followed by a port")
    } else if takes_loopback(keyword) {
        (format!(in alloc; "[::1]:9101")?, "")
    } else {
        (format!(in alloc; "[2001:db8::5]:10000")?, "")
    };
    let address = address.as_str();
    format!(in alloc; "put the IPv6 address in brackets{port}, as in {address}")
}

/// Returns the sentence about a word that begins with `[`, behind which no IPv6 address in brackets comes.
fn not_ipv6_sentence(alloc: Global, word: &[u8]) -> Result<String, AllocError> {
    if let Some(([b'[', inner @ ..], behind)) = cut(word, b']') {
        let (inner, behind) = (text_of(inner), text_of(behind));
        let address = format!(in alloc; "{inner}{behind}")?;
        let address = address.as_str();
        if address_of(address.as_bytes()).is_some() {
            return format!(in alloc;
                "leave out the brackets, which only an IPv6 address has: write {address}"
            );
        }
    }
    let word = quoted_word(word);
    format!(in alloc;
        "{word} is not a valid address; write A.B.C.D:PORT without brackets, or [IPv6]:PORT"
    )
}

/// Returns the sentence about a path in the place of an address.
fn path_instead_sentence(alloc: Global, keyword: &[u8], word: &[u8]) -> Result<String, AllocError> {
    let path = shown_word(word);
    let unix = if word.starts_with(b"/") { "unix:" } else { "" };
    match keyword {
        [b'a', ..] => format!(in alloc; "write unix: before the path: \"admin unix:{path}\""),
        [b'm', ..] => {
            let said = "write an IP address and a port";
            let socket = format!(in alloc;
                ", or \"admin {unix}{path}\", which serves the metrics too, and takes requests"
            )?;
            example_sentence(alloc, said, keyword, b"", b"", socket.as_str())
        }
        _ => example_sentence(
            alloc,
            "peers connect to an IP address and a port",
            keyword,
            b"",
            b"",
            "",
        ),
    }
}

/// Returns the sentence about a network in the place of an address.
fn network_instead_sentence(
    alloc: Global,
    keyword: &[u8],
    word: &[u8],
) -> Result<String, AllocError> {
    if keyword == b"peer".as_slice() {
        let network = shown_word(word);
        format!(in alloc; "for a network write \"from {network}\"")
    } else {
        let said = "write an IP address and a port, not a network";
        example_sentence(alloc, said, keyword, b"", b"", "")
    }
}

/// Returns the sentence about an address for requests that isn't a loopback address.
pub(crate) fn local_sentence(
    alloc: Global,
    lines: &[Statement<'_>],
    words: &[&[u8]],
) -> Result<String, AllocError> {
    let word = shown(words, 1);
    let port = shown_word(port_of(word_at(words, 1)));
    let metrics = if line_of(lines, LineKind::Metrics).is_some() {
        String::new(alloc)
    } else {
        format!(in alloc; "; if you want metrics only, write \"metrics {word}\" instead")?
    };
    let metrics = metrics.as_str();
    format!(in alloc;
        "requests are taken on loopback or a Unix socket only; write \"admin 127.0.0.1:{port}\", \"admin [::1]:{port}\" or \"admin unix:/run/digbaro/admin.sock\"{metrics}"
    )
}

/// Returns the sentence about what isn't the path of a socket.
pub(crate) fn path_sentence(alloc: Global, fault: PathFault) -> Result<String, AllocError> {
    match fault {
        PathFault::Empty => format!(in alloc;
            "the path after unix: is missing, as in unix:/run/digbaro/admin.sock"
        ),
        PathFault::Nul => format!(in alloc; "the path of a socket can't contain a NUL"),
        PathFault::Long(length) => format!(in alloc;
            "the path of a socket has at most 107 bytes, not {length}; use a shorter path"
        ),
    }
}
