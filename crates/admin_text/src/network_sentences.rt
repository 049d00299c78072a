//! Sentences about networks from which peers come.

use crate::address_sentences::{
    begins_link_local, is_dotted, link_local_sentence, too_high_in, without_zeros,
};
use crate::addresses::address_of;
use crate::networks::network_of;
use crate::shown_words::{
    quoted_word, shown_word, strange_character, text_of, without_commas, zeros_hint,
};
use node_text::{cut, is_text};
use std::alloc::{AllocError, Global};
use std::net::{IpAddr, Ipv4Addr};

/// Returns the sentence about `word`, which isn't a network.
pub(crate) fn network_sentence(alloc: Global, word: &[u8]) -> Result<String, AllocError> {
    if !is_text(word) {
        let character = strange_character(alloc, word)?;
        let character = character.as_str();
        return format!(in alloc;
            "a network contains {character}; write an address or a prefix, as in 10.0.0.0/24"
        );
    }
    if word.contains(&b',') {
        let networks = without_commas(alloc, word)?;
        let networks = networks.as_str();
        return format!(in alloc; "separate networks with spaces, not commas: \"{networks}\"");
    }
    if let Some(address) = address_of(word) {
        let ip = address.ip();
        return format!(in alloc; "after \"from\", write the address without a port: \"from {ip}\"");
    }
    match cut(word, b'/') {
        Some((host, count)) => match IpAddr::parse_ascii(host) {
            Ok(ip) => count_sentence(alloc, ip, count),
            Err(_) => host_sentence(alloc, host, Some(count)),
        },
        None => host_sentence(alloc, word, None),
    }
}

/// Returns the sentence about what comes after the address and the `/` of a network, and isn't how many of its bits count.
fn count_sentence(alloc: Global, ip: IpAddr, count: &[u8]) -> Result<String, AllocError> {
    let (kind, most, mask) = match ip {
        IpAddr::V4(_) => ("IPv4", 32_u32, bits_of_mask(count)),
        IpAddr::V6(_) => ("IPv6", 128_u32, None),
    };
    match mask {
        Some(bits) => format!(in alloc; "write the mask as a prefix length: {ip}/{bits}"),
        None => {
            let (word, zeros) = (quoted_word(count), zeros_hint(count));
            let hint = bits_hint(alloc, ip, count)?;
            let hint = hint.as_str();
            format!(in alloc; "an {kind} prefix length is 0 to {most}{zeros}, not {word}{hint}")
        }
    }
}

/// Returns what to write in the place of a prefix length with leading zeros, or an example.
fn bits_hint(alloc: Global, ip: IpAddr, count: &[u8]) -> Result<String, AllocError> {
    let bits = text_of(without_zeros(count));
    let network = format!(in alloc; "{ip}/{bits}")?;
    let network = network.as_str();
    if network_of(network.as_bytes()).is_some() {
        format!(in alloc; "; write {network}")
    } else {
        match ip {
            IpAddr::V4(_) => format!(in alloc; "; write it as in 10.0.0.0/24"),
            IpAddr::V6(_) => format!(in alloc; "; write it as in 2001:db8::/64"),
        }
    }
}

/// Returns how many first bits a mask has that begins with ones and ends with zeros.
fn bits_of_mask(word: &[u8]) -> Option<u32> {
    match Ipv4Addr::parse_ascii(word) {
        Ok(mask) if mask.to_bits().leading_ones() == mask.to_bits().count_ones() => {
            Some(mask.to_bits().count_ones())
        }
        _ => None,
    }
}

/// Returns the sentence about `host`, which isn't an address, before the `/` of a network and `count`, or alone.
fn host_sentence(alloc: Global, host: &[u8], count: Option<&[u8]>) -> Result<String, AllocError> {
    match host {
        [b'[', inner @ .., b']'] if IpAddr::parse_ascii(inner).is_ok() => {
            let ip = shown_word(inner);
            let (slash, bits) = match count {
                Some(count) => ("/", shown_word(count)),
                None => ("", shown_word(b"")),
            };
            format!(in alloc; "leave out the brackets: write {ip}{slash}{bits}")
        }
        _ if host.contains(&b'%') && begins_link_local(host) => link_local_sentence(alloc, "peer"),
        _ if host.contains(&b'%') => zone_sentence(alloc, host, count),
        _ if is_dotted(host) => numbers_sentence(alloc, host, count),
        _ if is_everything(host) => {
            let word = shown_word(host);
            format!(in alloc;
                "leave out \"from {word}\": without \"from\" the peer may connect from any address"
            )
        }
        _ if host.contains(&b':') => {
            let word = quoted_word(host);
            format!(in alloc;
                "{word} is not a valid address; write an address or a prefix, as in 10.0.0.0/24 or 2001:db8::1"
            )
        }
        _ => format!(in alloc;
            "host names aren't looked up; write an address or a prefix, as in 10.0.0.1 or 10.0.0.0/24"
        ),
    }
}

/// Returns the sentence about an address with a zone, before the `/` of a network and `count`, or alone.
fn zone_sentence(alloc: Global, host: &[u8], count: Option<&[u8]>) -> Result<String, AllocError> {
    let address = match cut(host, b'%') {
        Some((address, _)) => text_of(address),
        None => text_of(host),
    };
    let (slash, bits) = match count {
        Some(count) => ("/", text_of(count)),
        None => ("", ""),
    };
    let network = format!(in alloc; "{address}{slash}{bits}")?;
    let network = network.as_str();
    if network_of(network.as_bytes()).is_some() {
        format!(in alloc; "leave out the zone: write {network}")
    } else {
        format!(in alloc; "leave out the zone, which is % and the name after it")
    }
}

/// Returns whether the word stands for all addresses elsewhere.
fn is_everything(word: &[u8]) -> bool {
    word == b"all".as_slice() || word == b"any".as_slice() || word == b"*".as_slice()
}

/// Returns the sentence about numbers and dots that aren't an IPv4 address: there are too few, or one isn't one of it.
fn numbers_sentence(
    alloc: Global,
    host: &[u8],
    count: Option<&[u8]>,
) -> Result<String, AllocError> {
    let (zeros, whole) = match dots_in(host) {
        0 => (".0.0.0", "8"),
        1 => (".0.0", "16"),
        2 => (".0", "24"),
        _ => ("", "32"),
    };
    let host = text_of(host);
    let bits = match count {
        Some(count) => text_of(count),
        None => whole,
    };
    let network = format!(in alloc; "{host}{zeros}/{bits}")?;
    let network = network.as_str();
    if network_of(network.as_bytes()).is_some() {
        match count {
            Some(_) => format!(in alloc; "an IPv4 address has four numbers: write {network}"),
            None => format!(in alloc;
                "\"{host}\" is incomplete; write all four numbers of an address, or {network} for a network"
            ),
        }
    } else {
        match too_high_in(host.as_bytes()) {
            Some(part) => {
                let part = shown_word(part);
                format!(in alloc;
                    "{part} is more than 255; write an address or a network, as in 10.0.0.1 or 10.0.0.0/24"
                )
            }
            None => format!(in alloc;
                "an IPv4 address is four numbers from 0 to 255, without leading zeros, as in 10.0.0.0/24"
            ),
        }
    }
}

/// Returns the number of dots in `word`.
fn dots_in(word: &[u8]) -> usize {
    word.iter().filter(|byte| **byte == b'.').count()
}
