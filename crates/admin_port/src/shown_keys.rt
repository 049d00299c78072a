//! Keys and names as HAProxy prints them.
ghost use Rattle.std.specs.Prelude.{◌≡◌, ◌++◌, OnOk, flat_map};
ghost use Rattle.std.specs.Net.Addr.{segments_of};
ghost use Rattle.std.specs.Net.Text.{ipv4_text, ipv6_text};
ghost use Rattle.admin_port.specs.ShownKeys.{shown_byte, shown_key};

use node_text::{push_hexadecimal, push_key};
use std::alloc::{AllocError, Global};
use std::net::{Ipv4Addr, Ipv6Addr};
use table_types::Key;

/// Appends `key`: a number in decimal, an address in its usual form, the bytes of a string with some escaped, other bytes in
/// hexadecimal.
pub(crate) fn push_shown_key(alloc: Global, text: &mut Vec<u8>, key: &Key) -> Result<(), AllocError>
    ensures { OnOk result (text.new.items ≡ text.old.items ++ shown_key key.now) }
{
    match key {
        Key::Ip4(octets) => push_ip4(alloc, text, *octets),
        Key::Ip6(octets) => push_ip6(alloc, text, *octets),
        Key::Str(string) => push_escaped(text, string.as_slice()),
        Key::Int(_) | Key::Bin(_) => push_key(text, key),
    }
}

/// Appends an IPv4 address.
fn push_ip4(alloc: Global, text: &mut Vec<u8>, octets: [u8; 4]) -> Result<(), AllocError>
    ensures { OnOk result (text.new.items ≡ text.old.items ++ ipv4_text octets) }
{
    let address = Ipv4Addr::from_octets(octets);
    text.extend_from_slice(format!(in alloc; "{address}")?.as_bytes())
}

/// Appends an IPv6 address.
fn push_ip6(alloc: Global, text: &mut Vec<u8>, octets: [u8; 16]) -> Result<(), AllocError>
    ensures { OnOk result (text.new.items ≡ text.old.items ++ ipv6_text (segments_of octets)) }
{
    let address = Ipv6Addr::from_octets(octets);
    text.extend_from_slice(format!(in alloc; "{address}")?.as_bytes())
}

/// Appends `bytes`, with a backslash before a space, `=` and a backslash, and `\x` and two digits for a byte that can't be printed.
///
/// A peer chooses the keys and the names, so no byte of one may end the line, and none may read as another field.
pub(crate) fn push_escaped(text: &mut Vec<u8>, bytes: &[u8]) -> Result<(), AllocError>
    ensures { OnOk result (text.new.items ≡ text.old.items ++ flat_map shown_byte bytes.now) }
{
    for byte in bytes {
        push_shown_byte(text, *byte)?;
    }
    Ok(())
}

/// Appends a byte of a string.
fn push_shown_byte(text: &mut Vec<u8>, byte: u8) -> Result<(), AllocError>
    ensures { OnOk result (text.new.items ≡ text.old.items ++ shown_byte byte) }
{
    match byte {
        b' ' | b'=' | b'\\' => text.extend_from_slice([b'\\', byte].as_slice()),
        b'!'..=b'~' => text.extend_from_slice([byte].as_slice()),
        _ => {
            text.extend_from_slice(b"\\x")?;
            push_hexadecimal(text, [byte].as_slice())
        }
    }
}
