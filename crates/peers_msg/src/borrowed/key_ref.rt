//! Keys, borrowed.

ghost use Rattle.std.specs.Prelude.{◌≡◌, IfOk};
ghost use Rattle.peers_msg.specs.Borrowed.{owned_key};

use std::alloc::Global;
use table_types::{Items, Key, Memory};

/// A key of one of the five kinds, borrowed from the bytes of the message.
#[derive(Clone, Copy, Debug)]
pub enum KeyRef<'a> {
    /// A number.
    Int(u32),
    /// The four bytes of an IPv4 address, in network order.
    Ip4(&'a [u8; 4]),
    /// The sixteen bytes of an IPv6 address, in network order.
    Ip6(&'a [u8; 16]),
    /// The bytes of a string: fewer than L in a table of key length L.
    Str(&'a [u8]),
    /// Bytes: exactly L in a table of key length L.
    Bin(&'a [u8]),
}

impl<'a> KeyRef<'a> {
    /// Returns an equal owned key. Allocates only for strings and bytes. Fails if memory runs out.
    pub fn to_owned(self, alloc: Global) -> Result<Key, Memory>
        ensures { IfOk result (λ key. key ≡ owned_key self.entry) }
    {
        Ok(match self {
            KeyRef::Int(number) => Key::Int(number),
            KeyRef::Ip4(address) => Key::Ip4(*address),
            KeyRef::Ip6(address) => Key::Ip6(*address),
            KeyRef::Str(text) => Key::Str(Items::new(Vec::from_slice(alloc, text)?)),
            KeyRef::Bin(bytes) => Key::Bin(Items::new(Vec::from_slice(alloc, bytes)?)),
        })
    }
}
