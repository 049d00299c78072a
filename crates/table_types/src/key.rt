//! The keys of stick tables.

ghost use Rattle.std.specs.Prelude.{◌≡◌, refl, IfOk, IfSome, IsTrue, Some, ◌↔◌};
ghost use Rattle.std.specs.Ordering.{as_partial_cmp};
ghost use Rattle.std.specs.Cmp.{partial_order_from_agreeing_total};
ghost use Rattle.table_types.specs.Keys.{number_of, kind_at, kind_name, fits_length, key_fits, kind_rank, key_cmp};
ghost use Rattle.table_types.specs.KeyOrder.{key_cmp_total, key_cmp_ties};

use crate::byte_order::compare_bytes;
use crate::items::Items;
use crate::memory::Memory;
use std::alloc::Global;
use std::cmp::Ordering;

/// The kind of a table's keys (HAProxy Configuration Manual, stick-table `type`; the numbers are those of
/// doc/peers-v2.0.txt, "Table Definition Message", key type).
#[derive(Clone, Copy, Debug, PartialEq, Eq)]
pub enum KeyKind {
    /// A 32-bit number; key type 2.
    Integer,
    /// An IPv4 address; key type 4.
    Ip4,
    /// An IPv6 address; key type 5.
    Ip6,
    /// A string; key type 6.
    String,
    /// Bytes of a fixed length; key type 7.
    Binary,
}

impl KeyKind {
    /// All kinds, in ascending order of number.
    pub const ALL: [KeyKind; 5] = [
        KeyKind::Integer,
        KeyKind::Ip4,
        KeyKind::Ip6,
        KeyKind::String,
        KeyKind::Binary,
    ];

    /// Returns the number of the kind in a definition.
    pub fn number(self) -> u8
        ensures { result ≡ number_of self }
    {
        match self {
            KeyKind::Integer => 2,
            KeyKind::Ip4 => 4,
            KeyKind::Ip6 => 5,
            KeyKind::String => 6,
            KeyKind::Binary => 7,
        }
    }

    /// Returns the kind with the number `number`, or `None` if there is none.
    pub fn from_number(number: u64) -> Option<KeyKind>
        ensures kind { result ≡ kind_at number }
        ensures number { IfSome result (λ kind. number_of kind ≡ number) }
        ensures exactly { (kind : KeyKind) → number_of kind ≡ number → result ≡ Some kind }
    {
        match number {
            2 => Some(KeyKind::Integer),
            4 => Some(KeyKind::Ip4),
            5 => Some(KeyKind::Ip6),
            6 => Some(KeyKind::String),
            7 => Some(KeyKind::Binary),
            _ => None,
        }
    }

    /// Returns the word for the kind (profile): `integer`, `ipv4`, `ipv6`, `string` or `binary`.
    pub fn name(self) -> &'static str
        ensures { result.now ≡ kind_name self }
    {
        match self {
            KeyKind::Integer => "integer",
            KeyKind::Ip4 => "ipv4",
            KeyKind::Ip6 => "ipv6",
            KeyKind::String => "string",
            KeyKind::Binary => "binary",
        }
    }

    /// Returns the kind that a word stands for, or `None` if it stands for none.
    pub fn from_name(name: &str) -> Option<KeyKind>
        ensures name { IfSome result (λ kind. kind_name kind ≡ name.now) }
        ensures exactly { (kind : KeyKind) → kind_name kind ≡ name.now → result ≡ Some kind }
    {
        Some(match name {
            "integer" => KeyKind::Integer,
            "ipv4" => KeyKind::Ip4,
            "ipv6" => KeyKind::Ip6,
            "string" => KeyKind::String,
            "binary" => KeyKind::Binary,
            _ => return None,
        })
    }

    /// Returns whether a table of this kind may have `key_length`: 4 for integers and IPv4, 16 for IPv6, 1 to 8,192 for
    /// strings and bytes (the limit is the profile's choice).
    pub fn fits_length(self, key_length: u64) -> bool
        ensures { result ≡ fits_length self key_length }
    {
        match self {
            KeyKind::Integer | KeyKind::Ip4 => key_length == 4,
            KeyKind::Ip6 => key_length == 16,
            KeyKind::String | KeyKind::Binary => 1 <= key_length && key_length <= 8192,
        }
    }
}

/// A key of one of the five kinds.
///
/// Keys of one kind are ordered by number or byte by byte. Keys of different kinds are ordered as the kinds are listed
/// here.
#[derive(Debug, Drop, PartialEq, Eq)]
pub enum Key {
    /// A number.
    Int(u32),
    /// The four bytes of an IPv4 address, in network order.
    Ip4([u8; 4]),
    /// The sixteen bytes of an IPv6 address, in network order.
    Ip6([u8; 16]),
    /// The bytes of a string: fewer than L in a table of key length L.
    Str(Items<u8>),
    /// Bytes: exactly L in a table of key length L.
    Bin(Items<u8>),
}

impl Key {
    /// Returns whether the key fits a table with `kind` and `key_length`.
    pub fn fits(&self, kind: KeyKind, key_length: u64) -> bool
        ensures { result ≡ key_fits kind key_length self.now }
    {
        // The types of numbers and addresses imply their ranges; the tests only show them to the contract.
        match (kind, self) {
            (KeyKind::Integer, Key::Int(number)) => u64::from(*number) < 1 << 32,
            (KeyKind::Ip4, Key::Ip4(address)) => address.as_slice().len() == 4,
            (KeyKind::Ip6, Key::Ip6(address)) => address.as_slice().len() == 16,
            (KeyKind::String, Key::Str(text)) => (text.len() as u64) < key_length,
            (KeyKind::Binary, Key::Bin(bytes)) => bytes.len() as u64 == key_length,
            _ => false,
        }
    }

    /// Returns whether both are the same key.
    pub fn is_same(&self, other: &Key) -> bool
        ensures { IsTrue result ↔ (self.now ≡ other.now) }
    {
        self == other
    }

    /// Returns an equal copy. Fails if memory runs out.
    // Tables copy keys at each change, so the arm for integers is inlined.
    #[inline(always)]
    pub fn copy(&self, alloc: Global) -> Result<Key, Memory>
        ensures { IfOk result (λ copy. copy ≡ self.now) }
    {
        match self {
            Key::Int(number) => Ok(Key::Int(*number)),
            _ => copy_of(alloc, self),
        }
    }
}

/// Copies a key of any kind. Not inlined, so that a single test before the call handles integers.
#[inline(never)]
fn copy_of(alloc: Global, key: &Key) -> Result<Key, Memory>
    ensures { IfOk result (λ copy. copy ≡ key.now) }
{
    Ok(match key {
        Key::Int(number) => Key::Int(*number),
        Key::Ip4(bytes) => Key::Ip4(*bytes),
        Key::Ip6(bytes) => Key::Ip6(*bytes),
        Key::Str(text) => Key::Str(text.copy(alloc)?),
        Key::Bin(bytes) => Key::Bin(bytes.copy(alloc)?),
    })
}

impl PartialOrd for Key {
    ghost partial_cmp = { as_partial_cmp key_cmp };

    ghost laws = { partial_order_from_agreeing_total key_cmp key_cmp_total (λ a b. refl) key_cmp_ties };

    fn partial_cmp(&self, other: &Self) -> Option<Ordering> {
        Some(self.cmp(other))
    }
}

impl Ord for Key {
    ghost cmp = { key_cmp };

    ghost total = { key_cmp_total };

    ghost matches_partial_cmp = { λ a b. refl };

    ghost matches_eq = { key_cmp_ties };

    // Maps of rows compare keys at each step of a search, so the arm for integers is inlined.
    #[inline(always)]
    fn cmp(&self, other: &Self) -> Ordering {
        match (self, other) {
            (Key::Int(left), Key::Int(right)) => left.cmp(right),
            _ => compare(self, other),
        }
    }
}

/// Compares two keys of any kinds. Not inlined, so that a single test before the call handles integers.
#[inline(never)]
fn compare(left: &Key, right: &Key) -> Ordering
    ensures { result ≡ key_cmp left.now right.now }
{
    match (left, right) {
        (Key::Int(left), Key::Int(right)) => left.cmp(right),
        (Key::Ip4(left), Key::Ip4(right)) => left.cmp(right),
        (Key::Ip6(left), Key::Ip6(right)) => left.cmp(right),
        (Key::Str(left), Key::Str(right)) | (Key::Bin(left), Key::Bin(right)) => compare_bytes(
            left.as_slice(),
            right.as_slice(),
        ),
        _ => rank(left).cmp(&rank(right)),
    }
}

/// Returns the position of the key's kind in the order of kinds.
fn rank(key: &Key) -> u8
    ensures { result ≡ kind_rank key.now }
{
    match key {
        Key::Int(_) => 0,
        Key::Ip4(_) => 1,
        Key::Ip6(_) => 2,
        Key::Str(_) => 3,
        Key::Bin(_) => 4,
    }
}
