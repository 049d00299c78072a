//! Keys, as requests have them.
ghost use Rattle.std.specs.Prelude.{◌≡◌, Err, IfOk, MatchOption};
ghost use Rattle.table_types.specs.declared.key.Key.{Key};
ghost use Rattle.admin_port.specs.RequestKeys.{IsAddressKey, IsKey, IsNoKey};

use node_text::{LineError, any_key_of};
use std::alloc::Global;
use std::net::IpAddr;
use table_types::{Key, KeyKind};

/// Reads a key as a script has it, of a table with keys of the kind `kind`, or else an address in its usual form. The key may be of another
/// kind than the table's.
#[tactic(auto, using(crate::proofs::NoKeys::no_key))]
pub(crate) fn request_key(alloc: Global, kind: KeyKind, word: &[u8]) -> Result<Key, LineError>
    ensures read { IfOk result (IsKey kind word.now) }
    ensures refused { result ≡ Err LineError.Refused → IsNoKey kind word.now }
{
    match any_key_of(alloc, kind, word) {
        Ok(key) => Ok(key),
        Err(LineError::Refused) => match address_key(word) {
            Some(key) => Ok(key),
            None => Err(LineError::Refused),
        },
        Err(error) => Err(error),
    }
}

/// Reads an address in its usual form.
fn address_key(word: &[u8]) -> Option<Key>
    ensures { MatchOption result ((key : Key) → IsAddressKey word.now key → ⊥) (IsAddressKey word.now) }
{
    match IpAddr::parse_ascii(word) {
        Ok(IpAddr::V4(address)) => Some(Key::Ip4(address.octets())),
        Ok(IpAddr::V6(address)) => Some(Key::Ip6(address.octets())),
        Err(_) => None,
    }
}
