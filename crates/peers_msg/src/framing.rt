//! Where messages end in a stream, whatever their meaning.

ghost use Rattle.std.specs.Prelude.{◌≡◌, ◌≤◌, ◌++◌, ℕ, List, None, Some, IfSome, IsSomeAnd, length, take};
ghost use Rattle.peers_msg.specs.Framing.{IsCounted, IsFrame};
ghost use Rattle.peers_msg.specs.Spelling.{spelled};
ghost use Rattle.peers_msg.specs.declared.message.Message.{Message};

use peers_encint::{Read, get};

/// Returns the first message of a stream and the bytes after it, or `None` while the message isn't complete.
///
/// Only class, type and length are looked at: after a type of 128 or more follow an encoded length and that many bytes
/// (doc/peers-v2.0.txt, "Messages").
pub fn split_message(bytes: &[u8]) -> Option<(&[u8], &[u8])>
    ensures found { (frame rest : List ℕ) → IsFrame frame → bytes.now ≡ frame ++ rest → IsSomeAnd result (λ parts. (parts.0.now ≡ frame) × (parts.1.now ≡ rest)) }
    ensures message { (message : Message) (rest : List ℕ) → bytes.now ≡ spelled message ++ rest → IsSomeAnd result (λ parts. (parts.0.now ≡ spelled message) × (parts.1.now ≡ rest)) }
    ensures frame { IfSome result (λ parts. IsFrame parts.0.now × (bytes.now ≡ parts.0.now ++ parts.1.now)) }
    ensures none { result ≡ None → (frame rest : List ℕ) → IsFrame frame → bytes.now ≡ frame ++ rest → ⊥ }
{
    match frame_length(bytes) {
        Some(length) => Some(bytes.split_at(length)),
        None => None,
    }
}

/// Returns the length of the first message of a stream.
fn frame_length(bytes: &[u8]) -> Option<usize>
    ensures within { IfSome result (λ n. n ≤ length bytes.now) }
    ensures frame { IfSome result (λ n. IsFrame (take n bytes.now)) }
    ensures found { (frame rest : List ℕ) → IsFrame frame → bytes.now ≡ frame ++ rest → result ≡ Some (length frame) }
{
    let [_, message_type, data @ ..] = bytes else {
        return None;
    };
    if *message_type < 128 {
        return Some(2);
    }
    match counted_length(data) {
        Some(length) => Some(2 + length),
        None => None,
    }
}

/// Returns the length of an encoded length together with the bytes that it counts.
fn counted_length(bytes: &[u8]) -> Option<usize>
    ensures within { IfSome result (λ n. n ≤ length bytes.now) }
    ensures counted { IfSome result (λ n. IsCounted (take n bytes.now)) }
    ensures found { (front rest : List ℕ) → IsCounted front → bytes.now ≡ front ++ rest → result ≡ Some (length front) }
{
    match get(bytes) {
        Read::Value(length, used) => {
            if length <= (bytes.len() - used) as u64 {
                Some(used + length as usize)
            } else {
                None
            }
        }
        Read::Short | Read::Over => None,
    }
}
