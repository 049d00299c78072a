//! The bytes of a stream that were fed but not read.

ghost use Rattle.std.specs.Prelude.{◌≡◌, ◌≢◌, ◌≤◌, ◌++◌, [], IfOk, IfSome, OnOk, OnErr, true, length, drop, option_map};
ghost use Rattle.peers_msg.specs.Borrowed.{Reads};
ghost use Rattle.peers_msg.specs.BorrowedMessages.{owned_message};
ghost use Rattle.peers_msg.specs.Decoding.{IsFrontOf};
ghost use Rattle.peers_msg.specs.Fitting.{fits};
ghost use Rattle.peers_msg.specs.Reading.{message_at};

use crate::borrowed::MessageRef;
use crate::fault::Breach;
use crate::reading::message_at;
use crate::received::Received;
use bytes::BytesMut;
use std::alloc::Global;
use std::marker::Model;
use table_types::Memory;

/// The bytes of a stream that were fed but not read yet. The stream arrives in pieces, cut anywhere.
///
/// While the message at the front isn't complete, only its first bytes are looked at, 12 at most.
#[derive(Drop)]
pub struct Unread {
    bytes: BytesMut<Global>,
}

impl Model for Unread {
    ghost use Rattle.std.specs.Prelude.{List, ℕ};

    ghost Value = { List ℕ };

    ghost view = { λ u. u.bytes.items };
}

/// Returns the message at the front of `bytes` and its length in bytes, given what was received before it; `None` while
/// it isn't complete. The message borrows the bytes. Doesn't allocate.
#[inline(always)]
pub fn front<'a>(
    received: &'a Received,
    bytes: &'a [u8],
) -> Result<Option<(MessageRef<'a>, usize)>, Breach>
    ensures front { IsFrontOf received.now bytes.now result }
    ensures within { IfOk result (λ found. IfSome found (λ x. (1 ≤ x.1) × (x.1 ≤ length bytes.now))) }
    ensures fits { IfOk result (λ found. IfSome found (λ x. fits received.now (owned_message x.0) ≡ true)) }
{
    let Some((message, rest)) = message_at(received, bytes)? else {
        return Ok(None);
    };
    let used = bytes.len() - rest.len();
    Ok(Some((message, used)))
}

impl Unread {
    /// Makes an empty buffer. Doesn't allocate.
    pub fn new(alloc: Global) -> Unread
        ensures { result ≡ [] }
    {
        Unread {
            bytes: BytesMut::new(alloc),
        }
    }

    /// Returns the number of bytes.
    pub fn len(&self) -> usize
        ensures { result ≡ length self.now }
    {
        self.bytes.len()
    }

    /// Returns the bytes.
    pub fn as_slice(&self) -> &[u8]
        ensures { result.now ≡ self.now }
    {
        self.bytes.as_slice()
    }

    /// Appends the next piece of the stream. An empty piece needs no memory. Changes nothing if memory runs out.
    pub fn append(&mut self, piece: &[u8]) -> Result<(), Memory>
        ensures appended { OnOk result (self.new ≡ self.old ++ piece.now) }
        ensures stays { OnErr result (self.new ≡ self.old) }
        ensures memory { OnErr result (piece.now ≢ []) }
    {
        if piece.is_empty() {
            return Ok(());
        }
        match self.bytes.extend_from_slice(piece) {
            Ok(()) => Ok(()),
            Err(_) => Err(Memory),
        }
    }

    /// Returns the message at the front, as the function `front` does.
    #[inline(always)]
    pub fn front<'a>(
        &'a self,
        received: &'a Received,
    ) -> Result<Option<(MessageRef<'a>, usize)>, Breach>
        ensures front { IsFrontOf received.now self.now result }
        ensures within { IfOk result (λ found. IfSome found (λ x. (1 ≤ x.1) × (x.1 ≤ length self.now))) }
        ensures fits { IfOk result (λ found. IfSome found (λ x. fits received.now (owned_message x.0) ≡ true)) }
    {
        front(received, self.bytes.as_slice())
    }

    /// Drops the first `count` bytes.
    pub fn advance(&mut self, count: usize)
        requires { count ≤ length self.old }
        ensures { self.new ≡ drop count self.old }
    {
        self.bytes.advance(count);
    }
}
