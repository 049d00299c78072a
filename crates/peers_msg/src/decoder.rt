//! The decoder of a stream of messages.

ghost use Rattle.std.specs.Prelude.{◌≡◌, ◌≤◌, IfOk, OnOk, OnErr, Ok, Some, drop, false, length};
ghost use Rattle.peers_msg.specs.Decoding.{begun, DecoderFeeds, DecoderNext};
ghost use Rattle.peers_msg.specs.Reading.{message_at};
ghost use Rattle.peers_msg.specs.Received.{nothing_received, received_after, resumed};

use crate::fault::Fault;
use crate::message::Message;
use crate::received::Received;
use crate::unread::Unread;
use std::alloc::Global;
use std::marker::Model;
use table_types::{Memory, Roster};

/// Reads the messages of a stream that arrives in pieces, cut anywhere.
///
/// The decoder holds the bytes that were fed but not read yet, and the definitions received. While a message isn't
/// complete, the decoder looks only at its first bytes, 12 at most, so the work is linear in the bytes fed and the
/// calls made.
#[derive(Drop)]
pub struct Decoder {
    alloc: Global,
    received: Received,
    unread: Unread,
    closed: bool,
}

impl Model for Decoder {
    ghost use Rattle.peers_msg.specs.Decoding.{Decoding};

    ghost Value = { Decoding };

    ghost view = { λ d. record { received = d.received; unread = d.unread; closed = d.closed } };
}

/// Receives a message. Changes nothing if memory runs out.
fn receive(alloc: Global, received: &mut Received, message: &Message) -> Result<(), Memory>
    ensures received { OnOk result (received.new ≡ received_after received.old message.now) }
    ensures stays { OnErr result (received.new ≡ received.old) }
{
    match message {
        Message::Define(table) => received.define(table.copy(alloc)?),
        Message::Switch(id) => {
            received.select(*id);
            Ok(())
        }
        _ => Ok(()),
    }
}

impl Decoder {
    /// Makes a decoder that has received nothing. Doesn't allocate.
    pub fn new(alloc: Global) -> Decoder
        ensures { result ≡ begun nothing_received }
    {
        Decoder {
            alloc,
            received: Received::new(alloc),
            unread: Unread::new(alloc),
            closed: false,
        }
    }

    /// Makes a decoder that resumes a stream on which the roster's tables with the ids `defined` were defined, in this
    /// order, and `selected` was selected last. Skips ids that the roster lacks. Fails if memory runs out.
    pub fn resume(
        alloc: Global,
        roster: &Roster,
        defined: &[u64],
        selected: Option<u64>,
    ) -> Result<Decoder, Memory>
        ensures { IfOk result (λ decoder. decoder ≡ begun (resumed roster.now defined.now selected)) }
    {
        Ok(Decoder {
            alloc,
            received: Received::resume(alloc, roster, defined, selected)?,
            unread: Unread::new(alloc),
            closed: false,
        })
    }

    /// Returns the definitions received so far.
    pub fn received(&self) -> &Received
        ensures { result.now ≡ self.now.received }
    {
        &self.received
    }

    /// Returns the number of bytes that were fed but not read. After `next` has returned `None`, they are those of an
    /// incomplete message.
    pub fn waiting(&self) -> usize
        ensures { result ≡ length self.now.unread }
    {
        self.unread.len()
    }

    /// Appends the next piece of the stream. Returns `Closed` after a breach. An empty piece needs no memory; after
    /// `Memory` nothing has changed.
    pub fn feed(&mut self, piece: &[u8]) -> Result<(), Fault>
        ensures { DecoderFeeds self.old piece.now result self.new }
    {
        if self.closed {
            return Err(Fault::Closed);
        }
        self.unread.append(piece)?;
        Ok(())
    }

    /// Returns the next message, or `None` while it isn't complete. After a breach, the decoder returns only `Closed`.
    /// `Memory` is possible only if a complete message without a breach is at the front; the call then changes nothing
    /// and can be repeated.
    pub fn next(&mut self) -> Result<Option<Message>, Fault>
        ensures { DecoderNext self.old result self.new }
    {
        if self.closed {
            return Err(Fault::Closed);
        }
        match self.unread.front(&self.received) {
            Ok(Some((found, used))) => match found.to_owned(self.alloc) {
                Ok(message) => self.given(message, used),
                Err(Memory) => Err(Fault::Memory),
            },
            Ok(None) => Ok(None),
            Err(breach) => {
                self.closed = true;
                Err(Fault::Breach(breach))
            }
        }
    }

    /// Receives `message`, which is at the front and has `used` bytes, drops these bytes and returns it.
    fn given(&mut self, message: Message, used: usize) -> Result<Option<Message>, Fault>
        requires within { used ≤ length self.old.unread }
        requires opened { self.old.closed ≡ false }
        requires stands { message_at self.old.received self.old.unread ≡ Ok (Some (message, drop used self.old.unread)) }
        ensures { DecoderNext self.old result self.new }
    {
        receive(self.alloc, &mut self.received, &message)?;
        self.unread.advance(used);
        Ok(Some(message))
    }
}
