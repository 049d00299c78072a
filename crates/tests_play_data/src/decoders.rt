//! Streams of messages, cut anywhere, and how a decoder reads them.

use crate::parts::{T1, alone};
use peers_msg::{Decoder, Fault};
use std::alloc::Global;

/// A stream in parts, and how many messages are read of each part, or its fault.
pub struct Stream {
    /// Whether `t1` was defined and selected before.
    pub resumed: bool,
    pub parts: &'static [(&'static [u8], Result<usize, Fault>)],
    /// How many bytes wait at the end, unless there is a fault.
    pub waiting: usize,
}

fn decoder(alloc: Global, resumed: bool) -> Option<Decoder> {
    if resumed {
        Decoder::resume(alloc, &alone(alloc, &T1)?, &[1], Some(1)).ok()
    } else {
        Some(Decoder::new(alloc))
    }
}

/// Reads the messages that are whole, and returns how many there were, up to 4.
fn messages(decoder: &mut Decoder) -> Result<usize, Fault> {
    for count in 0..4 {
        if decoder.next()?.is_none() {
            return Ok(count);
        }
    }
    Ok(4)
}

/// Feeds `part` in pieces of `length` bytes, and returns how many messages were read.
fn feed_pieces(decoder: &mut Decoder, part: &[u8], length: usize) -> Result<usize, Fault> {
    let mut count: usize = 0;
    for piece in part.chunks(length.max(1)) {
        decoder.feed(piece)?;
        count = count.saturating_add(messages(decoder)?);
    }
    Ok(count)
}

/// Returns whether the decoder no longer takes or reads bytes.
fn is_closed(decoder: &mut Decoder) -> bool {
    messages(decoder) == Err(Fault::Closed) && decoder.feed(&[0]) == Err(Fault::Closed)
}

fn is_read(decoder: &mut Decoder, stream: &Stream, length: usize) -> bool {
    for (part, answer) in stream.parts {
        if feed_pieces(decoder, *part, length) != *answer {
            return false;
        }
        if answer.is_err() {
            return is_closed(decoder);
        }
    }
    decoder.waiting() == stream.waiting
}

fn reads(alloc: Global, stream: &Stream, length: usize) -> Option<bool> {
    Some(is_read(&mut decoder(alloc, stream.resumed)?, stream, length))
}

/// Returns the index of the first stream that is read differently, and the length of its pieces. Each length from 1 to `longest` is
/// tried.
pub fn first_failing(alloc: Global, streams: &[Stream], longest: usize) -> Option<(usize, usize)> {
    for (place, stream) in streams.iter().enumerate() {
        for length in 1..=longest {
            if reads(alloc, stream, length) != Some(true) {
                return Some((place, length));
            }
        }
    }
    None
}
