//! Intakes: what they return of a stream, message by message.

use crate::parts::{T1, alone};
use learner::{Intake, Taken};
use peers_msg::{Control, Message};
use std::alloc::Global;
use table_types::{Key, Update, Value};

/// What is expected of a message.
pub enum Given {
    /// An update of `t1`: its number, key and value.
    Counted(u32, u32, u64),
    Passed,
    Said(Control),
}

/// A stream, and what an intake of `t1` returns of it.
pub struct Stream {
    pub parts: &'static [&'static [u8]],
    pub given: &'static [Given],
    /// The table and the number of the acknowledgement that is due then.
    pub ack: Option<(u64, u32)>,
}

/// Returns whether the update is of `t1`, and has `number` and a life of 30,000 ms.
fn is_update(update: &Update, number: u32) -> bool {
    update.table == T1.id && update.number == number && update.life == Some(30_000)
}

fn is_given(taken: &Taken, given: &Given) -> bool {
    match (taken, given) {
        (Taken::Row(update), Given::Counted(number, key, count)) => {
            is_update(update, *number)
                && update.key == Key::Int(*key)
                && update.values.as_slice() == [Value::Count(*count)].as_slice()
                && update.name.is_none()
        }
        (Taken::Passed, Given::Passed) => true,
        (Taken::Said(control), Given::Said(expected)) => *control == *expected,
        _ => false,
    }
}

/// Returns whether the next message is as expected.
fn gives(intake: &mut Intake, given: &Given) -> bool {
    match intake.next() {
        Ok(Some(taken)) => is_given(&taken, given),
        _ => false,
    }
}

/// Returns whether no whole message is left.
fn is_done(intake: &mut Intake) -> bool {
    match intake.next() {
        Ok(taken) => taken.is_none(),
        Err(_) => false,
    }
}

/// Returns whether the acknowledgement `expected` is due and no other, or none is.
fn acknowledges(intake: &mut Intake, expected: Option<(u64, u32)>) -> bool {
    match intake.acks() {
        Ok(acks) => match acks.as_slice() {
            [] => expected.is_none(),
            [Message::Ack { table, number }] => expected == Some((*table, *number)),
            _ => false,
        },
        Err(_) => false,
    }
}

fn gives_all(intake: &mut Intake, stream: &Stream) -> bool {
    for given in stream.given {
        if !gives(intake, given) {
            return false;
        }
    }
    is_done(intake)
}

/// Feeds the stream in pieces of `length` bytes.
fn is_fed(intake: &mut Intake, stream: &Stream, length: usize) -> bool {
    for part in stream.parts {
        for piece in part.chunks(length.max(1)) {
            if intake.feed(piece).is_err() {
                return false;
            }
        }
    }
    true
}

/// Returns whether an intake that is fed the stream in such pieces has no acknowledgement due until it has returned the
/// messages, and then the one of the stream once.
fn is_taken(alloc: Global, stream: &Stream, length: usize) -> Option<bool> {
    let mut intake = Intake::new(alloc, alone(alloc, &T1)?);
    Some(
        is_fed(&mut intake, stream, length)
            && acknowledges(&mut intake, None)
            && gives_all(&mut intake, stream)
            && acknowledges(&mut intake, stream.ack)
            && acknowledges(&mut intake, None),
    )
}

/// Returns the index of the first stream of which something else comes, and the length of its pieces.
pub fn first_failing(
    alloc: Global,
    streams: &[Stream],
    lengths: &[usize],
) -> Option<(usize, usize)> {
    for (place, stream) in streams.iter().enumerate() {
        for length in lengths {
            if is_taken(alloc, stream, *length) != Some(true) {
                return Some((place, *length));
            }
        }
    }
    None
}
