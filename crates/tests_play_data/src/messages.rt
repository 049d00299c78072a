//! Messages that no lesson has, and their bytes.

use peers_msg::{Control, ErrorKind, Message, NameField, Other, UpdateMsg, encode, size};
use std::alloc::Global;
use table_types::{Key, ShortList, Value};

/// A message, written in short.
pub enum Short {
    Heartbeat,
    ProtocolError,
    /// An acknowledgement: table and number.
    Ack(u64, u32),
    /// Class, type and data of a message that the protocol leaves open.
    Other(u8, u8, &'static [u8]),
    /// An update of a count without a life: number if it has one, key and value.
    Untimed(Option<u32>, u32, u64),
}

fn untimed(alloc: Global, number: Option<u32>, key: u32, count: u64) -> Option<UpdateMsg> {
    let values = ShortList::from_slice(alloc, &[Value::Count(count)]).ok()?;
    Some(UpdateMsg::new(number, None, Key::Int(key), values, NameField::NotStored))
}

fn other(alloc: Global, class: u8, kind: u8, body: &[u8]) -> Option<Other> {
    Other::new(class, kind, Vec::from_slice(alloc, body).ok()?)
}

fn message(alloc: Global, short: &Short) -> Option<Message> {
    match short {
        Short::Heartbeat => Some(Message::Control(Control::Heartbeat)),
        Short::ProtocolError => Some(Message::Error(ErrorKind::Protocol)),
        Short::Ack(table, number) => Some(Message::Ack {
            table: *table,
            number: *number,
        }),
        Short::Other(class, kind, body) => {
            Some(Message::Other(other(alloc, *class, *kind, *body)?))
        }
        Short::Untimed(number, key, count) => {
            Some(Message::Update(untimed(alloc, *number, *key, *count)?))
        }
    }
}

/// Returns whether `message` is encoded as `bytes`, and its size is their number.
fn is_spelled(alloc: Global, message: &Message, bytes: &[u8]) -> Option<bool> {
    let spelled = encode(alloc, message).ok()?;
    Some(spelled.as_slice() == bytes && size(message) == bytes.len())
}

fn spells(alloc: Global, short: &Short, bytes: &[u8]) -> Option<bool> {
    is_spelled(alloc, &message(alloc, short)?, bytes)
}

/// Returns the index of the first message that has other bytes, or another size.
pub fn first_failing(alloc: Global, messages: &[(Short, &[u8])]) -> Option<usize> {
    for (place, (short, bytes)) in messages.iter().enumerate() {
        if spells(alloc, short, *bytes) != Some(true) {
            return Some(place);
        }
    }
    None
}
