//! Reading messages, which may not be complete yet.

ghost use Rattle.std.specs.Prelude.{◌≡◌, ◌<◌, ◌≤◌, true, IfErr, IfOk, IfSome, length, option_map};
ghost use Rattle.peers_msg.specs.declared.meaning.Meaning.TheVariants as meanings;
ghost use Rattle.peers_msg.specs.Messages.{is_other};
ghost use Rattle.peers_msg.specs.Borrowed.{Reads};
ghost use Rattle.peers_msg.specs.BorrowedMessages.{owned_message};
ghost use Rattle.peers_msg.specs.Reading.{switch_at, ack_at, update_of, control_meant, error_meant, table_meant, meant, message_of, data_at, frame_at, message_at};
ghost use Rattle.peers_msg.specs.Received.{selected_table};

use super::definitions::definition_at;
use super::fields::{ended, integer_at, wanted, word_at};
use super::updates::update_at;
use crate::borrowed::{MessageRef, OtherRef};
use crate::control::{Control, ErrorKind};
use crate::fault::Breach;
use crate::meaning::Meaning;
use crate::message::MOST_DATA;
use crate::received::Received;
use peers_encint::{Read, get};

#[tactic(auto, unfolding(crate::specs::Reading::switch_at))]
fn switch_at<'a>(received: &Received, bytes: &[u8]) -> Result<MessageRef<'a>, Breach>
    ensures { Reads (λ message. owned_message message) result (switch_at received.now bytes.now) }
{
    let (id, rest) = integer_at(Breach::BadInteger, bytes)?;
    wanted(received.table(id).is_some(), Breach::NoTable)?;
    ended(rest)?;
    Ok(MessageRef::Switch(id))
}

#[tactic(auto, unfolding(crate::specs::Reading::ack_at))]
fn ack_at<'a>(bytes: &[u8]) -> Result<MessageRef<'a>, Breach>
    ensures { Reads (λ message. owned_message message) result (ack_at bytes.now) }
{
    let (table, rest) = integer_at(Breach::BadInteger, bytes)?;
    let (number, rest) = word_at(Breach::BadInteger, rest)?;
    ended(rest)?;
    Ok(MessageRef::Ack { table, number })
}

#[inline(always)]
fn update_of<'a>(
    received: &'a Received,
    numbered: bool,
    timed: bool,
    bytes: &'a [u8],
) -> Result<MessageRef<'a>, Breach>
    ensures { Reads (λ message. owned_message message) result (update_of (selected_table received.now) numbered timed bytes.now) }
{
    match received.selected_table() {
        Some(table) => {
            let update = update_at(table, numbered, timed, bytes)?;
            Ok(MessageRef::Update(update))
        }
        None => Err(Breach::NoTable),
    }
}

#[inline(always)]
fn control_meant(message_type: u8) -> Meaning
    ensures { result ≡ control_meant message_type }
{
    match message_type {
        0 => Meaning::Control(Control::ResyncRequest),
        1 => Meaning::Control(Control::ResyncFinished),
        2 => Meaning::Control(Control::ResyncPartial),
        3 => Meaning::Control(Control::ResyncConfirmed),
        4 => Meaning::Control(Control::Heartbeat),
        _ => Meaning::Other,
    }
}

#[inline(always)]
fn error_meant(message_type: u8) -> Meaning
    ensures { result ≡ error_meant message_type }
{
    match message_type {
        0 => Meaning::Error(ErrorKind::Protocol),
        1 => Meaning::Error(ErrorKind::SizeLimit),
        _ => Meaning::Other,
    }
}

#[inline(always)]
fn update_meant(numbered: bool, timed: bool) -> Meaning
    ensures { result ≡ meanings.Update numbered timed }
{
    Meaning::Update { numbered, timed }
}

#[inline(always)]
fn table_meant(message_type: u8) -> Meaning
    ensures { result ≡ table_meant message_type }
{
    match message_type {
        128 => update_meant(true, false),
        129 => update_meant(false, false),
        130 => Meaning::Define,
        131 => Meaning::Switch,
        132 => Meaning::Ack,
        133 => update_meant(true, true),
        134 => update_meant(false, true),
        _ => Meaning::Other,
    }
}

#[inline(always)]
#[tactic(auto, unfolding(crate::specs::Reading::meant))]
fn meant(class: u8, message_type: u8) -> Meaning
    ensures { result ≡ meant class message_type }
{
    match class {
        0 => control_meant(message_type),
        1 => error_meant(message_type),
        10 => table_meant(message_type),
        _ => Meaning::Other,
    }
}

/// A message's class, type and data (HAProxy, doc/peers-v2.0.txt, "Messages").
#[derive(Clone, Copy)]
pub struct Frame<'a> {
    /// The message's class.
    pub class: u8,
    /// Its type within the class.
    pub message_type: u8,
    /// Its data: none if the type is below 128.
    pub body: &'a [u8],
}

impl<'a> Frame<'a> {
    /// Returns the meaning of the message's class and type.
    pub fn meaning(self) -> Meaning
        ensures { result ≡ meant self.entry.class self.entry.message_type }
    {
        meant(self.class, self.message_type)
    }
}

#[inline(always)]
fn message_of<'a>(
    received: &'a Received,
    meaning: Meaning,
    class: u8,
    message_type: u8,
    body: &'a [u8],
) -> Result<MessageRef<'a>, Breach>
    requires { meaning ≡ meanings.Other → is_other (record { class = class; message_type = message_type; body = body.now }) ≡ true }
    ensures { Reads (λ message. owned_message message) result (message_of received.now meaning class message_type body.now) }
{
    match meaning {
        Meaning::Control(control) => Ok(MessageRef::Control(control)),
        Meaning::Error(error) => Ok(MessageRef::Error(error)),
        Meaning::Define => Ok(MessageRef::Define(definition_at(body)?)),
        Meaning::Switch => switch_at(received, body),
        Meaning::Ack => ack_at(body),
        Meaning::Update { numbered, timed } => update_of(received, numbered, timed, body),
        Meaning::Other => Ok(MessageRef::Other(OtherRef::new(class, message_type, body))),
    }
}

/// Reads the data after a type, if they are complete.
#[inline(always)]
#[tactic(auto, unfolding(crate::specs::Reading::data_at))]
fn data_at(message_type: u8, bytes: &[u8]) -> Result<Option<(&[u8], &[u8])>, Breach>
    ensures data { Reads (option_map (λ x. (x.0.now, x.1.now))) result (data_at message_type bytes.now) }
    ensures within { IfOk result (λ found. IfSome found (λ x. length x.1.now ≤ length bytes.now)) }
{
    if message_type < 128 {
        return Ok(Some(bytes.split_at(0)));
    }
    let (count, rest) = match get(bytes) {
        Read::Value(count, used) => (count, &bytes[used..]),
        Read::Short => return Ok(None),
        Read::Over => return Err(Breach::BadInteger),
    };
    if count > MOST_DATA as u64 {
        return Err(Breach::SizeLimit);
    }
    if (rest.len() as u64) < count {
        return Ok(None);
    }
    Ok(Some(rest.split_at(count as usize)))
}

/// Reads class, type and data at the front and returns them with the bytes after them, or `None` while they aren't complete.
/// Until then, no byte of the data is looked at. Returns `BadInteger` or `SizeLimit` if the length of the data is too large.
#[inline(always)]
#[tactic(auto, unfolding(crate::specs::Reading::frame_at))]
pub fn frame_at(bytes: &[u8]) -> Result<Option<(Frame<'_>, &[u8])>, Breach>
    ensures frame { Reads (option_map (λ x. (record { class = x.0.class; message_type = x.0.message_type; body = x.0.body.now }, x.1.now))) result (frame_at bytes.now) }
    ensures fewer { IfOk result (λ found. IfSome found (λ x. length x.1.now < length bytes.now)) }
    ensures some { IfErr result (λ _. 1 ≤ length bytes.now) }
{
    let [class, message_type, later @ ..] = bytes else {
        return Ok(None);
    };
    Ok(match data_at(*message_type, later)? {
        Some((body, rest)) => {
            let frame = Frame {
                class: *class,
                message_type: *message_type,
                body,
            };
            Some((frame, rest))
        }
        None => None,
    })
}

/// Reads the message at the front and returns it with the bytes after it, or `None` while it isn't complete.
#[inline(always)]
#[tactic(auto, unfolding(crate::specs::Reading::message_at, crate::specs::Reading::body_at))]
pub(crate) fn message_at<'a>(
    received: &'a Received,
    bytes: &'a [u8],
) -> Result<Option<(MessageRef<'a>, &'a [u8])>, Breach>
    ensures { Reads (option_map (λ x. (owned_message x.0, x.1.now))) result (message_at received.now bytes.now) }
{
    let Some((frame, rest)) = frame_at(bytes)? else {
        return Ok(None);
    };
    let meaning = meant(frame.class, frame.message_type);
    let message = message_of(
        received,
        meaning,
        frame.class,
        frame.message_type,
        frame.body,
    )?;
    Ok(Some((message, rest)))
}
