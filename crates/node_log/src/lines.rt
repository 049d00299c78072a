//! Lines of the log.
ghost use Rattle.std.specs.Prelude.{◌≡◌, ◌++◌, OnOk};
ghost use Rattle.node_log.specs.Lines.{Adds, AddsHead, AddsTime, event_text, journal_number, level_name, level_text};

use crate::events::{event_name, level_of};
use crate::keys::push_keys;
use crate::sentences::sentence_of;
use crate::times::time_of;
use crate::values::push_sentence;
use node_core::{Event, Level};
use std::alloc::{AllocError, Global};

/// How a line of the log begins.
#[derive(Clone, Copy, Debug, PartialEq, Eq)]
pub enum Form {
    /// With the time, in milliseconds since 1970, and the level.
    Dated(u64),
    /// With the number of the level as the journal reads it, which adds the time.
    Journal,
}

/// Appends the line of an event.
pub fn push_line(
    alloc: Global,
    text: &mut Vec<u8>,
    form: Form,
    event: &Event<'_>,
) -> Result<(), AllocError>
    ensures { OnOk result (Adds form event.now text.old.items text.new.items) }
{
    let sentence = sentence_of(alloc, event)?;
    push_head(text, form, level_of(event))?;
    push_event(text, event)?;
    text.extend_from_slice(b": ")?;
    push_sentence(text, sentence.as_bytes())?;
    text.push(b'\n')?;
    Ok(())
}

/// Appends what stands before the event.
fn push_head(text: &mut Vec<u8>, form: Form, level: Level) -> Result<(), AllocError>
    ensures { OnOk result (AddsHead form level text.old.items text.new.items) }
{
    match form {
        Form::Dated(milliseconds) => {
            push_time(text, milliseconds)?;
            push_level(text, level)?;
            Ok(())
        }
        Form::Journal => {
            let head = [b'<', journal_number(level), b'>'];
            text.extend_from_slice(head.as_slice())
        }
    }
}

/// Appends the time `milliseconds` after the beginning of 1970.
fn push_time(text: &mut Vec<u8>, milliseconds: u64) -> Result<(), AllocError>
    ensures { OnOk result (AddsTime milliseconds text.old.items text.new.items) }
{
    text.extend_from_slice(time_of(milliseconds).as_slice())?;
    Ok(())
}

/// Appends the word for a level, with a space before it and behind it.
fn push_level(text: &mut Vec<u8>, level: Level) -> Result<(), AllocError>
    ensures { OnOk result (text.new.items ≡ text.old.items ++ level_text level) }
{
    text.push(b' ')?;
    text.extend_from_slice(level_name(level).as_bytes())?;
    text.push(b' ')?;
    Ok(())
}

/// Returns the word for a level.
fn level_name(level: Level) -> &'static str
    ensures { result.now ≡ level_name level }
{
    match level {
        Level::Error => "error",
        Level::Warn => "warn",
        Level::Info => "info",
        Level::Debug => "debug",
    }
}

/// Returns the digit by which the journal knows a level.
fn journal_number(level: Level) -> u8
    ensures { result ≡ journal_number level }
{
    match level {
        Level::Error => b'3',
        Level::Warn => b'4',
        Level::Info => b'6',
        Level::Debug => b'7',
    }
}

/// Appends the event's name, and its keys.
fn push_event(text: &mut Vec<u8>, event: &Event<'_>) -> Result<(), AllocError>
    ensures { OnOk result (text.new.items ≡ text.old.items ++ event_text event.now) }
{
    text.extend_from_slice(b"event=")?;
    text.extend_from_slice(event_name(event).as_bytes())?;
    push_keys(text, event)
}
