//! Why a session ended, or didn't begin.

ghost use Rattle.std.specs.Prelude.{◌≡◌};
ghost use Rattle.staying_node.specs.Ends.{begins_no_status, cause_of, end_of_closed, end_of_error, has_done_all, is_failed_read, silent_cause};

use crate::devices::reason_text;
use node_core::{NoSession, SessionEnd};
use node_rules::Closing;
use peers_engine::EngineError;
use peers_hello::{Status, read_status};
use std::alloc::{AllocError, Global};
use std::io::Error;

/// Returns why a session is over that closed: whether the peer's messages had a fault, and whether its bytes ended.
pub(crate) fn end_of_closed(faulted: bool, ended: bool) -> SessionEnd
    ensures { result ≡ end_of_closed faulted ended }
{
    if faulted {
        SessionEnd::Fault
    } else if ended {
        SessionEnd::End
    } else {
        SessionEnd::Error
    }
}

/// Returns why a session is over that an error ended.
pub(crate) fn end_of_error(error: EngineError) -> SessionEnd
    ensures { result ≡ end_of_error error }
{
    match error {
        EngineError::Read | EngineError::Write { sent: _ } => SessionEnd::Device,
        EngineError::Session(_) | EngineError::Memory | EngineError::Strange => SessionEnd::Error,
    }
}

/// Returns whether this error is that of a read, which brought nothing.
fn is_failed_read(error: EngineError) -> bool
    ensures { result ≡ is_failed_read error }
{
    match error {
        EngineError::Read => true,
        EngineError::Write { sent: _ }
        | EngineError::Session(_)
        | EngineError::Memory
        | EngineError::Strange => false,
    }
}

/// Returns whether a session has done all that what came asks for, by which error it ended if one ended it. If it hasn't, the end of a
/// resync may be counted although rows that came before it weren't learned.
pub(crate) fn has_done_all(error: Option<EngineError>) -> bool
    ensures { result ≡ has_done_all error }
{
    match error {
        Some(error) => is_failed_read(error),
        None => true,
    }
}

/// Returns whether these bytes, behind which no LF came, begin with no digit or are more than a status has.
fn begins_no_status(head: &[u8]) -> bool
    ensures { result ≡ begins_no_status head.now }
{
    match head {
        [] => false,
        [byte, rest @ ..] => !byte.is_ascii_digit() || rest.len() >= 4,
    }
}

/// Returns why a connection that ended as `end`, and on which nothing came that says why, came to no session.
fn silent_cause(end: SessionEnd) -> NoSession
    ensures { result ≡ silent_cause end }
{
    match end {
        SessionEnd::End => NoSession::Closed,
        SessionEnd::Silent => NoSession::Silent,
        SessionEnd::Device => NoSession::Device,
        SessionEnd::Fault | SessionEnd::Replaced | SessionEnd::Error => NoSession::Lacking,
    }
}

/// Returns why a connection that ended as `end`, and on which the bytes `head` came first, came to no session.
pub(crate) fn cause_of(end: SessionEnd, head: &[u8]) -> NoSession
    ensures { result ≡ cause_of end head.now }
{
    match read_status(head) {
        Status::Code(_, _) => NoSession::AtOnce,
        Status::Other(_) => NoSession::Strange,
        Status::More if begins_no_status(head) => NoSession::Strange,
        Status::More => silent_cause(end),
    }
}

/// Returns why this node closed a session, in words that stand behind "closed", or nothing if it did not.
pub(crate) fn closing_cause(closing: Option<Closing>) -> &'static str {
    match closing {
        Some(Closing::Taught) => "because it is stopping",
        Some(Closing::Cut) => "because it is stopping, before it knew that the peer had all rows",
        Some(Closing::Renewal) => "because a table is getting new numbers",
        None => "",
    }
}

/// What the system says of a read and a write that failed, by its numbers, if they did and it says one.
#[derive(Clone, Copy, Debug)]
pub(crate) struct FailureCodes {
    pub(crate) read: Option<i32>,
    pub(crate) write: Option<i32>,
}

/// Returns what is known of why a session ended as `end`, by `error` if one ended it, in words that stand behind "ended".
pub(crate) fn cause_text(
    alloc: Global,
    end: SessionEnd,
    error: Option<EngineError>,
    codes: FailureCodes,
) -> Result<String, AllocError> {
    match (end, error) {
        (SessionEnd::Device, Some(EngineError::Read)) => match codes.read {
            Some(code) => failure_text(alloc, "read", code),
            None => String::from_str(alloc, "for want of memory here"),
        },
        (SessionEnd::Device, Some(EngineError::Write { .. })) => match codes.write {
            Some(code) => failure_text(alloc, "write", code),
            None => String::from_str(alloc, "since the peer read too little for 10 s"),
        },
        (SessionEnd::Error, Some(EngineError::Memory)) => {
            String::from_str(alloc, "for want of memory here")
        }
        (SessionEnd::Error, Some(error)) => {
            format!(in alloc; "by a fault of this node: {error}")
        }
        (SessionEnd::Error, None) => String::from_str(alloc, "by an error message of the peer"),
        _ => Ok(String::new(alloc)),
    }
}

/// Returns what the log says of a failed read or write (`what`) for which the system gave the error number `code`.
fn failure_text(alloc: Global, what: &str, code: i32) -> Result<String, AllocError> {
    let error = Error::from_raw_os_error(code);
    let reason = reason_text(alloc, &error)?;
    format!(in alloc; "by a failed {what}: {reason}")
}
