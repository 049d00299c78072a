//! The status that answers a hello: one line.

ghost use Rattle.std.specs.Prelude.{◌≡◌};
ghost use Rattle.peers_hello.specs.Statuses.{code_of, status_of};

use crate::lines::{NoLine, cut, is_same};

/// What a status line says.
#[derive(Clone, Copy, Debug, PartialEq, Eq)]
pub enum Status {
    /// One of the protocol's codes, 200, 300 or 501 to 504, and the line's length in bytes.
    Code(u16, usize),
    /// Any other line, or one that is too long, and its length in bytes.
    Other(usize),
    /// The line isn't complete yet.
    More,
}

/// Reads the status at the front of `bytes`.
pub fn read_status(bytes: &[u8]) -> Status
    ensures { result ≡ status_of bytes.now }
{
    match cut(bytes) {
        Ok((text, rest)) => {
            let used = bytes.len() - rest.len();
            match code_of(text) {
                Some(code) => Status::Code(code, used),
                None => Status::Other(used),
            }
        }
        Err(NoLine::TooLong) => Status::Other(bytes.len()),
        Err(NoLine::More) => Status::More,
    }
}

/// Returns the code that `text` spells.
fn code_of(text: &[u8]) -> Option<u16>
    ensures { result ≡ code_of text.now }
{
    if is_same(text, b"200".as_slice()) {
        return Some(200);
    }
    if is_same(text, b"300".as_slice()) {
        return Some(300);
    }
    if is_same(text, b"501".as_slice()) {
        return Some(501);
    }
    if is_same(text, b"502".as_slice()) {
        return Some(502);
    }
    if is_same(text, b"503".as_slice()) {
        return Some(503);
    }
    if is_same(text, b"504".as_slice()) {
        return Some(504);
    }
    None
}
