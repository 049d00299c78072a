//! The hello: three lines that open a session.

ghost use Rattle.std.specs.Prelude.{◌≡◌, ◌≤◌, ◌-◌, true, false, None, Some, IfOk, IfErr, IfSome, OnOk, OnErr, ◌++◌, IsNone, length, drop};
ghost use Rattle.peers_hello.specs.Lines.{line, past, after_lines, no_lines};
ghost use Rattle.peers_hello.specs.Hellos.{hello_text, introduction_text, version_text, version_of, answer_of, IsAccepted, local_of, is_greeting, is_number, is_introduction, judged, is_among};

use crate::lines::{NoLine, cut, is_same, split};
use std::alloc::{AllocError, Global};
use table_types::{Memory, Name, Version, is_name};

const PROTOCOL_ERROR: u16 = 501;

const BAD_VERSION: u16 = 502;

const OTHER_NAME: u16 = 503;

const UNKNOWN_PEER: u16 = 504;

/// The hello with which a peer opens a session. It names the remote peer and the peer that sends it.
///
/// ```text
/// HAProxyS SP VERSION LF
/// REMOTE LF
/// LOCAL SP PID SP RELATIVE LF
/// ```
#[derive(Debug, Drop, PartialEq, Eq)]
pub struct Hello {
    /// The name of the peer that the hello is sent to.
    pub remote: Name,
    /// The name of the peer that sends the hello.
    pub local: Name,
    /// The sender's process id.
    pub pid: u32,
    /// The number of that process among the sender's processes.
    pub relative: u32,
    /// The version that the sender speaks, `2.0` or `2.1` in the first line.
    pub version: Version,
}

/// The answer to a hello.
#[derive(Debug, Drop, PartialEq, Eq)]
pub enum Answer {
    /// The hello is accepted: the name of the peer that sent it, the version that it speaks, and the hello's length in
    /// bytes.
    Accepted(Name, Version, usize),
    /// The hello is refused: the status code to send, 501 to 504, and the number of bytes it answers.
    Refused(u16, usize),
    /// The hello isn't complete yet.
    More,
}

impl Hello {
    /// Returns the hello's bytes. Fails if memory runs out.
    pub fn write(&self, alloc: Global) -> Result<Vec<u8>, Memory>
        ensures { IfOk result (λ bytes. bytes.items ≡ hello_text self.now) }
    {
        let mut text = Vec::new(alloc);
        push_hello(alloc, &mut text, self)?;
        Ok(text)
    }

    /// Returns the answer of the peer `own`, which knows `peers`, to the hello at the front of `bytes`. Allocates only
    /// if the hello is accepted, and fails if memory runs out.
    pub fn read(alloc: Global, bytes: &[u8], own: &Name, peers: &[Name]) -> Result<Answer, Memory>
        ensures answer { IfOk result (λ answer. answer ≡ answer_of own.now peers.now bytes.now) }
        ensures memory { OnErr result (IsAccepted (answer_of own.now peers.now bytes.now)) }
    {
        let lines = match lines_of(bytes) {
            Ok(lines) => lines,
            Err(NoLine::TooLong) => return Ok(Answer::Refused(PROTOCOL_ERROR, bytes.len())),
            Err(NoLine::More) => return Ok(Answer::More),
        };
        let version = match judge(&lines, own) {
            Ok(version) => version,
            Err(code) => return Ok(Answer::Refused(code, lines.used)),
        };
        match peer_called(peers, local_of(lines.third)) {
            Some(peer) => Ok(Answer::Accepted(peer.copy(alloc)?, version, lines.used)),
            None => Ok(Answer::Refused(UNKNOWN_PEER, lines.used)),
        }
    }
}

fn push_hello(alloc: Global, text: &mut Vec<u8>, hello: &Hello) -> Result<(), AllocError>
    ensures { OnOk result (text.new.items ≡ text.old.items ++ hello_text hello.now) }
{
    text.extend_from_slice(b"HAProxyS ")?;
    text.extend_from_slice(text_of(hello.version))?;
    text.push(b'\n')?;
    text.extend_from_slice(hello.remote.as_slice())?;
    text.push(b'\n')?;
    push_introduction(alloc, text, hello)
}

/// Appends the third line.
fn push_introduction(alloc: Global, text: &mut Vec<u8>, hello: &Hello) -> Result<(), AllocError>
    ensures { OnOk result (text.new.items ≡ text.old.items ++ introduction_text hello.now) }
{
    let (pid, relative) = (hello.pid, hello.relative);
    text.extend_from_slice(hello.local.as_slice())?;
    text.extend_from_slice(format!(in alloc; " {pid} {relative}\n")?.as_bytes())
}

/// The three lines of a hello, and their length in bytes.
#[derive(Drop)]
struct Lines<'a> {
    first: &'a [u8],
    second: &'a [u8],
    third: &'a [u8],
    used: usize,
}

fn lines_of(bytes: &[u8]) -> Result<Lines<'_>, NoLine>
    ensures stand { IfOk result (λ _. no_lines 3 bytes.now ≡ None) }
    ensures first { IfOk result (λ lines. lines.first.now ≡ line bytes.now) }
    ensures second { IfOk result (λ lines. lines.second.now ≡ line (past 10 bytes.now)) }
    ensures third { IfOk result (λ lines. lines.third.now ≡ line (past 10 (past 10 bytes.now))) }
    ensures used { IfOk result (λ lines. lines.used ≡ length bytes.now - length (after_lines 3 bytes.now)) }
    ensures lack { IfErr result (λ reason. no_lines 3 bytes.now ≡ Some reason) }
{
    let (first, rest) = cut(bytes)?;
    let (second, rest) = cut(rest)?;
    let (third, rest) = cut(rest)?;
    Ok(Lines {
        first,
        second,
        third,
        used: bytes.len() - rest.len(),
    })
}

/// Returns the version of the lines, or the status code of the first thing that is wrong with them, whichever peers are
/// known.
fn judge(lines: &Lines<'_>, own: &Name) -> Result<Version, u16>
    ensures { result ≡ judged own.now lines.now.first.now lines.now.second.now lines.now.third.now }
{
    if !is_greeting(lines.first) || !is_introduction(lines.third) {
        return Err(PROTOCOL_ERROR);
    }
    let Some(version) = version_of(&lines.first[9..]) else {
        return Err(BAD_VERSION);
    };
    if !is_same(lines.second, own.as_slice()) {
        return Err(OTHER_NAME);
    }
    Ok(version)
}

/// Returns a version's text in a first line.
fn text_of(version: Version) -> &'static [u8]
    ensures { result.now ≡ version_text version }
{
    match version {
        Version::V20 => b"2.0",
        Version::V21 => b"2.1",
    }
}

/// Returns the version whose text is `text`, letter for letter.
fn version_of(text: &[u8]) -> Option<Version>
    ensures { result ≡ version_of text.now }
{
    if is_same(text, text_of(Version::V20)) {
        return Some(Version::V20);
    }
    if is_same(text, text_of(Version::V21)) {
        return Some(Version::V21);
    }
    None
}

/// Returns whether a first line names the protocol, in any version.
fn is_greeting(line: &[u8]) -> bool
    ensures exactly { result ≡ is_greeting line.now }
    ensures long { result ≡ true → 9 ≤ length line.now }
{
    line.len() >= 9 && is_same(&line[..9], b"HAProxyS ".as_slice())
}

/// Returns whether a third line is a name, a process id and a relative pid.
fn is_introduction(line: &[u8]) -> bool
    ensures { result ≡ is_introduction line.now }
{
    let (local, numbers) = split(b' ', line);
    let (pid, relative) = split(b' ', numbers);
    is_name(local) && is_number(pid) && is_number(relative)
}

/// Returns whether `text` is one or more decimal digits.
fn is_number(text: &[u8]) -> bool
    ensures { result ≡ is_number text.now }
{
    if text.is_empty() {
        return false;
    }
    for byte in text {
        if !byte.is_ascii_digit() {
            return false;
        }
    }
    true
}

/// Returns the local name in a third line.
fn local_of(line: &[u8]) -> &[u8]
    ensures { result.now ≡ local_of line.now }
{
    let (local, _) = split(b' ', line);
    local
}

/// Returns the peer called `name`.
fn peer_called<'a>(peers: &'a [Name], name: &[u8]) -> Option<&'a Name>
    ensures found { IfSome result (λ peer. peer.now ≡ name.now) }
    ensures among { IfSome result (λ _. is_among name.now peers.now ≡ true) }
    ensures none { IsNone result → is_among name.now peers.now ≡ false }
{
    for peer in peers {
        if is_same(peer.as_slice(), name) {
            return Some(peer);
        }
    }
    None
}
