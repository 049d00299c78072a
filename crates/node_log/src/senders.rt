//! Who sent a hello.
ghost use Rattle.std.specs.Prelude.{◌≡◌};
ghost use Rattle.node_log.specs.Senders.{before_byte, behind_byte, called_by, is_greeting, pid_of, said_version, sender_of, text_of_line, third_line};

use node_text::{cut, number};
use table_types::is_same_name;

/// Returns whether a line is the first one of a hello.
pub fn is_greeting(line: &[u8]) -> bool
    ensures { result ≡ is_greeting line.now }
{
    is_same_name(before(line, b' '), b"HAProxyS".as_slice())
}

/// Returns the name by which the sender of a hello calls itself: the first word of the third line.
pub fn sender_of(hello: &[u8]) -> &[u8]
    ensures { result.now ≡ sender_of hello.now }
{
    before(third_line(hello), b' ')
}

/// Returns the name by which a hello calls whom it greets: its second line.
pub fn called_by(hello: &[u8]) -> &[u8]
    ensures { result.now ≡ called_by hello.now }
{
    text_of_line(behind(hello, b'\n'))
}

/// Returns the version that a hello says: what stands behind the first space of its first line.
pub fn said_version(hello: &[u8]) -> &[u8]
    ensures { result.now ≡ said_version hello.now }
{
    behind(text_of_line(hello), b' ')
}

/// Returns the first line, without what ends it: LF, or CR and LF.
fn text_of_line(text: &[u8]) -> &[u8]
    ensures { result.now ≡ text_of_line text.now }
{
    before(before(text, b'\n'), b'\r')
}

/// Returns the pid that a hello says: the number of the second word of the third line, if that is one.
pub fn pid_of(hello: &[u8]) -> Option<u64>
    ensures { result ≡ pid_of hello.now }
{
    let pid = before(behind(third_line(hello), b' '), b' ');
    number(pid, u64::MAX)
}

/// Returns the third line of a hello.
fn third_line(hello: &[u8]) -> &[u8]
    ensures { result.now ≡ third_line hello.now }
{
    before(behind(behind(hello, b'\n'), b'\n'), b'\n')
}

/// Returns what stands behind the first `byte`, or nothing if there is none.
fn behind(text: &[u8], byte: u8) -> &[u8]
    ensures { result.now ≡ behind_byte byte text.now }
{
    match cut(text, byte) {
        Some((_, behind)) => behind,
        None => &[],
    }
}

/// Returns what stands before the first `byte`, or all if there is none.
fn before(text: &[u8], byte: u8) -> &[u8]
    ensures { result.now ≡ before_byte byte text.now }
{
    match cut(text, byte) {
        Some((before, _)) => before,
        None => text,
    }
}
