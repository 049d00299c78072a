//! Lines at the front of some bytes.

ghost use Rattle.std.specs.Prelude.{◌≡◌, ◌↔◌, IsTrue, ◌+◌, ◌≤◌, ◌<◌, None, Some, IfOk, IfErr, length};
ghost use Rattle.peers_hello.specs.Lines.{is_same, until, past, without_cr, line, no_line};

/// The most bytes that a line may have before its LF.
const MOST_BYTES: usize = 512;

/// Why there is no line at the front.
#[derive(Clone, Copy, Debug, PartialEq, Eq)]
pub(crate) enum NoLine {
    /// More than 512 bytes come before the LF.
    TooLong,
    /// The LF hasn't come yet.
    More,
}

/// Returns whether two texts are the same.
pub(crate) fn is_same(one: &[u8], other: &[u8]) -> bool
    ensures tests { result ≡ is_same one.now other.now }
    ensures exactly { IsTrue result ↔ (one.now ≡ other.now) }
{
    one == other
}

/// Returns the bytes before the first `stop`, and those after it. If there is no `stop`, these are all the bytes and
/// none.
pub(crate) fn split(stop: u8, bytes: &[u8]) -> (&[u8], &[u8])
    ensures until { result.0.now ≡ until stop bytes.now }
    ensures past { result.1.now ≡ past stop bytes.now }
    ensures within { length result.1.now ≤ length bytes.now }
{
    for (index, byte) in bytes.iter().enumerate() {
        if *byte == stop {
            return (&bytes[..index], &bytes[index + 1..]);
        }
    }
    (bytes, &bytes[bytes.len()..])
}

fn without_cr(text: &[u8]) -> &[u8]
    ensures { result.now ≡ without_cr text.now }
{
    match text.strip_suffix(b"\r".as_slice()) {
        Some(front) => front,
        None => text,
    }
}

/// Returns the line at the front, without its LF and a CR before that, and the bytes after it.
pub(crate) fn cut(bytes: &[u8]) -> Result<(&[u8], &[u8]), NoLine>
    ensures stands { IfOk result (λ _. no_line bytes.now ≡ None) }
    ensures line { IfOk result (λ cut. cut.0.now ≡ line bytes.now) }
    ensures past { IfOk result (λ cut. cut.1.now ≡ past 10 bytes.now) }
    ensures within { IfOk result (λ cut. length cut.1.now ≤ length bytes.now) }
    ensures lacks { IfErr result (λ reason. no_line bytes.now ≡ Some reason) }
{
    let (text, rest) = split(b'\n', bytes);
    if text.len() > MOST_BYTES {
        return Err(NoLine::TooLong);
    }
    if text.len() < bytes.len() {
        Ok((without_cr(text), rest))
    } else {
        Err(NoLine::More)
    }
}
