//! What a node needs of the system before it runs, and how it says that it can't have it.

ghost use Rattle.std.specs.Prelude.{◌≡◌, ◌++◌, ◌∷◌, [], OnOk, map};
ghost use Rattle.node_core.specs.Needs.{IsReason, lacking_line, need_word, place_text, shown_byte};

use std::alloc::AllocError;

/// What stands between the text of an error of the system and its number, as the library prints them.
const NUMBER: &str = " (os error ";

/// What a node needs of the system before it runs.
#[derive(Clone, Copy, Debug, PartialEq, Eq)]
pub enum Need {
    /// The port to which peers connect.
    Listen,
    /// The port or the socket to which requests come.
    Admin,
    /// The port at which metrics are read.
    Metrics,
    /// Its threads.
    Threads,
    /// The clock.
    Clock,
}

impl Need {
    /// Returns the word for this need: that of the configuration, if a line of it asks for that.
    pub fn word(self) -> &'static str
        ensures { result.now ≡ need_word self }
    {
        match self {
            Need::Listen => "listen",
            Need::Admin => "admin",
            Need::Metrics => "metrics",
            Need::Threads => "threads",
            Need::Clock => "clock",
        }
    }
}

/// Returns what the system says of an error that the library prints as `printed`: the text without the error's number.
pub fn reason_of(printed: &str) -> &str
    ensures { IsReason printed.now result.now }
{
    match printed.split_once(NUMBER) {
        Some((reason, _)) => reason,
        None => printed,
    }
}

/// Appends the line that says that the node can't have what it needs: `WHAT PLACE: REASON`, or `WHAT: REASON` if `place` is empty. A byte
/// of these outside 32 to 126 is printed as `?`.
pub fn push_lacking(
    text: &mut Vec<u8>,
    need: Need,
    place: &[u8],
    reason: &[u8],
) -> Result<(), AllocError>
    ensures { OnOk result (text.new.items ≡ text.old.items ++ lacking_line need place.now reason.now) }
{
    text.extend_from_slice(need.word().as_bytes())?;
    push_place(text, place)?;
    text.extend_from_slice(b": ")?;
    push_shown(text, reason)?;
    text.push(b'\n')?;
    Ok(())
}

/// Appends a space and `place`, or nothing if that is empty.
fn push_place(text: &mut Vec<u8>, place: &[u8]) -> Result<(), AllocError>
    ensures { OnOk result (text.new.items ≡ text.old.items ++ place_text place.now) }
{
    if place.is_empty() {
        return Ok(());
    }
    text.push(b' ')?;
    push_shown(text, place)
}

/// Appends the bytes, with `?` in the place of one outside 32 to 126.
fn push_shown(text: &mut Vec<u8>, bytes: &[u8]) -> Result<(), AllocError>
    ensures { OnOk result (text.new.items ≡ text.old.items ++ map shown_byte bytes.now) }
{
    for byte in bytes {
        text.push(shown(*byte))?;
    }
    Ok(())
}

/// Returns `byte`, or `?` if it is outside 32 to 126.
fn shown(byte: u8) -> u8
    ensures { result ≡ shown_byte byte }
{
    match byte {
        b' '..=b'~' => byte,
        _ => b'?',
    }
}
