//! Calls of the system that fail, or that it interrupts.

ghost use Rattle.std.specs.Io.{ReadsAtMost};

use node_core::reason_of;
use std::alloc::{AllocError, Global};
use std::io;
use std::io::{Error, ErrorKind, Read};

/// How often a read is tried that the system interrupts.
const TRIES: u32 = 8;

/// Returns whether a read that failed with an error of this kind may be tried again.
pub(crate) fn is_pause(kind: ErrorKind) -> bool {
    matches!(
        kind,
        ErrorKind::Interrupted | ErrorKind::WouldBlock | ErrorKind::TimedOut
    )
}

/// Reads what has come, as a read does, and looks again if the system interrupts it, as it does once a process goes on that stood still,
/// whatever has come meanwhile. So what fails with a pause that isn't `Interrupted` has found nothing.
pub(crate) fn read_piece<S: Read>(from: &mut S, piece: &mut [u8]) -> io::Result<usize>
    ensures { ReadsAtMost result piece.new }
{
    for _ in 1..TRIES {
        match from.read(piece) {
            Err(error) if error.kind() == ErrorKind::Interrupted => {}
            read => return read,
        }
    }
    from.read(piece)
}

/// Returns why a call failed, in the system's words.
pub(crate) fn reason_text(alloc: Global, error: &Error) -> Result<String, AllocError> {
    let printed = format!(in alloc; "{error}")?;
    String::from_str(alloc, reason_of(printed.as_str()))
}
