//! Writing all of a lesson.

ghost use Rattle.std.specs.Prelude.{◌≡◌, ◌+◌, ◌++◌, ◌<◌, ℕ, true, false, [], Err, IfErr, IfOk, OnErr, OnOk, length, take};
ghost use Rattle.std.specs.Io.KnownBytes.{Appends};
ghost use Rattle.peers_devices.specs.Writing.{AreWritten, Balks, written};
ghost use Rattle.teach_writer.specs.Pieces.{bytes_left};
ghost use Rattle.peers_engine.specs.declared.writing.PiecesError.TheVariants as errors;
ghost use Rattle.peers_engine.specs.Writing.{sent_of};

use known_state::Known;
use peers_devices::{Faults, WriteError, Writes, write_all_counted};
use std::alloc::Global;
use std::io::Write;
use table_types::Memory;
use teach_writer::Pieces;
use thiserror::Error;

/// The pieces of a lesson are gathered until they have this many bytes, and then written at once.
const ENOUGH: usize = 16_384;

/// Not all bytes were written: exactly the first `sent` of them were, and at least one wasn't.
#[derive(Clone, Copy, Debug, PartialEq, Eq, Error)]
#[error("only {sent} bytes were written")]
pub struct WriteFault {
    /// The number of bytes written.
    pub sent: usize,
}

/// Writes all bytes of a lesson.
///
/// Gives up if a write fails and the device counts it, if a write takes no byte, or if more than a million writes fail
/// without being counted.
pub fn write_lesson<W: Write + Faults>(output: &mut W, lesson: &[u8]) -> Result<(), WriteFault>
    ensures ok { OnOk result (Appends (W.contents output.old) (W.contents output.new) lesson.now) }
    ensures sent { IfErr result (λ fault. Appends (W.contents output.old) (W.contents output.new) (take fault.sent lesson.now)) }
    ensures within { IfErr result (λ fault. fault.sent < length lesson.now) }
{
    let earlier = output.failures();
    let mut writes = Writes::none();
    write_lesson_counted(output, &mut writes, earlier, lesson)
}

/// Writes all bytes of a lesson as `write_lesson` does, and counts the writes in `writes`. The device counts a failure if its count of
/// failed calls is then above `earlier`.
pub fn write_lesson_counted<W: Write + Faults>(
    output: &mut W,
    writes: &mut Writes,
    earlier: u64,
    bytes: &[u8],
) -> Result<(), WriteFault>
    ensures ok { OnOk result (AreWritten (written (W.contents output.old) writes.old) (written (W.contents output.new) writes.new) bytes.now) }
    ensures sent { IfErr result (λ fault. AreWritten (written (W.contents output.old) writes.old) (written (W.contents output.new) writes.new) (take fault.sent bytes.now)) }
    ensures within { IfErr result (λ fault. fault.sent < length bytes.now) }
    ensures balks { OnErr result (Balks earlier (W.failed output.new) writes.old writes.new) }
{
    match write_all_counted(output, writes, earlier, bytes) {
        Ok(()) => Ok(()),
        Err(WriteError::Failed { sent } | WriteError::Stuck { sent }) => Err(WriteFault { sent }),
    }
}

/// Why not all pieces of a lesson were written. Exactly the first `sent` bytes of the lesson were, and at least one wasn't.
#[derive(Clone, Copy, Debug, PartialEq, Eq, Error)]
pub enum PiecesError {
    /// A write failed.
    #[error("only {sent} bytes were written")]
    Write {
        /// The number of bytes written.
        sent: usize,
    },
    /// Memory ran out for the next piece.
    #[error("memory ran out after {sent} bytes were written")]
    Memory {
        /// The number of bytes written.
        sent: usize,
    },
}

/// Replaces `bytes` by the next pieces, until they have 16,384 bytes or no piece is left. Returns whether one may be left.
fn gather(pieces: &mut Pieces, bytes: &mut Vec<u8>) -> Result<bool, Memory>
    ensures gathered { OnOk result (bytes.new.items ++ bytes_left pieces.new ≡ bytes_left pieces.old) }
    ensures fewer { IfOk result (λ more. more ≡ true → length pieces.new.messages < length pieces.old.messages) }
    ensures last { IfOk result (λ more. more ≡ false → (pieces.new.messages ≡ []) × (pieces.new.ended ≡ true)) }
    ensures same { OnOk result ((pieces.new.prices ≡ pieces.old.prices) × (pieces.new.known ≡ pieces.old.known)) }
    ensures left { OnErr result (0 < length (bytes_left pieces.old)) }
{
    bytes.clear();
    while pieces.append_next(bytes)? {
        if bytes.len() >= ENOUGH {
            return Ok(true);
        }
    }
    Ok(false)
}

/// Gathers the next pieces in `bytes`, writes them, and adds their bytes to `sent`, the number of bytes written before.
/// Returns whether a piece may be left.
fn write_next<W: Write + Faults>(
    output: &mut W,
    writes: &mut Writes,
    earlier: u64,
    pieces: &mut Pieces,
    bytes: &mut Vec<u8>,
    sent: &mut usize,
) -> Result<bool, PiecesError>
    ensures written { OnOk result ((bytes.new.items ++ bytes_left pieces.new ≡ bytes_left pieces.old)
        × (sent.new ≡ sent.old + length bytes.new.items)
        × AreWritten (written (W.contents output.old) writes.old) (written (W.contents output.new) writes.new) bytes.new.items) }
    ensures fewer { IfOk result (λ more. more ≡ true → length pieces.new.messages < length pieces.old.messages) }
    ensures last { IfOk result (λ more. more ≡ false → (pieces.new.messages ≡ []) × (pieces.new.ended ≡ true)) }
    ensures same { OnOk result ((pieces.new.prices ≡ pieces.old.prices) × (pieces.new.known ≡ pieces.old.known)) }
    ensures failed { IfErr result (λ error. (count : ℕ) × (sent_of error ≡ sent.old + count) × (count < length (bytes_left pieces.old))
        × AreWritten (written (W.contents output.old) writes.old) (written (W.contents output.new) writes.new) (take count (bytes_left pieces.old))) }
    ensures balks { (count : ℕ) → result ≡ Err (errors.Write count) → Balks earlier (W.failed output.new) writes.old writes.new }
{
    let before = *sent;
    let Ok(more) = gather(pieces, bytes) else {
        return Err(PiecesError::Memory { sent: before });
    };
    // A lesson has far fewer than 2^64 bytes, so the sum is always there.
    let Some(after) = before.checked_add(bytes.len()) else {
        return Err(PiecesError::Memory { sent: before });
    };
    match write_lesson_counted(output, writes, earlier, bytes.as_slice()) {
        Ok(()) => {
            *sent = after;
            Ok(more)
        }
        Err(fault) => Err(PiecesError::Write {
            sent: before + fault.sent,
        }),
    }
}

/// Writes what is left of a lesson, and returns its prices and what the learner knows after it. The pieces are gathered in one
/// buffer, which is written once it has 16,384 bytes or no piece is left, so the lesson never needs memory as a whole.
///
/// Gives up on a write as `write_lesson` does.
pub fn write_pieces<W: Write + Faults>(
    alloc: Global,
    output: &mut W,
    pieces: Pieces,
) -> Result<(Vec<u64>, Known), PiecesError>
    ensures ok { OnOk result (Appends (W.contents output.old) (W.contents output.new) (bytes_left pieces)) }
    ensures end { IfOk result (λ end. (end.0.items ≡ pieces.prices) × (end.1 ≡ pieces.known)) }
    ensures sent { IfErr result (λ error. Appends (W.contents output.old) (W.contents output.new) (take (sent_of error) (bytes_left pieces))) }
    ensures within { IfErr result (λ error. sent_of error < length (bytes_left pieces)) }
{
    let earlier = output.failures();
    let mut writes = Writes::none();
    write_pieces_counted(alloc, output, &mut writes, earlier, pieces)
}

/// Writes what is left of a lesson as `write_pieces` does, and counts the writes in `writes`. The device counts a failure
/// if its count of failed calls is then above `earlier`.
pub fn write_pieces_counted<W: Write + Faults>(
    alloc: Global,
    output: &mut W,
    writes: &mut Writes,
    earlier: u64,
    mut pieces: Pieces,
) -> Result<(Vec<u64>, Known), PiecesError>
    ensures ok { OnOk result (AreWritten (written (W.contents output.old) writes.old) (written (W.contents output.new) writes.new) (bytes_left pieces)) }
    ensures end { IfOk result (λ end. (end.0.items ≡ pieces.prices) × (end.1 ≡ pieces.known)) }
    ensures sent { IfErr result (λ error. AreWritten (written (W.contents output.old) writes.old) (written (W.contents output.new) writes.new) (take (sent_of error) (bytes_left pieces))) }
    ensures within { IfErr result (λ error. sent_of error < length (bytes_left pieces)) }
    ensures balks { (count : ℕ) → result ≡ Err (errors.Write count) → Balks earlier (W.failed output.new) writes.old writes.new }
{
    let mut bytes = Vec::new(alloc);
    let mut sent = 0;
    while write_next(output, writes, earlier, &mut pieces, &mut bytes, &mut sent)? {}
    match pieces.end() {
        Ok(end) => Ok(end),
        Err(_) => unreachable!(),
    }
}
