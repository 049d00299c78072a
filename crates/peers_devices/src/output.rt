//! Writing all of some bytes to a device.
ghost use Rattle.std.specs.Prelude.{◌≡◌, ℕ, ◌<◌, IfErr, OnErr, OnOk, length, take};
ghost use Rattle.std.specs.Io.KnownBytes.{Appends};
ghost use Rattle.peers_devices.specs.Failures.{Rose, sent_of};
ghost use Rattle.peers_devices.specs.Writing.{AreWritten, BalksBy, written};

use crate::devices::Faults;
use crate::writes::{Unwritten, Writes, write_once};
use std::io::Write;
use thiserror::Error;

/// The most writes that may fail without being counted before a writer is given up.
const MOST_RETRIES: u32 = 1_000_000;

/// Why not all bytes were written. Exactly the first `sent` of them were, and at least one wasn't.
#[derive(Clone, Copy, Debug, PartialEq, Eq, Error)]
pub enum WriteError {
    /// A write failed, and the device counted it.
    #[error("a write failed after {sent} bytes")]
    Failed {
        /// The number of bytes written before.
        sent: usize,
    },
    /// A write took no bytes, or more than a million writes failed without being counted.
    #[error("no more is taken after {sent} bytes")]
    Stuck {
        /// The number of bytes written before.
        sent: usize,
    },
}

/// Writes all of the bytes.
///
/// Retries a write that fails without being counted, as an interrupted one may.
pub fn write_all<W: Write + Faults>(output: &mut W, bytes: &[u8]) -> Result<(), WriteError>
    ensures ok { OnOk result (Appends (W.contents output.old) (W.contents output.new) bytes.now) }
    ensures failed { (sent : ℕ) → result ≡ Err (WriteError.Failed sent) → Rose (W.failed output.old) (W.failed output.new) }
    ensures sent { IfErr result (λ error. Appends (W.contents output.old) (W.contents output.new) (take (sent_of error) bytes.now)) }
    ensures within { IfErr result (λ error. sent_of error < length bytes.now) }
{
    let earlier = output.failures();
    let mut writes = Writes::none();
    write_all_counted(output, &mut writes, earlier, bytes)
}

/// Writes all of the bytes, and counts the writes in `writes`. Gives up if a write fails and the device's count of failed
/// calls is then above `earlier` (`Failed`), if a write takes none of its bytes, or if more than a million writes fail without being
/// counted (`Stuck`).
///
/// Retries a write that fails without being counted, as an interrupted one may.
pub fn write_all_counted<W: Write + Faults>(
    output: &mut W,
    writes: &mut Writes,
    earlier: u64,
    bytes: &[u8],
) -> Result<(), WriteError>
    ensures ok { OnOk result (AreWritten (written (W.contents output.old) writes.old) (written (W.contents output.new) writes.new) bytes.now) }
    ensures sent { IfErr result (λ error. AreWritten (written (W.contents output.old) writes.old) (written (W.contents output.new) writes.new) (take (sent_of error) bytes.now)) }
    ensures within { IfErr result (λ error. sent_of error < length bytes.now) }
    ensures balks { IfErr result (λ error. BalksBy error earlier (W.failed output.new) writes.old writes.new) }
{
    let mut sent = 0;
    let mut retries = 0;
    while sent < bytes.len() {
        match write_once(output, writes, earlier, &bytes[sent..]) {
            Ok(0) => return Err(WriteError::Stuck { sent }),
            Ok(count) => sent += count,
            Err(Unwritten::Failed) => return Err(WriteError::Failed { sent }),
            Err(Unwritten::Uncounted) => {
                if retries == MOST_RETRIES {
                    return Err(WriteError::Stuck { sent });
                }
                retries += 1;
            }
        }
    }
    Ok(())
}
