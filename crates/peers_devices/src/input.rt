//! Reading from a device until its end.
ghost use Rattle.std.specs.Prelude.{◌≡◌, ◌<◌, IfOk, OnOk, vec_len};
ghost use Rattle.std.specs.Io.KnownBytes.{Consumes, IsAtEnd};
ghost use Rattle.peers_devices.specs.Failures.{Rose};

use crate::devices::{Faults, rose};
use std::alloc::{AllocError, Global};
use std::io::Read;
use thiserror::Error;

/// The most calls of `read` that one input may take.
pub const MOST_READS: u32 = 1_000_000;

/// The number of bytes that one call of `read` asks for.
const CHUNK: usize = 65_536;

/// Why an input wasn't read to its end. The bytes read before are dropped.
#[derive(Clone, Copy, Debug, PartialEq, Eq, Error)]
pub enum ReadError {
    /// A read failed, and the device counted it.
    #[error("a read failed")]
    Failed,
    /// The input takes more than a million reads.
    #[error("the input takes more than a million reads")]
    Endless,
    /// Memory ran out.
    #[error("memory")]
    Memory,
}

/// Reads an input to its end, with at most a million calls of `read`.
///
/// Retries a read that fails without being counted, as an interrupted one may.
pub fn read_to_end<R: Read + Faults>(alloc: Global, input: &mut R) -> Result<Vec<u8>, ReadError>
    ensures ok { IfOk result (λ bytes. Consumes (R.remaining input.old) (R.remaining input.new) bytes.items) }
    ensures end { OnOk result (IsAtEnd (R.remaining input.new)) }
    ensures failed { result ≡ Err ReadError.Failed → Rose (R.failed input.old) (R.failed input.new) }
{
    let earlier = input.failures();
    let mut chunk = room(alloc).map_err(|_| ReadError::Memory)?;
    let mut bytes = Vec::new(alloc);
    for _ in 0..MOST_READS {
        match input.read(chunk.as_mut_slice()) {
            Ok(0) => return Ok(bytes),
            Ok(count) => bytes
                .extend_from_slice(&chunk[..count])
                .map_err(|_| ReadError::Memory)?,
            Err(_) => {
                if rose(earlier, input.failures()) {
                    return Err(ReadError::Failed);
                }
            }
        }
    }
    Err(ReadError::Endless)
}

/// Returns a buffer for one read.
fn room(alloc: Global) -> Result<Vec<u8>, AllocError>
    ensures { IfOk result (λ chunk. 0 < vec_len chunk) }
{
    vec![in alloc; 0; CHUNK]
}
