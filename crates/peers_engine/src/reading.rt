//! Reading from the remote peer.

ghost use Rattle.std.specs.Prelude.{◌≡◌, Err, IfErr, IfOk, List, ℕ};
ghost use Rattle.std.specs.Io.KnownBytes.{Consumes, IsAtEnd, Keeps};
ghost use Rattle.peers_devices.specs.Failures.{Rose};
ghost use Rattle.peers_engine.specs.declared.errors.EngineError.TheVariants as errors;
ghost use Rattle.peers_engine.specs.Reading.{IsRead, IsUnread};

use crate::errors::EngineError;
use peers_devices::{Faults, rose};
use session_core::Event;
use std::alloc::Global;
use std::io::Read;
use table_types::Items;

/// The most bytes that one read takes.
const MOST_BYTES: usize = 4096;

/// Reads once, and returns the event, if there is one. A read that fails without being counted, as an interrupted one
/// may, gives none.
///
/// Fails with `Read` if a read fails and the reader counts it, and with `Memory` if memory runs out. Nothing was then
/// read.
pub(crate) fn read_event<R: Read + Faults>(
    alloc: Global,
    input: &mut R,
) -> Result<Option<Event>, EngineError>
    ensures received { IfOk result (λ event. (read : List ℕ) × IsRead (IsAtEnd (R.remaining input.new)) event read
        × Consumes (R.remaining input.old) (R.remaining input.new) read) }
    ensures failed { result ≡ Err errors.Read → Rose (R.failed input.old) (R.failed input.new) }
    ensures unread { IfErr result (λ _. Keeps (R.remaining input.old) (R.remaining input.new)) }
    ensures unwritten { IfErr result IsUnread }
{
    let earlier = input.failures();
    let mut bytes = vec![in alloc; 0; MOST_BYTES].map_err(|_| EngineError::Memory)?;
    match input.read(bytes.as_mut_slice()) {
        Ok(0) => Ok(Some(Event::End)),
        Ok(count) => {
            bytes.truncate(count);
            Ok(Some(Event::Bytes(Items::new(bytes))))
        }
        Err(_) if rose(earlier, input.failures()) => Err(EngineError::Read),
        Err(_) => Ok(None),
    }
}
