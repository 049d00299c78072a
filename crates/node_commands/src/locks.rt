//! Tables under their locks, and the audit of tables that are taken out of them.

ghost use Rattle.std.specs.Prelude.{◌≡◌, ◌⊎◌, None, IfErr, IfOk};
ghost use Rattle.table_shards.specs.Audits.{Audits, round_of_unlocked};
ghost use Rattle.table_shards.specs.Rounds.{round_of_shards};
ghost use Rattle.text_commands.specs.Endings.{IsEarly};
ghost use Rattle.text_commands.specs.declared.endings.Ending.TheVariants as endings;

use std::alloc::Global;
use std::sync::{MutexGuard, Wait};
use table_shards::{Audit, Locked, Seat, ShardError, Shards};
use text_commands::Ending;

/// Waits for the lock of a table and takes it.
pub(crate) fn lock<'a, H: Wait>(
    rt: &H,
    shards: &'a Shards,
    table: u64,
) -> Result<MutexGuard<'a, Locked>, Ending>
    ensures early { IfErr result IsEarly }
{
    match shards.cell(table) {
        Some(lock) => Ok(lock.lock(rt)),
        None => Err(Ending::Device),
    }
}

/// Returns how a node ends if a call under a table's lock fails with `error`: with `Memory` if memory ran out, and with `Device`
/// otherwise. `memory` is the table's own error for the former.
pub(crate) fn refused<E: Copy + PartialEq>(error: ShardError<E>, memory: E) -> Ending
    ensures early { IsEarly result }
{
    if error == ShardError::Memory || error == ShardError::Cell(memory) {
        Ending::Memory
    } else {
        Ending::Device
    }
}

/// Takes the tables out of their locks and audits them with these seats.
pub(crate) fn audit_of(alloc: Global, shards: Shards, seats: Vec<Seat>) -> Result<Audit, Ending>
    ensures audit { IfOk result (λ a. Audits a.unlocked a.seats None × (a.seats ≡ seats.items) × (round_of_unlocked a.unlocked ≡ round_of_shards shards)) }
    ensures early { IfErr result (λ ending. (ending ≡ endings.Memory) ⊎ (ending ≡ endings.Device)) }
{
    let Ok(unlocked) = shards.unlock(alloc) else {
        return Err(Ending::Memory);
    };
    match unlocked.audit(seats) {
        Ok(audit) => Ok(audit),
        Err(_) => Err(Ending::Device),
    }
}
