//! What a node prints after several sessions.

ghost use Rattle.std.specs.Prelude.{◌≡◌, ◌⊎◌, IfErr, IfOk, IfSome, map, sum_by};
ghost use Rattle.text_commands.specs.declared.endings.Ending.TheVariants as endings;
ghost use Rattle.node_commands.specs.Sharing.{IsTotal, ending_of, is_done};

use crate::node::auditing::audited;
use crate::node::loading::NodeTables;
use crate::node::sharing::Served;
use crate::node::{Report, early, is_told};
use crate::printing::shared_text;
use std::alloc::Global;
use table_shards::Seat;
use table_types::Memory;
use text_commands::Ending;

/// Returns how many turns the sessions made together, or `None` if there are 2^64 or more.
fn turns_of(all: &[Served]) -> Option<u64>
    ensures { IfSome result (λ turns. turns ≡ sum_by (λ one. one.played.turns) all.now) }
{
    let mut turns = 0u64;
    for one in all {
        turns = turns.checked_add(u64::from(one.played.turns))?;
    }
    Some(turns)
}

/// Returns whether a session ended well.
fn is_done(ending: Ending) -> bool
    ensures { result ≡ is_done ending }
{
    matches!(ending, Ending::Done)
}

/// Returns how the first session ended that didn't end well, or `Done` if there is none.
fn ending_of(all: &[Served]) -> Ending
    ensures { result ≡ ending_of (map (λ one. one.played.ending) all.now) }
{
    for one in all {
        if !is_done(one.played.ending) {
            return one.played.ending;
        }
    }
    Ending::Done
}

/// Returns the seats of the sessions.
#[tactic(auto, using(crate::proofs::SharingLaws::one_seat))]
fn seats_of(alloc: Global, all: Vec<Served>) -> Result<Vec<Seat>, Memory>
    ensures { IfOk result (λ seats. seats.items ≡ map (λ one. one.worker.seat) all.items) }
{
    let mut seats = Vec::with_capacity(alloc, all.len())?;
    for one in all {
        let worker = one.worker;
        seats.push(worker.seat)?;
    }
    Ok(seats)
}

/// Audits the tables, and makes the report of sessions that are over. It has the ending of the first one that didn't end well. Fails
/// with `Memory` if memory ran out in that one or runs out, and with `Device` if the audit finds a fault.
pub(crate) fn total_of(
    alloc: Global,
    tables: NodeTables,
    all: Vec<Served>,
) -> Result<Report, Ending>
    ensures total { IfOk result (λ report. IsTotal tables all.items report.ending report.text.items) }
    ensures early { IfErr result (λ ending. (ending ≡ endings.Memory) ⊎ (ending ≡ endings.Device)) }
{
    let ending = ending_of(all.as_slice());
    if !is_told(ending) {
        return Err(early(ending));
    }
    let Some(turns) = turns_of(all.as_slice()) else {
        return Err(Ending::Device);
    };
    let seats = seats_of(alloc, all)?;
    let audit = audited(alloc, tables, seats)?;
    let text = shared_text(alloc, turns, audit.tables())?;
    let line = ending.line(alloc)?;
    Ok(Report { text, ending, line })
}
