//! Another round with the tables and seats of an audited one.

ghost use Rattle.std.specs.Prelude.{◌≡◌, ◌≤◌, [], IfErr, IfOk, false, length, map};
ghost use Rattle.std.specs.Vec.{vec_capacity};
ghost use Rattle.table_cell.specs.Histories.{begun_anew};
ghost use Rattle.table_cell.specs.Machine.{is_any_out};
ghost use Rattle.table_shards.specs.Anew.{pages_anew, seat_anew};
ghost use Rattle.table_shards.specs.NextRounds.{AreSeatsAnew, HasNoRound, has_batch_out, round_anew};
ghost use Rattle.table_shards.specs.Pages.{page_states};

use crate::errors::RoundError;
use crate::pages::{Page, page_of};
use crate::seat::Seat;
use crate::shards::{Shard, Shards, put_under_lock};
use crate::unlocked::{Audit, UnlockedTable};
use std::alloc::Global;
use table_cell::{Blocks, TableCell};
use table_types::Memory;

/// Returns whether a batch of some open session of some table is out.
fn has_batch_out(tables: &[UnlockedTable]) -> bool
    ensures { result ≡ has_batch_out tables.now }
{
    for table in tables {
        if table.cell.has_batch_out() {
            return true;
        }
    }
    false
}

/// Makes a page for each table, without receipts, and with all its events seen.
#[tactic(auto, using(crate::proofs::NextLaws::one_page_more))]
fn pages_anew(alloc: Global, tables: &[UnlockedTable]) -> Result<Vec<Page>, Memory>
    ensures { IfOk result (λ pages. page_states pages.items ≡ pages_anew tables.now) }
{
    let mut pages = Vec::new(alloc);
    for table in tables {
        if page_of(pages.as_slice(), table.table).is_none() {
            pages.push(Page {
                table: table.table,
                seen: table.cell.events(),
                receipts: Blocks::new(alloc),
            })?;
        }
    }
    Ok(pages)
}

/// Makes the seats of another round, one for each of these.
#[tactic(auto, using(crate::proofs::NextLaws::pages_are))]
fn seats_anew(alloc: Global, tables: &[UnlockedTable], seats: &[Seat]) -> Result<Vec<Seat>, Memory>
    ensures { IfOk result (λ made. made.items ≡ map (λ s. seat_anew tables.now s.number) seats.now) }
{
    let mut made = Vec::new(alloc);
    for seat in seats {
        let pages = pages_anew(alloc, tables)?;
        made.push(Seat::with_pages(alloc, seat.number(), pages))?;
    }
    Ok(made)
}

/// Returns the table with its history begun anew. No batch is out.
fn with_history_anew(cell: TableCell) -> TableCell
    requires { is_any_out cell.state ≡ false }
    ensures { result ≡ begun_anew cell }
{
    let mut cell = cell;
    match cell.checkpoint() {
        Ok(()) => cell,
        Err(_) => unreachable!(),
    }
}

/// Lets the history of each table begin anew, and puts each under a lock, into a list with room for them. No batch is out.
#[tactic(auto, using(crate::proofs::NextLaws::one_locked_anew))]
fn lock_anew(tables: Vec<UnlockedTable>, shards: Vec<Shard>) -> Vec<Shard>
    requires rest { has_batch_out tables.items ≡ false }
    requires none { shards.items ≡ [] }
    requires room { length tables.items ≤ vec_capacity shards }
    ensures { result.items ≡ map (λ t. begun_anew t.cell) tables.items }
{
    let mut done = shards;
    for table in tables {
        done.push_reserved(put_under_lock(with_history_anew(table.cell)));
    }
    done
}

impl Audit {
    /// Begins another round: lets the history of each table begin anew as `TableCell::checkpoint` does, puts each table under a
    /// lock, and returns a seat for each of the audited ones, in their order. It has the same number and no receipts, and has seen
    /// every event. If a batch is out, or memory runs out, returns the audit as it was: no table has changed.
    #[tactic(auto, using(crate::proofs::NextLaws::are_anew))]
    pub fn next_round(self, alloc: Global) -> Result<(Shards, Vec<Seat>), (RoundError, Audit)>
        ensures quiet { IfOk result (λ next. has_batch_out self.unlocked.tables ≡ false) }
        ensures shards { IfOk result (λ next. next.0 ≡ round_anew self.unlocked) }
        ensures seats { IfOk result (λ next. AreSeatsAnew self.unlocked.tables self.seats next.1.items) }
        ensures refused { IfErr result (λ back. HasNoRound self back.0 × (back.1 ≡ self)) }
    {
        if has_batch_out(self.tables()) {
            return Err((RoundError::BatchOut, self));
        }
        let Ok(seats) = seats_anew(alloc, self.tables(), self.seats()) else {
            return Err((RoundError::Memory, self));
        };
        let Ok(shards) = Vec::with_capacity(alloc, self.tables().len()) else {
            return Err((RoundError::Memory, self));
        };
        let (most, tables) = self.into_tables();
        Ok((Shards::of(most, lock_anew(tables, shards)), seats))
    }
}
