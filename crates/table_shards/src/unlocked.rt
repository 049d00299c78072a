//! Tables that were taken out of their locks, and the audit of a round.

ghost use Rattle.std.specs.Prelude.{◌≡◌, ◌∷◌, ◌++◌, [], List, IfErr, IfOk, IsTrue, None, Some};
ghost use Rattle.table_shards.specs.declared.unlocked.UnlockedTable.{UnlockedTable};
ghost use Rattle.table_shards.specs.Audits.{Audits, Faults, Finds, IsLegal, UnlockedState, is_intact, lesser_fault};

use crate::comparing::compare;
use crate::errors::AuditError;
use crate::roll::are_seats;
use crate::seat::Seat;
use std::marker::Model;
use table_cell::TableCell;

/// A table that was taken out of its lock. The contents of two locks may have been swapped, so the cell may be another
/// table's.
#[derive(Drop)]
pub struct UnlockedTable {
    /// The table's id.
    pub table: u64,
    /// How many events it had when the round began.
    pub began: u64,
    /// How often its rows had got new numbers when the round began.
    pub renewals: u64,
    /// The contents of its lock.
    pub cell: TableCell,
}

/// Tables that were taken out of their locks.
#[derive(Drop)]
pub struct Unlocked {
    seats: u32,
    tables: Vec<UnlockedTable>,
}

impl Model for Unlocked {
    ghost use Rattle.table_shards.specs.Audits.{UnlockedState};

    ghost Value = { UnlockedState };

    ghost view = { λ a. record { seats = a.seats; tables = a.tables.items } };
}

/// Tables and seats for which an audit showed that the seats' receipts are the tables' histories.
#[derive(Drop)]
pub struct Audit {
    unlocked: Unlocked,
    seats: Vec<Seat>,
}

impl Model for Audit {
    ghost use Rattle.std.specs.Prelude.{None};
    ghost use Rattle.table_shards.specs.Audits.{AuditState, Audits};

    ghost Value = { AuditState };

    ghost view = { λ a. record { unlocked = a.unlocked; seats = a.seats.items } };

    ghost invariant = { λ a. Audits a.unlocked a.seats.items None };
}

/// Returns whether the cell is the table's own, still has all events of the round, and got no new numbers in it.
fn is_intact(table: &UnlockedTable) -> bool
    ensures intact { result ≡ is_intact table.now }
    ensures legal { IsTrue result → IsLegal table.now.cell }
{
    table.cell.definition().id() == table.table
        && table.cell.dropped() <= table.began
        && table.cell.renewals() == table.renewals
}

/// Returns what is wrong with a table, or `None`: the seat that `AuditError::Mismatch` names.
fn fault_of(table: &UnlockedTable, seats: &[Seat]) -> Option<u32>
    ensures { Finds seats.now table.now result }
{
    if is_intact(table) {
        compare(&table.cell, table.began, seats)
    } else {
        Some(0)
    }
}

/// Returns the fault with the lesser table id, and `least` if the ids are equal.
fn lesser_fault(least: Option<(u64, u32)>, table: u64, seat: u32) -> Option<(u64, u32)>
    ensures { result ≡ lesser_fault least (table, seat) }
{
    match least {
        Some((id, _)) if id <= table => least,
        _ => Some((table, seat)),
    }
}

/// Returns the fault with the least table id so far, after one more table.
fn with_table(
    least: Option<(u64, u32)>,
    table: &UnlockedTable,
    seats: &[Seat],
) -> Option<(u64, u32)>
    ensures { (before : List UnlockedTable) → Faults seats.now before least → Faults seats.now (before ++ table.now ∷ []) result }
{
    match fault_of(table, seats) {
        None => least,
        Some(seat) => lesser_fault(least, table.table, seat),
    }
}

/// Returns the fault with the least table id.
fn first_fault(tables: &[UnlockedTable], seats: &[Seat]) -> Option<(u64, u32)>
    ensures { Faults seats.now tables.now result }
{
    let mut least = None;
    for table in tables {
        least = with_table(least, table, seats);
    }
    least
}

/// Returns what an audit finds wrong with these tables and seats, if `most` seats were made with the tables.
fn audit_error(most: u32, tables: &[UnlockedTable], seats: &[Seat]) -> Option<AuditError>
    ensures { Audits (record { seats = most; tables = tables.now }) seats.now result }
{
    if !are_seats(most, seats) {
        return Some(AuditError::MissingSeat);
    }
    match first_fault(tables, seats) {
        None => None,
        Some((table, seat)) => Some(AuditError::Mismatch { table, seat }),
    }
}

impl Unlocked {
    /// Joins `tables` with the number of seats that were made with them.
    pub(crate) fn of(seats: u32, tables: Vec<UnlockedTable>) -> Unlocked
        ensures { result ≡ record { seats = seats; tables = tables.items } }
    {
        Unlocked { seats, tables }
    }

    /// Returns the tables.
    pub fn tables(&self) -> &[UnlockedTable]
        ensures { result.now ≡ self.now.tables }
    {
        self.tables.as_slice()
    }

    /// Returns what an audit finds wrong, or `None`.
    fn error(&self, seats: &[Seat]) -> Option<AuditError>
        ensures { Audits self.now seats.now result }
    {
        audit_error(self.seats, self.tables.as_slice(), seats)
    }

    /// Audits the round: the seats must be those that were made with the tables, each once, and each event of each
    /// table, from where the round began to the table's number of events, must be the receipt of exactly one seat. No table
    /// may have dropped an event of the round, or have had its rows numbered anew in it. If the audit fails, returns the
    /// tables and the seats with the error. Doesn't allocate. Takes time linear in the number of events and receipts.
    pub fn audit(self, seats: Vec<Seat>) -> Result<Audit, (AuditError, Unlocked, Vec<Seat>)>
        ensures audited { IfOk result (λ audit. (audit ≡ record { unlocked = self; seats = seats.items }) × Audits self seats.items None) }
        ensures refused { IfErr result (λ back. Audits self seats.items (Some back.0) × (back.1 ≡ self) × (back.2 ≡ seats)) }
    {
        match self.error(seats.as_slice()) {
            None => Ok(Audit::of(self, seats)),
            Some(error) => Err((error, self, seats)),
        }
    }
}

impl Audit {
    /// Joins tables and seats of which an audit found nothing wrong.
    fn of(unlocked: Unlocked, seats: Vec<Seat>) -> Audit
        requires { Audits unlocked seats.items None }
        ensures { result ≡ record { unlocked = unlocked; seats = seats.items } }
    {
        Audit { unlocked, seats }
    }

    /// Returns the tables.
    pub fn tables(&self) -> &[UnlockedTable]
        ensures tables { result.now ≡ self.now.unlocked.tables }
        ensures audited { Audits self.now.unlocked self.now.seats None }
    {
        self.unlocked.tables()
    }

    /// Returns the audited seats.
    pub fn seats(&self) -> &[Seat]
        ensures seats { result.now ≡ self.now.seats }
        ensures audited { Audits self.now.unlocked self.now.seats None }
    {
        self.seats.as_slice()
    }

    /// Returns how many seats were made with the tables, and the tables. The seats are dropped.
    pub(crate) fn into_tables(self) -> (u32, Vec<UnlockedTable>)
        ensures { (result.0 ≡ self.unlocked.seats) × (result.1.items ≡ self.unlocked.tables) }
    {
        let Audit { unlocked, seats: _ } = self;
        (unlocked.seats, unlocked.tables)
    }
}
