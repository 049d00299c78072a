//! An intake with the rows of its local tables.

ghost use Rattle.std.specs.Prelude.{◌≡◌, ◌↔◌, ◌<◌, ◌≤◌, ℕ, List, [], IfOk, OnOk, OnErr, IsNone, IfSome, Some, None, length, map, option_copied, option_map};
ghost use Rattle.table_types.specs.declared.update.Update.{Update};
ghost use Rattle.table_types.specs.Rosters.{table_at};
ghost use Rattle.table_types.specs.Rows.{cell_of, row_of};
ghost use Rattle.learner.specs.Acks.{AreRisingAcks};
ghost use Rattle.learner.specs.Intake.{due_acks, rows_of};
ghost use Rattle.learner.specs.Rows.{row_at, rows_at, index_of, put_all};
ghost use Rattle.learner.specs.Front.{owned, with_effect};
ghost use Rattle.learner.specs.NewRows.{AreRowsOf, IsRowOf};
ghost use Rattle.learner.specs.Learning.{unlearned};
ghost use Rattle.learner.specs.InPlace.{FindsFront, LearnsFront, LearnsWhole};

use crate::advance::Advance;
use crate::fault::Fault;
use crate::intake::Intake;
use crate::learned::Learned;
use crate::table_rows::TableRows;
use crate::taken::{LocalUpdateRef, TakenRef};
use known_state::Effect;
use peers_msg::{Message, ValuesRef};
use std::alloc::Global;
use std::collections::BTreeMap;
use std::marker::Model;
use table_types::{Cell, Key, Memory, Moment, Roster, Row, ShortList, TableDef};

/// An intake with the rows of its local tables. It reads messages where they are and holds no bytes.
#[derive(Drop)]
pub struct Keeper {
    alloc: Global,
    intake: Intake,
    /// One for each table of the roster, in its order.
    rows_of_tables: Vec<TableRows>,
}

impl Model for Keeper {
    ghost use Rattle.std.specs.Prelude.{◌≡◌, length};
    ghost use Rattle.learner.specs.Learning.{Learning};

    ghost Value = { Learning };

    ghost view = { λ l. record { intake = l.intake; rows = l.rows_of_tables.items } };

    ghost invariant = { λ l. length l.rows_of_tables.items ≡ length l.intake.roster };
}

/// Returns the table of `id`, with its index.
fn find(tables: &[TableDef], id: u64) -> Option<(usize, &TableDef)>
    ensures index { option_map (λ found. found.0) result ≡ index_of tables.now id }
    ensures table { option_map (λ found. found.1.now) result ≡ table_at tables.now id }
{
    for (index, table) in tables.iter().enumerate() {
        if table.id() == id {
            return Some((index, table));
        }
    }
    None
}

/// Returns the index of the table of `id`.
fn index_of(tables: &[TableDef], id: u64) -> Option<usize>
    ensures { result ≡ index_of tables.now id }
{
    match find(tables, id) {
        Some((index, _)) => Some(index),
        None => None,
    }
}

/// Returns the cells of a row that an update with `values` teaches at `now`.
fn cells_of(
    alloc: Global,
    mut values: ValuesRef<'_>,
    now: Moment,
) -> Result<ShortList<Cell>, Memory>
    ensures { IfOk result (λ cells. cells ≡ map (cell_of now) values.entry) }
{
    let mut cells = ShortList::with_capacity(alloc, values.len())?;
    while let Some(value) = values.next() {
        cells = cells.with(alloc, Cell::of(value, now))?;
    }
    Ok(cells)
}

/// Returns the row that an update teaches at `now`, with its key, in a table whose rows expire after `expire`.
fn learned(
    alloc: Global,
    update: &LocalUpdateRef<'_>,
    expire: u32,
    now: Moment,
) -> Result<(Key, Row), Memory>
    ensures { IfOk result (λ pair. (pair.0 ≡ update.now.key) × (pair.1 ≡ row_of now expire update.now)) }
{
    let cells = cells_of(alloc, update.values(), now)?;
    let name = update.name(alloc)?;
    let key = update.key().to_owned(alloc)?;
    let ends = Row::end(update.life(), expire, now);
    Ok((key, Row::learned_with(update.number(), ends, cells, name)))
}

/// A row to be put in the table at `index`.
#[derive(Debug, Drop)]
struct NewRow {
    index: usize,
    key: Key,
    row: Row,
}

/// Returns the row that an update teaches at `now`; `None` if no table has its id.
fn new_row(
    alloc: Global,
    tables: &[TableDef],
    update: &LocalUpdateRef<'_>,
    now: Moment,
) -> Result<Option<NewRow>, Memory>
    ensures { IfOk result (λ row. IsRowOf now tables.now update.now row) }
{
    let Some((index, table)) = find(tables, update.table()) else {
        return Ok(None);
    };
    let (key, row) = learned(alloc, update, table.expire(), now)?;
    Ok(Some(NewRow { index, key, row }))
}

/// Returns the row that `taken` teaches at `now`, if it is an update of a local table.
fn taught(
    alloc: Global,
    tables: &[TableDef],
    taken: &TakenRef<'_>,
    now: Moment,
) -> Result<Option<NewRow>, Memory>
    ensures { IfOk result (λ row. AreRowsOf now tables.now (rows_of (owned taken.now)) row) }
{
    match taken {
        TakenRef::Row(update) => new_row(alloc, tables, update, now),
        TakenRef::Passed
        | TakenRef::Said(_)
        | TakenRef::Failed(_)
        | TakenRef::Acked {
            table: _,
            number: _,
        } => Ok(None),
    }
}

impl Keeper {
    /// Returns a keeper for the roster's tables that has read nothing and has no rows.
    pub fn new(alloc: Global, roster: Roster) -> Result<Keeper, Memory>
        ensures { IfOk result (λ keeper. keeper ≡ unlearned roster) }
    {
        let mut rows_of_tables = Vec::with_capacity(alloc, roster.tables().len())?;
        for _ in roster.tables() {
            rows_of_tables.push(TableRows::new(alloc))?;
        }
        Ok(Keeper {
            alloc,
            intake: Intake::new(alloc, roster),
            rows_of_tables,
        })
    }

    /// Returns the intake.
    pub fn intake(&self) -> &Intake
        ensures { result.now ≡ self.now.intake }
    {
        &self.intake
    }

    /// Takes the whole messages in `bytes`. A fault closes the intake.
    pub fn learn_all(&mut self, bytes: &[u8], now: Moment) -> Result<Learned, Fault>
        ensures learns { LearnsWhole now self.old bytes.now result self.new }
        ensures within { IfOk result (λ progress. (progress.rows ≤ progress.used) × (progress.used ≤ length bytes.now)) }
    {
        let mut count = 0;
        let mut used = 0;
        while let Some(progress) = self.learn_message(&bytes[used..], now)? {
            count += progress.rows;
            used += progress.used;
        }
        Ok(Learned { rows: count, used })
    }

    /// Takes the message at the front of `bytes`; `None` if it isn't whole yet. A fault closes the intake.
    pub fn learn_message(&mut self, bytes: &[u8], now: Moment) -> Result<Option<Learned>, Fault>
        ensures learns { LearnsFront now self.old bytes.now result self.new }
        ensures within { IfOk result (λ found. IfSome found (λ progress. (progress.rows ≤ 1) × (1 ≤ progress.used) × (progress.used ≤ length bytes.now))) }
    {
        match self.take_message(bytes, now) {
            Ok(found) => Ok(found),
            Err(fault) => {
                self.intake.close();
                Err(fault)
            }
        }
    }

    /// Takes the message at the front of `bytes`; `None` if it isn't whole yet. After a fault nothing has changed.
    fn take_message(&mut self, bytes: &[u8], now: Moment) -> Result<Option<Learned>, Fault>
        ensures finds { FindsFront now self.old bytes.now result self.new }
        ensures within { IfOk result (λ found. IfSome found (λ progress. (progress.rows ≤ 1) × (1 ≤ progress.used) × (progress.used ≤ length bytes.now))) }
    {
        match self.intake.look_at(bytes) {
            Ok(Some((taken, advance))) => {
                let rows = taken.rows();
                let row = taught(self.alloc, self.intake.roster().tables(), &taken, now)?;
                let Advance { effect, used } = advance;
                self.take(effect, row)?;
                Ok(Some(Learned { rows, used }))
            }
            Ok(None) => Ok(None),
            Err(fault) => Err(fault),
        }
    }

    /// Applies `effect`, and puts `row` in its table, if there is one. After `Memory` nothing has changed.
    fn take(&mut self, effect: Effect, row: Option<NewRow>) -> Result<(), Memory>
        requires { IfSome row (λ row. row.index < length self.old.intake.roster) }
        ensures taken { OnOk result ((us : List Update) (now : ℕ) → AreRowsOf now self.old.intake.roster us row →
            self.new ≡ record { intake = with_effect self.old.intake effect; rows = put_all now self.old.intake.roster us self.old.rows }) }
        ensures stays { OnErr result (self.new ≡ self.old) }
    {
        match row {
            Some(row) => self.take_row(effect, row.index, row.key, row.row),
            None => self.intake.make(effect),
        }
    }

    fn take_row(&mut self, effect: Effect, index: usize, key: Key, row: Row) -> Result<(), Memory>
        requires { index < length self.old.intake.roster }
        ensures taken { OnOk result ((us : List Update) (now : ℕ) → AreRowsOf now self.old.intake.roster us (Some (record { index = index; key = key; row = row })) →
            self.new ≡ record { intake = with_effect self.old.intake effect; rows = put_all now self.old.intake.roster us self.old.rows }) }
        ensures stays { OnErr result (self.new ≡ self.old) }
    {
        self.rows_of_tables[index].put(key, row, &mut self.intake, effect)
    }

    /// Returns the acknowledgements that are due, as `Intake::acks` does.
    pub fn acks(&mut self) -> Result<Vec<Message>, Memory>
        ensures due { IfOk result (λ acks. acks.items ≡ due_acks self.old.intake) }
        ensures rising { IfOk result (λ acks. AreRisingAcks acks.items) }
        ensures done { OnOk result (self.new ≡ record self.old { intake = record self.old.intake { due = [] } }) }
        ensures stays { OnErr result (self.new ≡ self.old) }
    {
        self.intake.acks()
    }

    /// Returns the row of `key` in the local table with the id `table`.
    pub fn row(&self, table: u64, key: &Key) -> Option<&Row>
        ensures { option_copied result ≡ row_at key.now (rows_at self.now.intake.roster table self.now.rows) }
    {
        match index_of(self.intake.roster().tables(), table) {
            Some(index) => self.rows_of_tables[index].row(key),
            None => None,
        }
    }

    /// Returns the rows of the local table with the id `table` by their keys; `None` if the roster lacks it.
    pub fn table(&self, table: u64) -> Option<&BTreeMap<Key, Row>>
        ensures rows { IfSome result (λ rows. rows.now.entries ≡ rows_at self.now.intake.roster table self.now.rows) }
        ensures exactly { IsNone result ↔ (index_of self.now.intake.roster table ≡ None) }
        ensures absent { IsNone result → rows_at self.now.intake.roster table self.now.rows ≡ [] }
    {
        match index_of(self.intake.roster().tables(), table) {
            Some(index) => Some(self.rows_of_tables[index].rows()),
            None => None,
        }
    }
}
