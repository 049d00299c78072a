//! The tables of a node, and how they are loaded before its sessions begin.

ghost use Rattle.std.specs.Prelude.{◌≡◌, ◌+◌, ◌∷◌, [], IfErr, IfOk, OnOk, flat_map, map};
ghost use Rattle.table_cell.specs.declared.events.CellEvent.TheVariants as events;
ghost use Rattle.table_shards.specs.Receipts.{fresh_seat};
ghost use Rattle.table_shards.specs.Rounds.{fresh_from};
ghost use Rattle.text_commands.specs.Endings.{IsEarly};
ghost use Rattle.table_types.specs.declared.version.Version.TheVariants as versions;
ghost use Rattle.node_commands.specs.Loading.{AreOpened, Gains, learn_of, load_of, loaded_at, loads_of, new_of, opens_of};

use crate::locks::{lock, refused};
use std::alloc::Global;
use std::sync::Wait;
use table_cell::{LearnError, OpenError, TableCell};
use table_shards::held::lent;
use table_shards::{Seat, Shards};
use table_types::{Memory, Moment, Roster, TableDef, Update, Version};
use text_commands::Ending;

/// The number of the first session, in which the rows are loaded.
pub(crate) const SESSION: u32 = 1;

/// The first number that a table assigns.
pub(crate) const FIRST: u32 = 1;

/// The tables of a node: their definitions, the tables under their locks, and the seat from which they were loaded.
#[derive(Drop)]
pub struct NodeTables {
    pub(crate) roster: Roster,
    pub(crate) shards: Shards,
    pub(crate) loader: Seat,
}

/// Makes a new table.
fn new_table(alloc: Global, definition: TableDef) -> Result<TableCell, Memory>
    ensures { IfOk result (λ cell. cell ≡ new_of definition) }
{
    let most = TableCell::MOST_ROWS;
    TableCell::new(alloc, definition, most, false, FIRST)
}

/// Makes a new table of each definition, in order.
fn new_tables(alloc: Global, definitions: &[TableDef]) -> Result<Vec<TableCell>, Memory>
    ensures { IfOk result (λ cells. cells.items ≡ map new_of definitions.now) }
{
    let mut cells = Vec::with_capacity(alloc, definitions.len())?;
    for definition in definitions {
        let cell = new_table(alloc, definition.copy(alloc)?)?;
        cells.push(cell)?;
    }
    Ok(cells)
}

/// Puts the tables under their locks. Makes the seat from which they are loaded, and one for each session. Fails with `Memory` if there
/// are more seats than numbers for them.
#[tactic(auto, using(crate::proofs::LoadingLaws::first_seat))]
fn locked(
    alloc: Global,
    cells: Vec<TableCell>,
    sessions: u32,
) -> Result<(Shards, Seat, Vec<Seat>), Ending>
    ensures shards { IfOk result (λ made. made.0 ≡ record { seats = sessions + 1; cells = cells.items }) }
    ensures first { IfOk result (λ made. made.1 ≡ fresh_seat 1) }
    ensures others { IfOk result (λ made. made.2.items ≡ fresh_from 2 sessions) }
    ensures early { IfErr result IsEarly }
{
    if sessions == u32::MAX {
        return Err(Ending::Memory);
    }
    let (shards, mut seats) = Shards::new(alloc, cells, sessions + 1)?;
    if seats.is_empty() {
        return Err(Ending::Device);
    }
    let first = seats.remove(0);
    Ok((shards, first, seats))
}

/// Opens a session in a table, while it holds the table's lock.
fn open_one<H: Wait>(
    rt: &H,
    shards: &Shards,
    seat: &mut Seat,
    table: u64,
    session: u32,
) -> Result<(), Ending>
    ensures opened { OnOk result (Gains ((table, events.Open session versions.V21) ∷ []) seat.old seat.new) }
    ensures early { IfErr result IsEarly }
{
    let mut locked = lock(rt, shards, table)?;
    match lent::open_session(&mut locked, seat, table, session, Version::V21) {
        Ok(()) => Ok(()),
        Err(error) => Err(refused(error, OpenError::Memory)),
    }
}

/// Opens the sessions 1 to `sessions` in a table.
#[tactic(auto, using(crate::proofs::LoadingLaws::none_opened, crate::proofs::LoadingLaws::one_more_opened))]
fn open_all<H: Wait>(
    rt: &H,
    shards: &Shards,
    seat: &mut Seat,
    table: u64,
    sessions: u32,
) -> Result<(), Ending>
    ensures opened { OnOk result (Gains (opens_of table 1 sessions) seat.old seat.new) }
    ensures early { IfErr result IsEarly }
{
    for before in 0..sessions {
        open_one(rt, shards, seat, table, before + 1)?;
    }
    Ok(())
}

/// Makes a table learn an update, while it holds the table's lock.
fn learn<H: Wait>(
    rt: &H,
    alloc: Global,
    shards: &Shards,
    seat: &mut Seat,
    table: u64,
    update: &Update,
) -> Result<(), Ending>
    ensures learned { OnOk result (Gains ((table, events.Learn 1 update.now loaded_at) ∷ []) seat.old seat.new) }
    ensures early { IfErr result IsEarly }
{
    let own = update.copy(alloc)?;
    let now = Moment::least();
    let mut locked = lock(rt, shards, table)?;
    match lent::learn(&mut locked, seat, table, SESSION, own, now) {
        Ok(()) => Ok(()),
        Err(error) => Err(refused(error, LearnError::Memory)),
    }
}

/// Makes a table learn an update if it is the table's own.
fn learn_own<H: Wait>(
    rt: &H,
    alloc: Global,
    shards: &Shards,
    seat: &mut Seat,
    table: u64,
    update: &Update,
) -> Result<(), Ending>
    ensures learned { OnOk result (Gains (learn_of table update.now) seat.old seat.new) }
    ensures early { IfErr result IsEarly }
{
    if update.table == table {
        learn(rt, alloc, shards, seat, table, update)
    } else {
        Ok(())
    }
}

/// Makes a table learn its own updates among `updates`, in order.
fn learn_all<H: Wait>(
    rt: &H,
    alloc: Global,
    shards: &Shards,
    seat: &mut Seat,
    table: u64,
    updates: &[Update],
) -> Result<(), Ending>
    ensures learned { OnOk result (Gains (flat_map (learn_of table) updates.now) seat.old seat.new) }
    ensures early { IfErr result IsEarly }
{
    for update in updates {
        learn_own(rt, alloc, shards, seat, table, update)?;
    }
    Ok(())
}

/// Opens the sessions in a table, and makes it learn its own updates.
#[tactic(auto, using(crate::proofs::LoadingLaws::gains_more))]
fn load_table<H: Wait>(
    rt: &H,
    alloc: Global,
    shards: &Shards,
    seat: &mut Seat,
    definition: &TableDef,
    updates: &[Update],
    sessions: u32,
) -> Result<(), Ending>
    ensures loaded { OnOk result (Gains (load_of sessions updates.now definition.now) seat.old seat.new) }
    ensures early { IfErr result IsEarly }
{
    let table = definition.id();
    open_all(rt, shards, seat, table, sessions)?;
    learn_all(rt, alloc, shards, seat, table, updates)
}

/// Opens the sessions in each table, and makes it learn its own updates.
fn load<H: Wait>(
    rt: &H,
    alloc: Global,
    shards: &Shards,
    seat: &mut Seat,
    definitions: &[TableDef],
    updates: &[Update],
    sessions: u32,
) -> Result<(), Ending>
    ensures loaded { OnOk result (Gains (loads_of sessions definitions.now updates.now) seat.old seat.new) }
    ensures early { IfErr result IsEarly }
{
    for definition in definitions {
        load_table(rt, alloc, shards, seat, definition, updates, sessions)?;
    }
    Ok(())
}

/// Makes the tables of `roster` and puts them under their locks. The sessions 1 to `sessions` are open in each, and each has learned
/// its own updates among `updates` in session 1. Returns with them the seats of the sessions.
pub(crate) fn opened<H: Wait>(
    rt: &H,
    alloc: Global,
    roster: Roster,
    updates: &[Update],
    sessions: u32,
) -> Result<(NodeTables, Vec<Seat>), Ending>
    ensures tables { IfOk result (λ made. AreOpened sessions roster updates.now made.0) }
    ensures seats { IfOk result (λ made. made.1.items ≡ fresh_from 2 sessions) }
    ensures early { IfErr result IsEarly }
{
    let cells = new_tables(alloc, roster.tables())?;
    let (shards, mut loader, seats) = locked(alloc, cells, sessions)?;
    load(
        rt,
        alloc,
        &shards,
        &mut loader,
        roster.tables(),
        updates,
        sessions,
    )?;
    let tables = NodeTables {
        roster,
        shards,
        loader,
    };
    Ok((tables, seats))
}
