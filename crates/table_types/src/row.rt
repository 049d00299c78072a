//! Rows of stick tables.

ghost use Rattle.std.specs.Prelude.{◌≡◌, ◌↔◌, IfOk, IsTrue, map, option_copied, true, false};
ghost use Rattle.table_types.specs.Rows.{cell_of, end_of, row_of};

use crate::key::Key;
use crate::memory::Memory;
use crate::moment::Moment;
use crate::name::Name;
use crate::short_list::ShortList;
use crate::update::{Update, Value};
use std::alloc::Global;
use std::marker::Model;

/// What a row stores for one data type (HAProxy Configuration Manual, stick-table `store`).
#[derive(Clone, Copy, Debug, PartialEq, Eq)]
pub enum Cell {
    /// A count.
    Count(u64),
    /// A rate.
    Rate {
        /// The moment at which the current period began, in milliseconds; it may be below the least `Moment`.
        start: u64,
        /// The count of the current period.
        current: u32,
        /// The count of the previous period.
        previous: u32,
    },
}

/// What a table stores at a key.
#[derive(Debug, Drop)]
pub struct Row {
    number: u32,
    // Fields are laid out in this order, and here the flag fits into padding.
    learned: bool,
    ends: Option<Moment>,
    cells: ShortList<Cell>,
    name: Option<Name>,
}

impl Model for Row {
    ghost use Rattle.table_types.specs.Rows.{StoredRow};

    ghost Value = { StoredRow };

    ghost view = { λ r. record { number = r.number; ends = r.ends; cells = r.cells; name = r.name; learned = r.learned } };
}

impl Cell {
    /// Makes the cell of a value that an update brought at `moment`: a count as it is, and a rate with the moment at
    /// which its current period began.
    pub fn of(value: Value, moment: Moment) -> Cell
        ensures { result ≡ cell_of moment value }
    {
        match value {
            Value::Count(count) => Cell::Count(count),
            Value::Rate {
                elapsed,
                current,
                previous,
            } => Cell::Rate {
                start: moment.milliseconds() - u64::from(elapsed),
                current,
                previous,
            },
        }
    }
}

fn cells_of(alloc: Global, values: &[Value], moment: Moment) -> Result<ShortList<Cell>, Memory>
    ensures { IfOk result (λ cells. cells ≡ map (cell_of moment) values.now) }
{
    let mut cells = ShortList::with_capacity(alloc, values.len())?;
    for value in values {
        cells = cells.with(alloc, Cell::of(*value, moment))?;
    }
    Ok(cells)
}

/// Returns whether both are the same cells, one for one.
pub fn are_same_cells(one: &[Cell], other: &[Cell]) -> bool
    ensures { IsTrue result ↔ (one.now ≡ other.now) }
{
    one == other
}

impl Row {
    /// Makes the row that an update teaches at `moment`, and returns it with its key. Rows of the table expire after
    /// `expire` milliseconds, or never if that is 0.
    ///
    /// The row is marked as learned. It ends after the smaller of the update's life and `expire`, or after `expire` if
    /// the update has no life; it ends at the greatest moment at the latest. A rate's current period began as long ago
    /// as the update says. Fails if memory runs out.
    pub fn learned(
        alloc: Global,
        update: Update,
        expire: u32,
        moment: Moment,
    ) -> Result<(Key, Row), Memory>
        ensures { IfOk result (λ pair. (pair.0 ≡ update.key) × (pair.1 ≡ row_of moment expire update)) }
    {
        let cells = cells_of(alloc, update.values.as_slice(), moment)?;
        let Update {
            number,
            life,
            key,
            name,
            ..
        } = update;
        let ends = Row::end(life, expire, moment);
        Ok((key, Row::learned_with(number, ends, cells, name)))
    }

    /// Makes the row that an update teaches at `moment`, as `Row::learned` does, but with a number of this node's own.
    pub fn learned_as(
        alloc: Global,
        update: &Update,
        number: u32,
        expire: u32,
        moment: Moment,
    ) -> Result<Row, Memory>
        ensures { IfOk result (λ row. row ≡ row_of moment expire (record update.now { number = number })) }
    {
        let cells = cells_of(alloc, update.values.as_slice(), moment)?;
        let name = Name::copy_of(alloc, &update.name)?;
        let ends = Row::end(update.life, expire, moment);
        Ok(Row::learned_with(number, ends, cells, name))
    }

    /// Returns when a row ends that an update with this life, in milliseconds, teaches at `moment`, in a table whose
    /// rows expire after `expire` milliseconds. `None` if `expire` is 0: the row never ends.
    pub fn end(life: Option<u32>, expire: u32, moment: Moment) -> Option<Moment>
        ensures { result ≡ end_of moment expire life }
    {
        if expire == 0 {
            return None;
        }
        match life {
            Some(life) if life < expire => Some(moment.later_by(life)),
            _ => Some(moment.later_by(expire)),
        }
    }

    /// Makes a learned row of its parts.
    pub fn learned_with(
        number: u32,
        ends: Option<Moment>,
        cells: ShortList<Cell>,
        name: Option<Name>,
    ) -> Row
        ensures { result ≡ record { number = number; ends = ends; cells = cells; name = name; learned = true } }
    {
        Row {
            number,
            learned: true,
            ends,
            cells,
            name,
        }
    }

    /// Makes a row of this node's own of its parts.
    pub(crate) fn local_with(
        number: u32,
        ends: Option<Moment>,
        cells: ShortList<Cell>,
        name: Option<Name>,
    ) -> Row
        ensures { result ≡ record { number = number; ends = ends; cells = cells; name = name; learned = false } }
    {
        Row {
            number,
            learned: false,
            ends,
            cells,
            name,
        }
    }

    /// Returns the number of the row's last update.
    pub fn number(&self) -> u32
        ensures { result ≡ self.now.number }
    {
        self.number
    }

    /// Returns the moment at which the row ends, or `None` if it lives forever.
    pub fn ends(&self) -> Option<Moment>
        ensures { result ≡ self.now.ends }
    {
        self.ends
    }

    /// Returns the cell of each data type of the table except the server's name, in ascending order of id.
    pub fn cells(&self) -> &[Cell]
        ensures { result.now ≡ self.now.cells }
    {
        self.cells.as_slice()
    }

    /// Returns the server's name, if the table stores one and the row has one.
    pub fn name(&self) -> Option<&Name>
        ensures { option_copied result ≡ self.now.name }
    {
        self.name.as_ref()
    }

    /// Returns whether the row was learned from a peer, and so isn't this node's own.
    pub fn is_learned(&self) -> bool
        ensures { result ≡ self.now.learned }
    {
        self.learned
    }

    /// Returns whether both are the same row, part for part.
    pub fn is_same(&self, other: &Row) -> bool
        ensures { IsTrue result ↔ (self.now ≡ other.now) }
    {
        self.number == other.number
            && self.learned == other.learned
            && self.ends == other.ends
            && are_same_cells(self.cells.as_slice(), other.cells.as_slice())
            && Name::are_same(&self.name, &other.name)
    }

    /// Returns a copy that is equal but for its number. Fails if memory runs out.
    pub fn copy_as(&self, alloc: Global, number: u32) -> Result<Row, Memory>
        ensures { IfOk result (λ copy. copy ≡ record self.now { number = number }) }
    {
        let name = Name::copy_of(alloc, &self.name)?;
        Ok(Row {
            number,
            ends: self.ends,
            cells: self.cells.copy(alloc)?,
            name,
            learned: self.learned,
        })
    }

    /// Returns an equal copy. Fails if memory runs out.
    pub fn copy(&self, alloc: Global) -> Result<Row, Memory>
        ensures { IfOk result (λ copy. copy ≡ self.now) }
    {
        let name = Name::copy_of(alloc, &self.name)?;
        Ok(Row {
            number: self.number,
            ends: self.ends,
            cells: self.cells.copy(alloc)?,
            name,
            learned: self.learned,
        })
    }
}
