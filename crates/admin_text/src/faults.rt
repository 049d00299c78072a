//! What may be wrong with a configuration.

use crate::line_kinds::LineKind;
use table_types::KeyKind;

/// The most faults that are named.
pub(crate) const MOST_FAULTS: usize = 20;

/// What is wrong with a line. A place is the index of a word in its line, and a line is given by its number.
#[derive(Clone, Copy, Debug, PartialEq, Eq)]
pub enum Fault {
    /// No line begins with the first word.
    Unknown,
    /// The line has too few words or too many.
    Form(LineKind),
    /// An earlier line says the same, and one may.
    Repeated(usize),
    /// The word at a place isn't a name.
    Name(usize, NameFault),
    /// An earlier line gives the name to the node or to a peer.
    Taken(usize),
    /// The word at a place isn't an address with a port.
    Address(usize),
    /// The word isn't a loopback address with a port.
    Local,
    /// What comes behind `unix:` isn't the path of a socket.
    Path(PathFault),
    /// The word at a place isn't a network.
    Network(usize),
    /// The word is neither a level of the log nor `journal`.
    Level,
    /// There are 15 lines of peers before this one.
    Peers,
    /// The table can't be one.
    Table(TableFault),
    /// No earlier line gives the id to a table.
    NoTable,
    /// The word isn't a number of rows.
    Rows,
}

/// What is wrong with a line of a table.
#[derive(Clone, Copy, Debug, PartialEq, Eq)]
pub enum TableFault {
    /// There are 64 lines of tables before this one.
    Many,
    /// The word isn't an id of a table.
    Id,
    /// An earlier line gives the id to a table.
    TakenId(usize),
    /// An earlier line gives the name to a table.
    TakenName(usize),
    /// The word isn't a kind of keys.
    Keys,
    /// The word isn't a length that keys of this kind have.
    Length(KeyKind),
    /// The word isn't a number of milliseconds.
    Expire,
    /// The word at a place isn't a data type that the table may store.
    Stored(usize, TypeFault),
}

/// Why a word isn't a data type that a table may store.
#[derive(Clone, Copy, Debug, PartialEq, Eq)]
pub enum TypeFault {
    /// No data type has its name.
    Unknown,
    /// It is a rate without a period.
    NoPeriod,
    /// It has a period, but isn't a rate.
    Period,
    /// A word before it gives the same data type.
    Repeated,
}

/// Why a text isn't the path of a socket.
#[derive(Clone, Copy, Debug, PartialEq, Eq)]
pub enum PathFault {
    /// It is empty.
    Empty,
    /// It has a NUL.
    Nul,
    /// It has this many bytes, more than 107.
    Long(usize),
}

/// Why a word isn't a name.
#[derive(Clone, Copy, Debug, PartialEq, Eq)]
pub enum NameFault {
    /// It is `-`.
    Dash,
    /// It has a byte outside 33 to 126.
    Bytes,
    /// It has this many bytes, more than 255.
    Long(usize),
}

/// A line that is refused.
#[derive(Clone, Copy, Debug, PartialEq, Eq)]
pub struct FaultyLine {
    /// The number of the line, from 1.
    pub number: usize,
    /// What is wrong with it.
    pub fault: Fault,
}
