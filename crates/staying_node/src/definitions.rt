//! How a peer defines its tables, compared with how this node does.

use crate::sessions::Place;
use admin_port::push_side;
use node_core::{Defining, Difference, PeerEvent, ResyncEnd, SaidNames, TableShape};
use node_rules::{Found, LookTimes, TableFinding, found_of};
use std::alloc::{AllocError, Global};
use std::sync::Wait;
use std::time::Clock;
use table_types::{TableDef, is_same_name};
use tolerant_intake::Reader;

/// What was found of how a peer defines tables, in all its sessions, and what the log has said of it.
#[derive(Drop)]
pub(crate) struct SaidOfTables {
    /// What was found of each table of this node, in ascending order of id.
    tables: Vec<TableFinding>,
    /// The names of tables that this node lacks.
    unshared: SaidNames,
}

impl SaidOfTables {
    /// Returns what was found and said at first: nothing.
    pub(crate) fn new(alloc: Global) -> SaidOfTables {
        SaidOfTables {
            tables: Vec::new(alloc),
            unshared: SaidNames::new(alloc),
        }
    }

    /// Returns how many tables of this node the peer hasn't defined, although it would have.
    fn count_undefined(&self) -> u64 {
        let mut count = 0u64;
        for table in &self.tables {
            if table.is_undefined() {
                count = count.saturating_add(1);
            }
        }
        count
    }
}

/// What a look at a peer's tables finds.
#[derive(Drop)]
struct Findings {
    /// What differs in each table of this node, in ascending order of id.
    differences: Vec<Option<Difference>>,
    /// How many tables the peer has defined that this node lacks.
    unshared: u64,
    /// How many of this node's tables the peer hadn't defined on this session or one before, although it would have, and hasn't since.
    undefined: u64,
}

/// The comparison of a peer's tables on a connection with this node's.
#[derive(Drop)]
pub(crate) struct Comparison {
    defining: Defining,
    times: LookTimes,
}

impl Comparison {
    /// Returns the comparison on a connection that begins.
    pub(crate) fn new() -> Comparison {
        Comparison {
            defining: Defining::new(),
            times: LookTimes::new(),
        }
    }

    /// Notes that a resync has ended that the peer taught.
    pub(crate) fn end_resync(&mut self, now: u64, end: ResyncEnd) {
        self.defining.end_resync(now, end);
    }

    /// Looks at what the peer has defined, if that is due: notes what differs, and has the log say what it hasn't said of it. `under_way` says
    /// whether the node has asked the peer for all rows on this connection, and the peer hasn't ended that resync.
    pub(crate) fn look<N: Wait + Clock>(
        &mut self,
        place: &Place<'_, N>,
        reader: &Reader,
        under_way: bool,
    ) {
        let now = place.node.clock.milliseconds(place.rt);
        let count = reader.received().count();
        if !self.times.look(count, now) {
            return;
        }
        if count > 0 {
            self.defining.define(now);
        }
        let look = Look {
            place,
            reader,
            all_defined: self.defining.are_all_defined(now),
            under_way,
        };
        let mut said = place.slot.said_of_tables(place.rt);
        let compared = look.compare(&mut said);
        drop(said);
        if let Ok(findings) = compared {
            let mut status = place.slot.status(place.rt);
            status.differences = findings.differences;
            status.unshared = findings.unshared;
            status.undefined = findings.undefined;
        }
    }
}

/// Returns how a peer defines the table with this name, if it has defined it.
fn shape_of<'a>(name: &[u8], reader: &'a Reader) -> Option<TableShape<'a>> {
    let table = reader.received().named(name)?;
    Some(match reader.loose(table.id()) {
        Some(loose) => TableShape::new(
            loose.kind,
            loose.key_length,
            loose.types.as_slice(),
            loose.further,
        ),
        None => TableShape::of(table),
    })
}

/// Returns whether a peer has defined all these tables of this node, each as the node does.
pub(crate) fn are_alike(tables: &[TableDef], reader: &Reader) -> bool {
    tables.iter().all(|table| match shape_of(table.name(), reader) {
        Some(theirs) => TableShape::of(table).difference(&theirs).is_none(),
        None => false,
    })
}

/// Returns the name of the first table that the peer has defined and this node can't have, by the peer's ids, and whether it stores data
/// types from 20 up.
pub(crate) fn first_passed_over(reader: &Reader) -> Option<(&[u8], bool)> {
    let received = reader.received();
    let mut id = 0;
    for _ in 0..received.count() {
        let table = received.table_above(id)?;
        id = table.id();
        if let Some(loose) = reader.loose(id) {
            return Some((table.name(), loose.further));
        }
    }
    None
}

/// A look at what a peer has defined.
#[derive(Drop)]
struct Look<'a, N> {
    place: &'a Place<'a, N>,
    reader: &'a Reader,
    /// Whether the peer has defined all tables that it will.
    all_defined: bool,
    /// Whether the node has asked the peer for all rows on this connection, and the peer hasn't ended that resync.
    under_way: bool,
}

impl<'a, N: Wait + Clock> Look<'a, N> {
    /// Returns what there is to be found, and has the log say what is news.
    fn compare(&self, said: &mut SaidOfTables) -> Result<Findings, AllocError> {
        let node = self.place.node;
        let mut differences = Vec::new(node.alloc);
        for (index, table) in node.roster.tables().iter().enumerate() {
            if said.tables.len() <= index {
                said.tables.push(TableFinding::new())?;
            }
            let difference = match said.tables.get_mut(index) {
                Some(found) => self.compare_table(table, found)?,
                None => None,
            };
            differences.push(difference)?;
        }
        Ok(Findings {
            differences,
            unshared: self.look_for_unshared(&mut said.unshared)?,
            undefined: said.count_undefined(),
        })
    }

    /// Returns whether the log has room for the line of an event. If not, a later look has it say that.
    fn has_room(&self, event: &PeerEvent<'_>) -> bool {
        let place = self.place;
        place.node.log.has_room(place.rt, place.peer, event)
    }

    /// Adds a line about the peer to the log.
    fn log(&self, event: PeerEvent<'_>) {
        let place = self.place;
        place.node.log_peer_event(place.rt, place.peer, event);
    }

    /// Returns what differs in a table, and has the log say that, or that the peer hasn't defined the table, if it is news.
    fn compare_table(
        &self,
        table: &TableDef,
        finding: &mut TableFinding,
    ) -> Result<Option<Difference>, AllocError> {
        let own = TableShape::of(table);
        let theirs = shape_of(table.name(), self.reader);
        let difference = match &theirs {
            Some(theirs) => own.difference(theirs),
            None => None,
        };
        let found = found_of(theirs.is_some(), difference.is_some(), self.all_defined);
        let has_room = if found == Found::Alike && !finding.is_silent() {
            self.say_alike(table.name())
        } else {
            true
        };
        finding.note(found, has_room);
        match (&theirs, difference) {
            (Some(theirs), Some(difference)) => {
                self.say_difference(table.name(), difference, &own, theirs, finding)?
            }
            _ if found == Found::Undefined => self.say_undefined(table.name(), finding)?,
            _ => {}
        }
        Ok(difference)
    }

    /// Has the log say that the peer defines a table as this node does, if it has room for that. Returns whether it had.
    fn say_alike(&self, table: &[u8]) -> bool {
        let under_way = self.under_way;
        let event = PeerEvent::Alike { table, under_way };
        let has_room = self.has_room(&event);
        if has_room {
            self.log(event);
        }
        has_room
    }

    /// Has the log say that the peer hasn't defined a table, if that is news.
    fn say_undefined(&self, table: &[u8], finding: &mut TableFinding) -> Result<(), AllocError> {
        let event = PeerEvent::Undefined { table };
        let has_room = self.has_room(&event);
        if finding.is_news(self.place.node.alloc, b"undefined", has_room)? {
            self.log(event);
        }
        Ok(())
    }

    /// Has the log say how the peer defines a table, and how this node does, if that is news.
    fn say_difference(
        &self,
        table: &[u8],
        difference: Difference,
        own: &TableShape<'_>,
        theirs: &TableShape<'_>,
        finding: &mut TableFinding,
    ) -> Result<(), AllocError> {
        let alloc = self.place.node.alloc;
        let mut ours = Vec::new(alloc);
        push_side(alloc, &mut ours, difference, own, theirs)?;
        let mut its = Vec::new(alloc);
        push_side(alloc, &mut its, difference, theirs, own)?;
        let event = PeerEvent::Mismatch {
            table,
            difference,
            theirs: its.as_slice(),
            ours: ours.as_slice(),
        };
        let has_room = self.has_room(&event);
        if finding.is_news(alloc, its.as_slice(), has_room)? {
            self.log(event);
        }
        Ok(())
    }

    /// Returns whether this node has a table with this name.
    fn is_shared(&self, name: &[u8]) -> bool {
        let tables = self.place.node.roster.tables();
        tables.iter().any(|table| is_same_name(table.name(), name))
    }

    /// Returns how many tables the peer has defined that this node lacks, and has the log say which of these it could have, each once.
    fn look_for_unshared(&self, said: &mut SaidNames) -> Result<u64, AllocError> {
        let received = self.reader.received();
        let mut count = 0u64;
        let mut id = 0;
        for _ in 0..received.count() {
            let Some(table) = received.table_above(id) else {
                break;
            };
            id = table.id();
            if !self.is_shared(table.name()) {
                count = count.saturating_add(1);
                if self.reader.loose(id).is_none() {
                    self.say_unshared(table.name(), said)?;
                }
            }
        }
        Ok(count)
    }

    /// Has the log say that this node lacks a table that the peer has defined, if that is news.
    fn say_unshared(&self, table: &[u8], said: &mut SaidNames) -> Result<(), AllocError> {
        let event = PeerEvent::Unshared { table };
        if self.has_room(&event) && said.is_news(self.place.node.alloc, table)? {
            self.log(event);
        }
        Ok(())
    }
}
