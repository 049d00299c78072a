//! The steps of a world, one function each.

ghost use Rattle.std.specs.Prelude.{◌≡◌, ◌≤◌, ◌<◌, ◌^◌, ℕ, OnOk};
ghost use Rattle.std.specs.Bool.{OnTrue};
ghost use Rattle.interleave_core.specs.declared.step.Step.TheVariants as steps;
ghost use Rattle.interleave_core.specs.declared.way.Way.TheVariants as ways;
ghost use Rattle.interleave_core.specs.Kept.{AreOnTrack};
ghost use Rattle.interleave_core.specs.Moves.{Moves, is_made};
ghost use Rattle.interleave_core.specs.Parts.{world_of};
ghost use Rattle.interleave_core.specs.Opened.{IsInOrder, IsOpenWorld};
ghost use Rattle.interleave_core.specs.SoundWorlds.{IsTimelyStep};

use crate::acks::{are_taken, make_each, read_acks};
use crate::cells::{
    copy, has_room_for, index_of, is_any_out, learn, purge, reopen_in_each, roster_of, track,
};
use crate::connection::{Connection, index_of as connection_index};
use crate::step::Step;
use crate::way::Way;
use std::alloc::Global;
use table_cell::TableCell;
use table_types::{Batch, Change, CopyKind, Key, Memory, Moment, Update};

/// What a world has.
#[derive(Drop)]
pub(crate) struct Parts {
    pub(crate) alloc: Global,
    pub(crate) cells: Vec<TableCell>,
    /// The connections of the sessions 1, 2 and so on.
    pub(crate) connections: Vec<Connection>,
}

/// Returns whether a world makes this copy: one of 1 to 4,096 rows, and no standing resync.
fn is_made(kind: CopyKind, limit: usize) -> bool
    ensures exactly { result ≡ is_made kind limit }
    ensures limits { OnTrue result ((1 ≤ limit) × (limit ≤ 4096)) }
{
    match kind {
        CopyKind::Push | CopyKind::Resync => 1 <= limit && limit <= Batch::MOST,
        CopyKind::Standing => false,
    }
}

impl Parts {
    /// Makes one step. A step that can't be made changes nothing.
    pub(crate) fn make(&mut self, step: &Step) -> Result<(), Memory>
        requires order { IsInOrder (world_of self.old) }
        ensures moves { OnOk result (Moves (world_of self.old) step.now (world_of self.new)) }
        ensures timely { IsTimelyStep step.now }
    {
        match step {
            Step::Track {
                table,
                key,
                change,
                moment,
            } => self.track(*table, key, change, *moment),
            Step::Learn {
                session,
                update,
                moment,
            } => self.learn(*session, update, *moment),
            Step::Copy {
                session,
                table,
                kind,
                limit,
                moment,
            } => self.copy(*session, *table, *kind, *limit, *moment),
            Step::Teach { session } => self.teach(*session),
            Step::Deliver {
                session,
                way,
                count,
                moment,
            } => match way {
                Way::ToLearner => self.deliver_to_learner(*session, *count, *moment),
                Way::ToTeacher => self.deliver_to_teacher(*session, *count),
            },
            Step::Ack { session } => self.acknowledge(*session),
            Step::Break { session } => self.break_off(*session),
            Step::Reopen { session } => self.reopen(*session),
            Step::Purge { table, moment } => self.purge(*table, *moment),
        }
    }

    fn track(&mut self, table: u64, key: &Key, change: &Change, now: Moment) -> Result<(), Memory>
        ensures moves { OnOk result (Moves (world_of self.old) (steps.Track table key.now change.now now) (world_of self.new)) }
        ensures timely { now < 2 ^ 63 }
    {
        track(self.alloc, &mut self.cells, table, key, change, now)
    }

    fn learn(&mut self, session: u32, update: &Update, now: Moment) -> Result<(), Memory>
        ensures moves { OnOk result (Moves (world_of self.old) (steps.Learn session update.now now) (world_of self.new)) }
        ensures timely { now < 2 ^ 63 }
    {
        match connection_index(self.connections.as_slice(), session) {
            Some(_) => learn(self.alloc, &mut self.cells, session, update, now),
            None => Ok(()),
        }
    }

    fn purge(&mut self, table: u64, now: Moment) -> Result<(), Memory>
        ensures moves { OnOk result (Moves (world_of self.old) (steps.Purge table now) (world_of self.new)) }
        ensures timely { now < 2 ^ 63 }
    {
        purge(&mut self.cells, table, now)
    }

    fn copy(
        &mut self,
        session: u32,
        table: u64,
        kind: CopyKind,
        limit: usize,
        now: Moment,
    ) -> Result<(), Memory>
        ensures moves { OnOk result (Moves (world_of self.old) (steps.Copy session table kind limit now) (world_of self.new)) }
        ensures timely { now < 2 ^ 63 }
    {
        if !is_made(kind, limit) {
            return Ok(());
        }
        let Some(place) = connection_index(self.connections.as_slice(), session) else {
            return Ok(());
        };
        let Some(index) = index_of(self.cells.as_slice(), table) else {
            return Ok(());
        };
        match copy(&mut self.cells[index], session, kind, limit, now)? {
            Some(batch) => self.connections[place].let_wait(batch),
            None => Ok(()),
        }
    }

    fn teach(&mut self, session: u32) -> Result<(), Memory>
        ensures { AreOnTrack (world_of self.old) → OnOk result (Moves (world_of self.old) (steps.Teach session) (world_of self.new)) }
    {
        match connection_index(self.connections.as_slice(), session) {
            Some(place) => self.connections[place].teach(self.alloc),
            None => Ok(()),
        }
    }

    fn deliver_to_learner(&mut self, session: u32, count: usize, now: Moment) -> Result<(), Memory>
        ensures moves { AreOnTrack (world_of self.old) → OnOk result (Moves (world_of self.old) (steps.Deliver session ways.ToLearner count now) (world_of self.new)) }
        ensures timely { now < 2 ^ 63 }
    {
        match connection_index(self.connections.as_slice(), session) {
            Some(place) => self.connections[place].deliver_to_learner(count, now),
            None => Ok(()),
        }
    }

    /// Delivers bytes to the teacher, and makes the acknowledgements that are then whole. If a table refuses one of them,
    /// nothing is delivered.
    fn deliver_to_teacher(&mut self, session: u32, count: usize) -> Result<(), Memory>
        ensures { AreOnTrack (world_of self.old) → OnOk result ((now : ℕ) → Moves (world_of self.old) (steps.Deliver session ways.ToTeacher count now) (world_of self.new)) }
    {
        let Some(place) = connection_index(self.connections.as_slice(), session) else {
            return Ok(());
        };
        let connection = &self.connections[place];
        if connection.to_teacher.len() < count {
            return Ok(());
        }
        let read = read_acks(
            self.alloc,
            connection.known.roster(),
            connection.unread.as_slice(),
            &connection.to_teacher.as_slice()[..count],
        )?;
        if !are_taken(self.cells.as_slice(), session, read.acks.as_slice()) {
            return Ok(());
        }
        make_each(&mut self.cells, session, read.acks.as_slice())?;
        self.connections[place].arrive(count, read.used)
    }

    fn acknowledge(&mut self, session: u32) -> Result<(), Memory>
        ensures { OnOk result (Moves (world_of self.old) (steps.Ack session) (world_of self.new)) }
    {
        match connection_index(self.connections.as_slice(), session) {
            Some(place) => self.connections[place].acknowledge(self.alloc),
            None => Ok(()),
        }
    }

    fn break_off(&mut self, session: u32) -> Result<(), Memory>
        ensures { OnOk result (IsOpenWorld (world_of self.old) → Moves (world_of self.old) (steps.Break session) (world_of self.new)) }
    {
        let Some(place) = connection_index(self.connections.as_slice(), session) else {
            return Ok(());
        };
        if !has_room_for(self.cells.as_slice(), 2) {
            return Ok(());
        }
        let roster = roster_of(self.alloc, self.cells.as_slice())?;
        let version = self.connections[place].version;
        self.connections[place] = Connection::new(self.alloc, roster, version)?;
        reopen_in_each(self.cells.as_mut_slice(), session, version)
    }

    fn reopen(&mut self, session: u32) -> Result<(), Memory>
        ensures { OnOk result (IsOpenWorld (world_of self.old) → Moves (world_of self.old) (steps.Reopen session) (world_of self.new)) }
    {
        let Some(place) = connection_index(self.connections.as_slice(), session) else {
            return Ok(());
        };
        if is_any_out(self.cells.as_slice(), session) {
            return Ok(());
        }
        if !has_room_for(self.cells.as_slice(), 2) {
            return Ok(());
        }
        let version = self.connections[place].version;
        reopen_in_each(self.cells.as_mut_slice(), session, version)
    }
}
