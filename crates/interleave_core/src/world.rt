//! The world, and its runs.

ghost use Rattle.std.specs.Prelude.{◌≡◌, ◌≤◌, ◌++◌, ℕ, IfOk, List, None, length, option_map};
ghost use Rattle.std.specs.List.{AllByRecursion};
ghost use Rattle.table_types.specs.Rosters.{roster_fault};
ghost use Rattle.interleave_core.specs.declared.step.Step.{Step};
ghost use Rattle.interleave_core.specs.Core.{IsCore};
ghost use Rattle.interleave_core.specs.Moves.{RunsTo};
ghost use Rattle.interleave_core.specs.Opened.{CanBegin};
ghost use Rattle.interleave_core.specs.Parts.{connection_of};
ghost use Rattle.interleave_core.specs.Versions.{KeepVersions};
ghost use Rattle.interleave_core.specs.Since.{HasNewConnection, RowsAreCopiedSince};
ghost use Rattle.interleave_core.specs.Worlds.{WorldState, cell_at, connection_at, new_world, pipe_of, roster_of};

use crate::cells::{are_sound, index_of, open_in_each, roster_of};
use crate::connection::{Connection, index_of as connection_index};
use crate::parts::Parts;
use crate::step::Step;
use crate::way::Way;
use known_state::Known;
use learner::Learner;
use std::alloc::Global;
use std::marker::Model;
use table_cell::TableCell;
use table_types::{Batch, Memory, Update, Version};

/// Tables, the sessions that teach from them, and the learner of each session. Each session is open in each table.
#[derive(Drop)]
pub struct World {
    parts: Parts,
}

impl Model for World {
    ghost use Rattle.interleave_core.specs.Opened.{IsInOrder};
    ghost use Rattle.interleave_core.specs.Parts.{world_of};
    ghost use Rattle.interleave_core.specs.Worlds.{WorldState};

    ghost Value = { WorldState };

    ghost view = { λ w. world_of w.parts };

    ghost invariant = { λ w. IsInOrder (world_of w.parts) };
}

impl World {
    /// Returns a world of the tables `cells` with a session for each of `versions`, numbered from 1, which is open in each
    /// table with its version. Nothing is on its way, and each learner has received nothing. There are 1 to 64 tables with
    /// distinct ids and names, in which no session is open and all can be opened, and 1 to 16 sessions.
    pub fn new(
        alloc: Global,
        mut cells: Vec<TableCell>,
        versions: Vec<Version>,
    ) -> Result<World, Memory>
        requires tables { roster_fault (roster_of cells.items) ≡ None }
        requires begin { AllByRecursion (CanBegin (length versions.items)) cells.items }
        requires sessions { (1 ≤ length versions.items) × (length versions.items ≤ 16) }
        ensures { IfOk result (λ world. world ≡ new_world cells.items versions.items) }
    {
        are_sound(cells.as_slice());
        let roster = roster_of(alloc, cells.as_slice())?;
        let mut connections = Vec::new(alloc);
        let mut session = 0;
        for version in versions.as_slice() {
            session += 1;
            open_in_each(cells.as_mut_slice(), session, *version)?;
            connections.push(Connection::new(alloc, roster.copy(alloc)?, *version)?)?;
        }
        let parts = Parts {
            alloc,
            cells,
            connections,
        };
        Ok(World { parts })
    }

    fn connection(&self, session: u32) -> Option<&Connection>
        ensures { option_map (λ c. connection_of c.now) result ≡ connection_at session self.now.connections }
    {
        let index = connection_index(self.parts.connections.as_slice(), session)?;
        Some(&self.parts.connections[index])
    }

    /// Returns the table with the id `table`.
    pub fn cell(&self, table: u64) -> Option<&TableCell>
        ensures { option_map (λ c. c.now) result ≡ cell_at table self.now.cells }
    {
        let index = index_of(self.parts.cells.as_slice(), table)?;
        self.parts.cells.get(index)
    }

    /// Returns what the teacher of `session` knows of its learner, once all that is on its way has arrived.
    pub fn known(&self, session: u32) -> Option<&Known>
        ensures { option_map (λ k. k.now) result ≡ option_map (λ s. s.known) (connection_at session self.now.connections) }
    {
        Some(&self.connection(session)?.known)
    }

    /// Returns the learner of `session`.
    pub fn learner(&self, session: u32) -> Option<&Learner>
        ensures { option_map (λ l. l.now) result ≡ option_map (λ s. s.learner) (connection_at session self.now.connections) }
    {
        Some(&self.connection(session)?.learner)
    }

    /// Returns the bytes on their way in `session` and the direction `way`.
    pub fn pipe(&self, session: u32, way: Way) -> Option<&[u8]>
        ensures { option_map (λ bytes. bytes.now) result ≡ option_map (pipe_of way) (connection_at session self.now.connections) }
    {
        let connection = self.connection(session)?;
        match way {
            Way::ToLearner => Some(connection.to_learner.as_slice()),
            Way::ToTeacher => Some(connection.to_teacher.as_slice()),
        }
    }

    /// Returns the batches of `session` that were copied and not taught yet, the oldest first.
    pub fn copied(&self, session: u32) -> Option<&[Batch]>
        ensures { option_map (λ batches. batches.now) result ≡ option_map (λ s. s.copied) (connection_at session self.now.connections) }
    {
        Some(self.connection(session)?.copied.as_slice())
    }

    /// Returns the updates taught in `session` since its connection began, in order.
    pub fn taught(&self, session: u32) -> Option<&[Update]>
        ensures { option_map (λ updates. updates.now) result ≡ option_map (λ s. s.taught) (connection_at session self.now.connections) }
    {
        Some(self.connection(session)?.taught.as_slice())
    }

    /// Returns the updates that the learner of `session` has put since its connection began, in order: the first of those
    /// that were taught.
    pub fn applied(&self, session: u32) -> Option<&[Update]>
        ensures { option_map (λ updates. updates.now) result ≡ option_map (λ s. s.applied) (connection_at session self.now.connections) }
    {
        let connection = self.connection(session)?;
        let taught = connection.taught.as_slice();
        Some(&taught[..connection.applied.min(taught.len())])
    }
}

/// Makes `steps` one after another, each in the world that the one before it left. After `Memory` the world is gone.
pub fn run(world: World, steps: &[Step]) -> Result<World, Memory>
    ensures runs { IfOk result (λ after. RunsTo world steps.now after) }
    ensures core { IfOk result IsCore }
    ensures versions { IfOk result KeepVersions }
    ensures between { (first rest : List Step) → steps.now ≡ first ++ rest →
        IfOk result (λ after. (mid : WorldState) × RunsTo world first mid × RunsTo mid rest after × IsCore mid) }
    ensures each { (first rest : List Step) (mid : WorldState) → steps.now ≡ first ++ rest → RunsTo world first mid → IfOk result (λ _. IsCore mid) }
    ensures since { (first more rest : List Step) (begun mid : WorldState) (session : ℕ) → steps.now ≡ first ++ (more ++ rest) → RunsTo world first begun →
        HasNewConnection session begun → RunsTo begun more mid → IfOk result (λ _. RowsAreCopiedSince begun session mid) }
{
    let World { mut parts } = world;
    for step in steps {
        parts.make(step)?;
    }
    Ok(World { parts })
}
