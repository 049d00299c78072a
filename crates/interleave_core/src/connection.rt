//! What belongs to one session of a world.

ghost use Rattle.std.specs.Prelude.{◌≡◌, ◌≤◌, ◌∷◌, ◌++◌, [], IfNone, IfOk, IfSome, List, None, OnOk, drop, length, take};
ghost use Rattle.table_types.specs.declared.update.Update.{Update};
ghost use Rattle.table_types.specs.Batches.{IsBatchFor};
ghost use Rattle.table_types.specs.Tables.{Definition};
ghost use Rattle.peers_msg.specs.Integers.{IsBytes};
ghost use Rattle.peers_msg.specs.Spelling.{stream_of};
ghost use Rattle.teach_writer.specs.Lessons.{IsShortestLesson};
ghost use Rattle.interleave_core.specs.Kept.{IsOnTrack};
ghost use Rattle.interleave_core.specs.Moves.{ArrivesAtLearner, TeachesOldest, acknowledges};
ghost use Rattle.interleave_core.specs.Parts.{IsConnectionAt, connection_of, connections_of};
ghost use Rattle.interleave_core.specs.Worlds.{connection_at, new_connection};

use known_state::Known;
use learner::Learner;
use peers_msg::{Message, Unread, append};
use std::alloc::Global;
use table_types::{Batch, Memory, Moment, Roster, Update, Version};
use teach_writer::{Lesson, teach};

/// A session's connection: its version, what its teacher knows and has still to do, what is on its way, and its learner. All
/// but the version and the batches counts from when the connection began.
#[derive(Drop)]
pub(crate) struct Connection {
    /// The version of the protocol that the session speaks.
    pub(crate) version: Version,
    /// What the teacher knows of the learner, once it has received all that is on its way.
    pub(crate) known: Known,
    /// The batches that were copied and not taught yet, the oldest first.
    pub(crate) copied: Vec<Batch>,
    /// The updates that were taught, in order.
    pub(crate) taught: Vec<Update>,
    /// How many of `taught` the learner has put.
    pub(crate) applied: usize,
    /// The bytes on their way to the learner.
    pub(crate) to_learner: Unread,
    /// The bytes on their way to the teacher.
    pub(crate) to_teacher: Unread,
    /// The bytes that arrived at the teacher and aren't a whole message yet.
    pub(crate) unread: Unread,
    pub(crate) learner: Learner,
}

/// Returns the index of the connection of `session`. Sessions are numbered from 1.
pub(crate) fn index_of(connections: &[Connection], session: u32) -> Option<usize>
    ensures found { IfSome result (IsConnectionAt session connections.now) }
    ensures none { IfNone result (connection_at session (connections_of connections.now) ≡ None) }
{
    let index = (session as usize).checked_sub(1)?;
    if index < connections.len() {
        Some(index)
    } else {
        None
    }
}

/// Appends copies of the updates.
fn append_copies(alloc: Global, taught: &mut Vec<Update>, updates: &[Update]) -> Result<(), Memory>
    ensures { OnOk result (taught.new.items ≡ taught.old.items ++ updates.now) }
{
    for update in updates {
        taught.push(update.copy(alloc)?)?;
    }
    Ok(())
}

/// Returns the bytes of the messages, one after another.
fn stream_of(alloc: Global, messages: &[Message]) -> Result<Vec<u8>, Memory>
    ensures { IfOk result (λ bytes. bytes.items ≡ stream_of messages.now) }
{
    let mut bytes = Vec::new(alloc);
    for message in messages {
        append(&mut bytes, message)?;
    }
    Ok(bytes)
}

/// Returns a shortest lesson of the batch, if it is one for the roster of the known state.
fn lesson_of(alloc: Global, known: &Known, batch: &Batch) -> Result<Option<Lesson>, Memory>
    ensures lesson { IfOk result (λ found. IfSome found (λ lesson. IsShortestLesson known.now batch.now lesson.bytes lesson.known)) }
    ensures none { IfOk result (λ found. IfNone found (IsBatchFor known.now.roster batch.now → ⊥)) }
{
    if !batch.is_for(known.roster()) {
        return Ok(None);
    }
    match teach(alloc, known, batch) {
        Ok(lesson) => Ok(Some(lesson)),
        Err(_) => Err(Memory),
    }
}

/// Puts the bytes on their way.
fn send(pipe: &mut Unread, bytes: &[u8]) -> Result<(), Memory>
    ensures sent { OnOk result (pipe.new ≡ pipe.old ++ bytes.now) }
    ensures bytes { IsBytes bytes.now }
{
    pipe.append(bytes)
}

impl Connection {
    /// Returns a new connection: the learner has received nothing, and nothing is on its way.
    pub(crate) fn new(alloc: Global, roster: Roster, version: Version) -> Result<Connection, Memory>
        ensures { IfOk result (λ connection. connection_of connection ≡ new_connection version roster) }
    {
        Ok(Connection {
            version,
            known: Known::fresh(alloc, roster.copy(alloc)?)?,
            copied: Vec::new(alloc),
            taught: Vec::new(alloc),
            applied: 0,
            to_learner: Unread::new(alloc),
            to_teacher: Unread::new(alloc),
            unread: Unread::new(alloc),
            learner: Learner::new(alloc, roster)?,
        })
    }

    /// Puts the learner's due acknowledgements on their way.
    pub(crate) fn acknowledge(&mut self, alloc: Global) -> Result<(), Memory>
        ensures { OnOk result (connection_of self.new ≡ acknowledges (connection_of self.old)) }
    {
        let acks = self.learner.acks()?;
        let bytes = stream_of(alloc, acks.as_slice())?;
        self.to_teacher.append(bytes.as_slice())
    }

    /// Lets the batch wait until it is taught.
    pub(crate) fn let_wait(&mut self, batch: Batch) -> Result<(), Memory>
        ensures { OnOk result (connection_of self.new ≡ record (connection_of self.old) { copied = (connection_of self.old).copied ++ batch ∷ [] }) }
    {
        self.copied.push(batch)?;
        Ok(())
    }

    /// Teaches the oldest batch that waits, if there is one.
    pub(crate) fn teach(&mut self, alloc: Global) -> Result<(), Memory>
        ensures { (roster : List Definition) → IsOnTrack roster (connection_of self.old) → OnOk result (TeachesOldest (connection_of self.old).copied (connection_of self.old) (connection_of self.new)) }
    {
        let Some(batch) = self.copied.first() else {
            return Ok(());
        };
        let Some(lesson) = lesson_of(alloc, &self.known, batch)? else {
            return Ok(());
        };
        // The learner has put none of what is taught now.
        self.applied = self.applied.min(self.taught.len());
        append_copies(alloc, &mut self.taught, batch.updates())?;
        send(&mut self.to_learner, lesson.bytes.as_slice())?;
        self.known = lesson.known;
        self.copied.remove(0);
        Ok(())
    }

    /// Feeds the learner the first `count` bytes on their way, if there are as many. If the connection is on track, the
    /// updates that it puts are the next of those taught.
    pub(crate) fn deliver_to_learner(&mut self, count: usize, now: Moment) -> Result<(), Memory>
        ensures { (roster : List Definition) → IsOnTrack roster (connection_of self.old) → OnOk result (ArrivesAtLearner count now (connection_of self.old) (connection_of self.new)) }
    {
        if self.to_learner.len() < count {
            return Ok(());
        }
        let Ok(rows) = self.learner.feed(&self.to_learner.as_slice()[..count], now) else {
            return Err(Memory);
        };
        self.applied = self.applied.saturating_add(rows);
        self.to_learner.advance(count);
        Ok(())
    }

    /// Moves the next `count` bytes to the teacher, which then reads the first `used`.
    pub(crate) fn arrive(&mut self, count: usize, used: usize) -> Result<(), Memory>
        requires there { count ≤ length self.old.to_teacher }
        requires within { used ≤ length (self.old.unread ++ take count self.old.to_teacher) }
        ensures { OnOk result (connection_of self.new ≡ record (connection_of self.old) { to_teacher = drop count self.old.to_teacher; unread = drop used (self.old.unread ++ take count self.old.to_teacher) }) }
    {
        self.unread.append(&self.to_teacher.as_slice()[..count])?;
        self.unread.advance(used);
        self.to_teacher.advance(count);
        Ok(())
    }
}
