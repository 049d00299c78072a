//! The turns of a node's session.

ghost use Rattle.std.specs.Prelude.{◌≡◌, ◌≤◌, ◌<◌, ◌+◌, ◌^◌, List, ℕ};
ghost use Rattle.std.specs.Io.KnownBytes.{Appends, Consumes};
ghost use Rattle.node_commands.specs.Turning.{Plays, Takes, broken_by, closed_by, ending_after, moment_of, sending, turn_at, writer};

use peers_devices::{Faults, Writes};
use peers_engine::{AlwaysOpen, EngineError, Outcome, Worker};
use session_core::{Session, SessionError};
use std::alloc::Global;
use std::io::{Read, Write};
use std::sync::Wait;
use table_shards::Shards;
use table_types::Moment;
use text_commands::Ending;

/// When a session's turns come, and when it ends.
#[derive(Clone, Copy, Debug)]
pub struct Pace {
    /// Whether the session ends once it has sent `resync confirmed`.
    pub(crate) leaves: bool,
    /// Whether every turn comes at the moment at which the rows were loaded. Otherwise the first one comes a millisecond after it,
    /// and each other one a millisecond after the one before.
    pub(crate) stands: bool,
    /// The turns that an earlier session of the node took. The moments go on after them.
    pub(crate) taken: u32,
}

/// The turns that a session may take.
#[derive(Clone, Copy, Debug)]
pub(crate) struct Turns {
    /// When they come, and when the session ends.
    pub(crate) pace: Pace,
    /// How many there are at most.
    pub(crate) most: u32,
}

/// The course of a session: the number of turns that it made, and how it ended.
#[derive(Clone, Copy, Debug)]
pub(crate) struct Played {
    pub(crate) turns: u32,
    pub(crate) ending: Ending,
}

/// Returns how a session ends that closed the connection: with the fault of the other node's messages if there was one, and
/// with `Done` otherwise.
fn closed_by(session: &Session) -> Ending
    ensures { result ≡ closed_by session.now.session.fault }
{
    match session.fault() {
        Some(fault) => Ending::Stream(fault),
        None => Ending::Done,
    }
}

/// Returns how a session ends after a turn fails with `error`.
fn broken_by(session: &Session, error: EngineError) -> Ending
    ensures { result ≡ broken_by session.now.session.fault error }
{
    match error {
        EngineError::Session(SessionError::Ended) => closed_by(session),
        EngineError::Session(SessionError::Unasked) => Ending::Unasked,
        EngineError::Session(SessionError::Memory) | EngineError::Memory => Ending::Memory,
        EngineError::Read | EngineError::Write { sent: _ } => Ending::Device,
        EngineError::Strange => Ending::Strange,
    }
}

/// Returns how a session ends after a turn, or `None` if it continues. A session that `leaves` ends once it has sent
/// `resync confirmed`.
fn ending_after(
    session: &Session,
    leaves: bool,
    turned: Result<Outcome, EngineError>,
) -> Option<Ending>
    ensures { result ≡ ending_after leaves session.now.session turned }
{
    match turned {
        Ok(Outcome::Closed) => Some(closed_by(session)),
        Ok(Outcome::Worked | Outcome::Idled) => {
            if leaves && session.confirmed() {
                Some(Ending::Done)
            } else {
                None
            }
        }
        Err(error) => Some(broken_by(session, error)),
    }
}

impl Pace {
    /// Returns the moment of the turn that follows `before` others.
    fn moment(self, before: u32) -> Moment
        requires { self.taken + (before + 1) < 2 ^ 32 }
        ensures { result ≡ moment_of self before }
    {
        if self.stands {
            Moment::least()
        } else {
            Moment::least().later_by(self.taken + (before + 1))
        }
    }
}

/// Takes a turn of the worker's session at the moment `now`, and counts its writes in `writes`.
fn take_turn<H: Wait, R: Read + Faults, W: Write + Faults>(
    rt: &H,
    alloc: Global,
    shards: &Shards,
    worker: &mut Worker,
    now: Moment,
    from: &mut R,
    to: &mut W,
    writes: &mut Writes,
) -> Result<Outcome, EngineError>
    ensures { (received sent : List ℕ)
        × Takes shards.now (turn_at now worker.old) result received (sending sent (writer (W.contents to.old) writes.old (W.failed to.old)) (writer (W.contents to.new) writes.new (W.failed to.new))) (turn_at now worker.new)
        × Consumes (R.remaining from.old) (R.remaining from.new) received
        × Appends (W.contents to.old) (W.contents to.new) sent }
{
    worker.turn(rt, alloc, from, to, writes, &AlwaysOpen, shards, now)
}

/// Takes the turns of the worker's session, each at the moment that its pace gives it: all that it may take, or fewer if the session
/// ends before. Counts its writes in `writes`.
pub(crate) fn play<H: Wait, R: Read + Faults, W: Write + Faults>(
    rt: &H,
    alloc: Global,
    shards: &Shards,
    worker: &mut Worker,
    turns: Turns,
    from: &mut R,
    to: &mut W,
    writes: &mut Writes,
) -> Played
    requires { turns.pace.taken + turns.most < 2 ^ 32 }
    ensures plays { (received sent : List ℕ)
        × Plays shards.now turns.pace 0 worker.old turns.most result.turns result.ending received (sending sent (writer (W.contents to.old) writes.old (W.failed to.old)) (writer (W.contents to.new) writes.new (W.failed to.new))) worker.new
        × Consumes (R.remaining from.old) (R.remaining from.new) received
        × Appends (W.contents to.old) (W.contents to.new) sent }
    ensures within { result.turns ≤ turns.most }
{
    for before in 0..turns.most {
        let now = turns.pace.moment(before);
        let turned = take_turn(rt, alloc, shards, worker, now, from, to, writes);
        if let Some(ending) = ending_after(&worker.session, turns.pace.leaves, turned) {
            return Played {
                turns: before + 1,
                ending,
            };
        }
    }
    Played {
        turns: turns.most,
        ending: Ending::Done,
    }
}
