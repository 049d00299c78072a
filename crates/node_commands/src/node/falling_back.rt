//! A node's first connection, after which it may fall back.

ghost use Rattle.std.specs.Prelude.{◌≡◌, ◌⊎◌, ◌&&◌, ℕ, List, None, IfErr, IfOk, if◌then◌else◌};
ghost use Rattle.std.specs.Io.KnownBytes.{Appends, Consumes};
ghost use Rattle.text_commands.specs.declared.endings.Ending.TheVariants as endings;
ghost use Rattle.node_commands.specs.FallingBack.{IsMeeting};
ghost use Rattle.node_commands.specs.Nodes.{HasTakenTurns};
ghost use Rattle.node_commands.specs.Turning.{sending, writer};

use crate::node::sharing::Served;
use crate::node::turns::{Pace, Turns, play};
use crate::node::{Node, Report, report_of};
use peers_devices::{Faults, Writes};
use peers_engine::Worker;
use session_core::Session;
use std::alloc::Global;
use std::io::{Read, Write};
use std::sync::Wait;
use text_commands::Ending;

/// What follows a connection.
#[derive(Drop)]
pub enum Meeting {
    /// Nothing but what the node has to print.
    Over(Report),
    /// Another connection, for which the node is ready.
    FellBack(Node),
}

/// Returns the session of another connection: `fallback`, if the session before it fell back, and turns are left.
fn next_session(fell_back: bool, left: bool, fallback: Option<Session>) -> Option<Session>
    ensures { result ≡ (if fell_back && left then fallback else None) }
{
    if fell_back && left { fallback } else { None }
}

impl Node {
    /// Runs the session as `meet` does. If the node has another session, and the first one fell back with turns left, returns the node
    /// that is ready for the connection of that session, and otherwise what is to be printed. Fails as `meet` does. It isn't inlined,
    /// since its frame is large.
    #[inline(never)]
    pub fn meet_or_fall_back<H: Wait, R: Read + Faults, W: Write + Faults>(
        self,
        rt: &H,
        alloc: Global,
        turns: u32,
        from: &mut R,
        to: &mut W,
        writes: &mut Writes,
    ) -> Result<Meeting, Ending>
        ensures played { (received sent : List ℕ)
            × HasTakenTurns self turns received (sending sent (writer (W.contents to.old) writes.old (W.failed to.old)) (writer (W.contents to.new) writes.new (W.failed to.new)))
            × Consumes (R.remaining from.old) (R.remaining from.new) received
            × Appends (W.contents to.old) (W.contents to.new) sent }
        ensures met { IfOk result (λ meeting. (received sent : List ℕ)
            × IsMeeting self turns meeting received (sending sent (writer (W.contents to.old) writes.old (W.failed to.old)) (writer (W.contents to.new) writes.new (W.failed to.new)))
            × Consumes (R.remaining from.old) (R.remaining from.new) received
            × Appends (W.contents to.old) (W.contents to.new) sent) }
        ensures early { IfErr result (λ ending. (ending ≡ endings.Memory) ⊎ (ending ≡ endings.Device)) }
    {
        let Node {
            tables,
            mut worker,
            pace,
            fallback,
        } = self;
        let most = turns.saturating_sub(pace.taken);
        let asked = Turns { pace, most };
        let played = play(
            rt,
            alloc,
            &tables.shards,
            &mut worker,
            asked,
            from,
            to,
            writes,
        );
        let taken = pace.taken + played.turns;
        let next = next_session(worker.session.fell_back(), taken < turns, fallback);
        match next {
            Some(session) => Ok(Meeting::FellBack(Node {
                tables,
                worker: Worker {
                    session,
                    seat: worker.seat,
                    number: worker.number,
                },
                pace: Pace {
                    leaves: pace.leaves,
                    stands: pace.stands,
                    taken,
                },
                fallback: None,
            })),
            None => {
                let report = report_of(alloc, tables, Served { worker, played }, taken)?;
                Ok(Meeting::Over(report))
            }
        }
    }
}
