//! What a session that stays asked for so far.

ghost use Rattle.std.specs.Prelude.{◌≡◌};
ghost use Rattle.session_core.specs.declared.action.Action.TheVariants as kinds;
ghost use Rattle.session_core.specs.AskedCounts.{action_counted, all_asked, many_more, none_asked, sent_counted};
ghost use Rattle.session_core.specs.Runs.{is_end};
ghost use Rattle.session_core.specs.Actions.{is_heartbeat};

use crate::action::Action;
use crate::controls::one_more;

/// How much a session that stays asked for so far. A count that is full stays as it is.
#[derive(Clone, Copy, Debug)]
pub struct Counts {
    /// The rows of the remote peer to learn.
    pub learned: u64,
    /// The rows to teach it.
    pub taught: u64,
    /// The heartbeats to send.
    pub heartbeats: u64,
    /// The ends to send of resyncs in which it teaches.
    pub resyncs: u64,
}

impl Counts {
    /// Returns the counts before anything.
    pub(crate) fn none() -> Counts
        ensures { result ≡ none_asked }
    {
        Counts {
            learned: 0,
            taught: 0,
            heartbeats: 0,
            resyncs: 0,
        }
    }

    /// Counts bytes to send if they are a heartbeat or end a resync.
    fn count_sent(&mut self, bytes: &[u8])
        ensures { self.new ≡ sent_counted bytes.now self.old }
    {
        if is_heartbeat(bytes) {
            self.heartbeats = one_more(self.heartbeats);
        } else if ends_resync(bytes) {
            self.resyncs = one_more(self.resyncs);
        }
    }

    /// Counts what this action asks for.
    fn count(&mut self, action: &Action)
        ensures { self.new ≡ action_counted action.now self.old }
    {
        match action {
            Action::Learn(_) => self.learned = one_more(self.learned),
            Action::Teach(batch) => {
                self.taught = many_more(self.taught, batch.updates().len() as u64);
            }
            Action::Send(bytes) => self.count_sent(bytes.as_slice()),
            Action::Ack {
                table: _,
                number: _,
            }
            | Action::Reopen(_)
            | Action::Copy { table: _, kind: _ }
            | Action::Part(_)
            | Action::Close => {}
        }
    }

    /// Counts what these actions ask for.
    pub(crate) fn count_all(&mut self, actions: &[Action])
        ensures { self.new ≡ all_asked actions.now self.old }
    {
        for action in actions {
            self.count(action);
        }
    }
}

/// Returns the count after this many more, unless it is full.
fn many_more(count: u64, more: u64) -> u64
    ensures { result ≡ many_more more count }
{
    count.saturating_add(more)
}

/// Returns whether these bytes are a heartbeat.
fn is_heartbeat(bytes: &[u8]) -> bool
    ensures { result ≡ is_heartbeat (kinds.Send bytes.now) }
{
    bytes == [0, 4].as_slice()
}

/// Returns whether these bytes are resync finished or resync partial.
fn ends_resync(bytes: &[u8]) -> bool
    ensures { result ≡ is_end (kinds.Send bytes.now) }
{
    bytes == [0, 1].as_slice() || bytes == [0, 2].as_slice()
}
