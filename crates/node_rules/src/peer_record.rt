//! What is known of a peer and its sessions.

ghost use Rattle.std.specs.Prelude.{◌≡◌, ◌≢◌, ◌↔◌, IsTrue, Some, is_some, not};
ghost use Rattle.node_core.specs.Processes.{process_by};
ghost use Rattle.node_core.specs.Rests.{rests_until};
ghost use Rattle.node_rules.specs.PeerRecords.{after_another, begun, connected, count_more, counted, counted_end, ended, error_after, failed, gone_on, known_error, late, learned, refused, shown_role, state_of, stands, taught, tried, unknown};

use admin_port::{PeerRole, PeerState, ResyncsEnded, SessionsEnded};
use node_core::{
    Failure, LastError, LastPid, Process, Reaching, ResyncEnd, SessionEnd, rests_until,
};
use table_types::Version;

/// When the last three sessions ended by a fault, in milliseconds since the node began.
#[derive(Clone, Copy)]
pub struct FaultTimes {
    last: Option<u64>,
    before: Option<u64>,
    second_before: Option<u64>,
}

/// What is known of a peer and its sessions. Times are in milliseconds since the node began. A count that is full stays as it is.
#[derive(Clone, Copy)]
pub struct PeerRecord {
    /// How far the session is.
    pub state: PeerState,
    /// Whether a resync is under way in which the node is the teacher.
    pub teaches: bool,
    /// Which end made the connection, if there is one.
    pub role: Option<PeerRole>,
    /// The version that the session speaks, once its hello is over.
    pub version: Option<Version>,
    /// When the session began or the last one ended, whatever attempts failed since.
    pub since: u64,
    /// How many sessions began.
    pub sessions: u64,
    /// How many ended by a fault of the peer.
    pub faults: u64,
    /// Why the last connection ended, if one did.
    pub last_end: Option<SessionEnd>,
    /// Why there is no session, as far as it is known.
    pub last_error: Option<LastError>,
    /// How many sessions ended.
    pub ended: SessionsEnded,
    /// How many resyncs ended in which the node was the teacher.
    pub resyncs_taught: ResyncsEnded,
    /// How many resyncs ended in which the node was the learner.
    pub resyncs_learned: ResyncsEnded,
    faulted: FaultTimes,
    /// The pid that the last hello of the peer said.
    pid: LastPid,
    /// What became of the attempts to have a session since the last one began.
    reaching: Reaching,
}

/// Returns one more, as far as there is one.
fn count_more(count: u64) -> u64
    ensures { result ≡ count_more count }
{
    count.saturating_add(1)
}

/// Returns the counts with the end of one more resync.
fn counted(resyncs: ResyncsEnded, end: ResyncEnd) -> ResyncsEnded
    ensures { result ≡ counted end resyncs }
{
    match end {
        ResyncEnd::Finished => ResyncsEnded {
            finished: count_more(resyncs.finished),
            ..resyncs
        },
        ResyncEnd::Incomplete | ResyncEnd::Partial => ResyncsEnded {
            partial: count_more(resyncs.partial),
            ..resyncs
        },
        ResyncEnd::Broken => ResyncsEnded {
            broken: count_more(resyncs.broken),
            ..resyncs
        },
    }
}

/// Returns the counts with the end of one more session.
fn counted_end(ended: SessionsEnded, end: SessionEnd) -> SessionsEnded
    ensures { result ≡ counted_end end ended }
{
    match end {
        SessionEnd::End => SessionsEnded {
            end: count_more(ended.end),
            ..ended
        },
        SessionEnd::Silent => SessionsEnded {
            silent: count_more(ended.silent),
            ..ended
        },
        SessionEnd::Fault => SessionsEnded {
            fault: count_more(ended.fault),
            ..ended
        },
        SessionEnd::Replaced => SessionsEnded {
            replaced: count_more(ended.replaced),
            ..ended
        },
        SessionEnd::Device => SessionsEnded {
            device: count_more(ended.device),
            ..ended
        },
        SessionEnd::Error => SessionsEnded {
            error: count_more(ended.error),
            ..ended
        },
    }
}

/// Returns why there is no session after an attempt that failed with `failure`.
fn error_after(failure: Failure) -> LastError
    ensures { result ≡ error_after failure }
{
    match failure {
        Failure::Unreachable(_) | Failure::NoSession(_) => LastError::Unreachable,
        Failure::Refused(status) => LastError::Refused(status),
    }
}

/// Returns how far a session is, given whether the peer was asked for a resync that isn't over, and whether the node teaches in one.
fn state_of(asking: bool, teaching: bool) -> PeerState
    ensures { result ≡ state_of asking teaching }
{
    if asking {
        PeerState::Asking
    } else if teaching {
        PeerState::Teaching
    } else {
        PeerState::Ready
    }
}

impl FaultTimes {
    /// Returns the times after another fault.
    fn after_another(self, now: u64) -> FaultTimes
        ensures { result ≡ after_another now self }
    {
        FaultTimes {
            last: Some(now),
            before: self.last,
            second_before: self.before,
        }
    }
}

impl PeerRecord {
    /// Returns what is known of a peer with which there was no session.
    pub fn new() -> PeerRecord
        ensures { result ≡ unknown }
    {
        let none = ResyncsEnded {
            finished: 0,
            partial: 0,
            broken: 0,
        };
        PeerRecord {
            state: PeerState::Down,
            teaches: false,
            role: None,
            version: None,
            since: 0,
            sessions: 0,
            faults: 0,
            last_end: None,
            last_error: None,
            ended: SessionsEnded {
                end: 0,
                silent: 0,
                fault: 0,
                replaced: 0,
                device: 0,
                error: 0,
            },
            resyncs_taught: none,
            resyncs_learned: none,
            faulted: FaultTimes {
                last: None,
                before: None,
                second_before: None,
            },
            pid: LastPid::new(),
            reaching: Reaching::new(),
        }
    }

    /// Returns whether there is a session whose hello is over.
    pub fn stands(&self) -> bool
        ensures { result ≡ stands self.now }
    {
        match self.state {
            PeerState::Down => false,
            PeerState::Asking | PeerState::Ready | PeerState::Teaching => true,
        }
    }

    /// Returns whether there is a connection.
    pub fn is_connected(&self) -> bool
        ensures { result ≡ is_some self.now.role }
    {
        self.role.is_some()
    }

    /// Returns which end made the connection, if its hello is over.
    pub fn shown_role(&self) -> Option<PeerRole>
        ensures { result ≡ shown_role self.now }
    {
        if self.stands() { self.role } else { None }
    }

    /// Returns the time until which the node doesn't connect to the peer.
    pub fn rests_until(&self) -> u64
        ensures { result ≡ rests_until self.now.faulted.last self.now.faulted.second_before }
    {
        rests_until(self.faulted.last, self.faulted.second_before)
    }

    /// Notes why there is no session, unless there is one.
    fn note_error(&mut self, error: LastError)
        ensures { self.new ≡ known_error error self.old }
    {
        if !self.stands() {
            self.last_error = Some(error);
        }
    }

    /// Notes that the node tries to connect. Returns whether that is news.
    pub fn attempt(&mut self) -> bool
        ensures news { result ≡ not self.old.reaching.tried }
        ensures tried { self.new ≡ tried self.old }
    {
        self.reaching.attempt()
    }

    /// Notes that an attempt of the node to have a session failed. Returns whether that is news.
    pub fn fail(&mut self, failure: Failure) -> bool
        ensures news { IsTrue result ↔ (self.old.reaching.failure ≢ Some failure) }
        ensures failed { self.new ≡ failed failure self.old }
    {
        let news = self.reaching.fail(failure);
        self.note_error(error_after(failure));
        news
    }

    /// Notes that a hello of the peer was refused with this status. Returns whether that is news.
    pub fn refuse(&mut self, status: u16) -> bool
        ensures news { IsTrue result ↔ (self.old.reaching.refusal ≢ Some status) }
        ensures refused { self.new ≡ refused status self.old }
    {
        let news = self.reaching.refuse(status);
        self.note_error(LastError::HelloRefused(status));
        news
    }

    /// Notes that a connection is there.
    pub fn connect(&mut self, role: PeerRole)
        ensures { self.new ≡ connected role self.old }
    {
        self.role = Some(role);
    }

    /// Notes that the session's hello is over, the version that the session speaks, and the pid that the peer's hello said, if it sent
    /// one. Returns what that says of the peer's process.
    pub fn begin(&mut self, now: u64, version: Option<Version>, pid: Option<u64>) -> Process
        ensures process { result ≡ process_by self.old.pid.pid pid }
        ensures begun { self.new ≡ begun now version pid self.old }
    {
        self.state = PeerState::Ready;
        self.since = now;
        self.version = version;
        self.sessions = count_more(self.sessions);
        self.reaching = Reaching::new();
        self.last_error = None;
        self.pid.greet(pid)
    }

    /// Notes whether the peer was asked for a resync that isn't over, and whether the node teaches in one.
    pub fn go_on(&mut self, asking: bool, teaching: bool)
        ensures { self.new ≡ gone_on asking teaching self.old }
    {
        if self.stands() {
            self.state = state_of(asking, teaching);
            self.teaches = teaching;
        }
    }

    /// Notes that a resync ended in which the node was the teacher.
    pub fn end_teaching(&mut self, end: ResyncEnd)
        ensures { self.new ≡ taught end self.old }
    {
        self.resyncs_taught = counted(self.resyncs_taught, end);
    }

    /// Notes that a resync ended in which the node was the learner.
    pub fn end_learning(&mut self, end: ResyncEnd)
        ensures { self.new ≡ learned end self.old }
    {
        self.resyncs_learned = counted(self.resyncs_learned, end);
    }

    /// Notes that the connection ended, and why unless it was given up for another one before a session began. Counts the end of a session
    /// that had begun, and notes when that was.
    pub fn end(&mut self, end: SessionEnd, now: u64)
        ensures { self.new ≡ ended end now self.old }
    {
        let stood = self.stands();
        self.state = PeerState::Down;
        self.teaches = false;
        self.role = None;
        self.version = None;
        if stood {
            self.since = now;
            self.ended = counted_end(self.ended, end);
        }
        if stood || end != SessionEnd::Replaced {
            self.note_end(end, now);
        }
    }

    /// Notes why a connection ended at `now`, and counts the fault if the peer had one.
    fn note_end(&mut self, end: SessionEnd, now: u64)
        ensures { self.new ≡ late end now self.old }
    {
        self.last_end = Some(end);
        if end == SessionEnd::Fault {
            self.faults = count_more(self.faults);
            self.faulted = self.faulted.after_another(now);
        }
    }
}
