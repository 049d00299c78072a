//! Whom a node that hasn't been taught all rows asks for them.

ghost use Rattle.std.specs.Prelude.{◌≡◌, ◌==◌, ◌||◌, false, not, IfOk, None, Some, replicate, slice_get};
ghost use Rattle.std.specs.List.{list_all, list_any};
ghost use Rattle.node_core.specs.declared.asking.Standing.TheVariants as standings;
ghost use Rattle.node_core.specs.CatchingUp.{asked_if_next, brought, can_be_asked, changed, finished, has_answered, have_answered, heard, incompletely_finished, is_asked, is_away, is_done_by, is_first, is_mute, is_next, is_no_later, is_over, is_overdue, is_rested, is_settled, is_up_to_date, lapsed, owes, partly_finished, settled, stood, unanswered, wait_end, waited_anew};

use std::alloc::{AllocError, Global};
use std::marker::Model;

/// How long a peer that was asked is waited for, from then on or from the last row that it brought, in milliseconds.
pub const PATIENCE: u64 = 5_000;

/// How long a peer that was asked is waited for in all, whatever it brings, in milliseconds.
const LONGEST: u64 = 600_000;

/// How long after its start a node waits for sessions with all peers, in milliseconds.
pub const ALONE: u64 = 5_000;

/// From when a peer is asked, or last brings a row, to when it can be asked again on the same session, in milliseconds.
const PAUSE: u64 = 60_000;

/// From when a peer is asked to when it can be asked again on the same session, whatever it brings, in milliseconds.
const LATEST: u64 = LONGEST + PAUSE;

/// How a peer stands to being asked.
#[derive(Clone, Copy, Debug, PartialEq, Eq)]
pub enum Standing {
    /// There is no session with it.
    Away,
    /// It wasn't asked on its session.
    Unasked,
    /// It was asked on its session, and hasn't answered.
    Asked,
    /// It was asked on its session, and answered that it taught what it has, which isn't all.
    Partial,
    /// It was asked on its session, and has taught all rows, but for tables that it defines differently from this node, or not at all.
    Incomplete,
}

impl Standing {
    /// Returns whether there is no session with the peer.
    fn is_away(self) -> bool
        ensures { result ≡ is_away self }
    {
        matches!(self, Standing::Away)
    }

    /// Returns whether the peer was asked on its session, and hasn't answered.
    fn is_asked(self) -> bool
        ensures { result ≡ is_asked self }
    {
        matches!(self, Standing::Asked)
    }

    /// Returns whether the peer has taught what it has, which isn't all.
    fn has_answered(self) -> bool
        ensures { result ≡ has_answered self }
    {
        matches!(self, Standing::Partial | Standing::Incomplete)
    }
}

/// A peer that may be asked.
#[derive(Clone, Copy, Debug)]
pub struct Candidate {
    standing: Standing,
    /// When it was last asked, in milliseconds since the node began.
    asked_at: Option<u64>,
    /// When it was last asked, or brought a row and owed an answer, in milliseconds since the node began.
    since: Option<u64>,
}

/// The peer that is waited for.
#[derive(Clone, Copy, Debug)]
pub struct Awaited {
    /// Its index.
    peer: usize,
    /// When it was asked, in milliseconds since the node began.
    asked_at: u64,
    /// When it was asked, or last brought a row, in milliseconds since the node began.
    since: u64,
}

/// Why a peer that was asked isn't waited for any longer.
#[derive(Clone, Copy, Debug, PartialEq, Eq)]
pub enum WaitEnd {
    /// It has brought neither a row nor its end for `PATIENCE`.
    Mute,
    /// It was asked `LONGEST` ago, and goes on bringing rows.
    Endless,
}

/// How far a node is with asking its peers for all rows.
///
/// It asks one peer at a time, and of those that can be asked the one that was asked longest ago. It waits for a peer until that
/// ends its resync, loses its session, or has brought no row for `PATIENCE`, and for `LONGEST` in all; an end that comes later counts
/// all the same. A peer that didn't answer, or only in part, can be asked again a minute after it was asked or last brought a row, at the
/// latest `LATEST` after it was asked, or on its next session; one that defines a table differently from this node, or not at all, only on its
/// next session: HAProxy defines a table only once on a session. The node asks until a peer has taught it all rows. It is up to date from
/// then on, or once all peers with a session have taught what they have.
#[derive(Drop)]
pub struct Asking {
    /// Whether a peer has taught all rows, or there is no peer.
    taught: bool,
    /// Whether the node took itself to be up to date since nobody had more to teach.
    settled: bool,
    /// Whether a peer that was asked has shown that it defines some table differently from this node, or not at all.
    incomplete: bool,
    awaited: Option<Awaited>,
    /// The peers, in the configuration's order.
    peers: Vec<Candidate>,
}

impl Model for Asking {
    ghost use Rattle.node_core.specs.CatchingUp.{AskingState};

    ghost Value = { AskingState };

    ghost view = { λ a. record { taught = a.taught; settled = a.settled; incomplete = a.incomplete; awaited = a.awaited; peers = a.peers.items } };
}

/// Returns whether `PAUSE` has passed since `since`, if there is such a moment.
fn is_rested(since: Option<u64>, now: u64) -> bool
    ensures { result ≡ is_rested now since }
{
    match since {
        Some(since) => now.saturating_sub(since) >= PAUSE,
        None => true,
    }
}

/// Returns whether a peer that was last asked at `asked_at` was asked `LATEST` ago, or was never asked.
fn is_overdue(asked_at: Option<u64>, now: u64) -> bool
    ensures { result ≡ is_overdue now asked_at }
{
    match asked_at {
        Some(asked) => now.saturating_sub(asked) >= LATEST,
        None => true,
    }
}

/// Returns whether a peer that was last asked at `one` was asked no later than one that was last asked at `other`.
fn is_no_later(one: Option<u64>, other: Option<u64>) -> bool
    ensures { result ≡ is_no_later one other }
{
    match (one, other) {
        (None, _) => true,
        (Some(_), None) => false,
        (Some(one), Some(other)) => one <= other,
    }
}

impl Candidate {
    /// Returns whether the peer can be asked.
    fn can_be_asked(self, now: u64) -> bool
        ensures { result ≡ can_be_asked now self }
    {
        match self.standing {
            Standing::Away | Standing::Incomplete => false,
            Standing::Unasked => true,
            Standing::Asked | Standing::Partial => {
                is_rested(self.since, now) || is_overdue(self.asked_at, now)
            }
        }
    }

    /// Returns how the peer stands once it has brought a row.
    fn brought(self, now: u64) -> Candidate
        ensures { result ≡ brought now self }
    {
        if !self.standing.is_asked() {
            return self;
        }
        Candidate {
            since: Some(now),
            ..self
        }
    }
}

/// Returns whether none of the peers that can be asked was asked longer ago than `one`.
fn is_first_of(peers: &[Candidate], one: Candidate, now: u64) -> bool
    ensures { result ≡ list_all (λ q. not (can_be_asked now q) || is_no_later one.asked_at q.asked_at) peers.now }
{
    for other in peers {
        if other.can_be_asked(now) && !is_no_later(one.asked_at, other.asked_at) {
            return false;
        }
    }
    true
}

/// Returns whether the peer with this index can be asked, and none of those that can was asked longer ago.
fn is_first(peers: &[Candidate], peer: usize, now: u64) -> bool
    ensures { result ≡ is_first now peers.now (slice_get peers.now peer) }
{
    match peers.get(peer) {
        Some(one) => one.can_be_asked(now) && is_first_of(peers, *one, now),
        None => false,
    }
}

/// Returns whether the peer with this index was asked on its session, and hasn't answered.
fn owes(peers: &[Candidate], peer: usize) -> bool
    ensures { result ≡ owes (slice_get peers.now peer) }
{
    match peers.get(peer) {
        Some(one) => one.standing.is_asked(),
        None => false,
    }
}

/// Notes how the peer with this index stands.
fn set_standing(peers: &mut [Candidate], peer: usize, standing: Standing)
    ensures { peers.new ≡ changed (λ p. record p { standing = standing }) peer peers.old }
{
    if let Some(one) = peers.get(peer) {
        peers[peer] = Candidate { standing, ..*one };
    }
}

/// Notes that the peer with this index is asked.
#[tactic(auto, using(crate::proofs::Changed::constant_changed, crate::proofs::Changed::past_changed))]
fn set_asked(peers: &mut [Candidate], peer: usize, now: u64)
    ensures { peers.new ≡ changed (λ p. record { standing = standings.Asked; asked_at = Some now; since = Some now }) peer peers.old }
{
    if peer < peers.len() {
        peers[peer] = Candidate {
            standing: Standing::Asked,
            asked_at: Some(now),
            since: Some(now),
        };
    }
}

/// Notes that the peer with this index has brought a row.
fn set_brought(peers: &mut [Candidate], peer: usize, now: u64)
    ensures { peers.new ≡ changed (brought now) peer peers.old }
{
    if let Some(one) = peers.get(peer) {
        peers[peer] = one.brought(now);
    }
}

/// Returns whether all peers that have a session have taught what they have, and there is one.
fn have_answered(peers: &[Candidate]) -> bool
    ensures { result ≡ have_answered peers.now }
{
    any_answered(peers) && all_answered(peers)
}

/// Returns whether some peer has taught what it has, which isn't all.
fn any_answered(peers: &[Candidate]) -> bool
    ensures { result ≡ list_any (λ p. has_answered p.standing) peers.now }
{
    for peer in peers {
        if peer.standing.has_answered() {
            return true;
        }
    }
    false
}

/// Returns whether all peers that have a session have taught what they have.
fn all_answered(peers: &[Candidate]) -> bool
    ensures { result ≡ list_all (λ p. is_away p.standing || has_answered p.standing) peers.now }
{
    for peer in peers {
        if !(peer.standing.is_away() || peer.standing.has_answered()) {
            return false;
        }
    }
    true
}

/// Returns whether all peers have a session.
fn are_there(peers: &[Candidate]) -> bool
    ensures { result ≡ list_all (λ p. not (is_away p.standing)) peers.now }
{
    for peer in peers {
        if peer.standing.is_away() {
            return false;
        }
    }
    true
}

impl Awaited {
    /// Returns whether the peer has brought neither a row nor its end for `PATIENCE`.
    fn is_mute(self, now: u64) -> bool
        ensures { result ≡ is_mute now self }
    {
        now.saturating_sub(self.since) >= PATIENCE
    }

    /// Returns whether the peer has brought neither a row nor its end for `PATIENCE`, or was asked `LONGEST` ago.
    fn is_over(self, now: u64) -> bool
        ensures { result ≡ is_over now self }
    {
        self.is_mute(now) || now.saturating_sub(self.asked_at) >= LONGEST
    }

    /// Returns why the wait is over, if it is.
    fn wait_end(self, now: u64) -> WaitEnd
        ensures { result ≡ wait_end now self }
    {
        if self.is_mute(now) {
            WaitEnd::Mute
        } else {
            WaitEnd::Endless
        }
    }
}

impl Asking {
    /// Returns how a node with `peers` peers begins. Without peers it is up to date at once.
    pub fn new(alloc: Global, peers: usize) -> Result<Asking, AllocError>
        ensures taught { IfOk result (λ asking. asking.taught ≡ (peers == 0)) }
        ensures settled { IfOk result (λ asking. asking.settled ≡ false) }
        ensures incomplete { IfOk result (λ asking. asking.incomplete ≡ false) }
        ensures awaited { IfOk result (λ asking. asking.awaited ≡ None) }
        ensures peers { IfOk result (λ asking. asking.peers ≡ replicate peers (record { standing = standings.Away; asked_at = None; since = None })) }
    {
        let away = Candidate {
            standing: Standing::Away,
            asked_at: None,
            since: None,
        };
        Ok(Asking {
            taught: peers == 0,
            settled: false,
            incomplete: false,
            awaited: None,
            peers: vec![in alloc; away; peers]?,
        })
    }

    /// Returns whether the node is up to date.
    pub fn is_up_to_date(&self) -> bool
        ensures { result ≡ is_up_to_date self.now }
    {
        self.taught || self.settled
    }

    /// Returns whether a peer has taught the node all rows, or there is no peer, so that no peer is asked from now on.
    pub fn is_taught(&self) -> bool
        ensures { result ≡ self.now.taught }
    {
        self.taught
    }

    /// Returns whether a peer that was asked has shown that it defines some table differently from this node, or not at all, so that another peer
    /// may have rows that this node lacks though it is up to date.
    pub fn is_incomplete(&self) -> bool
        ensures { result ≡ self.now.incomplete }
    {
        self.incomplete
    }

    /// Notes that a session with the peer with this index begins.
    pub fn begin(&mut self, peer: usize)
        ensures { self.new ≡ stood standings.Unasked peer self.old }
    {
        self.stand(peer, Standing::Unasked);
    }

    /// Notes that the session with the peer with this index is over.
    pub fn end(&mut self, peer: usize)
        ensures { self.new ≡ stood standings.Away peer self.old }
    {
        self.stand(peer, Standing::Away);
    }

    /// Notes how the peer with this index stands, and that it isn't waited for.
    fn stand(&mut self, peer: usize, standing: Standing)
        ensures { self.new ≡ stood standing peer self.old }
    {
        if let Some(awaited) = self.awaited {
            if awaited.peer == peer {
                self.awaited = None;
            }
        }
        set_standing(self.peers.as_mut_slice(), peer, standing);
    }

    /// Returns whether the peer with this index is to be asked now.
    fn is_next(&self, peer: usize, now: u64) -> bool
        ensures { result ≡ is_next peer now self.now }
    {
        !self.taught && self.awaited.is_none() && is_first(self.peers.as_slice(), peer, now)
    }

    /// Returns whether the peer with this index is to be asked now, and notes that it is.
    pub fn ask(&mut self, peer: usize, now: u64) -> bool
        ensures asks { result ≡ is_next peer now self.old }
        ensures asked { self.new ≡ asked_if_next peer now self.old }
    {
        if !self.is_next(peer, now) {
            return false;
        }
        self.awaited = Some(Awaited {
            peer,
            asked_at: now,
            since: now,
        });
        set_asked(self.peers.as_mut_slice(), peer, now);
        true
    }

    /// Notes that the peer with this index has brought a row. If it owes an answer, it isn't asked again for a minute from then on, unless
    /// it was asked `LATEST` ago.
    pub fn hear(&mut self, peer: usize, now: u64)
        ensures { self.new ≡ heard peer now self.old }
    {
        if let Some(awaited) = self.awaited {
            if awaited.peer == peer {
                self.awaited = Some(Awaited {
                    since: now,
                    ..awaited
                });
            }
        }
        set_brought(self.peers.as_mut_slice(), peer, now);
    }

    /// Notes that the peer with this index has ended its resync as finished, and defines all tables as this node does. This counts if it was
    /// asked. Returns whether the node becomes up to date by that.
    pub fn finish(&mut self, peer: usize) -> bool
        ensures done { result ≡ is_done_by peer self.old }
        ensures finished { self.new ≡ finished peer self.old }
    {
        if !owes(self.peers.as_slice(), peer) {
            return false;
        }
        let done = !self.is_up_to_date();
        self.taught = true;
        self.awaited = None;
        done
    }

    /// Notes that the peer with this index has ended its resync as partial, which counts if it was asked, and whether it defines some table
    /// differently from this node, or not at all (`lacks`).
    pub fn finish_partly(&mut self, peer: usize, lacks: bool)
        ensures { self.new ≡ partly_finished lacks peer self.old }
    {
        if owes(self.peers.as_slice(), peer) {
            self.stand(peer, Standing::Partial);
            self.incomplete = self.incomplete || lacks;
        }
    }

    /// Notes that the peer with this index has ended its resync as finished, and defines some table differently from this node, or not at all.
    /// This counts if it was asked.
    pub fn finish_incompletely(&mut self, peer: usize)
        ensures { self.new ≡ incompletely_finished peer self.old }
    {
        if owes(self.peers.as_slice(), peer) {
            self.stand(peer, Standing::Incomplete);
            self.incomplete = true;
        }
    }

    /// Notes that the node was held up until `now`, so that the peer that is waited for has its `PATIENCE` anew: what it brought meanwhile
    /// isn't read yet.
    pub fn wait_anew(&mut self, now: u64)
        ensures { self.new ≡ waited_anew now self.old }
    {
        if let Some(awaited) = self.awaited {
            self.awaited = Some(Awaited {
                since: now,
                ..awaited
            });
        }
    }

    /// Ends the wait for a peer that has brought neither a row nor its end for `PATIENCE`, or was asked `LONGEST` ago, and returns its index,
    /// and which of the two it is.
    pub fn lapse(&mut self, now: u64) -> Option<(usize, WaitEnd)>
        ensures peer { result ≡ unanswered now self.old.awaited }
        ensures lapsed { self.new ≡ lapsed now self.old }
    {
        match self.awaited {
            Some(awaited) if awaited.is_over(now) => {
                self.awaited = None;
                Some((awaited.peer, awaited.wait_end(now)))
            }
            _ => None,
        }
    }

    /// Takes the node to be up to date if nobody has more to teach. Returns whether it does so now. It goes on to ask.
    pub fn settle(&mut self, now: u64) -> bool
        ensures settles { result ≡ is_settled now self.old }
        ensures settled { self.new ≡ settled now self.old }
    {
        let is_time = now >= ALONE || are_there(self.peers.as_slice());
        if self.is_up_to_date() || !is_time || !have_answered(self.peers.as_slice()) {
            return false;
        }
        self.settled = true;
        true
    }
}
