//! What looks at the tables that a peer defines find of those of this node.

ghost use Rattle.std.specs.Prelude.{◌≡◌, ◌&&◌, IfOk, None, is_none, OnErr, OnOk, Some, false, if◌then◌else◌, not};
ghost use Rattle.node_core.specs.Onces.{is_said};
ghost use Rattle.node_rules.specs.Findings.{found_of, is_look, looked, said_after, undefined_after};

use node_core::Once;
use std::alloc::{AllocError, Global};

/// The time between two looks at what a peer has defined, unless it has defined more tables meanwhile, in milliseconds.
const PAUSE: u64 = 2_500;

/// When looks come at what a peer has defined.
#[derive(Clone, Copy, Debug)]
pub struct LookTimes {
    /// How many tables the peer had defined at the last look.
    count: usize,
    /// When the next look is due at the latest, in milliseconds since the node began.
    next: u64,
}

impl LookTimes {
    /// Returns how it is on a connection that begins.
    pub fn new() -> LookTimes
        ensures { result ≡ record { count = 0; next = 0 } }
    {
        LookTimes { count: 0, next: 0 }
    }

    /// Returns whether a look comes now, and notes that it does: if the peer has defined another number of tables than at the last one, or
    /// that was `PAUSE` ago.
    pub fn look(&mut self, count: usize, now: u64) -> bool
        ensures look { result ≡ is_look count now self.old }
        ensures looked { self.new ≡ looked count now self.old }
    {
        if count == self.count && now < self.next {
            return false;
        }
        self.count = count;
        self.next = now.saturating_add(PAUSE);
        true
    }
}

/// What a look finds of a table of this node.
#[derive(Clone, Copy, Debug, PartialEq, Eq)]
pub enum Found {
    /// The peer hasn't defined it, and may still.
    Awaited,
    /// The peer hasn't defined it, although it would have.
    Undefined,
    /// The peer defines it as this node does.
    Alike,
    /// The peer defines it otherwise.
    Unlike,
}

/// Returns what a look finds of a table, given whether the peer has defined it, whether that differs from how this node does, and whether
/// the peer has defined all tables that it will.
pub fn found_of(defined: bool, differs: bool, all_defined: bool) -> Found
    ensures { result ≡ found_of defined differs all_defined }
{
    match (defined, differs, all_defined) {
        (true, true, _) => Found::Unlike,
        (true, false, _) => Found::Alike,
        (false, _, true) => Found::Undefined,
        (false, _, false) => Found::Awaited,
    }
}

/// What was found of a table of this node in all sessions with a peer, and what the log has said of it.
#[derive(Debug, Drop)]
pub struct TableFinding {
    said: Once,
    /// Whether the peer hadn't defined it although it would have, and hasn't since.
    undefined: bool,
}

impl TableFinding {
    /// Returns what was found and said at first: nothing.
    pub fn new() -> TableFinding
        ensures said { result.said.said ≡ None }
        ensures undefined { result.undefined ≡ false }
    {
        TableFinding {
            said: Once::new(),
            undefined: false,
        }
    }

    /// Returns whether the peer hadn't defined it although it would have, and hasn't since.
    pub fn is_undefined(&self) -> bool
        ensures { result ≡ self.now.undefined }
    {
        self.undefined
    }

    /// Returns whether the log has said nothing of it since it was alike.
    pub fn is_silent(&self) -> bool
        ensures { result ≡ is_none self.now.said.said }
    {
        self.said.is_silent()
    }

    /// Notes what a look finds of it. Once the log has had room to say that both define it alike, whatever comes next is news; `has_room`
    /// counts for nothing else.
    pub fn note(&mut self, found: Found, has_room: bool)
        ensures undefined { self.new.undefined ≡ undefined_after found self.old.undefined }
        ensures said { self.new.said.said ≡ said_after found has_room self.old.said.said }
    {
        match found {
            Found::Awaited => {}
            Found::Undefined => self.undefined = true,
            Found::Alike => {
                self.undefined = false;
                if has_room {
                    self.said.forget();
                }
            }
            Found::Unlike => self.undefined = false,
        }
    }

    /// Returns whether the log is to say these words of it now, and notes that it does: if they aren't those that it said last, and it has
    /// room.
    pub fn is_news(
        &mut self,
        alloc: Global,
        words: &[u8],
        has_room: bool,
    ) -> Result<bool, AllocError>
        ensures news { IfOk result (λ news. news ≡ (has_room && not (is_said words.now self.old.said.said))) }
        ensures said { OnOk result (self.new.said.said ≡ (if has_room then Some words.now else self.old.said.said)) }
        ensures stays { OnErr result (self.new.said.said ≡ self.old.said.said) }
        ensures undefined { self.new.undefined ≡ self.old.undefined }
    {
        if !has_room {
            return Ok(false);
        }
        self.said.is_news(alloc, words)
    }
}
