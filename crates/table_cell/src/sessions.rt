//! The sessions of a table.

ghost use Rattle.std.specs.Prelude.{◌≡◌, ◌≤◌, ◌==◌, ◌++◌, ◌∷◌, [], OnErr, OnOk, filter, not};
ghost use Rattle.std.specs.List.{list_any};
ghost use Rattle.std.specs.Map.{lookup};
ghost use Rattle.table_cell.specs.Parts.{index_of};
ghost use Rattle.table_cell.specs.Machine.{acknowledged_by, acknowledging, is_any_out, is_out, bound_by, no_progress, progress_of, settled_by, teaching, with_progress};

use crate::progress::Progress;
use crate::table::Table;
use table_types::{Memory, Moment, Settled, Version};

/// Returns the progress of `session`, or `None` if it isn't open.
fn progress_in(sessions: &[(u32, Progress)], session: u32) -> Option<Progress>
    ensures { result ≡ lookup (λ id. id == session) sessions.now }
{
    for entry in sessions {
        if entry.0 == session {
            return Some(entry.1);
        }
    }
    None
}

/// Returns whether a batch of one of the sessions is out.
fn is_any_out(sessions: &[(u32, Progress)]) -> bool
    ensures { result ≡ list_any (λ entry. is_out entry.1) sessions.now }
{
    for entry in sessions {
        if entry.1.acknowledged < entry.1.taught {
            return true;
        }
    }
    false
}

/// Returns the index of `session`, or `None` if it isn't open.
fn index_of(sessions: &[(u32, Progress)], session: u32) -> Option<usize>
    ensures { result ≡ index_of session sessions.now }
{
    for (index, entry) in sessions.iter().enumerate() {
        if entry.0 == session {
            return Some(index);
        }
    }
    None
}

fn acknowledge(sessions: &mut Vec<(u32, Progress)>, session: u32, number: u32)
    ensures { sessions.new.items ≡ with_progress session (acknowledging number) sessions.old.items }
{
    if let Some(index) = index_of(sessions.as_slice(), session) {
        if number > sessions[index].1.acknowledged {
            sessions[index].1.acknowledged = number;
        }
    }
}

fn teach(sessions: &mut Vec<(u32, Progress)>, session: u32, last: u32)
    ensures { sessions.new.items ≡ with_progress session (teaching last) sessions.old.items }
{
    if let Some(index) = index_of(sessions.as_slice(), session) {
        sessions[index].1.taught = last;
    }
}

fn remove(sessions: &mut Vec<(u32, Progress)>, session: u32)
    ensures { sessions.new.items ≡ filter (λ entry. not (entry.0 == session)) sessions.old.items }
{
    sessions.retain(|entry| entry.0 != session);
}

impl Table {
    /// Returns the progress of `session`, or `None` if it isn't open.
    pub(crate) fn progress(&self, session: u32) -> Option<Progress>
        ensures { result ≡ progress_of session self.now }
    {
        progress_in(self.sessions.as_slice(), session)
    }

    /// Returns whether a batch of some open session is out.
    pub(crate) fn is_any_out(&self) -> bool
        ensures { result ≡ is_any_out self.now }
    {
        is_any_out(self.sessions.as_slice())
    }

    /// Returns the number up to which `session` has acknowledged, or 0 if it isn't open.
    pub(crate) fn acknowledged(&self, session: u32) -> u32
        ensures { result ≡ acknowledged_by (progress_of session self.now) }
    {
        match self.progress(session) {
            Some(progress) => progress.acknowledged,
            None => 0,
        }
    }

    /// Returns the number up to which a standing resync copies for `session`, or 0 if it isn't open.
    pub(crate) fn bound(&self, session: u32) -> u32
        ensures { result ≡ bound_by (progress_of session self.now) }
    {
        match self.progress(session) {
            Some(progress) => progress.bound,
            None => 0,
        }
    }

    /// Opens `session`, which isn't open, with this version: it has acknowledged nothing and was taught nothing, and its
    /// bound is the last number assigned. If memory runs out, nothing has changed.
    pub(crate) fn open(&mut self, session: u32, version: Version) -> Result<(), Memory>
        ensures open { OnOk result (self.new ≡ record self.old { sessions = self.old.sessions ++ (session, no_progress version self.old.next) ∷ [] }) }
        ensures stays { OnErr result (self.new ≡ self.old) }
    {
        let progress = Progress {
            acknowledged: 0,
            taught: 0,
            bound: self.stock.last_number(),
            version,
        };
        self.sessions.push((session, progress))?;
        Ok(())
    }

    /// Closes `session`.
    pub(crate) fn close(&mut self, session: u32)
        ensures { self.new ≡ record self.old { sessions = filter (λ entry. not (entry.0 == session)) self.old.sessions } }
    {
        remove(&mut self.sessions, session);
    }

    /// Returns what an acknowledgement of `number` settles.
    pub(crate) fn settled_by(&self, session: u32, number: u32) -> Settled
        ensures { result ≡ settled_by (progress_of session self.now) number }
    {
        match self.progress(session) {
            Some(progress) if number > progress.acknowledged => {
                if number == progress.taught {
                    Settled::All
                } else {
                    Settled::Some
                }
            }
            _ => Settled::Older,
        }
    }

    /// Records that `session` acknowledged `number`, if that is above the number already acknowledged.
    pub(crate) fn acknowledge(&mut self, session: u32, number: u32)
        ensures { self.new ≡ record self.old { sessions = with_progress session (acknowledging number) self.old.sessions } }
    {
        acknowledge(&mut self.sessions, session, number);
    }

    /// Records that `session` was taught a batch whose last number is `last`. `now` becomes the latest moment.
    pub(crate) fn teach(&mut self, session: u32, last: u32, now: Moment)
        ensures { self.new ≡ record self.old { sessions = with_progress session (teaching last) self.old.sessions; latest = now } }
    {
        teach(&mut self.sessions, session, last);
        self.latest = now;
    }
}
