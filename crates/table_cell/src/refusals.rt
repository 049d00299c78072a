//! Why a table refuses an event: the first reason that applies, in the order of each kind of event. `full` says that
//! the history has no room for another event.

ghost use Rattle.std.specs.Prelude.{◌≡◌, ◌≢◌, ◌≤◌, ◌<◌, ◌^◌, Bool, ℕ, IfErr, IfNone, IfOk, OnOk, Some, false, nat_le, nat_lt, true};
ghost use Rattle.table_types.specs.declared.copies.CopyKind.{CopyKind};
ghost use Rattle.table_cell.specs.declared.errors.CopyError.TheVariants as errors;
ghost use Rattle.table_cell.specs.Machine.{ack_refusal, close_refusal, copy_refusal, is_of_table, is_out, learn_refusal, open_refusal, progress_of, purge_refusal, track_refusal};

use crate::errors::{
    AckError, CloseError, CopyError, LearnError, OpenError, PurgeError, TrackError,
};
use crate::progress::Progress;
use crate::table::Table;
use table_types::{Change, CopyKind, Key, Moment, TableDef, Update};

/// Returns whether the update belongs to the table, whatever its life.
fn is_of_table(definition: &TableDef, update: &Update) -> bool
    ensures { result ≡ is_of_table definition.now update.now }
{
    update.table == definition.id()
        && definition.row_fits(&update.key, update.values.as_slice())
        && definition.may_be_named(&update.name)
}

impl Table {
    /// Returns whether all numbers are assigned.
    fn is_spent(&self) -> bool
        ensures { result ≡ nat_le (2 ^ 32) self.now.next }
    {
        self.stock.next() >= 1 << 32
    }

    /// Returns why a change of the row of `key` at `now` is refused, or `None` if it isn't.
    pub(crate) fn track_refusal(
        &self,
        full: bool,
        key: &Key,
        change: &Change,
        now: Moment,
    ) -> Option<TrackError>
        ensures refusal { result ≡ track_refusal full self.now key.now change.now now }
        ensures timely { IfNone result (now < 2 ^ 63) }
    {
        if !key.fits(self.definition.kind(), self.definition.key_length()) {
            Some(TrackError::WrongKey)
        } else if !self.definition.change_fits(change) {
            Some(TrackError::NoSuchData)
        } else if self.is_past(now) {
            Some(TrackError::MomentBack)
        } else if full {
            Some(TrackError::HistoryFull)
        } else if self.is_spent() {
            Some(TrackError::Spent)
        } else if self.is_full(key, now) {
            Some(TrackError::TableFull)
        } else {
            None
        }
    }

    /// Returns why `update` isn't learned in `session` at `now`, or `None` if it is.
    pub(crate) fn learn_refusal(
        &self,
        full: bool,
        session: u32,
        update: &Update,
        now: Moment,
    ) -> Option<LearnError>
        ensures refusal { result ≡ learn_refusal full self.now session update.now now }
        ensures timely { IfNone result (now < 2 ^ 63) }
    {
        if self.progress(session).is_none() {
            Some(LearnError::NoSession)
        } else if !is_of_table(&self.definition, update) {
            Some(LearnError::Misfit)
        } else if self.is_past(now) {
            Some(LearnError::MomentBack)
        } else if full {
            Some(LearnError::HistoryFull)
        } else if self.is_spent() {
            Some(LearnError::Spent)
        } else if self.is_full(&update.key, now) {
            Some(LearnError::TableFull)
        } else {
            None
        }
    }

    /// Returns the progress of `session`, or why a copy for it at `now` is refused whatever the rows are.
    pub(crate) fn ready_to_copy(&self, session: u32, now: Moment) -> Result<Progress, CopyError>
        ensures ready { IfOk result (λ progress. (progress_of session self.now ≡ Some progress) × (nat_lt now self.now.latest ≡ false) × (is_out progress ≡ false)) }
        ensures timely { OnOk result (now < 2 ^ 63) }
        ensures refused { IfErr result (λ error. (full : Bool) (kind : CopyKind) (limit : ℕ) → copy_refusal full self.now session kind limit now ≡ Some error) }
        ensures error { IfErr result (λ error. error ≢ errors.Memory) }
    {
        let Some(progress) = self.progress(session) else {
            return Err(CopyError::NoSession);
        };
        if self.is_past(now) {
            Err(CopyError::MomentBack)
        } else if progress.acknowledged < progress.taught {
            Err(CopyError::BatchOut)
        } else {
            Ok(progress)
        }
    }

    /// Returns why a copy of `kind` for `session` at `now` is refused if the history is full.
    pub(crate) fn copy_refusal_when_full(
        &self,
        session: u32,
        kind: CopyKind,
        limit: usize,
        now: Moment,
    ) -> CopyError
        requires { 1 ≤ limit }
        ensures refusal { copy_refusal true self.now session kind limit now ≡ Some result }
        ensures error { result ≢ errors.Memory }
    {
        let progress = match self.ready_to_copy(session, now) {
            Ok(progress) => progress,
            Err(error) => return error,
        };
        let first = self.first_unacked(progress.acknowledged, progress.bound, kind, now);
        if first.is_none() {
            CopyError::Nothing
        } else {
            CopyError::HistoryFull
        }
    }

    /// Returns why an acknowledgement of `number` is refused, or `None` if it isn't.
    pub(crate) fn ack_refusal(&self, full: bool, session: u32, number: u32) -> Option<AckError>
        ensures { result ≡ ack_refusal full self.now session number }
    {
        let Some(progress) = self.progress(session) else {
            return Some(AckError::NoSession);
        };
        if progress.taught < number {
            Some(AckError::AckAhead)
        } else if full {
            Some(AckError::HistoryFull)
        } else {
            None
        }
    }

    /// Returns why `session` isn't opened, or `None` if it is.
    pub(crate) fn open_refusal(&self, full: bool, session: u32) -> Option<OpenError>
        ensures { result ≡ open_refusal full self.now session }
    {
        if self.progress(session).is_some() {
            Some(OpenError::AlreadyOpen)
        } else if self.sessions.len() >= 16 {
            Some(OpenError::TooMany)
        } else if full {
            Some(OpenError::HistoryFull)
        } else {
            None
        }
    }

    /// Returns why `session` isn't closed, or `None` if it is.
    pub(crate) fn close_refusal(&self, full: bool, session: u32) -> Option<CloseError>
        ensures { result ≡ close_refusal full self.now session }
    {
        if self.progress(session).is_none() {
            Some(CloseError::NoSession)
        } else if full {
            Some(CloseError::HistoryFull)
        } else {
            None
        }
    }

    /// Returns why rows aren't purged at `now`, or `None` if they are.
    pub(crate) fn purge_refusal(&self, full: bool, now: Moment) -> Option<PurgeError>
        ensures refusal { result ≡ purge_refusal full self.now now }
        ensures timely { IfNone result (now < 2 ^ 63) }
    {
        if self.is_past(now) {
            Some(PurgeError::MomentBack)
        } else if full {
            Some(PurgeError::HistoryFull)
        } else {
            None
        }
    }
}
