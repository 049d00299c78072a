//! Runs of rows that later pushes skip: learned rows, and rows that ended.

ghost use Rattle.std.specs.Prelude.{◌≡◌, ◌≤◌, ◌+◌, ◌++◌, ◌∷◌, [], ℕ, List, filter};
ghost use Rattle.table_types.specs.declared.key.Key.{Key};
ghost use Rattle.table_types.specs.Rows.{StoredRow};
ghost use Rattle.table_types.specs.declared.copies.CopyKind.TheVariants as kinds;
ghost use Rattle.table_cell.specs.LearnedRuns.{IsLearnedRun};
ghost use Rattle.table_cell.specs.Machine.{Leaves, acknowledged_by, bound_by, in_reach, is_unacked, progress_of, without};

use crate::table::Table;
use table_types::{CopyKind, Moment, Row};

/// A run of numbers, above `after` and up to `last`, in which every row is learned, or not live at `since`: no push at
/// `since` or later includes it.
#[derive(Clone, Copy, Debug)]
pub(crate) struct LearnedRun {
    pub(crate) after: u32,
    pub(crate) last: u32,
    pub(crate) since: Moment,
}

impl Table {
    /// Returns the run to remember when a push from `number` finds nothing at `now`: it goes up to the last number assigned,
    /// and begins where the known run does, if that reaches `number`.
    fn learned_from(&self, number: u32, now: Moment) -> LearnedRun
        requires { filter (is_unacked kinds.Push number now) self.now.rows ≡ [] }
        ensures { IsLearnedRun result.after result.last self.now.next result.since self.now.rows }
    {
        let LearnedRun { after, last, since } = self.learned_run;
        let end = self.stock.last_number();
        if after <= number && number <= last && since.milliseconds() <= now.milliseconds() {
            return LearnedRun {
                after,
                last: end,
                since: now,
            };
        }
        LearnedRun {
            after: number,
            last: end,
            since: now,
        }
    }

    /// Returns the run once `row`, which has the next number, is stored. It goes on to the row if the row is learned and the
    /// run reaches the number before.
    pub(crate) fn run_with(&self, row: &Row) -> LearnedRun
        requires { row.now.number ≡ self.now.next }
        ensures { (key : Key) (rest : List (Key × StoredRow)) → Leaves self.now key rest →
            IsLearnedRun result.after result.last (self.now.next + 1) result.since (without key rest ++ (key, row.now) ∷ []) }
    {
        let LearnedRun { after, last, since } = self.learned_run;
        if row.is_learned() && u64::from(last) + 1 == self.stock.next() {
            return LearnedRun {
                after,
                last: row.number(),
                since,
            };
        }
        self.learned_run
    }

    /// Remembers, if a push at `now` found nothing, that no push from then on includes a row above what the session has
    /// acknowledged, so that later pushes skip these rows. The state of the table stays as it is. Takes constant time, and
    /// doesn't allocate.
    pub(crate) fn pass_learned(&mut self, session: u32, kind: CopyKind, now: Moment)
        requires { filter (is_unacked kind (acknowledged_by (progress_of session self.old)) now) (in_reach kind (bound_by (progress_of session self.old)) self.old.rows) ≡ [] }
        ensures { self.new ≡ self.old }
    {
        match kind {
            CopyKind::Push => {
                self.learned_run = self.learned_from(self.acknowledged(session), now);
            }
            CopyKind::Resync | CopyKind::Standing => {}
        }
    }

    /// Returns the number above which a copy of `kind` at `now` has to look if `number` is acknowledged: it includes no row
    /// in between.
    pub(crate) fn copy_start(&self, kind: CopyKind, number: u32, now: Moment) -> u32
        ensures same { filter (is_unacked kind number now) self.now.rows ≡ filter (is_unacked kind result now) self.now.rows }
        ensures onward { number ≤ result }
    {
        let LearnedRun { after, last, since } = self.learned_run;
        match kind {
            CopyKind::Push
                if after <= number && number < last && since.milliseconds() <= now.milliseconds() =>
                { last }
            _ => number,
        }
    }
}
