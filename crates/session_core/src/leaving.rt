//! How a session that stays changes its course.

ghost use Rattle.std.specs.Prelude.{◌≡◌, ◌==◌, ◌++◌, not, filter, IfOk, OnOk};
ghost use Rattle.std.specs.List.{list_any};
ghost use Rattle.session_core.specs.Standing.{begun_resync, finishing, leaving, reopening, without_tables};

use crate::action::{Action, push};
use crate::course::Course;
use crate::receiving::push_control;
use crate::share::{Share, all_quiet};
use std::alloc::Global;
use table_types::Memory;

/// Removes the tables with these ids.
fn remove(shares: &mut Vec<Share>, tables: &[u64])
    ensures { shares.new.items ≡ filter (λ s. not (list_any (λ table. table == s.table) tables.now)) shares.old.items }
{
    shares.retain(|share| !tables.contains(&share.table));
}

/// Returns a `Reopen` for each of the tables.
pub(crate) fn reopening(alloc: Global, tables: &[u64]) -> Result<Vec<Action>, Memory>
    ensures { IfOk result (λ actions. actions.items ≡ reopening tables.now) }
{
    let mut actions = Vec::new(alloc);
    for table in tables {
        push(&mut actions, Action::Reopen(*table))?;
    }
    Ok(actions)
}

impl Course {
    /// Ends a resync that has no table left to teach, and appends what says so.
    pub(crate) fn finish(&mut self, alloc: Global, actions: &mut Vec<Action>) -> Result<(), Memory>
        ensures actions { OnOk result (actions.new.items ≡ actions.old.items ++ (finishing self.old).0) }
        ensures course { OnOk result (self.new ≡ (finishing self.old).1) }
    {
        if self.teaching && all_quiet(self.shares.as_slice()) {
            push_control(alloc, actions, self.finished())?;
            self.teaching = false;
        }
        Ok(())
    }

    /// Begins a resync, which ends at once if there is no table to teach.
    pub(crate) fn begin_resync(
        &mut self,
        alloc: Global,
        actions: &mut Vec<Action>,
    ) -> Result<(), Memory>
        ensures actions { OnOk result (actions.new.items ≡ actions.old.items ++ (begun_resync self.old).0) }
        ensures course { OnOk result (self.new ≡ (begun_resync self.old).1) }
    {
        self.begin_teaching(actions)?;
        self.finish(alloc, actions)
    }

    /// Leaves the tables with these ids. All resyncs end as partial from then on.
    fn leave(&mut self, tables: &[u64])
        ensures { self.new ≡ without_tables tables.now self.old }
    {
        remove(&mut self.shares, tables);
        self.up_to_date = false;
    }

    /// Leaves the tables with these ids, if there are any, and ends a resync if only they held it up.
    pub(crate) fn leave_all(
        &mut self,
        alloc: Global,
        tables: &[u64],
        actions: &mut Vec<Action>,
    ) -> Result<(), Memory>
        ensures actions { OnOk result (actions.new.items ≡ actions.old.items ++ (leaving tables.now self.old).0) }
        ensures course { OnOk result (self.new ≡ (leaving tables.now self.old).1) }
    {
        if tables.is_empty() {
            return Ok(());
        }
        self.leave(tables);
        self.finish(alloc, actions)
    }
}
