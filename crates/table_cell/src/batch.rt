//! The batch that a copy returns.

ghost use Rattle.std.specs.Prelude.{◌≡◌, ◌≤◌, ◌<◌, ◌∷◌, ◌^◌, [], IfErr, IfOk, OnOk};
ghost use Rattle.table_cell.specs.Parts.{IsCopy, IsNotCopied};
ghost use Rattle.table_cell.specs.Soundness.{IsSound};
ghost use Rattle.table_types.specs.Batches.{IsBatchFor};

use crate::errors::CopyError;
use crate::table::Table;
use table_types::{Batch, CopyKind, Moment, Update};

impl Table {
    /// Returns the updates of a copy: the rows that the session hasn't acknowledged, at most `limit` of them.
    fn copied(
        &self,
        session: u32,
        kind: CopyKind,
        limit: usize,
        now: Moment,
    ) -> Result<Vec<Update>, CopyError>
        requires sound { IsSound self.now }
        requires some { 1 ≤ limit }
        ensures copied { IfOk result (λ updates. IsCopy self.now session kind limit now updates.items) }
        ensures refused { IfErr result (IsNotCopied self.now session kind limit now) }
        ensures timely { OnOk result (now < 2 ^ 63) }
    {
        let progress = self.ready_to_copy(session, now)?;
        let Ok(updates) = self.unacked(progress, kind, limit, now) else {
            return Err(CopyError::Memory);
        };
        if updates.is_empty() {
            return Err(CopyError::Nothing);
        }
        Ok(updates)
    }

    /// Returns the batch of a copy: the rows that the session hasn't acknowledged, at most `limit` of them. If a push finds
    /// nothing, remembers the rows that later pushes skip. The state of the table stays as it is.
    pub(crate) fn batch(
        &mut self,
        session: u32,
        kind: CopyKind,
        limit: usize,
        now: Moment,
    ) -> Result<Batch, CopyError>
        requires sound { IsSound self.old }
        requires limit { (1 ≤ limit) × (limit ≤ 4096) }
        ensures batch { IfOk result (IsCopy self.old session kind limit now) }
        ensures for_table { IfOk result (λ batch. IsBatchFor (self.old.definition ∷ []) batch) }
        ensures refused { IfErr result (IsNotCopied self.old session kind limit now) }
        ensures timely { OnOk result (now < 2 ^ 63) }
        ensures stays { self.new ≡ self.old }
    {
        let updates = match self.copied(session, kind, limit, now) {
            Ok(copied) => copied,
            Err(CopyError::Nothing) => {
                self.pass_learned(session, kind, now);
                return Err(CopyError::Nothing);
            }
            Err(error) => return Err(error),
        };
        let Ok(batch) = Batch::of_fitting(self.alloc, updates) else {
            return Err(CopyError::Memory);
        };
        Ok(batch)
    }
}
