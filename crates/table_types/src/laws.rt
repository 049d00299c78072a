//! Laws of the definitions.

ghost use Rattle.std.specs.Prelude.{◌≡◌, ◌∷◌, [], List, None, Some};
ghost use Rattle.table_types.specs.declared.update.Update.{Update};
ghost use Rattle.table_types.specs.Tables.{Definition};
ghost use Rattle.table_types.specs.Rosters.{table_at};
ghost use Rattle.table_types.specs.Batches.{IsBatchFor, batch_fault};

/// Updates are a batch for a roster if and only if they have no fault.
pub fn a_batch_has_no_fault()
    ensures only { (roster : List Definition) (us : List Update) → batch_fault roster us ≡ None → IsBatchFor roster us }
    ensures exactly { (roster : List Definition) (us : List Update) → IsBatchFor roster us → batch_fault roster us ≡ None }
{}

/// Updates that are a batch for a single table are one for every roster that has this table at its id.
pub fn a_batch_of_one_table()
    ensures { (d : Definition) (roster : List Definition) (us : List Update) → table_at roster d.id ≡ Some d → IsBatchFor (d ∷ []) us → IsBatchFor roster us }
{}
