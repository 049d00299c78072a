//! Laws of what a session is handed of a table, whatever the program does.

ghost use Rattle.std.specs.Prelude.{◌≡◌, ◌≤◌, ◌++◌, ℕ, Bool, List, false, true, None, Some};
ghost use Rattle.std.specs.List.{AllByRecursion};
ghost use Rattle.table_types.specs.declared.copies.CopyKind.{CopyKind};
ghost use Rattle.table_types.specs.declared.update.Update.{Update};
ghost use Rattle.table_rows.specs.Rows.{is_live};
ghost use Rattle.table_cell.specs.declared.errors.CopyError.TheVariants as uncopied;
ghost use Rattle.table_cell.specs.declared.events.CellEvent.{CellEvent};
ghost use Rattle.table_cell.specs.declared.events.CellReply.{CellReply};
ghost use Rattle.table_cell.specs.declared.progress.Progress.{Progress};
ghost use Rattle.table_cell.specs.Machine.{bound_by, copy_refusal, in_reach, is_copied, last_number, progress_of};
ghost use Rattle.table_cell.specs.Histories.{CellState, IsSoundCell, Made};
ghost use Rattle.table_cell.specs.Handing.{IsLastOfItsKey, IsReached, KeepsUp, handed_since, is_about, is_of_each_kind, resyncs_since};

/// A sound cell that keeps up with a session still does so after one more event, whatever the event. A cell keeps up with
/// each session that isn't open there, and a sound cell with each that wasn't open when its history began.
pub fn a_cell_keeps_up()
    ensures event { (c e : CellState) (event : CellEvent) (reply : CellReply) (session : ℕ) →
        IsSoundCell c → Made c event reply e → KeepsUp session c → KeepsUp session e }
    ensures closed { (c : CellState) (session : ℕ) → progress_of session c.state ≡ None → KeepsUp session c }
    ensures history { (c : CellState) (session : ℕ) → IsSoundCell c → progress_of session c.base ≡ None → KeepsUp session c }
{}

/// Take a sound cell that keeps up with a session, and one of its rows that is live at a moment not before the latest one,
/// with a number up to the one that the session acknowledged; the row isn't learned, or all copies were resyncs. Then the
/// row was handed out under its number, and no later update that was handed out has its key. The same holds of any front
/// of what was handed out that goes as far as the number acknowledged. If a copy finds nothing, it holds of each such row
/// in the reach of that copy that a copy of its kind would include, whatever the row's number.
pub fn acknowledged_rows_were_handed_out()
    ensures all { (c : CellState) (session now : ℕ) (p : Progress) →
        IsSoundCell c → KeepsUp session c → progress_of session c.state ≡ Some p → c.state.latest ≤ now →
        AllByRecursion (λ e. IsReached (resyncs_since session c.history) p.acknowledged now e → IsLastOfItsKey (handed_since session c.history) e) c.state.rows }
    ensures front { (c : CellState) (session now : ℕ) (p : Progress) (taken rest : List Update) →
        IsSoundCell c → KeepsUp session c → progress_of session c.state ≡ Some p → c.state.latest ≤ now →
        handed_since session c.history ≡ taken ++ rest → p.acknowledged ≤ last_number 0 taken →
        AllByRecursion (λ e. IsReached (resyncs_since session c.history) p.acknowledged now e → IsLastOfItsKey taken e) c.state.rows }
    ensures nothing { (c : CellState) (session limit now : ℕ) (kind : CopyKind) (full : Bool) →
        IsSoundCell c → KeepsUp session c → 1 ≤ limit → copy_refusal full c.state session kind limit now ≡ Some uncopied.Nothing →
        AllByRecursion (λ e. is_live now e.1 ≡ true → is_copied kind e.1 ≡ true → is_of_each_kind (resyncs_since session c.history) e.1 ≡ true →
        IsLastOfItsKey (handed_since session c.history) e) (in_reach kind (bound_by (progress_of session c.state)) c.state.rows) }
{}

/// An event that isn't about a session changes neither its progress, nor what it was handed, nor whether that was by resyncs alone.
pub fn other_events_hand_nothing()
    ensures { (c e : CellState) (event : CellEvent) (reply : CellReply) (session : ℕ) →
        is_about session event ≡ false → Made c event reply e →
        (progress_of session e.state ≡ progress_of session c.state)
        × (handed_since session e.history ≡ handed_since session c.history)
        × (resyncs_since session e.history ≡ resyncs_since session c.history) }
{}
