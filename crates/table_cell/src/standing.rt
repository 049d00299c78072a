//! Laws of standing resyncs, whatever the program does.

ghost use Rattle.std.specs.Prelude.{◌≡◌, ◌≤◌, ◌-◌, ℕ, List, Some, false};
ghost use Rattle.std.specs.List.{list_any};
ghost use Rattle.table_cell.specs.declared.events.CellEvent.{CellEvent};
ghost use Rattle.table_cell.specs.declared.events.CellReply.{CellReply};
ghost use Rattle.table_cell.specs.declared.progress.Progress.{Progress};
ghost use Rattle.table_cell.specs.Machine.{Replays, Step, TableState, progress_of};
ghost use Rattle.table_cell.specs.Soundness.{AreTimely, IsSound};
ghost use Rattle.table_cell.specs.Standing.{AreAmong, is_close_of, left_standing, standing_batches};

/// In a sound table an event that doesn't close an open session leaves it open, with the same bound and with numbers that are
/// no less. What standing resyncs have still to copy for it then, at a later moment or the same, is among what they had to
/// copy before: no row enters it.
pub fn what_is_left_shrinks()
    ensures stays { (s e : TableState) (event : CellEvent) (reply : CellReply) (session : ℕ) (p : Progress) →
        IsSound s → Step s event reply e → is_close_of session event ≡ false → progress_of session s ≡ Some p →
        (q : Progress) × (progress_of session e ≡ Some q) × (q.bound ≡ p.bound) × (p.acknowledged ≤ q.acknowledged) × (p.taught ≤ q.taught) }
    ensures left { (s e : TableState) (event : CellEvent) (reply : CellReply) (session now later : ℕ) (p : Progress) →
        IsSound s → Step s event reply e → is_close_of session event ≡ false → progress_of session s ≡ Some p → now ≤ later →
        AreAmong (left_standing session now s) (left_standing session later e) }
{}

/// As long as an open session isn't closed, it is handed at most as many batches of standing resyncs as there are numbers
/// above what it was taught, up to its bound: since its opening at most as many as the table had numbers assigned then.
pub fn standing_resyncs_end()
    ensures { (s e : TableState) (hs : List (CellEvent × CellReply)) (session : ℕ) (p : Progress) →
        AreTimely hs → IsSound s → Replays s hs e → list_any (λ h. is_close_of session h.0) hs ≡ false → progress_of session s ≡ Some p →
        standing_batches session hs ≤ p.bound - p.taught }
{}
