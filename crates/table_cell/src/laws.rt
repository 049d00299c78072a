//! Laws of the definitions, whatever the program does.

ghost use Rattle.std.specs.Prelude.{◌≡◌, ◌≤◌, ◌∷◌, ◌++◌, ◌^◌, [], Bool, ℕ, List, Some, true, false, slice_get, take};
ghost use Rattle.table_types.specs.Tables.{Definition, is_definition};
ghost use Rattle.table_types.specs.Batches.{IsBatchFor};
ghost use Rattle.table_types.specs.declared.copies.CopyKind.{CopyKind};
ghost use Rattle.table_types.specs.declared.update.Update.{Update};
ghost use Rattle.table_cell.specs.declared.events.CellEvent.{CellEvent};
ghost use Rattle.table_cell.specs.declared.events.CellEvent.TheVariants as events;
ghost use Rattle.table_cell.specs.declared.events.CellReply.{CellReply};
ghost use Rattle.table_cell.specs.declared.events.CellReply.TheVariants as replies;
ghost use Rattle.table_cell.specs.Machine.{IsGranted, Replays, Step, TableState, new_table, unacked};
ghost use Rattle.table_cell.specs.Renumbering.{renewed};
ghost use Rattle.table_cell.specs.Soundness.{AreTimely, IsSound, IsTimely};
ghost use Rattle.table_cell.specs.Histories.{AreAscending, CellState, IsLatestBatch, IsReplayed, IsSoundCell, Kept, Made, begun_anew, is_history_full, latest_batch, new_cell};

/// A run continues by one step.
pub fn a_run_goes_on()
    ensures { (s mid e : TableState) (hs : List (CellEvent × CellReply)) (event : CellEvent) (reply : CellReply) →
        Replays s hs mid → Step mid event reply e → Replays s (hs ++ (event, reply) ∷ []) e }
{}

/// In a given state an event has at most one reply and leads to at most one state, so a history leads to at most one
/// state.
pub fn a_step_is_unique()
    ensures step { (s e f : TableState) (event : CellEvent) (a b : CellReply) → Step s event a e → Step s event b f → (a ≡ b) × (e ≡ f) }
    ensures run { (s e f : TableState) (hs : List (CellEvent × CellReply)) → Replays s hs e → Replays s hs f → e ≡ f }
{}

/// A sound table replies to every event that it doesn't refuse.
pub fn a_step_exists()
    ensures { (s : TableState) (event : CellEvent) → IsSound s → IsGranted s event → (reply : CellReply) × (e : TableState) × Step s event reply e }
{}

/// A step keeps a sound table sound if its moment, if it has one, is below 2^63, and so does a run of such steps. A new
/// table is sound.
pub fn a_table_stays_sound()
    ensures step { (s e : TableState) (event : CellEvent) (reply : CellReply) → IsTimely event → IsSound s → Step s event reply e → IsSound e }
    ensures run { (s e : TableState) (hs : List (CellEvent × CellReply)) → AreTimely hs → IsSound s → Replays s hs e → IsSound e }
    ensures new { (d : Definition) (size first : ℕ) (nopurge : Bool) → is_definition d ≡ true → 1 ≤ size → 1 ≤ first → first ≤ 2 ^ 32 →
        IsSound (new_table d size nopurge first) }
{}

/// The rows of a sound table that a session hasn't acknowledged make a batch for that table, and so for each roster in
/// which the table's id denotes it: a life that an update has is 1 to the table's expire, or 0 if its rows never expire,
/// and everything else is in its range.
pub fn what_is_copied_is_a_batch()
    ensures { (s : TableState) (session limit now : ℕ) (kind : CopyKind) → IsSound s → s.latest ≤ now → limit ≤ 4096 →
        IsBatchFor (s.definition ∷ []) (unacked s session kind now limit) }
{}

/// After one more event, the state is again the replay of the history.
pub fn a_history_goes_on()
    ensures { (c e : CellState) (event : CellEvent) (reply : CellReply) → IsReplayed c → Made c event reply e → IsReplayed e }
{}

/// If the state is the replay of the history, each batch in it is what was not acknowledged at its place.
pub fn batches_are_kept()
    ensures { (c : CellState) → IsReplayed c → Kept c }
{}

/// The batch that settles in a sound cell is that of the session's latest copy in the whole history, also if slides have dropped
/// the events.
pub fn what_settles_is_the_latest()
    ensures { (c : CellState) (session : ℕ) (us : List Update) → IsSoundCell c → IsLatestBatch c session us → latest_batch session c.history ≡ Some us }
{}

/// An event keeps a table with its history sound if the history has room for it and its moment, if it has one, is below
/// 2^63. A new one is sound, and so is a sound one whose history begins anew, with its rows as they are, or, if no session is
/// open, with new numbers for them.
pub fn a_cell_stays_sound()
    ensures step { (c e : CellState) (event : CellEvent) (reply : CellReply) → IsTimely event → is_history_full c ≡ false →
        IsSoundCell c → Made c event reply e → IsSoundCell e }
    ensures new { (d : Definition) (size first : ℕ) (nopurge : Bool) → is_definition d ≡ true → 1 ≤ size → 1 ≤ first → first ≤ 2 ^ 32 →
        IsSoundCell (new_cell d size nopurge first) }
    ensures anew { (c : CellState) → IsSoundCell c → IsSoundCell (begun_anew c) }
    ensures renumbered { (c : CellState) → IsSoundCell c → c.state.sessions ≡ [] → IsSoundCell (begun_anew (renewed c)) }
{}

/// After each beginning of its history, a sound table with its history was a sound table, and the updates of each batch
/// that it keeps ascend in number.
pub fn a_sound_cell_was_always_sound()
    ensures states { (c : CellState) (count : ℕ) → IsSoundCell c → (mid : TableState) × Replays c.base (take count c.history) mid × IsSound mid }
    ensures batches { (c : CellState) (index session limit now : ℕ) (kind : CopyKind) (us : List Update) → IsSoundCell c →
        slice_get c.history index ≡ Some (events.Copy session kind limit now, replies.Copy us) → AreAscending us }
{}
