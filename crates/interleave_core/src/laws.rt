//! What holds of the definitions, whatever the program does.

ghost use Rattle.std.specs.Prelude.{◌≡◌, ◌≢◌, ◌≤◌, ◌∷◌, ◌++◌, [], ℕ, List, Result, Ok, Err, None, drop, length, take};
ghost use Rattle.std.specs.List.{AllByRecursion};
ghost use Rattle.peers_msg.specs.Integers.{IsBytes};
ghost use Rattle.table_types.specs.declared.update.Update.{Update};
ghost use Rattle.table_types.specs.declared.version.Version.{Version};
ghost use Rattle.table_types.specs.Batches.{IsBatchFor};
ghost use Rattle.table_types.specs.Rosters.{roster_fault};
ghost use Rattle.table_types.specs.Tables.{Definition};
ghost use Rattle.known_state.specs.Known.{KnownState};
ghost use Rattle.known_state.specs.Lessons.{IsLessonFor};
ghost use Rattle.learner.specs.declared.fault.Fault.{Fault};
ghost use Rattle.learner.specs.declared.fault.Fault.TheVariants as faults;
ghost use Rattle.learner.specs.Learning.{Learning, LearnerFeeds};
ghost use Rattle.learner.specs.Rows.{put_all};
ghost use Rattle.table_cell.specs.Histories.{CellState};
ghost use Rattle.interleave_core.specs.declared.step.Step.{Step};
ghost use Rattle.interleave_core.specs.Kept.{IsOnTrack};
ghost use Rattle.interleave_core.specs.Moves.{IsFed, Moves, RunsTo, acknowledges};
ghost use Rattle.interleave_core.specs.Opened.{CanBegin, IsOpenWorld};
ghost use Rattle.interleave_core.specs.Worlds.{ConnectionState, WorldState, new_connection, new_world};

/// A connection stays on track: the bytes that its learner hasn't read and those on their way to it are a legal stream that
/// leads to the known state, and carries what was taught and not put yet. A new connection is on track, and it stays so when
/// a batch is copied, when a lesson of the oldest batch goes into the pipe, when the learner is fed any number of bytes of
/// the pipe, which raises no fault unless memory runs out, and when its acknowledgements go into the other pipe. So a learner
/// that is fed all that is on its way has put all that was taught, is in the known state, and has nothing unread.
pub fn a_connection_stays_on_track()
    ensures begun { (version : Version) (roster : List Definition) → roster_fault roster ≡ None → IsOnTrack roster (new_connection version roster) }
    ensures copied { (roster : List Definition) (s : ConnectionState) (batch : List Update) → IsOnTrack roster s → IsBatchFor roster batch →
        IsOnTrack roster (record s { copied = s.copied ++ batch ∷ [] }) }
    ensures taught { (roster : List Definition) (s : ConnectionState) (batch : List Update) (rest : List (List Update)) (bytes : List ℕ) (after : KnownState) →
        IsOnTrack roster s → s.copied ≡ batch ∷ rest → IsLessonFor s.known batch bytes after → IsBytes bytes →
        IsOnTrack roster (record s { known = after; copied = rest; taught = s.taught ++ batch; to_learner = s.to_learner ++ bytes }) }
    ensures delivered { (roster : List Definition) (s : ConnectionState) (now count : ℕ) (answer : Result ℕ Fault) (l : Learning) →
        IsOnTrack roster s → LearnerFeeds now s.learner (take count s.to_learner) answer l → answer ≢ Err faults.Memory →
        (e : ConnectionState) × (us : List Update) × (answer ≡ Ok (length us)) × (e.applied ≡ s.applied ++ us) × (e.learner ≡ l)
        × IsFed now (take count s.to_learner) (drop count s.to_learner) s e × IsOnTrack roster e }
    ensures acknowledged { (roster : List Definition) (s : ConnectionState) → IsOnTrack roster s → IsOnTrack roster (acknowledges s) }
    ensures arrived { (roster : List Definition) (s : ConnectionState) (now : ℕ) (answer : Result ℕ Fault) (l : Learning) →
        IsOnTrack roster s → LearnerFeeds now s.learner s.to_learner answer l → answer ≢ Err faults.Memory →
        (us : List Update) × (answer ≡ Ok (length us)) × (s.taught ≡ s.applied ++ us) × (l.rows ≡ put_all now roster us s.learner.rows)
        × (l.intake.state ≡ s.known.state) × (l.intake.unread ≡ []) }
{}

/// In a new world the session of each connection is open in each table. So it is after each step and after each run, since a
/// session that is closed is opened again.
pub fn sessions_stay_open()
    ensures new { (cells : List CellState) (versions : List Version) → length versions ≤ 16 → AllByRecursion (CanBegin (length versions)) cells → IsOpenWorld (new_world cells versions) }
    ensures step { (w e : WorldState) (step : Step) → IsOpenWorld w → Moves w step e → IsOpenWorld e }
    ensures run { (w e : WorldState) (steps : List Step) → IsOpenWorld w → RunsTo w steps e → IsOpenWorld e }
{}
