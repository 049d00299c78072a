//! Laws of sound worlds and of connections on track, whatever the program does.

ghost use Rattle.std.specs.Prelude.{◌≡◌, ℕ, false, List, None, Some, map};
ghost use Rattle.std.specs.List.{AllByRecursion};
ghost use Rattle.table_types.specs.declared.version.Version.{Version};
ghost use Rattle.table_types.specs.Rosters.{roster_fault};
ghost use Rattle.peers_msg.specs.Integers.{IsBytes};
ghost use Rattle.table_cell.specs.declared.progress.Progress.{Progress};
ghost use Rattle.table_cell.specs.Machine.{progress_of};
ghost use Rattle.table_cell.specs.Histories.{CellState};
ghost use Rattle.interleave_core.specs.declared.step.Step.{Step};
ghost use Rattle.interleave_core.specs.Kept.{AreOnTrack, is_copy};
ghost use Rattle.interleave_core.specs.Moves.{Moves};
ghost use Rattle.interleave_core.specs.SoundWorlds.{IsSoundWorld};
ghost use Rattle.interleave_core.specs.Worlds.{ConnectionState, WorldState, cell_at, connection_at, new_connection, roster_of};

/// Each connection of a sound world is on track, and its session is open in each table.
pub fn a_sound_world_is_on_track()
    ensures track { (w : WorldState) → IsSoundWorld w → AreOnTrack w }
    ensures opened { (w : WorldState) (session table : ℕ) (s : ConnectionState) (c : CellState) →
        IsSoundWorld w → connection_at session w.connections ≡ Some s → cell_at table w.cells ≡ Some c → (p : Progress) × (progress_of session c.state ≡ Some p) }
{}

/// A world of new connections is on track if its tables are a roster. A world on track stays so at each step that isn't a copy,
/// whether its tables are sound or not. What is on its way to its learners is bytes.
pub fn a_world_stays_on_track()
    ensures begun { (cells : List CellState) (versions : List Version) → roster_fault (roster_of cells) ≡ None →
        AreOnTrack (record { cells = cells; connections = map (λ version. new_connection version (roster_of cells)) versions }) }
    ensures not_a_copy { (w e : WorldState) (step : Step) → is_copy step ≡ false → AreOnTrack w → Moves w step e → AreOnTrack e }
    ensures bytes { (w : WorldState) → AreOnTrack w → AllByRecursion (λ s. IsBytes s.to_learner) w.connections }
{}
