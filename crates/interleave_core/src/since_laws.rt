//! Laws on what was copied for a session since its connection was new.

ghost use Rattle.std.specs.Prelude.{◌≡◌, ◌⊎◌, ℕ, List, Some};
ghost use Rattle.std.specs.List.{AllByRecursion};
ghost use Rattle.table_types.specs.declared.version.Version.{Version};
ghost use Rattle.table_cell.specs.Histories.{CellState};
ghost use Rattle.interleave_core.specs.declared.step.Step.{Step};
ghost use Rattle.interleave_core.specs.declared.step.Step.TheVariants as steps;
ghost use Rattle.interleave_core.specs.Moves.{Moves, RunsTo};
ghost use Rattle.interleave_core.specs.Since.{HasNewConnection, RowsAreCopiedSince};
ghost use Rattle.interleave_core.specs.SoundWorlds.{IsSoundWorld, IsTimelyStep};
ghost use Rattle.interleave_core.specs.Worlds.{ConnectionState, WorldState, connection_at, new_world};

/// A session's connection is new in a new world, and after a Break that is made. Whatever steps with moments below 2^63 are then
/// made, each row at its learner is what an update taught that a copy for the session had, and that copy is one of the events
/// that the table has had since the connection was new.
pub fn what_is_put_was_copied_since()
    ensures new { (cells : List CellState) (versions : List Version) (session : ℕ) (s : ConnectionState) → connection_at session (new_world cells versions).connections ≡ Some s →
        HasNewConnection session (new_world cells versions) }
    ensures broken { (w e : WorldState) (session : ℕ) → IsSoundWorld w → Moves w (steps.Break session) e → (e ≡ w) ⊎ HasNewConnection session e }
    ensures since { (begun w : WorldState) (session : ℕ) (made : List Step) → AllByRecursion IsTimelyStep made → IsSoundWorld begun → HasNewConnection session begun →
        RunsTo begun made w → RowsAreCopiedSince begun session w }
{}
