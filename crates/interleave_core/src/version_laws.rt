//! Laws of the versions of sessions.

ghost use Rattle.std.specs.Prelude.{List, length};
ghost use Rattle.std.specs.List.{AllByRecursion};
ghost use Rattle.table_types.specs.declared.version.Version.{Version};
ghost use Rattle.table_cell.specs.Histories.{CellState};
ghost use Rattle.interleave_core.specs.declared.step.Step.{Step};
ghost use Rattle.interleave_core.specs.Moves.{Moves, RunsTo};
ghost use Rattle.interleave_core.specs.Opened.{CanBegin};
ghost use Rattle.interleave_core.specs.SoundWorlds.{IsTimelyStep};
ghost use Rattle.interleave_core.specs.Versions.{KeepVersions};
ghost use Rattle.interleave_core.specs.Worlds.{WorldState, new_world};

/// In a new world each session is open in each table with its version. It stays so at each step, and all that is taught in a session
/// of version 2.0 has no life, while all that is taught in one of 2.1 has one.
pub fn sessions_keep_to_their_versions()
    ensures new { (cells : List CellState) (versions : List Version) → AllByRecursion (CanBegin (length versions)) cells → KeepVersions (new_world cells versions) }
    ensures step { (w e : WorldState) (step : Step) → IsTimelyStep step → KeepVersions w → Moves w step e → KeepVersions e }
    ensures run { (w e : WorldState) (made : List Step) → AllByRecursion IsTimelyStep made → KeepVersions w → RunsTo w made e → KeepVersions e }
{}
