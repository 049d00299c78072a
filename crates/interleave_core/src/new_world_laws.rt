//! Laws of new worlds, whatever the program does.

ghost use Rattle.std.specs.Prelude.{◌≡◌, ◌≤◌, List, None, length};
ghost use Rattle.std.specs.List.{AllByRecursion};
ghost use Rattle.table_types.specs.declared.version.Version.{Version};
ghost use Rattle.table_types.specs.Rosters.{roster_fault};
ghost use Rattle.table_cell.specs.Histories.{CellState, IsSoundCell};
ghost use Rattle.interleave_core.specs.Opened.{CanBegin};
ghost use Rattle.interleave_core.specs.SoundWorlds.{IsSoundWorld};
ghost use Rattle.interleave_core.specs.Worlds.{new_world, roster_of};

/// A new world is sound if its tables make a roster and are sound, no session is open in them, and they have room to open
/// all sessions, of which there are at most 16.
pub fn a_new_world_is_sound()
    ensures { (cells : List CellState) (versions : List Version) → length versions ≤ 16 → roster_fault (roster_of cells) ≡ None → AllByRecursion IsSoundCell cells →
        AllByRecursion (CanBegin (length versions)) cells → IsSoundWorld (new_world cells versions) }
{}
