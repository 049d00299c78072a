//! Laws of worlds, whatever the program does.

ghost use Rattle.std.specs.Prelude.{◌≡◌, ◌++◌, [], ℕ, List, None, Some};
ghost use Rattle.std.specs.List.{AllByRecursion};
ghost use Rattle.table_types.specs.declared.version.Version.{Version};
ghost use Rattle.table_types.specs.Rosters.{roster_fault};
ghost use Rattle.table_cell.specs.declared.events.CellEvent.TheVariants as events;
ghost use Rattle.table_cell.specs.declared.events.CellReply.{CellReply};
ghost use Rattle.table_cell.specs.Machine.{no_progress, progress_of};
ghost use Rattle.table_cell.specs.Histories.{CellState, Made};
ghost use Rattle.table_cell.specs.Handing.{handed_since};
ghost use Rattle.interleave_core.specs.declared.step.Step.{Step};
ghost use Rattle.interleave_core.specs.Core.{IsCore};
ghost use Rattle.interleave_core.specs.Moves.{Moves, RunsTo};
ghost use Rattle.interleave_core.specs.SoundWorlds.{IsSoundWorld, IsTimelyStep};
ghost use Rattle.interleave_core.specs.Ties.{AreSoundTables, IsJustOpened};
ghost use Rattle.interleave_core.specs.Worlds.{ConnectionState, WorldState, cell_at, connection_at, new_connection, roster_of};

/// A world is sound if its tables make a roster, are sound and keep up, and if every connection is new and its session was just
/// opened in each table. Each step keeps a world sound if its moment for a table or a learner, if it has one, is below 2^63. So
/// does a run of such steps, and each world between two of them is sound. An opening leaves a session with nothing acknowledged,
/// taught or handed out.
pub fn a_world_stays_sound()
    ensures new { (w : WorldState) → roster_fault (roster_of w.cells) ≡ None → AreSoundTables w.cells →
        ((session : ℕ) (s : ConnectionState) → connection_at session w.connections ≡ Some s → (version : Version) × (s ≡ new_connection version (roster_of w.cells))) →
        ((session table : ℕ) (s : ConnectionState) (c : CellState) → connection_at session w.connections ≡ Some s → cell_at table w.cells ≡ Some c →
        IsJustOpened session c) →
        IsSoundWorld w }
    ensures step { (w e : WorldState) (step : Step) → IsTimelyStep step → IsSoundWorld w → Moves w step e → IsSoundWorld e }
    ensures run { (w e : WorldState) (steps : List Step) → AllByRecursion IsTimelyStep steps → IsSoundWorld w → RunsTo w steps e → IsSoundWorld e }
    ensures between { (w e : WorldState) (before after : List Step) → AllByRecursion IsTimelyStep before → IsSoundWorld w → RunsTo w (before ++ after) e →
        (mid : WorldState) × RunsTo w before mid × RunsTo mid after e × IsSoundWorld mid }
    ensures opened { (session : ℕ) (version : Version) (c e : CellState) (reply : CellReply) → Made c (events.Open session version) reply e →
        (progress_of session e.state ≡ Some (no_progress version c.state.next)) × (handed_since session e.history ≡ []) }
{}

/// A sound world keeps what is promised of its sessions: a learner that is fed all that is on its way ends as its teacher knows
/// it, what counts as acknowledged was put, and each row that was taught and acknowledged stands at the learner.
pub fn a_sound_world_tells()
    ensures { (w : WorldState) → IsSoundWorld w → IsCore w }
{}
