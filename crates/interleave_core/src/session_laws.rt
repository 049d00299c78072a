//! Laws on sessions that run: what they do to tables are steps of worlds.

ghost use Rattle.std.specs.Prelude.{◌≡◌, ◌≢◌, ◌≤◌, ◌∷◌, ◌++◌, ℕ, List, None, Result, Ok, Err, Some, option_and_then};
ghost use Rattle.std.specs.List.{AllByRecursion};
ghost use Rattle.table_types.specs.declared.copies.CopyKind.{CopyKind};
ghost use Rattle.table_types.specs.declared.copies.CopyKind.TheVariants as kinds;
ghost use Rattle.table_types.specs.declared.copies.Settled.{Settled};
ghost use Rattle.table_types.specs.declared.update.Update.{Update};
ghost use Rattle.table_types.specs.declared.version.Version.{Version};
ghost use Rattle.known_state.specs.Known.{KnownState};
ghost use Rattle.teach_writer.specs.Lessons.{IsShortestLesson};
ghost use Rattle.table_cell.specs.declared.errors.CopyError.{CopyError};
ghost use Rattle.table_cell.specs.declared.errors.CopyError.TheVariants as uncopied;
ghost use Rattle.table_cell.specs.declared.errors.LearnError.{LearnError};
ghost use Rattle.table_cell.specs.declared.errors.LearnError.TheVariants as unlearned;
ghost use Rattle.table_cell.specs.declared.events.CellEvent.{CellEvent};
ghost use Rattle.table_cell.specs.declared.events.CellReply.{CellReply};
ghost use Rattle.table_cell.specs.declared.events.Reply.{Reply};
ghost use Rattle.table_cell.specs.Histories.{Acknowledges, CellState, Closes, Copies, IsSoundCell, Learns, Opens};
ghost use Rattle.table_cell.specs.Machine.{progress_of};
ghost use Rattle.interleave_core.specs.declared.step.Step.TheVariants as steps;
ghost use Rattle.interleave_core.specs.Bytes.{IsNamedInBytes, IsOfBytes};
ghost use Rattle.interleave_core.specs.Moves.{Moves, acked, closed, opened, with_batch};
ghost use Rattle.interleave_core.specs.Reopened.{AreAlike, AreMade, AreOthers};
ghost use Rattle.interleave_core.specs.Worlds.{ConnectionState, WorldState, cell_at, connection_at, with_cell, with_connection};

/// What a session that runs does to its tables are steps of a world: learning a row is Learn, copying a batch is Copy, unless it is
/// a standing resync, and the lesson of the oldest batch is Teach. What an acknowledgement does to its table is what it does in a delivery, and what
/// closing and opening the session do to a table is what Reopen and Break do to each.
pub fn what_a_session_does_are_steps()
    ensures learns { (w : WorldState) (c e : CellState) (s : ConnectionState) (session now : ℕ) (u : Update) (answer : Result Reply LearnError) →
        cell_at u.table w.cells ≡ Some c → connection_at session w.connections ≡ Some s → answer ≢ Err unlearned.Memory → Learns c session u now answer e →
        Moves w (steps.Learn session u now) (record w { cells = with_cell u.table e w.cells }) }
    ensures copies { (w : WorldState) (c e : CellState) (s : ConnectionState) (session table limit now : ℕ) (kind : CopyKind) (answer : Result (List Update) CopyError) →
        cell_at table w.cells ≡ Some c → connection_at session w.connections ≡ Some s → kind ≢ kinds.Standing → 1 ≤ limit → limit ≤ 4096 →
        answer ≢ Err uncopied.Memory → Copies c session kind limit now answer e →
        Moves w (steps.Copy session table kind limit now)
        (record { cells = with_cell table e w.cells; connections = with_connection session (record s { copied = with_batch s.copied answer }) w.connections }) }
    ensures teaches { (w : WorldState) (s : ConnectionState) (session : ℕ) (batch : List Update) (rest : List (List Update)) (bytes : List ℕ) (after : KnownState) →
        connection_at session w.connections ≡ Some s → s.copied ≡ batch ∷ rest → AllByRecursion IsNamedInBytes s.known.roster → AllByRecursion IsOfBytes batch →
        IsShortestLesson s.known batch bytes after → Moves w (steps.Teach session)
        (record w { connections = with_connection session (record s { known = after; copied = rest; taught = s.taught ++ batch; to_learner = s.to_learner ++ bytes }) w.connections }) }
    ensures acknowledges { (c e : CellState) (session number : ℕ) (settled : Settled) → Acknowledges c session number (Ok settled) e → acked session number c ≡ Some e }
    ensures reopens { (c mid e : CellState) (session : ℕ) (version : Version) → Closes c session (Ok tt) mid → Opens mid session version (Ok tt) e →
        option_and_then (opened session version) (closed session c) ≡ Some e }
{}

/// A session that runs closes and opens a table in two calls, and others may use the table in between. The first call does to the
/// table what a Reopen or a Break begins with, after which the session isn't open there, and the second what it ends with. Events in
/// between that aren't about the session, and leave room to open it again, could as well be made before the first call, with the
/// same replies: the session is then closed and opened at once, as a Reopen or a Break does, and the table ends alike.
pub fn a_session_may_be_opened_later()
    ensures closes { (c e : CellState) (session : ℕ) → Closes c session (Ok tt) e → (closed session c ≡ Some e) × (progress_of session e.state ≡ None) }
    ensures opens { (c e : CellState) (session : ℕ) (version : Version) → Opens c session version (Ok tt) e → opened session version c ≡ Some e }
    ensures between { (c mid far e : CellState) (session : ℕ) (version : Version) (others : List (CellEvent × CellReply)) → IsSoundCell c →
        Closes c session (Ok tt) mid → AreOthers session mid others far → Opens far session version (Ok tt) e →
        (before : CellState) × (after : CellState) × AreMade c others before × (option_and_then (opened session version) (closed session before) ≡ Some after) × AreAlike session after e }
{}
