//! Laws of the definitions, whatever the program does.

ghost use Rattle.std.specs.Prelude.{◌≡◌, ◌∷◌, ◌++◌, ◌⊎◌, [], ℕ, true, Err, List};
ghost use Rattle.session_core.specs.declared.action.Action.{Action};
ghost use Rattle.session_core.specs.declared.error.SessionError.{SessionError};
ghost use Rattle.session_core.specs.declared.error.SessionError.TheVariants as refusals;
ghost use Rattle.session_core.specs.Phases.{Phase};
ghost use Rattle.session_core.specs.Sessions.{Refuses, SessionState};
ghost use Rattle.table_types.specs.Tables.{Definition};
ghost use Rattle.session_core.specs.declared.event.Event.{Event};
ghost use Rattle.session_core.specs.Happenings.{Begins, Happening, Lasts, Walks};
ghost use Rattle.session_core.specs.Keeping.{KeptSession};
ghost use Rattle.session_core.specs.Hearing.{asked_in};
ghost use Rattle.table_types.specs.declared.copies.CopyKind.{CopyKind};
ghost use Rattle.table_types.specs.declared.update.Update.{Update};
ghost use Rattle.table_cell.specs.Histories.{CellState};
ghost use Rattle.table_cell.specs.declared.errors.CopyError.TheVariants as copy_errors;
ghost use Rattle.table_cell.specs.declared.errors.LearnError.TheVariants as learn_errors;
ghost use Rattle.table_shards.specs.Receipts.{SeatState};
ghost use Rattle.table_shards.specs.Rounds.{ShardsState};
ghost use Rattle.table_shards.specs.declared.errors.ShardError.TheVariants as errors;
ghost use Rattle.peers_engine.specs.declared.errors.EngineError.{EngineError};
ghost use Rattle.peers_engine.specs.Acting.{Acts, EndsAlike, IsRefused, Worker, stands};
ghost use Rattle.peers_engine.specs.Calls.{CallsCopyOn, CallsLearnOn, moment_at};
ghost use Rattle.peers_engine.specs.Doing.{IsStrange, IsUnasked, KeepsRefusal};
ghost use Rattle.peers_engine.specs.Turns.{Halts, HasNothingDue, Idles, Moves, Reacts, Turns, is_own};

/// A session that stays is never late: no table refuses to learn a row or to copy a batch with `MomentBack`, since the call comes at
/// the turn's moment, or at the table's latest one if that is later. So `Strange` of such a session never has that cause.
pub fn no_late_call_comes_too_early()
    ensures learn { (c : CellState) (n now : ℕ) (s t : SeatState) (u : Update) →
        CallsLearnOn c n (moment_at true now c) s u (Err (errors.Cell learn_errors.MomentBack)) t → ⊥ }
    ensures copy { (c : CellState) (n now : ℕ) (s t : SeatState) (table : ℕ) (kind : CopyKind) →
        CallsCopyOn c n (moment_at true now c) s table kind (Err (errors.Cell copy_errors.MomentBack)) t → ⊥ }
{}

/// If an action is `Strange`, the seat has one more answer, which is that the action's table refuses what the action asks for in this
/// session; unless no table is to be asked: the action's table is missing, or the batch of a lesson isn't one for the session's tables or
/// has no update. So whoever asks no table, and leaves the seat as it was, ends with `Strange` only for these causes.
pub fn what_is_strange_was_refused()
    ensures kept { (shards : ShardsState) (at : CellState → ℕ) (n : ℕ) (x : SessionState) (s t : SeatState) (act : Action) →
        IsStrange shards at n x s act t → IsUnasked shards x act ⊎ KeepsRefusal at n x s act t }
    ensures changed { (shards : ShardsState) (at : CellState → ℕ) (n : ℕ) (x : SessionState) (s : SeatState) (act : Action) →
        IsStrange shards at n x s act s → IsUnasked shards x act }
{}

/// All that a turn, or an event of this node's own, does to a worker's session is a run of the session. So each law about runs holds of a
/// session with which a worker works, whether or not it requested a resync.
pub fn what_a_worker_does_happens()
    ensures turn { (s e : KeptSession) (now : ℕ) → Turns now s e → (steps : List Happening) × Lasts s steps e }
    ensures event { (s e : KeptSession) (now : ℕ) (event : Event) → Moves now event s e → (steps : List Happening) × Lasts s steps e }
{}

/// What is written, and done to the tables, is what a run of the session asked for, in order: the run in which the session receives the
/// event and then the answers to its actions. So a law about the actions of runs is one about what a worker writes. If an error comes, this
/// holds up to it, unless the session refused the event.
pub fn what_is_written_is_the_run()
    ensures reacts { (w e : Worker) (event : Event) (out : List ℕ) → Reacts w event out e →
        (acts : List Action) × (answers : List (Event × List Action)) × (mid : KeptSession)
        × Walks w.now w.session ((event, acts) ∷ answers) e.session × Acts (stands w mid w.seat) (acts ++ asked_in answers) answers out e }
    ensures idles { (w e : Worker) (event : Event) → Idles w event e →
        (acts : List Action) × (answers : List (Event × List Action)) × (mid : KeptSession)
        × Walks w.now w.session ((event, acts) ∷ answers) e.session × Acts (stands w mid w.seat) acts answers [] e }
    ensures halts { (shards : ShardsState) (w : Worker) (event : Event) (error : EngineError) (out : List ℕ) (e : KeptSession) (seat : SeatState) →
        Halts shards w event error out e seat →
        IsRefused w.session.session event error
        ⊎ ((acts before rest : List Action) × (answers : List (Event × List Action)) × (first last : List ℕ) × (mid : KeptSession) × (at : Worker)
        × Walks w.now w.session ((event, acts) ∷ answers) at.session × Acts (stands w mid w.seat) before answers first at
        × (acts ++ asked_in answers ≡ before ++ rest) × (out ≡ first ++ last) × EndsAlike at.session e) }
{}

/// Nothing is due between turns. No answer is due in a new session, nor after an event of a turn, or one of this node's own, before
/// which none was, once all that it asked for is done without an error. So a session refuses no turn, tick or request for a resync between
/// turns, and no word that this node is up to date, as one for which it didn't ask: it refuses them only once it is over, or for want of
/// memory.
pub fn nothing_is_due_between_turns()
    ensures begins { (roster : List Definition) (s : KeptSession) → Begins roster s → HasNothingDue s.session.phase }
    ensures reacts { (w e : Worker) (event : Event) (out : List ℕ) → HasNothingDue w.session.session.phase → Reacts w event out e →
        HasNothingDue e.session.session.phase }
    ensures idles { (w e : Worker) (event : Event) → HasNothingDue w.session.session.phase → Idles w event e → HasNothingDue e.session.session.phase }
    ensures refused { (phase : Phase) (event : Event) (error : SessionError) → HasNothingDue phase → is_own event ≡ true →
        Refuses phase event error → (error ≡ refusals.Ended) ⊎ (error ≡ refusals.Memory) }
{}
