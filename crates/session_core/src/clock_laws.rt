//! Laws about what depends on the clock and about tables, which hold whatever the program does. What they say of ticks and of the pace is
//! about sessions that stay.

ghost use Rattle.std.specs.Prelude.{◌≡◌, ◌≢◌, ◌≤◌, ◌<◌, ◌+◌, ◌⊎◌, ◌&&◌, not, ℕ, Bool, true, false, ◌∷◌, ◌++◌, [], List, Some};
ghost use Rattle.std.specs.List.{list_any, list_all, AllByRecursion};
ghost use Rattle.table_types.specs.Tables.{Definition};
ghost use Rattle.table_types.specs.declared.version.Version.TheVariants as versions;
ghost use Rattle.known_state.specs.Known.{without_names};
ghost use Rattle.session_core.specs.declared.action.Action.{Action};
ghost use Rattle.session_core.specs.declared.event.Event.{Event};
ghost use Rattle.session_core.specs.declared.event.Event.TheVariants as events;
ghost use Rattle.session_core.specs.Phases as phases;
ghost use Rattle.session_core.specs.Shares.{is_out};
ghost use Rattle.session_core.specs.Actions.{is_heartbeat};
ghost use Rattle.session_core.specs.Courses.{Course};
ghost use Rattle.session_core.specs.Paces.{Pace, has_passed, heartbeat_time, silence_time, resync_time, is_rested, tables_to_leave, stores_names, may_lose_names};
ghost use Rattle.session_core.specs.Runs.{copies};
ghost use Rattle.session_core.specs.Standing.{is_open, is_reopen, shared};
ghost use Rattle.session_core.specs.Manners as manners;
ghost use Rattle.session_core.specs.Keeping.{KeptSession, Steps, is_staying, progress_in};
ghost use Rattle.session_core.specs.Happenings.{Begins, Happening, HasWork, IsIdle, IsSameButSent, IsSince, Lasts, SendsAt, Takes, acknowledges, beats, is_about, is_close, is_of_tick, is_quiet, leaves, reopened_in, sent_by, settles_all, was_acknowledged, was_left, without_ticks};

/// A tick closes exactly if nothing has been received for 10 s. Any other tick of an open session leaves exactly the tables
/// that the remote peer has never acknowledged and of which a batch, copied at least 2 s ago, is still out, and reopens the session in
/// each of them. A tick sends a heartbeat exactly if it doesn't close, and the session is open and has sent nothing for 3 s. All that a
/// tick may ask for is to close, to reopen tables, to send a heartbeat and to end a resync as partial. A plain session asks for nothing
/// at a tick, and stays as it is.
pub fn what_a_tick_gives()
    ensures closes { (s e : KeptSession) (p : Pace) (now : ℕ) (acts : List Action) → s.manner ≡ manners.Staying p → Steps s now events.Tick acts e →
        list_any is_close acts ≡ has_passed silence_time p.heard now }
    ensures leaves { (s e : KeptSession) (p : Pace) (c : Course) (now : ℕ) (acts : List Action) → s.manner ≡ manners.Staying p → Steps s now events.Tick acts e →
        has_passed silence_time p.heard now ≡ false → s.session.phase ≡ phases.Open c → reopened_in acts ≡ tables_to_leave now p.progress c.shares }
    ensures beats { (s e : KeptSession) (p : Pace) (now : ℕ) (acts : List Action) → s.manner ≡ manners.Staying p → Steps s now events.Tick acts e →
        list_any is_heartbeat acts ≡ (not (has_passed silence_time p.heard now) && (is_open s.session.phase && has_passed heartbeat_time p.sent now)) }
    ensures only { (s e : KeptSession) (now : ℕ) (acts : List Action) → Steps s now events.Tick acts e → list_all is_of_tick acts ≡ true }
    ensures plain { (s e : KeptSession) (now : ℕ) (acts : List Action) → s.manner ≡ manners.Plain → Steps s now events.Tick acts e → (acts ≡ []) × (e ≡ s) }
{}

/// A tick that leaves no table and doesn't close changes only the moment at which this node last sent bytes, and how many heartbeats
/// the session counted. It asks for a heartbeat if the session stays, is open and has sent nothing for 3 s, and otherwise for nothing. If all ticks of a run are such,
/// the run without them is still a run, of the same events with the same actions, and comes to the same session.
pub fn ticks_change_nothing_else()
    ensures tick { (s e : KeptSession) (now : ℕ) (acts : List Action) → Steps s now events.Tick acts e → list_any is_reopen acts ≡ false →
        list_any is_close acts ≡ false → IsSameButSent s e × (acts ≡ beats s.manner s.session.phase now) }
    ensures run { (s e : KeptSession) (steps : List Happening) → AllByRecursion IsIdle steps → Lasts s steps e →
        (end : KeptSession) × Lasts s (without_ticks steps) end × IsSameButSent e end }
{}

/// In every run from the beginning, an acknowledgement is passed on only if bytes brought it on this connection, then or
/// before: at an event that brought bytes, the same number of the same table was passed on. So an acknowledgement that is
/// inferred was received before.
pub fn acknowledgements_were_received()
    ensures { (roster : List Definition) (begun s e : KeptSession) (steps : List Happening) (one : Happening) (table number : ℕ) →
        Begins roster begun → Lasts begun steps s → Takes s one e → acknowledges table number one.acts ≡ true →
        was_acknowledged table number (steps ++ (one ∷ [])) ≡ true }
{}

/// A resync doesn't outlast its work: in every run from the beginning, a session that stays and teaches in a resync shares a table
/// that hasn't yet answered that it has nothing to teach. So the resync is over once the last of these tables has answered
/// so, or a tick has left it. No bytes take such an answer back. That a table ever answers so isn't said.
pub fn a_resync_has_work_left()
    ensures { (roster : List Definition) (begun s : KeptSession) (steps : List Happening) →
        Begins roster begun → Lasts begun steps s → is_staying s.manner ≡ true → HasWork s.session.phase }
{}

/// No name is lost with a table that the remote peer lacks. A turn of a session that stays copies no batch of a table that stores the
/// server's name while the batch of a table is out that writes such names too and that the remote peer has never acknowledged. Once a
/// tick has left tables, no slot is known to hold a name, so later lessons write each name before they read it.
pub fn no_name_is_lost()
    ensures alone { (s e : KeptSession) (c : Course) (now : ℕ) (acts : List Action) (table : ℕ) →
        s.session.phase ≡ phases.Open c → Steps s now events.Turn acts e → copies table acts ≡ true →
        (stores_names table (progress_in s.manner) && list_any (may_lose_names (progress_in s.manner)) c.shares) ≡ false }
    ensures forgotten { (s e : KeptSession) (now : ℕ) (acts : List Action) → Steps s now events.Tick acts e → list_any is_reopen acts ≡ true →
        e.session.known ≡ without_names s.session.known }
{}

/// Heartbeats keep their time. When bytes were last sent is the moment of the last step that sent some. After a tick none is
/// owed by a session that is open then. A tick sends one only 3 s after whatever was sent before, another heartbeat included,
/// if nothing in between happened at an earlier moment. And until d ms after such a tick, under the same premise, less than
/// 3 s and d ms have passed since bytes were last sent: so a session that ticks every d ms is never silent for longer.
pub fn heartbeats_keep_time()
    ensures sent { (s e : KeptSession) (p q : Pace) (one : Happening) → s.manner ≡ manners.Staying p → e.manner ≡ manners.Staying q →
        Takes s one e → q.sent ≡ sent_by one p.sent }
    ensures fresh { (s e : KeptSession) (q : Pace) (now : ℕ) (acts : List Action) → e.manner ≡ manners.Staying q → Steps s now events.Tick acts e →
        is_open e.session.phase ≡ true → has_passed heartbeat_time q.sent now ≡ false }
    ensures apart { (s t u e : KeptSession) (one : Happening) (steps : List Happening) (m n : ℕ) (acts : List Action) →
        Takes s one t → SendsAt m one → Lasts t steps u → AllByRecursion (IsSince m) steps → Steps u n events.Tick acts e →
        list_any is_heartbeat acts ≡ true → m + heartbeat_time ≤ n }
    ensures silence { (s t u : KeptSession) (q : Pace) (steps : List Happening) (m n d : ℕ) (acts : List Action) → u.manner ≡ manners.Staying q →
        Steps s m events.Tick acts t → is_open t.session.phase ≡ true → Lasts t steps u → AllByRecursion (IsSince m) steps → n ≤ m + d →
        n < q.sent + (heartbeat_time + d) }
{}

/// Resyncs begin a second apart in a session that stays. One begins only if none began within the last second. In every run from the
/// beginning, two turns that reopen tables are at least 1 s apart, if nothing between them happened before the first. A tick reopens the
/// tables that it leaves. Any other event that reopens tables is the one at which a session of version 2.0 opens (`opens`).
pub fn resyncs_begin_apart()
    ensures rested { (s e : KeptSession) (p q : Pace) (now : ℕ) (event : Event) (acts : List Action) → s.manner ≡ manners.Staying p →
        e.manner ≡ manners.Staying q → Steps s now event acts e → q.reopened ≢ p.reopened → is_rested p.reopened now ≡ true }
    ensures apart { (roster : List Definition) (begun s t u e : KeptSession) (before between : List Happening) (m n : ℕ) (acts given : List Action) →
        Begins roster begun → Lasts begun before s → Steps s m events.Turn acts t → list_any is_reopen acts ≡ true →
        Lasts t between u → AllByRecursion (IsSince m) between → Steps u n events.Turn given e → list_any is_reopen given ≡ true →
        m + resync_time ≤ n }
    ensures opens { (roster : List Definition) (begun s e : KeptSession) (steps : List Happening) (one : Happening) →
        Begins roster begun → Lasts begun steps s → is_staying s.manner ≡ true → Takes s one e → list_any is_reopen one.acts ≡ true →
        (one.event ≡ events.Turn) ⊎ ((one.event ≡ events.Tick) ⊎ ((is_open s.session.phase ≡ false) × (e.session.version ≡ Some versions.V20))) }
{}

/// A table that was left is left for good. In every run, once a tick has left a table, no later step copies from it, reopens
/// the session in it or passes on an acknowledgement of it. Rows of it that the remote peer teaches may still be learned.
pub fn a_left_table_stays_left()
    ensures { (s t e : KeptSession) (steps : List Happening) (one : Happening) (table : ℕ) → Lasts s steps t →
        was_left table steps ≡ true → Takes t one e → list_any (is_about table) one.acts ≡ false }
{}

/// Only free tables are asked for a batch, and only by a turn. In every run from the beginning, nothing is copied from a table
/// of which a batch is out nor, in a resync, from one that has answered, since it began, that it has nothing to teach.
pub fn only_free_tables_are_asked()
    ensures turn { (s e : KeptSession) (now : ℕ) (event : Event) (acts : List Action) (table : ℕ) → Steps s now event acts e →
        copies table acts ≡ true → event ≡ events.Turn }
    ensures out { (roster : List Definition) (begun s e : KeptSession) (steps : List Happening) (c : Course) (one : Happening) (table : ℕ) →
        Begins roster begun → Lasts begun steps s → s.session.phase ≡ phases.Open c → Takes s one e →
        copies table one.acts ≡ true → is_out table c.shares ≡ false }
    ensures quiet { (roster : List Definition) (begun s e : KeptSession) (steps : List Happening) (c : Course) (one : Happening) (table : ℕ) →
        Begins roster begun → Lasts begun steps s → s.session.phase ≡ phases.Open c → Takes s one e →
        copies table one.acts ≡ true → c.teaching ≡ true → is_quiet table c.shares ≡ false }
{}

/// A batch stays out until it is acknowledged. If a batch of a table is out, one still is after every step but three: one that
/// ends the session, a tick that leaves the table, and the table's answer that an acknowledgement covers the batch to its end.
pub fn a_batch_stays_out()
    ensures { (s e : KeptSession) (one : Happening) (table : ℕ) → Takes s one e → is_out table (shared s.session.phase) ≡ true →
        settles_all table one ≡ false → leaves table one ≡ false → is_open e.session.phase ≡ true →
        is_out table (shared e.session.phase) ≡ true }
{}
