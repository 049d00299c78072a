//! Laws of the definitions, which hold whatever the program does. A run is what happens to a session of either manner, in order.

ghost use Rattle.std.specs.Prelude.{◌≡◌, ◌⊎◌, ℕ, Bool, None, ◌∷◌, ◌++◌, [], true, false, List};
ghost use Rattle.std.specs.List.{AllByRecursion, list_any};
ghost use Rattle.table_types.specs.Tables.{Definition};
ghost use Rattle.table_types.specs.declared.copies.CopyKind.TheVariants as kinds;
ghost use Rattle.peers_msg.specs.Integers.{IsBytes};
ghost use Rattle.peers_msg.specs.Decoding.{together};
ghost use Rattle.peers_hello.specs.declared.hello.Hello.{Hello};
ghost use Rattle.peers_hello.specs.Hellos.{answer_of};
ghost use Rattle.peers_hello.specs.Meetings.{by_answer, by_status};
ghost use Rattle.peers_hello.specs.Statuses.{status_of};
ghost use Rattle.session_core.specs.declared.action.Action.{Action};
ghost use Rattle.session_core.specs.declared.event.Event.{Event};
ghost use Rattle.session_core.specs.declared.event.Event.TheVariants as events;
ghost use Rattle.session_core.specs.declared.phase.Greeter.{Greeter};
ghost use Rattle.session_core.specs.declared.heard.Heard.{Heard};
ghost use Rattle.session_core.specs.Phases.{Phase};
ghost use Rattle.session_core.specs.Phases as phases;
ghost use Rattle.session_core.specs.HeardCounts.{CountsEvent};
ghost use Rattle.session_core.specs.Courses.{Course, kind_of};
ghost use Rattle.session_core.specs.Cutting.{AreFed, IsFedOut, without_acks};
ghost use Rattle.session_core.specs.Hearing.{Hears, asked_in, heard_in, told};
ghost use Rattle.session_core.specs.Standing.{is_open, is_reopen};
ghost use Rattle.session_core.specs.Manners as manners;
ghost use Rattle.session_core.specs.Keeping.{KeptSession, Steps, is_staying};
ghost use Rattle.session_core.specs.Happenings.{Begins, BeginsAs, Happening, HearsBytes, Lasts, Takes, handed, is_finish, leaves_any, was_left};
ghost use Rattle.session_core.specs.Sessions.{accepting, connecting, is_asked};
ghost use Rattle.session_core.specs.Runs.{ends_resync, falls_back_in, HasNothingLeft, HasNothingOut, HoldsBytes, BringsBytes, version_in, was_confirmed};

/// A resync ends only once everything is taught. In every run from the beginning, when resync finished or resync partial is sent, no
/// batch is out any more, but of a table that a tick has left. Each table of the roster was left by a tick, or its last copy belonged to
/// that resync and found nothing to teach, since when it was neither copied from nor reopened. Resync finished is sent only if no tick has
/// left any table. No tick leaves a table of a plain session, so there each table was copied so (`plain`), and no batch was out
/// before either (`before`).
pub fn resyncs_end_taught()
    ensures out { (roster : List Definition) (begun s e : KeptSession) (steps : List Happening) (one : Happening) →
        Begins roster begun → Lasts begun steps s → Takes s one e → ends_resync one.acts ≡ true → HasNothingOut e.session }
    ensures left { (roster : List Definition) (begun s e : KeptSession) (steps : List Happening) (one : Happening) →
        Begins roster begun → Lasts begun steps s → Takes s one e → ends_resync one.acts ≡ true →
        AllByRecursion (λ d. (was_left d.id (steps ++ (one ∷ [])) ≡ true) ⊎ HasNothingLeft (kind_of (is_staying s.manner) true) (handed (steps ++ (one ∷ []))) d.id) roster }
    ensures finished { (roster : List Definition) (begun s e : KeptSession) (steps : List Happening) (one : Happening) →
        Begins roster begun → Lasts begun steps s → Takes s one e → list_any is_finish one.acts ≡ true →
        list_any leaves_any (steps ++ (one ∷ [])) ≡ false }
    ensures before { (roster : List Definition) (begun s e : KeptSession) (steps : List Happening) (one : Happening) →
        s.manner ≡ manners.Plain → Begins roster begun → Lasts begun steps s → Takes s one e → ends_resync one.acts ≡ true → HasNothingOut s.session }
    ensures plain { (roster : List Definition) (begun s e : KeptSession) (steps : List Happening) (one : Happening) →
        s.manner ≡ manners.Plain → Begins roster begun → Lasts begun steps s → Takes s one e → ends_resync one.acts ≡ true →
        AllByRecursion (λ d. HasNothingLeft kinds.Resync (handed (steps ++ (one ∷ []))) d.id) roster }
{}

/// An event that may not happen makes no step.
pub fn unasked_is_no_step()
    ensures { (s e : KeptSession) (now : ℕ) (event : Event) (acts : List Action) → Steps s now event acts e → is_asked s.session.phase event ≡ true }
{}

/// The hello decides once and for all which version a session speaks, and whether it falls back. In every run from the beginning, the
/// version is that of the hello, once the bytes received complete it, or the status that answers it, and it isn't refused; and
/// `None` before, and if it is refused. A session falls back exactly if its own hello said version 2.1 and they complete status 502.
pub fn the_hello_decides()
    ensures connects { (hello : Hello) (roster : List Definition) (up_to_date : Bool) (begun s : KeptSession) (steps : List Happening) →
        BeginsAs (connecting hello roster up_to_date) begun → Lasts begun steps s →
        (s.session.version ≡ version_in (by_status hello.version (status_of (heard_in (handed steps))) (heard_in (handed steps))))
        × (s.session.fell_back ≡ falls_back_in hello.version (by_status hello.version (status_of (heard_in (handed steps))) (heard_in (handed steps)))) }
    ensures accepts { (own : List ℕ) (peers : List (List ℕ)) (roster : List Definition) (up_to_date : Bool) (begun s : KeptSession) (steps : List Happening) →
        BeginsAs (accepting own peers roster up_to_date) begun → Lasts begun steps s →
        (s.session.version ≡ version_in (by_answer (answer_of own peers (heard_in (handed steps))) (heard_in (handed steps)))) × (s.session.fell_back ≡ false) }
{}

/// A session says that it confirmed a resync exactly if it asked to send resync confirmed somewhere in its run.
pub fn confirmed_is_sent()
    ensures { (roster : List Definition) (begun s : KeptSession) (steps : List Happening) →
        Begins roster begun → Lasts begun steps s → s.session.confirmed ≡ was_confirmed (handed steps) }
{}

/// In every run from the beginning, a session that has a fault is over.
pub fn a_fault_ends_the_session()
    ensures { (roster : List Definition) (begun s : KeptSession) (steps : List Happening) →
        Begins roster begun → Lasts begun steps s → (s.session.phase ≡ phases.Ended) ⊎ (s.session.fault ≡ None) }
{}

/// A step is unique: the event, its moment and the session before it determine the actions and the session after it. To a plain
/// session the moment makes no difference.
pub fn a_step_is_unique()
    ensures same { (s e end : KeptSession) (now : ℕ) (event : Event) (acts others : List Action) →
        Steps s now event acts e → Steps s now event others end → (acts ≡ others) × (e ≡ end) }
    ensures whenever { (s e : KeptSession) (m n : ℕ) (event : Event) (acts : List Action) →
        s.manner ≡ manners.Plain → Steps s m event acts e → Steps s n event acts e }
{}

/// What is counted at an event is unique: the event, the phase before it and the counts before it determine the counts after it.
pub fn what_is_counted_is_unique()
    ensures { (event : Event) (phase : Phase) (n m k : Heard) → CountsEvent event phase n m → CountsEvent event phase n k → m ≡ k }
{}

/// Every event that may happen has a step at any moment, which gives the actions and the session after it. `run` says so of every run
/// from the beginning in which only bytes are received, and `step` of every session that holds only bytes, which `kept`
/// says each step preserves. A tick that may happen has a step in every session (`tick`).
pub fn a_step_exists()
    ensures run { (roster : List Definition) (begun s : KeptSession) (steps : List Happening) (now : ℕ) (event : Event) →
        Begins roster begun → Lasts begun steps s → AllByRecursion HearsBytes steps → BringsBytes event →
        is_asked s.session.phase event ≡ true → (acts : List Action) × (e : KeptSession) × Steps s now event acts e }
    ensures step { (s : KeptSession) (now : ℕ) (event : Event) → HoldsBytes s.session.phase → BringsBytes event →
        is_asked s.session.phase event ≡ true → (acts : List Action) × (e : KeptSession) × Steps s now event acts e }
    ensures tick { (s : KeptSession) (now : ℕ) → is_asked s.session.phase events.Tick ≡ true → (acts : List Action) × (e : KeptSession) × Steps s now events.Tick acts e }
    ensures kept { (s e : KeptSession) (now : ℕ) (event : Event) (acts : List Action) → HoldsBytes s.session.phase → BringsBytes event →
        Steps s now event acts e → HoldsBytes e.session.phase }
{}

/// However the bytes of an open session are cut into events that follow one another directly, their messages ask for
/// the same: the same rows to learn, the same acknowledgements to pass on, the same reopenings and confirmations, in the
/// same order, and the same end if a message or a fault ends the session. The session is then the same too, and what it counts of
/// the control messages and of what was passed over, but for the pace of one that stays and the counts of what it asked for. This holds
/// of two ways to cut a stream that each feed all of it or end the session. Only what this session sends to acknowledge
/// rows depends on the cut, since it sends that once for each event.
pub fn any_events()
    ensures { (s e end : KeptSession) (c : Course) (first piece more rest : List ℕ) (pieces others : List (List ℕ)) (acts given : List Action) →
        s.session.phase ≡ phases.Open c → HoldsBytes s.session.phase → IsBytes (together (first ∷ pieces) ++ more) →
        together (first ∷ pieces) ++ more ≡ together (piece ∷ others) ++ rest →
        AreFed s (first ∷ pieces) acts e → AreFed s (piece ∷ others) given end → IsFedOut more e.session → IsFedOut rest end.session →
        (without_acks acts ≡ without_acks given) × (e.session ≡ end.session) × (e.heard ≡ end.heard) }
{}

/// However the bytes of an open session are cut into events, at whatever moments, and wherever the answers of its tables come in between,
/// the session asks its caller for the same (`told`): the same rows to learn, the same acknowledgements to pass on but for late
/// ones, the same confirmations and the same end, in the same order. An acknowledgement is late if an earlier one of its table
/// settles the batch that is out: the session passes it on only if it comes before the table's answer to that one. Once the
/// tables have answered all acknowledgements, or the session is over, the session is the same (`same`), with the same resync
/// under way or waiting. What it counts of the control messages and of what was passed over is the same (`heard`). If the tables have
/// answered all of them and the session is still open, it asked to reopen tables in both runs or in neither (`reopened`). How often it
/// asks for that, and before which row, depends on the cut: a request waits while a batch is out. In both runs the same numbers settle
/// a batch, no table refuses a number, but of a session that stays one that settles nothing and isn't ahead, and all of the bytes
/// are heard or the session ends. The pace of a session that stays needn't be the same: it has the moments, and for each table the last
/// number that the remote peer acknowledged, late or not.
pub fn any_answers()
    ensures told { (settles : ℕ → ℕ → Bool) (s e end : KeptSession) (c : Course) (one other : Happening) (steps others : List Happening) (more rest : List ℕ) (left over : List (ℕ × ℕ)) →
        s.session.phase ≡ phases.Open c → HoldsBytes s.session.phase → IsBytes (heard_in (handed (one ∷ steps)) ++ more) →
        heard_in (handed (one ∷ steps)) ++ more ≡ heard_in (handed (other ∷ others)) ++ rest →
        Hears settles s [] (one ∷ steps) e left → Hears settles s [] (other ∷ others) end over → IsFedOut more e.session → IsFedOut rest end.session →
        told settles (handed (one ∷ steps)) ≡ told settles (handed (other ∷ others)) }
    ensures same { (settles : ℕ → ℕ → Bool) (s e end : KeptSession) (c : Course) (one other : Happening) (steps others : List Happening) (more rest : List ℕ) (left over : List (ℕ × ℕ)) →
        s.session.phase ≡ phases.Open c → HoldsBytes s.session.phase → IsBytes (heard_in (handed (one ∷ steps)) ++ more) →
        heard_in (handed (one ∷ steps)) ++ more ≡ heard_in (handed (other ∷ others)) ++ rest →
        Hears settles s [] (one ∷ steps) e left → Hears settles s [] (other ∷ others) end over → IsFedOut more e.session → IsFedOut rest end.session →
        (left ≡ []) ⊎ (e.session.phase ≡ phases.Ended) → (over ≡ []) ⊎ (end.session.phase ≡ phases.Ended) → e.session ≡ end.session }
    ensures heard { (settles : ℕ → ℕ → Bool) (s e end : KeptSession) (c : Course) (one other : Happening) (steps others : List Happening) (more rest : List ℕ) (left over : List (ℕ × ℕ)) →
        s.session.phase ≡ phases.Open c → HoldsBytes s.session.phase → IsBytes (heard_in (handed (one ∷ steps)) ++ more) →
        heard_in (handed (one ∷ steps)) ++ more ≡ heard_in (handed (other ∷ others)) ++ rest →
        Hears settles s [] (one ∷ steps) e left → Hears settles s [] (other ∷ others) end over → IsFedOut more e.session → IsFedOut rest end.session →
        e.heard ≡ end.heard }
    ensures reopened { (settles : ℕ → ℕ → Bool) (s e end : KeptSession) (c : Course) (one other : Happening) (steps others : List Happening) (more rest : List ℕ) (left over : List (ℕ × ℕ)) →
        s.session.phase ≡ phases.Open c → HoldsBytes s.session.phase → IsBytes (heard_in (handed (one ∷ steps)) ++ more) →
        heard_in (handed (one ∷ steps)) ++ more ≡ heard_in (handed (other ∷ others)) ++ rest →
        Hears settles s [] (one ∷ steps) e left → Hears settles s [] (other ∷ others) end over → IsFedOut more e.session → IsFedOut rest end.session →
        left ≡ [] → over ≡ [] → is_open e.session.phase ≡ true →
        list_any is_reopen (asked_in (handed (one ∷ steps))) ≡ list_any is_reopen (asked_in (handed (other ∷ others))) }
{}

/// `any_answers` holds from the first byte on. However the bytes of a session in Hello are cut into events, the rest of the
/// hello or of the status and the messages after it, the session asks its caller for the same. Once the tables have answered
/// all acknowledgements, or the session is over, the session is the same. What it counts of the control messages and of what was passed
/// over is the same (`heard`). If the tables have answered all of them and it is open, it asked to reopen tables in both runs or in
/// neither.
pub fn any_greeting()
    ensures told { (settles : ℕ → ℕ → Bool) (roster : List Definition) (begun s e end : KeptSession) (before : List Happening) (greeter : Greeter) (bytes : List ℕ) (c : Course) (one other : Happening) (steps others : List Happening) (more rest : List ℕ) (left over : List (ℕ × ℕ)) →
        Begins roster begun → Lasts begun before s → s.session.phase ≡ phases.Hello greeter bytes c → HoldsBytes s.session.phase →
        IsBytes (heard_in (handed (one ∷ steps)) ++ more) → heard_in (handed (one ∷ steps)) ++ more ≡ heard_in (handed (other ∷ others)) ++ rest →
        Hears settles s [] (one ∷ steps) e left → Hears settles s [] (other ∷ others) end over → IsFedOut more e.session → IsFedOut rest end.session →
        told settles (handed (one ∷ steps)) ≡ told settles (handed (other ∷ others)) }
    ensures same { (settles : ℕ → ℕ → Bool) (roster : List Definition) (begun s e end : KeptSession) (before : List Happening) (greeter : Greeter) (bytes : List ℕ) (c : Course) (one other : Happening) (steps others : List Happening) (more rest : List ℕ) (left over : List (ℕ × ℕ)) →
        Begins roster begun → Lasts begun before s → s.session.phase ≡ phases.Hello greeter bytes c → HoldsBytes s.session.phase →
        IsBytes (heard_in (handed (one ∷ steps)) ++ more) → heard_in (handed (one ∷ steps)) ++ more ≡ heard_in (handed (other ∷ others)) ++ rest →
        Hears settles s [] (one ∷ steps) e left → Hears settles s [] (other ∷ others) end over → IsFedOut more e.session → IsFedOut rest end.session →
        (left ≡ []) ⊎ (e.session.phase ≡ phases.Ended) → (over ≡ []) ⊎ (end.session.phase ≡ phases.Ended) → e.session ≡ end.session }
    ensures heard { (settles : ℕ → ℕ → Bool) (s e end : KeptSession) (greeter : Greeter) (bytes : List ℕ) (c : Course) (one other : Happening) (steps others : List Happening) (more rest : List ℕ) (left over : List (ℕ × ℕ)) →
        s.session.phase ≡ phases.Hello greeter bytes c → HoldsBytes s.session.phase →
        IsBytes (heard_in (handed (one ∷ steps)) ++ more) → heard_in (handed (one ∷ steps)) ++ more ≡ heard_in (handed (other ∷ others)) ++ rest →
        Hears settles s [] (one ∷ steps) e left → Hears settles s [] (other ∷ others) end over → IsFedOut more e.session → IsFedOut rest end.session →
        e.heard ≡ end.heard }
    ensures reopened { (settles : ℕ → ℕ → Bool) (roster : List Definition) (begun s e end : KeptSession) (before : List Happening) (greeter : Greeter) (bytes : List ℕ) (c : Course) (one other : Happening) (steps others : List Happening) (more rest : List ℕ) (left over : List (ℕ × ℕ)) →
        Begins roster begun → Lasts begun before s → s.session.phase ≡ phases.Hello greeter bytes c → HoldsBytes s.session.phase →
        IsBytes (heard_in (handed (one ∷ steps)) ++ more) → heard_in (handed (one ∷ steps)) ++ more ≡ heard_in (handed (other ∷ others)) ++ rest →
        Hears settles s [] (one ∷ steps) e left → Hears settles s [] (other ∷ others) end over → IsFedOut more e.session → IsFedOut rest end.session →
        left ≡ [] → over ≡ [] → is_open e.session.phase ≡ true →
        list_any is_reopen (asked_in (handed (one ∷ steps))) ≡ list_any is_reopen (asked_in (handed (other ∷ others))) }
{}
